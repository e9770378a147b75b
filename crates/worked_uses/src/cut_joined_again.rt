//! Frames that are cut and joined again.
use docsis_wire::{Bytes, FillByte, NoCheck, Piece};
use std::test::Fail;
use uses::cut_joined_again::cut_and_join;

#[test]
fn gives_back_the_frames_within_the_pieces(rt: HostRuntime) -> Result<(), Fail> {
    let alloc = rt.alloc();
    let plain = Vec::from_slice(alloc, &[0, 0, 0, 2, 0x11, 0x11, 0xaa, 0xbb])?;
    let extended = Vec::from_slice(alloc, &[1, 1, 0, 3, 0xe0, 0x22, 0x22, 0xcc, 0xdd])?;
    let mut frames = vec![in alloc; Bytes::from(plain)]?;
    frames.push(Bytes::from(extended))?;
    for (last, wanted) in [(5, 2), (4, 1), (0, 1)] {
        let pieces = [
            Piece { bytes: 5, fill: 0 },
            Piece { bytes: 7, fill: 0 },
            Piece {
                bytes: last,
                fill: 0,
            },
        ];
        let joined = cut_and_join(alloc, &frames, &pieces, 0, FillByte::Zero, &NoCheck)?;
        assert!(rt; joined.len() == wanted, "{last}");
        assert!(rt;
            joined
                .iter()
                .zip(&frames)
                .all(|(one, other)| one.as_slice() == other.as_slice()),
            "{last}"
        );
    }
    Ok(())
}

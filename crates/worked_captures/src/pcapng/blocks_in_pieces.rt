//! A file in pieces of every size, and each of its fronts.
use super::{are, fault_of, records_of, three_packets, wanted};
use capture::{PcapngFault, PcapngReader};
use std::test::Fail;

#[test]
fn three_packets_in_pieces_of_every_size(rt: HostRuntime) -> Result<(), Fail> {
    for size in 1..three_packets().len() {
        let mut reader = PcapngReader::new(rt.alloc());
        let mut records = Vec::new(rt.alloc());
        for piece in three_packets().chunks(size) {
            records_of(rt.alloc(), &mut reader, piece, &mut records)?;
        }
        assert!(rt; are(&records, wanted()), "in pieces of {size}");
        assert!(rt; reader.finish().is_ok());
    }
    Ok(())
}

/// Where the blocks of the file end.
fn ends() -> &'static [usize] {
    &[28, 48, 84, 100, 132, 180]
}

#[test]
fn files_that_end_inside(rt: HostRuntime) {
    let file = three_packets();
    for end in 0..=file.len() {
        let wanted = if ends().contains(&end) {
            None
        } else {
            Some(PcapngFault::EndsInside)
        };
        assert!(rt; fault_of(rt.alloc(), &file[..end]) == wanted, "at {end}");
    }
}

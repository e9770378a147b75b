//! Frames beside those that the analyser joined itself.
use crate::capture_samples::{
    are_frames_apart, frame, frame_with, frames_joined_twice, header, put_file, put_joined,
    put_named, put_numbered,
};
use crate::joined::InPieces;
use crate::one_map::{MAP_PATH, ONE_MAP};
use capture_command::capture_program;
use std::alloc::{AllocError, Global};
use std::test::Fail;

/// How much of standard error is kept.
const ERROR_ROOM: usize = 2048;

/// Where all frames are in both.
pub(crate) const EQUAL: &str = "\
comparison with the analyser's frames
  flow 0 (SFID 1): 3 in both, 0 only the analyser's, 0 only here
";
/// Where the analyser's second frame ends with another byte.
const OTHER_END: &str = "\
comparison with the analyser's frames
  flow 0 (SFID 1): 2 in both, 1 only the analyser's, 1 only here
  only the analyser's: flow 0, at 2.000000001, 8 bytes: 00000002ccdfaabc; its bursts aren't named
  only here: flow 0, at 3.000000001, 8 bytes: 00000002ccdfaabb
segrx: the frames differ from the analyser's
";
/// Where the analyser joined none.
const NONE_JOINED: &str = "\
comparison with the analyser's frames
  flow 0 (SFID 1): 0 in both, 0 only the analyser's, 3 only here
  only here: flow 0, at 1.000000001, 8 bytes: 00000002ccdfaabb
  only here: flow 0, at 2.000000001, 8 bytes: 00000002ccdfaabb
  only here: flow 0, at 3.000000001, 8 bytes: 00000002ccdfaabb
segrx: the frames differ from the analyser's
";

/// Where nothing is to be compared.
const LAST_OF_SUMMARY: &str = "records 3, earlier than the record before 0\n";
/// Where two frames more are of no flow of the map.
const STRANGERS: &str = "\
comparison with the analyser's frames
  flow 0 (SFID 1): 3 in both, 0 only the analyser's, 0 only here
  the analyser's of no flow of the map: 2
";
/// Where no frame is of a flow that was asked for.
const NONE_COMPARED: &str = "\
comparison with the analyser's frames
segrx: no frame was compared
";

/// Where all frames are only the analyser's, each for another reason.
const REASONS: &str = "\
comparison with the analyser's frames
  flow 0 (SFID 1): 0 in both, 6 only the analyser's, 1 only here
  only the analyser's: flow 0, at 1.000000001, 8 bytes: 00000002ccdfc000; \
burst 58 is of no channel of the map
  only the analyser's: flow 0, at 1.000000001, 8 bytes: 00000002ccdfc001; \
burst 59 was refused: bad_check
  only the analyser's: flow 0, at 1.000000001, 8 bytes: 00000002ccdfc002; \
burst 60 came late
  only the analyser's: flow 0, at 1.000000001, 8 bytes: 00000002ccdfc003; \
burst 61 never came
  only the analyser's: flow 0, at 1.000000001, 8 bytes: 00000002ccdfc004; \
its bursts were kept
  only the analyser's: flow 0, at 1.000000001, 8 bytes: 00000002ccdfc005; \
its bursts aren't named
  only here: flow 0, at 1.000000001, 8 bytes: 00000002ccdfaabb
segrx: the frames differ from the analyser's
";

/// What the command wrote, and its exit status.
#[derive(Drop)]
pub(crate) struct Compared {
    pub(crate) status: u8,
    frames: [u8; 96],
    said: [u8; ERROR_ROOM],
}

impl Compared {
    /// Whether it wrote all three frames.
    pub(crate) fn has_all_frames(&self) -> bool {
        are_frames_apart(&self.frames)
    }

    /// What it said on standard error.
    pub(crate) fn text(&self) -> &[u8] {
        let count = self.said.iter().take_while(|byte| **byte > 0).count();
        self.said.get(..count).unwrap_or_default()
    }
}

/// Compares the frames of a capture with those that the analyser joined itself.
pub(crate) fn compare(alloc: Global, bytes: &[u8], options: [&str; 2]) -> Compared {
    let mut compared = Compared {
        status: 0,
        frames: [0; 96],
        said: [0; ERROR_ROOM],
    };
    let [first, second] = options;
    let words = ["segrx", "capture", MAP_PATH, first, second];
    let reader = InPieces {
        rest: bytes,
        size: 50,
    };
    let (out, err) = (&mut compared.frames[..], &mut compared.said[..]);
    let status = capture_program(alloc, &ONE_MAP, &words, reader, out, err);
    compared.status = status;
    compared
}

/// What is asked for.
pub(crate) const COMPARES: [&str; 2] = ["--compare", "--link=docsis"];

#[test]
fn frames_in_both(rt: HostRuntime) -> Result<(), Fail> {
    let bytes = frames_joined_twice(rt.alloc(), [Some(frame()); 3])?;
    let compared = compare(rt.alloc(), &bytes, COMPARES);
    assert!(rt; compared.status == 0);
    assert!(rt; compared.has_all_frames());
    assert!(rt; compared.text().ends_with(EQUAL.as_bytes()));
    Ok(())
}

#[test]
fn frame_with_another_last_byte(rt: HostRuntime) -> Result<(), Fail> {
    let mut other = frame();
    other[7] = 0xbc;
    let joined = [Some(frame()), Some(other), Some(frame())];
    let bytes = frames_joined_twice(rt.alloc(), joined)?;
    let compared = compare(rt.alloc(), &bytes, COMPARES);
    assert!(rt; compared.status == 5);
    assert!(rt; compared.has_all_frames());
    assert!(rt; compared.text().ends_with(OTHER_END.as_bytes()));
    Ok(())
}

#[test]
fn analyser_that_joined_nothing(rt: HostRuntime) -> Result<(), Fail> {
    let bytes = frames_joined_twice(rt.alloc(), [None; 3])?;
    let compared = compare(rt.alloc(), &bytes, COMPARES);
    assert!(rt; compared.status == 5);
    assert!(rt; compared.has_all_frames());
    assert!(rt; compared.text().ends_with(NONE_JOINED.as_bytes()));
    Ok(())
}

#[test]
fn nothing_is_compared_unless_asked(rt: HostRuntime) -> Result<(), Fail> {
    let bytes = frames_joined_twice(rt.alloc(), [None; 3])?;
    let compared = compare(rt.alloc(), &bytes, ["--losses=slid", "--link=docsis"]);
    assert!(rt; compared.status == 0);
    assert!(rt; compared.has_all_frames());
    assert!(rt; compared.text().ends_with(LAST_OF_SUMMARY.as_bytes()));
    Ok(())
}

#[test]
fn frames_of_other_flows_are_not_compared(rt: HostRuntime) -> Result<(), Fail> {
    let bytes = frames_joined_twice(rt.alloc(), [None; 3])?;
    let compared = compare(rt.alloc(), &bytes, ["--compare", "--flows=1"]);
    assert!(rt; compared.status == 5);
    assert!(rt; compared.text().ends_with(NONE_COMPARED.as_bytes()));
    Ok(())
}

/// The map has no such service identifier.
#[test]
fn frames_of_no_flow_of_the_map(rt: HostRuntime) -> Result<(), Fail> {
    let mut bytes = frames_joined_twice(rt.alloc(), [Some(frame()); 3])?;
    put_joined(&mut bytes, 3, 8, &frame())?;
    put_joined(&mut bytes, 3, 8, &frame())?;
    let compared = compare(rt.alloc(), &bytes, COMPARES);
    assert!(rt; compared.status == 0);
    assert!(rt; compared.has_all_frames());
    assert!(rt; compared.text().ends_with(STRANGERS.as_bytes()));
    Ok(())
}

/// A capture of a burst that is kept, one of no channel of the map, one whose header is spoiled,
/// and one that comes again, and of frames that the analyser joined of such.
fn frames_of_bursts(alloc: Global) -> Result<Vec<u8>, AllocError> {
    let mut file = Vec::new(alloc);
    put_file(&mut file)?;
    let mut spoiled = header(1, true, 0);
    spoiled[7] ^= 1;
    put_numbered(&mut file, 100, 57, header(0, true, 0), &frame())?;
    put_numbered(&mut file, 102, 58, header(1, true, 0), &frame())?;
    put_numbered(&mut file, 100, 59, spoiled, &frame())?;
    put_numbered(&mut file, 100, 60, header(0, true, 0), &frame())?;
    put_named(&mut file, &[57, 58, 59], &frame_with(0xc0, 0))?;
    put_named(&mut file, &[59, 60], &frame_with(0xc0, 1))?;
    put_named(&mut file, &[57, 60], &frame_with(0xc0, 2))?;
    put_named(&mut file, &[57, 61], &frame_with(0xc0, 3))?;
    put_named(&mut file, &[57], &frame_with(0xc0, 4))?;
    put_named(&mut file, &[], &frame_with(0xc0, 5))?;
    Ok(file)
}

#[test]
fn frames_are_missing_for_reasons(rt: HostRuntime) -> Result<(), Fail> {
    let bytes = frames_of_bursts(rt.alloc())?;
    let compared = compare(rt.alloc(), &bytes, COMPARES);
    assert!(rt; compared.status == 5);
    assert!(rt; compared.text().ends_with(REASONS.as_bytes()));
    Ok(())
}

//! Segments that are declared lost one at a time.
use super::*;
use worked_frames::samples::{EXTENDED, PLAIN};

#[test]
fn gap_before_a_frame(rt: HostRuntime) -> Result<(), Fail> {
    let mut core = one_flow(rt.alloc(), 0, 16)?;
    let calls = [
        Call::Gap(Declared::NothingHeld),
        Call::Arrive(SECOND, Answer::Kept),
        Call::Arrive(THIRD, Answer::Kept),
        Call::Gap(Declared::Lost(0)),
        Call::Counts([2, 0, 0, 0, 1, 0, 0]),
        Call::Frames(&[]),
        Call::Frames(&[EXTENDED]),
        Call::Nothing,
        Call::Counts([2, 0, 0, 0, 1, 1, 3]),
        Call::Arrive(FIRST, Answer::Late),
        Call::CloseGap(false),
        Call::Counts([2, 1, 0, 0, 1, 1, 3]),
    ];
    play(&rt, rt.alloc(), &mut core, 0, &calls)
}

#[test]
fn gap_within_two_frames(rt: HostRuntime) -> Result<(), Fail> {
    let mut core = one_flow(rt.alloc(), 0, 16)?;
    let calls = [
        Call::Arrive(FIRST, Answer::Kept),
        Call::Frames(&[]),
        Call::Nothing,
        Call::Gap(Declared::NothingHeld),
        Call::Arrive(THIRD, Answer::Kept),
        Call::Nothing,
        Call::Gap(Declared::Lost(1)),
        Call::Counts([2, 0, 0, 0, 1, 0, 5]),
        Call::Frames(&[]),
        Call::Nothing,
        Call::Counts([2, 0, 0, 0, 1, 0, 10]),
    ];
    play(&rt, rt.alloc(), &mut core, 0, &calls)
}

/// A segment without payload that was kept leaves the frame round it whole.
#[test]
fn segment_without_payload(rt: HostRuntime) -> Result<(), Fail> {
    let rest = Part(2, None, &[0x11, 0xaa, 0xbb]);
    let kept = [
        Call::Arrive(FIRST, Answer::Kept),
        Call::Frames(&[]),
        Call::Arrive(Part(1, None, &[]), Answer::Kept),
        Call::Frames(&[]),
        Call::Arrive(rest, Answer::Kept),
        Call::Frames(&[PLAIN]),
        Call::Counts([3, 0, 0, 0, 0, 1, 0]),
    ];
    play_new(&rt, rt.alloc(), &kept)?;
    let lost = [
        Call::Arrive(FIRST, Answer::Kept),
        Call::Frames(&[]),
        Call::Arrive(rest, Answer::Kept),
        Call::Gap(Declared::Lost(1)),
        Call::Frames(&[]),
        Call::Nothing,
        Call::Counts([2, 0, 0, 0, 1, 0, 8]),
    ];
    play_new(&rt, rt.alloc(), &lost)
}

/// A gap of one flow leaves alone what is unfinished in another.
#[test]
fn flows_side_by_side(rt: HostRuntime) -> Result<(), Fail> {
    let records = [record(7, 0, 16), record(5, 0, 16), record(9, 8191, 1)];
    let mut core = Core::new(rt.alloc(), &records, NoCheck)?;
    let begun = [Call::Arrive(FIRST, Answer::Kept), Call::Frames(&[])];
    play(&rt, rt.alloc(), &mut core, 0, &begun)?;
    play(&rt, rt.alloc(), &mut core, 1, &begun)?;
    let lost = [
        Call::Arrive(THIRD, Answer::Kept),
        Call::Gap(Declared::Lost(1)),
        Call::Frames(&[]),
        Call::Nothing,
        Call::Counts([2, 0, 0, 0, 1, 0, 10]),
    ];
    play(&rt, rt.alloc(), &mut core, 1, &lost)?;
    let kept = [
        Call::Counts([1, 0, 0, 0, 0, 0, 0]),
        Call::Arrive(THIRD, Answer::Kept),
        Call::Arrive(SECOND, Answer::Kept),
        Call::Frames(&[PLAIN]),
        Call::Frames(&[EXTENDED]),
        Call::Nothing,
        Call::Counts([3, 0, 0, 0, 0, 2, 0]),
    ];
    play(&rt, rt.alloc(), &mut core, 0, &kept)?;
    let nothing = [Call::Nothing, Call::Counts([0; 7])];
    play(&rt, rt.alloc(), &mut core, 2, &nothing)
}

/// At its close a flow loses what it waits for, as long as later segments are held.
#[test]
fn close_to_the_end(rt: HostRuntime) -> Result<(), Fail> {
    let mut core = one_flow(rt.alloc(), 8190, 16)?;
    let calls = [
        Call::CloseGap(false),
        Call::Arrive(Part(0, Some(0), FRAME_0), Answer::Kept),
        Call::Arrive(Part(3, Some(0), FRAME_3), Answer::Kept),
        Call::Nothing,
        Call::CloseGap(true),
        Call::Nothing,
        Call::CloseGap(true),
        Call::Frames(&[FRAME_0]),
        Call::Nothing,
        Call::CloseGap(true),
        Call::CloseGap(true),
        Call::Frames(&[FRAME_3]),
        Call::Nothing,
        Call::CloseGap(false),
        Call::CloseGap(false),
        Call::Counts([2, 0, 0, 0, 4, 2, 0]),
    ];
    play(&rt, rt.alloc(), &mut core, 0, &calls)
}

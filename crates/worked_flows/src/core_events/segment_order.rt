//! Segments that come in another order than they were sent, and many in order.
use super::*;
use worked_frames::samples::{EXTENDED, PLAIN};

#[test]
fn numbers_that_go_round(rt: HostRuntime) -> Result<(), Fail> {
    let mut core = one_flow(rt.alloc(), 8190, 16)?;
    let calls = [
        Call::Arrive(Part(0, Some(0), FRAME_2), Answer::Kept),
        Call::Nothing,
        Call::Arrive(Part(8191, Some(0), FRAME_1), Answer::Kept),
        Call::Nothing,
        Call::Arrive(Part(1, Some(0), FRAME_3), Answer::Kept),
        Call::Nothing,
        Call::Counts([3, 0, 0, 0, 0, 0, 0]),
        Call::Arrive(Part(8190, Some(0), FRAME_0), Answer::Kept),
        Call::Frames(&[FRAME_0]),
        Call::Frames(&[FRAME_1]),
        Call::Frames(&[FRAME_2]),
        Call::Frames(&[FRAME_3]),
        Call::Nothing,
        Call::Counts([4, 0, 0, 0, 0, 4, 0]),
    ];
    play(&rt, rt.alloc(), &mut core, 0, &calls)
}

#[test]
fn frames_cut_inside_their_headers(rt: HostRuntime) -> Result<(), Fail> {
    let mut core = one_flow(rt.alloc(), 0, 16)?;
    let calls = [
        Call::Arrive(THIRD, Answer::Kept),
        Call::Arrive(SECOND, Answer::Kept),
        Call::Arrive(FIRST, Answer::Kept),
        Call::Frames(&[]),
        Call::Frames(&[PLAIN]),
        Call::Frames(&[EXTENDED]),
        Call::Nothing,
        Call::CloseGap(false),
        Call::Counts([3, 0, 0, 0, 0, 2, 0]),
    ];
    play(&rt, rt.alloc(), &mut core, 0, &calls)
}

/// Fill after the first frame is skipped once the next segment is joined.
#[test]
fn fill_between_frames(rt: HostRuntime) -> Result<(), Fail> {
    let mut core = one_flow(rt.alloc(), 0, 16)?;
    let filled = &[0, 0, 0, 2, 0x11, 0x11, 0xaa, 0xbb, 0, 0];
    let calls = [
        Call::Arrive(Part(0, Some(0), filled), Answer::Kept),
        Call::Frames(&[PLAIN]),
        Call::Counts([1, 0, 0, 0, 0, 1, 0]),
        Call::Arrive(Part(1, Some(0), EXTENDED), Answer::Kept),
        Call::Frames(&[EXTENDED]),
        Call::Nothing,
        Call::Counts([2, 0, 0, 0, 0, 2, 2]),
    ];
    play(&rt, rt.alloc(), &mut core, 0, &calls)
}

#[test]
fn ten_thousand_in_order(rt: HostRuntime) -> Result<(), Fail> {
    let mut core = one_flow(rt.alloc(), 0, 16)?;
    let mut last = 0;
    for index in 0_u16..10_000 {
        last = index % SEQUENCE_NUMBERS;
        let calls = [
            Call::Arrive(Part(last, Some(0), FRAME_0), Answer::Kept),
            Call::Frames(&[FRAME_0]),
            Call::Nothing,
        ];
        play(&rt, rt.alloc(), &mut core, 0, &calls)?;
    }
    assert!(rt; last == 1807);
    let all = [
        Call::Counts([10_000, 0, 0, 0, 0, 10_000, 0]),
        Call::CloseGap(false),
    ];
    play(&rt, rt.alloc(), &mut core, 0, &all)
}

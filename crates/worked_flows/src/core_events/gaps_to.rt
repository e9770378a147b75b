//! Segments that are declared lost up to a number.
use super::*;

const SEGMENT_2: Part = Part(2, Some(0), FRAME_2);

const SEGMENT_3: Part = Part(3, Some(0), FRAME_3);

const SEGMENT_4: Part = Part(4, Some(0), FRAME_4);

/// Two numbers before the first held segment are lost, and one behind it once it was joined.
#[test]
fn held_segments_before_the_number(rt: HostRuntime) -> Result<(), Fail> {
    for number in [4, 4000] {
        let calls = [
            Call::GapTo(number, false),
            Call::Arrive(SEGMENT_2, Answer::Kept),
            Call::Arrive(SEGMENT_4, Answer::Kept),
            Call::GapTo(number, true),
            Call::Counts([2, 0, 0, 0, 2, 0, 0]),
            Call::Frames(&[FRAME_2]),
            Call::Counts([2, 0, 0, 0, 3, 1, 0]),
            Call::Frames(&[FRAME_4]),
            Call::Nothing,
            Call::Counts([2, 0, 0, 0, 3, 2, 0]),
            Call::Arrive(SEGMENT_3, Answer::Late),
            Call::CloseGap(false),
            Call::Counts([2, 1, 0, 0, 3, 2, 0]),
        ];
        play_new(&rt, rt.alloc(), &calls)?;
    }
    Ok(())
}

/// The expected number itself, one behind it, and one 4,096 ahead declare nothing.
#[test]
fn numbers_that_declare_nothing(rt: HostRuntime) -> Result<(), Fail> {
    for number in [0, 8191, 4096] {
        let calls = [
            Call::Arrive(SEGMENT_2, Answer::Kept),
            Call::Arrive(SEGMENT_4, Answer::Kept),
            Call::GapTo(number, false),
            Call::Nothing,
            Call::Counts([2, 0, 0, 0, 0, 0, 0]),
            Call::Arrive(SEGMENT_3, Answer::Kept),
            Call::CloseGap(true),
            Call::CloseGap(true),
            Call::Frames(&[FRAME_2]),
            Call::Frames(&[FRAME_3]),
            Call::Frames(&[FRAME_4]),
            Call::Nothing,
            Call::CloseGap(false),
            Call::Counts([3, 0, 0, 0, 2, 3, 0]),
        ];
        play_new(&rt, rt.alloc(), &calls)?;
    }
    Ok(())
}

/// Up to the next number it is what a gap is, and later segments are kept when they come.
#[test]
fn up_to_the_next_number(rt: HostRuntime) -> Result<(), Fail> {
    let mut core = one_flow(rt.alloc(), 8191, 16)?;
    let calls = [
        Call::Arrive(SEGMENT_2, Answer::Kept),
        Call::GapTo(0, true),
        Call::Nothing,
        Call::Counts([1, 0, 0, 0, 1, 0, 0]),
        Call::Arrive(Part(8191, Some(0), FRAME_0), Answer::Late),
        Call::Arrive(Part(1, Some(0), FRAME_1), Answer::Kept),
        Call::Arrive(Part(0, Some(0), FRAME_0), Answer::Kept),
        Call::Frames(&[FRAME_0]),
        Call::Frames(&[FRAME_1]),
        Call::Frames(&[FRAME_2]),
        Call::Nothing,
        Call::Counts([3, 1, 0, 0, 1, 3, 0]),
    ];
    play(&rt, rt.alloc(), &mut core, 0, &calls)
}

/// What is unfinished is dropped at each loss, also at one that is declared after a step.
#[test]
fn unfinished_bytes_before_a_loss(rt: HostRuntime) -> Result<(), Fail> {
    let mut core = one_flow(rt.alloc(), 0, 16)?;
    let begun = &[0, 0, 0, 2, 0x11];
    let calls = [
        Call::Arrive(FIRST, Answer::Kept),
        Call::Frames(&[]),
        Call::Arrive(Part(2, Some(0), begun), Answer::Kept),
        Call::Arrive(SEGMENT_4, Answer::Kept),
        Call::GapTo(4, true),
        Call::Counts([3, 0, 0, 0, 1, 0, 5]),
        Call::Frames(&[]),
        Call::Counts([3, 0, 0, 0, 2, 0, 10]),
        Call::Frames(&[FRAME_4]),
        Call::Nothing,
        Call::Counts([3, 0, 0, 0, 2, 1, 10]),
    ];
    play(&rt, rt.alloc(), &mut core, 0, &calls)
}

/// A number that was reached is forgotten, also where later segments are still held, so that it
/// means nothing when it lies ahead again.
#[test]
fn number_that_was_reached(rt: HostRuntime) -> Result<(), Fail> {
    let mut core = one_flow(rt.alloc(), 0, 16)?;
    let reached = [
        Call::Arrive(Part(1, Some(0), FRAME_1), Answer::Kept),
        Call::Arrive(SEGMENT_3, Answer::Kept),
        Call::Arrive(Part(5, Some(0), FRAME_1), Answer::Kept),
        Call::GapTo(3, true),
        Call::Frames(&[FRAME_1]),
        Call::Frames(&[FRAME_3]),
        Call::Nothing,
    ];
    play(&rt, rt.alloc(), &mut core, 0, &reached)?;
    for expected in (4_u16..5000).step_by(2) {
        let onward = [
            Call::Arrive(Part(expected + 3, Some(0), FRAME_1), Answer::Kept),
            Call::Arrive(Part(expected, Some(0), FRAME_0), Answer::Kept),
            Call::Frames(&[FRAME_0]),
            Call::Frames(&[FRAME_1]),
            Call::Nothing,
        ];
        play(&rt, rt.alloc(), &mut core, 0, &onward)?;
    }
    play(
        &rt,
        rt.alloc(),
        &mut core,
        0,
        &[Call::Counts([4999, 0, 0, 0, 2, 4998, 0])],
    )
}

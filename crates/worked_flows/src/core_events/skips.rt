//! Segments that are skipped up to a number, whether or not a later one was kept.
use super::*;

const SEGMENT_0: Part = Part(0, Some(0), FRAME_0);

const SEGMENT_1: Part = Part(1, Some(0), FRAME_1);

const SEGMENT_2: Part = Part(2, Some(0), FRAME_2);

const SEGMENT_3: Part = Part(3, Some(0), FRAME_3);

const SEGMENT_4: Part = Part(4, Some(0), FRAME_4);

/// Nothing is held: what comes before the number is late from then on, and the number is kept.
#[test]
fn nothing_held(rt: HostRuntime) -> Result<(), Fail> {
    let calls = [
        Call::SkipTo(3, true),
        Call::Nothing,
        Call::Counts([0, 0, 0, 0, 3, 0, 0]),
        Call::Arrive(SEGMENT_0, Answer::Late),
        Call::Arrive(SEGMENT_2, Answer::Late),
        Call::Arrive(SEGMENT_4, Answer::Kept),
        Call::Arrive(SEGMENT_3, Answer::Kept),
        Call::Frames(&[FRAME_3]),
        Call::Frames(&[FRAME_4]),
        Call::Nothing,
        Call::CloseGap(false),
        Call::Counts([2, 2, 0, 0, 3, 2, 0]),
    ];
    play_new(&rt, rt.alloc(), &calls)
}

/// What is held before the number is joined, and what is missing behind it is lost after each step,
/// also behind the last one, where a gap up to the number loses nothing.
#[test]
fn held_segments_before_the_number(rt: HostRuntime) -> Result<(), Fail> {
    let calls = [
        Call::Arrive(SEGMENT_1, Answer::Kept),
        Call::Arrive(SEGMENT_3, Answer::Kept),
        Call::SkipTo(5, true),
        Call::Counts([2, 0, 0, 0, 1, 0, 0]),
        Call::Frames(&[FRAME_1]),
        Call::Counts([2, 0, 0, 0, 2, 1, 0]),
        Call::Frames(&[FRAME_3]),
        Call::Counts([2, 0, 0, 0, 3, 2, 0]),
        Call::Nothing,
        Call::Arrive(SEGMENT_4, Answer::Late),
        Call::Arrive(Part(5, Some(0), FRAME_2), Answer::Kept),
        Call::Frames(&[FRAME_2]),
        Call::CloseGap(false),
        Call::Counts([3, 1, 0, 0, 3, 3, 0]),
    ];
    play_new(&rt, rt.alloc(), &calls)
}

/// The expected number itself, the one behind it and one 4,096 ahead skip nothing.
#[test]
fn numbers_that_skip_nothing(rt: HostRuntime) -> Result<(), Fail> {
    for number in [0, 8191, 4096] {
        let calls = [
            Call::SkipTo(number, false),
            Call::Arrive(SEGMENT_1, Answer::Kept),
            Call::SkipTo(number, false),
            Call::Nothing,
            Call::Counts([1, 0, 0, 0, 0, 0, 0]),
            Call::Arrive(SEGMENT_0, Answer::Kept),
            Call::Frames(&[FRAME_0]),
            Call::Frames(&[FRAME_1]),
            Call::Nothing,
            Call::Counts([2, 0, 0, 0, 0, 2, 0]),
        ];
        play_new(&rt, rt.alloc(), &calls)?;
    }
    Ok(())
}

/// The numbers go round from 8191 to 0 in a skip.
#[test]
fn round_to_zero(rt: HostRuntime) -> Result<(), Fail> {
    let mut core = one_flow(rt.alloc(), 8190, 16)?;
    let calls = [
        Call::SkipTo(1, true),
        Call::Counts([0, 0, 0, 0, 3, 0, 0]),
        Call::Arrive(Part(8191, Some(0), FRAME_2), Answer::Late),
        Call::Arrive(SEGMENT_0, Answer::Late),
        Call::Arrive(SEGMENT_1, Answer::Kept),
        Call::Frames(&[FRAME_1]),
        Call::Counts([1, 2, 0, 0, 3, 1, 0]),
    ];
    play(&rt, rt.alloc(), &mut core, 0, &calls)
}

/// What is unfinished is dropped at each loss, also at one after a step.
#[test]
fn unfinished_bytes_before_a_skip(rt: HostRuntime) -> Result<(), Fail> {
    let begun = &[0, 0, 0, 2, 0x11];
    let calls = [
        Call::Arrive(FIRST, Answer::Kept),
        Call::Frames(&[]),
        Call::Arrive(Part(2, Some(0), begun), Answer::Kept),
        Call::SkipTo(4, true),
        Call::Counts([2, 0, 0, 0, 1, 0, 5]),
        Call::Frames(&[]),
        Call::Counts([2, 0, 0, 0, 2, 0, 10]),
        Call::Arrive(SEGMENT_4, Answer::Kept),
        Call::Frames(&[FRAME_4]),
        Call::Counts([3, 0, 0, 0, 2, 1, 10]),
    ];
    play_new(&rt, rt.alloc(), &calls)
}

/// A skip goes further than the window is wide, up to 4,095 numbers, past the segments of it that
/// are held, and later segments are kept from its number on.
#[test]
fn further_than_the_window(rt: HostRuntime) -> Result<(), Fail> {
    let mut core = one_flow(rt.alloc(), 0, 4)?;
    let calls = [
        Call::Arrive(SEGMENT_3, Answer::Kept),
        Call::SkipTo(4000, true),
        Call::Counts([1, 0, 0, 0, 3, 0, 0]),
        Call::Frames(&[FRAME_3]),
        Call::Counts([1, 0, 0, 0, 3999, 1, 0]),
        Call::Arrive(Part(3999, Some(0), FRAME_0), Answer::Late),
        Call::Arrive(Part(4004, Some(0), FRAME_0), Answer::Beyond),
        Call::Arrive(Part(4000, Some(0), FRAME_0), Answer::Kept),
        Call::Frames(&[FRAME_0]),
        Call::Counts([2, 1, 0, 1, 3999, 2, 0]),
        Call::SkipTo(8096, true),
        Call::Nothing,
        Call::Counts([2, 1, 0, 1, 8094, 2, 0]),
    ];
    play(&rt, rt.alloc(), &mut core, 0, &calls)
}

/// A number that was reached is forgotten: what is missing from it on stays open.
#[test]
fn number_that_was_reached(rt: HostRuntime) -> Result<(), Fail> {
    let calls = [
        Call::Arrive(SEGMENT_1, Answer::Kept),
        Call::Arrive(SEGMENT_4, Answer::Kept),
        Call::SkipTo(3, true),
        Call::Frames(&[FRAME_1]),
        Call::Nothing,
        Call::Counts([2, 0, 0, 0, 2, 1, 0]),
        Call::Arrive(SEGMENT_3, Answer::Kept),
        Call::Frames(&[FRAME_3]),
        Call::Frames(&[FRAME_4]),
        Call::Nothing,
        Call::Counts([3, 0, 0, 0, 2, 3, 0]),
    ];
    play_new(&rt, rt.alloc(), &calls)
}

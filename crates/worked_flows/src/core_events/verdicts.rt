//! What becomes of segments that arrive.
use super::*;

#[test]
fn each_verdict(rt: HostRuntime) -> Result<(), Fail> {
    let mut core = one_flow(rt.alloc(), 8190, 4)?;
    let calls = [
        Call::Arrive(Part(1, Some(0), FRAME_3), Answer::Kept),
        Call::Arrive(Part(2, Some(0), FRAME_4), Answer::Beyond),
        Call::Arrive(Part(4093, Some(0), FRAME_4), Answer::Beyond),
        Call::Arrive(Part(4094, Some(0), FRAME_4), Answer::Late),
        Call::Arrive(Part(8189, Some(0), FRAME_4), Answer::Late),
        Call::Arrive(Part(1, Some(0), FRAME_4), Answer::Repeat),
        Call::Counts([1, 2, 1, 2, 0, 0, 0]),
        Call::Gap(Declared::Lost(8190)),
        Call::Gap(Declared::Lost(8191)),
        Call::Gap(Declared::Lost(0)),
        Call::Frames(&[FRAME_3]),
        Call::Nothing,
        Call::Arrive(Part(1, Some(0), FRAME_3), Answer::Late),
        Call::Arrive(Part(2, Some(0), FRAME_4), Answer::Kept),
        Call::Frames(&[FRAME_4]),
        Call::Nothing,
        Call::Counts([2, 3, 1, 2, 3, 2, 0]),
    ];
    play(&rt, rt.alloc(), &mut core, 0, &calls)
}

/// Windows of 16 and of one side by side.
#[test]
fn window_of_one(rt: HostRuntime) -> Result<(), Fail> {
    let records = [record(0, 0, 16), record(1, 0, 1)];
    let mut core = Core::new(rt.alloc(), &records, NoCheck)?;
    let calls = [
        Call::Arrive(Part(1, Some(0), FRAME_1), Answer::Beyond),
        Call::Gap(Declared::NothingHeld),
        Call::Arrive(Part(0, Some(0), FRAME_0), Answer::Kept),
        Call::Frames(&[FRAME_0]),
        Call::Nothing,
        Call::Counts([1, 0, 0, 1, 0, 1, 0]),
    ];
    play(&rt, rt.alloc(), &mut core, 1, &calls)?;
    play(&rt, rt.alloc(), &mut core, 0, &[Call::Counts([0; 7])])
}

/// The widest window, filled backwards.
#[test]
fn widest_window(rt: HostRuntime) -> Result<(), Fail> {
    let mut core = one_flow(rt.alloc(), 8191, 4096)?;
    for index in (1_u16..4096).rev() {
        let number = (8191 + index) % SEQUENCE_NUMBERS;
        let calls = [Call::Arrive(Part(number, Some(0), FRAME_1), Answer::Kept)];
        play(&rt, rt.alloc(), &mut core, 0, &calls)?;
    }
    let ends = [
        Call::Arrive(Part(4094, Some(0), FRAME_2), Answer::Repeat),
        Call::Arrive(Part(4095, Some(0), FRAME_2), Answer::Late),
        Call::Arrive(Part(8191, Some(0), FRAME_1), Answer::Kept),
    ];
    play(&rt, rt.alloc(), &mut core, 0, &ends)?;
    for _ in 0_u16..4096 {
        play(&rt, rt.alloc(), &mut core, 0, &[Call::Frames(&[FRAME_1])])?;
    }
    let end = [Call::Nothing, Call::Counts([4096, 1, 1, 0, 0, 4096, 0])];
    play(&rt, rt.alloc(), &mut core, 0, &end)
}

//! Calls on windows: that the definitions give the answers that were worked out by hand.
ghost use Rattle.std.specs.Prelude.{◌<◌};

mod by_chance;
mod drops;
mod failed_allocations;
mod giving_up;

use crate::expect::{expect_same, expect_same_at, expect_true};
use reorder::{Declared, MODULUS, Verdict, WIDTH_MAX, Window};
use std::alloc::Global;
use std::fmt::Debug;
use std::process::Abort;
use std::test::Fail;

/// A call, with the expected answer. An item is a number that differs from offer to offer.
#[derive(Clone, Copy)]
enum Step {
    Offer(u16, u8, Verdict<u8>),
    Next(Option<u8>),
    TakeNext(Option<u8>),
    Declare(Declared),
    DeclareTo(u16, u16),
    SkipTo(u16, u16),
    Expected(u16),
    Held(usize),
}

/// Makes a call that names a number, and says whether the answer is the expected one.
fn answers_to_number(rt: &impl Abort, window: &mut Window<u8>, number: u16, step: Step) -> bool {
    expect_true(rt, "a sequence number", number < MODULUS);
    match step {
        Step::Offer(_, item, verdict) => window.offer(number, item) == verdict,
        Step::DeclareTo(_, count) => window.declare_to(number) == count,
        Step::SkipTo(_, count) => window.skip_to(number) == count,
        _ => false,
    }
}

/// Makes a call, and says whether the answer is the expected one.
fn answers(rt: &impl Abort, window: &mut Window<u8>, step: Step) -> bool {
    match step {
        Step::Offer(number, ..) | Step::DeclareTo(number, _) | Step::SkipTo(number, _) => {
            answers_to_number(rt, window, number, step)
        }
        Step::Next(item) => window.next().copied() == item,
        Step::TakeNext(item) => window.take_next() == item,
        Step::Declare(declared) => window.declare() == declared,
        Step::Expected(number) => window.expected() == number,
        Step::Held(count) => window.held() == count,
    }
}

fn play(rt: &impl Abort, name: &str, window: &mut Window<u8>, steps: &[Step]) {
    for (place, step) in steps.iter().enumerate() {
        expect_same_at(rt, name, place, answers(rt, window, *step), true);
    }
}

#[test]
fn widest_window(rt: HostRuntime) -> Result<(), Fail> {
    let steps = [
        Step::Offer(4095, 1, Verdict::Kept),
        Step::Offer(4096, 2, Verdict::Late(2)),
        Step::Expected(0),
        Step::Held(1),
    ];
    play(
        &rt,
        "widest",
        &mut Window::new(rt.alloc(), 0, 4096)?,
        &steps,
    );
    Ok(())
}

#[test]
fn window_of_sixteen(rt: HostRuntime) -> Result<(), Fail> {
    let steps = [
        Step::Offer(15, 1, Verdict::Kept),
        Step::Offer(16, 2, Verdict::Beyond(2)),
        Step::Held(1),
    ];
    play(&rt, "sixteen", &mut Window::new(rt.alloc(), 0, 16)?, &steps);
    Ok(())
}

#[test]
fn window_of_one(rt: HostRuntime) -> Result<(), Fail> {
    let steps = [
        Step::Next(None),
        Step::TakeNext(None),
        Step::Declare(Declared::NothingHeld),
        Step::Expected(0),
        Step::Offer(0, 1, Verdict::Kept),
        Step::Next(Some(1)),
        Step::Declare(Declared::NextIsHere),
        Step::TakeNext(Some(1)),
        Step::Declare(Declared::NothingHeld),
        Step::Expected(1),
        Step::Held(0),
    ];
    play(&rt, "one", &mut Window::new(rt.alloc(), 0, 1)?, &steps);
    Ok(())
}

#[test]
fn repeat_and_late(rt: HostRuntime) -> Result<(), Fail> {
    let steps = [
        Step::Offer(1, 1, Verdict::Kept),
        Step::Offer(1, 2, Verdict::Repeat(2)),
        Step::Declare(Declared::Lost(0)),
        Step::TakeNext(Some(1)),
        Step::Offer(1, 3, Verdict::Late(3)),
        Step::Offer(0, 4, Verdict::Late(4)),
        Step::Expected(2),
        Step::Held(0),
    ];
    play(
        &rt,
        "repeat and late",
        &mut Window::new(rt.alloc(), 0, 16)?,
        &steps,
    );
    Ok(())
}

#[test]
fn gap_round_the_end(rt: HostRuntime) -> Result<(), Fail> {
    let steps = [
        Step::Offer(1, 1, Verdict::Kept),
        Step::Offer(2, 2, Verdict::Beyond(2)),
        Step::Offer(8189, 3, Verdict::Late(3)),
        Step::Offer(1, 4, Verdict::Repeat(4)),
        Step::Declare(Declared::Lost(8190)),
        Step::Declare(Declared::Lost(8191)),
        Step::Declare(Declared::Lost(0)),
        Step::Declare(Declared::NextIsHere),
        Step::TakeNext(Some(1)),
        Step::Expected(2),
        Step::Held(0),
    ];
    play(
        &rt,
        "gap round the end",
        &mut Window::new(rt.alloc(), 8190, 4)?,
        &steps,
    );
    Ok(())
}

#[test]
fn order_round_the_end(rt: HostRuntime) -> Result<(), Fail> {
    let steps = [
        Step::Offer(0, 3, Verdict::Kept),
        Step::TakeNext(None),
        Step::Offer(8191, 2, Verdict::Kept),
        Step::TakeNext(None),
        Step::Offer(1, 4, Verdict::Kept),
        Step::Next(None),
        Step::Offer(8190, 1, Verdict::Kept),
        Step::Held(4),
        Step::TakeNext(Some(1)),
        Step::TakeNext(Some(2)),
        Step::TakeNext(Some(3)),
        Step::TakeNext(Some(4)),
        Step::TakeNext(None),
        Step::Expected(2),
    ];
    play(
        &rt,
        "order round the end",
        &mut Window::new(rt.alloc(), 8190, 16)?,
        &steps,
    );
    Ok(())
}

#[test]
fn declared_to_held_numbers_one_after_another(rt: HostRuntime) -> Result<(), Fail> {
    let steps = [
        Step::Offer(8191, 1, Verdict::Kept),
        Step::Offer(1, 2, Verdict::Kept),
        Step::DeclareTo(1, 1),
        Step::DeclareTo(1, 0),
        Step::TakeNext(Some(1)),
        Step::DeclareTo(1, 1),
        Step::DeclareTo(1, 0),
        Step::Held(1),
        Step::TakeNext(Some(2)),
        Step::DeclareTo(1, 0),
        Step::DeclareTo(5, 0),
        Step::Expected(2),
        Step::Offer(0, 3, Verdict::Late(3)),
    ];
    play(
        &rt,
        "declared to held numbers",
        &mut Window::new(rt.alloc(), 8190, 16)?,
        &steps,
    );
    Ok(())
}

/// After an outage that is longer than the window all that comes lies beyond it.
#[test]
fn skipped_over_an_outage(rt: HostRuntime) -> Result<(), Fail> {
    let steps = [
        Step::Offer(20, 1, Verdict::Beyond(1)),
        Step::DeclareTo(20, 0),
        Step::SkipTo(5, 7),
        Step::Offer(20, 2, Verdict::Kept),
        Step::Offer(4, 3, Verdict::Late(3)),
        Step::SkipTo(21, 15),
        Step::SkipTo(21, 0),
        Step::Held(1),
        Step::TakeNext(Some(2)),
        Step::SkipTo(21, 0),
        Step::SkipTo(22, 1),
        Step::Expected(22),
        Step::Offer(21, 4, Verdict::Late(4)),
        Step::Offer(22, 5, Verdict::Kept),
        Step::TakeNext(Some(5)),
    ];
    play(
        &rt,
        "skipped over an outage",
        &mut Window::new(rt.alloc(), 8190, 16)?,
        &steps,
    );
    Ok(())
}

/// Offers the item `index` under the number that lies so far ahead of 8191.
fn expect_kept(rt: &impl Abort, window: &mut Window<u16>, index: u16)
    requires { index < 4096 }
{
    let number = (8191 + index) % MODULUS;
    let verdict = window.offer(number, index);
    expect_same_at(rt, "offered", usize::from(number), verdict, Verdict::Kept);
}

#[test]
fn full_window(rt: HostRuntime) -> Result<(), Fail> {
    let mut window = Window::new(rt.alloc(), 8191, 4096)?;
    for index in 0_u16..4096 {
        expect_kept(&rt, &mut window, index);
    }
    expect_same(&rt, "held", window.held(), 4096);
    expect_same(
        &rt,
        "the last again",
        window.offer(4094, 7),
        Verdict::Repeat(7),
    );
    expect_same(&rt, "beyond", window.offer(4095, 7), Verdict::Late(7));
    for index in 0_u16..4096 {
        expect_same(&rt, "taken", window.take_next(), Some(index));
    }
    expect_same(&rt, "expected", window.expected(), 4095);
    expect_same(&rt, "declared", window.declare(), Declared::NothingHeld);
    Ok(())
}

/// What an empty window answers to one offer.
#[derive(Clone, Copy, Debug, PartialEq)]
enum First {
    Kept,
    Beyond,
    Late,
}

fn verdict_of(answer: First) -> Verdict<u8> {
    match answer {
        First::Kept => Verdict::Kept,
        First::Beyond => Verdict::Beyond(7),
        First::Late => Verdict::Late(7),
    }
}

fn first_verdict(rt: &impl Abort, alloc: Global, case: (u16, u16, u16, First)) -> Result<(), Fail> {
    let (first, width, number, answer) = case;
    let in_range = first < MODULUS && number < MODULUS && 1 <= width && width <= WIDTH_MAX;
    expect_true(rt, "numbers and a width", in_range);
    let verdict = verdict_of(answer);
    let mut window = Window::new(alloc, first, width)?;
    let found = (case, window.offer(number, 7), window.expected());
    expect_same(rt, "a first offer", found, (case, verdict, first));
    Ok(())
}

/// First number, width, number offered, verdict: at the offsets 0, 1, just below and at the width,
/// 4095, 4096 and 8191.
const FIRST_VERDICTS: [(u16, u16, u16, First); 66] = [
    (8190, 1, 8190, First::Kept),
    (8190, 1, 8191, First::Beyond),
    (8190, 1, 4093, First::Beyond),
    (8190, 1, 4094, First::Late),
    (8190, 1, 8189, First::Late),
    (8190, 2, 8190, First::Kept),
    (8190, 2, 8191, First::Kept),
    (8190, 2, 0, First::Beyond),
    (8190, 2, 4093, First::Beyond),
    (8190, 2, 4094, First::Late),
    (8190, 2, 8189, First::Late),
    (8190, 4095, 8190, First::Kept),
    (8190, 4095, 8191, First::Kept),
    (8190, 4095, 4092, First::Kept),
    (8190, 4095, 4093, First::Beyond),
    (8190, 4095, 4094, First::Late),
    (8190, 4095, 8189, First::Late),
    (8190, 4096, 8190, First::Kept),
    (8190, 4096, 8191, First::Kept),
    (8190, 4096, 4093, First::Kept),
    (8190, 4096, 4094, First::Late),
    (8190, 4096, 8189, First::Late),
    (8191, 1, 8191, First::Kept),
    (8191, 1, 0, First::Beyond),
    (8191, 1, 4094, First::Beyond),
    (8191, 1, 4095, First::Late),
    (8191, 1, 8190, First::Late),
    (8191, 2, 8191, First::Kept),
    (8191, 2, 0, First::Kept),
    (8191, 2, 1, First::Beyond),
    (8191, 2, 4094, First::Beyond),
    (8191, 2, 4095, First::Late),
    (8191, 2, 8190, First::Late),
    (8191, 4095, 8191, First::Kept),
    (8191, 4095, 0, First::Kept),
    (8191, 4095, 4093, First::Kept),
    (8191, 4095, 4094, First::Beyond),
    (8191, 4095, 4095, First::Late),
    (8191, 4095, 8190, First::Late),
    (8191, 4096, 8191, First::Kept),
    (8191, 4096, 0, First::Kept),
    (8191, 4096, 4094, First::Kept),
    (8191, 4096, 4095, First::Late),
    (8191, 4096, 8190, First::Late),
    (0, 1, 0, First::Kept),
    (0, 1, 1, First::Beyond),
    (0, 1, 4095, First::Beyond),
    (0, 1, 4096, First::Late),
    (0, 1, 8191, First::Late),
    (0, 2, 0, First::Kept),
    (0, 2, 1, First::Kept),
    (0, 2, 2, First::Beyond),
    (0, 2, 4095, First::Beyond),
    (0, 2, 4096, First::Late),
    (0, 2, 8191, First::Late),
    (0, 4095, 0, First::Kept),
    (0, 4095, 1, First::Kept),
    (0, 4095, 4094, First::Kept),
    (0, 4095, 4095, First::Beyond),
    (0, 4095, 4096, First::Late),
    (0, 4095, 8191, First::Late),
    (0, 4096, 0, First::Kept),
    (0, 4096, 1, First::Kept),
    (0, 4096, 4095, First::Kept),
    (0, 4096, 4096, First::Late),
    (0, 4096, 8191, First::Late),
];

#[test]
fn first_verdicts_round_the_end(rt: HostRuntime) -> Result<(), Fail> {
    for case in &FIRST_VERDICTS {
        first_verdict(&rt, rt.alloc(), *case)?;
    }
    Ok(())
}

fn goes_through<T: PartialEq + Debug + Drop>(
    rt: &impl Abort,
    alloc: Global,
    item: T,
    same: &T,
    other: T,
) -> Result<(), Fail> {
    let mut window = Window::new(alloc, 8191, 2)?;
    expect_true(rt, "kept", window.offer(8191, item) == Verdict::Kept);
    match window.offer(8191, other) {
        Verdict::Repeat(back) => expect_true(rt, "handed back", back != *same),
        verdict => assert!(rt; false, "{verdict:?}"),
    }
    expect_true(rt, "shown", window.next() == Some(same));
    expect_true(rt, "taken", window.take_next().as_ref() == Some(same));
    expect_same(rt, "expected", window.expected(), 0);
    Ok(())
}

#[test]
fn items_of_any_type(rt: HostRuntime) -> Result<(), Fail> {
    goes_through(&rt, rt.alloc(), 700_u32, &700, 800)?;
    let item = vec![in rt.alloc(); 1_u8, 2, 3]?;
    let same = vec![in rt.alloc(); 1_u8, 2, 3]?;
    let other = vec![in rt.alloc(); 4_u8]?;
    goes_through(&rt, rt.alloc(), item, &same, other)
}

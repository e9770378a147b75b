//! Tests to be run with the Nth request for memory refused, and those whose names end in
//! `without_memory` with all later ones refused too. Each says `refused` when `Window::new` was.
use super::expect_kept;
use crate::expect::expect_same;
use crate::refused::{say_refused, say_whether_refused};
use reorder::{Declared, Verdict, Window};
use std::process::Abort;
use std::test::Fail;

#[test]
fn new_refused(rt: HostRuntime) -> Result<(), Fail> {
    let window = match Window::<u8>::new(rt.alloc(), 0, 4096) {
        Ok(window) => window,
        Err(_) => {
            say_refused(&rt)?;
            Window::new(rt.alloc(), 0, 4096)?
        }
    };
    expect_same(
        &rt,
        "expected, held",
        (window.expected(), window.held()),
        (0, 0),
    );
    Ok(())
}

/// Fills the window of width 4,096 that waits for 8191, backwards but for the first number.
fn fill(rt: &impl Abort, window: &mut Window<u16>) {
    expect_same(rt, "the first", window.offer(8191, 0), Verdict::Kept);
    for index in (1_u16..4096).rev() {
        expect_kept(rt, window, index);
    }
    expect_same(rt, "held", window.held(), 4096);
    expect_same(
        rt,
        "the last again",
        window.offer(4094, 7),
        Verdict::Repeat(7),
    );
    expect_same(rt, "beyond", window.offer(4095, 7), Verdict::Late(7));
}

/// Empties that window.
fn empty(rt: &impl Abort, window: &mut Window<u16>) {
    for index in 0_u16..4096 {
        expect_same(rt, "shown", window.next().copied(), Some(index));
        expect_same(rt, "taken", window.take_next(), Some(index));
    }
    expect_same(rt, "expected", window.expected(), 4095);
    expect_same(rt, "declared", window.declare(), Declared::NothingHeld);
}

/// Gives up numbers of that window, one item of which is held meanwhile.
fn give_up(rt: &impl Abort, window: &mut Window<u16>) {
    expect_same(rt, "the third", window.offer(4097, 7), Verdict::Kept);
    expect_same(rt, "declared", window.declare(), Declared::Lost(4095));
    expect_same(rt, "declared to 4098", window.declare_to(4098), 1);
    expect_same(rt, "taken", window.take_next(), Some(7));
    expect_same(rt, "skipped to 1", window.skip_to(1), 4095);
    expect_same(rt, "expected", window.expected(), 1);
}

/// In the end it asks for memory itself, so that a run is known in which nothing else did.
#[test]
fn calls_after_new_without_memory(rt: HostRuntime) -> Result<(), Fail> {
    let Ok(mut window) = Window::new(rt.alloc(), 8191, 4096) else {
        return say_refused(&rt);
    };
    fill(&rt, &mut window);
    empty(&rt, &mut window);
    give_up(&rt, &mut window);
    say_whether_refused(&rt, rt.alloc())
}

//! In which order what a window holds is dropped with it: in that of the numbers.
use crate::expect::{expect_same, expect_true};
use reorder::{MODULUS, Verdict, Window};
use std::alloc::Global;
use std::cell::Cell;
use std::process::Abort;
use std::test::Fail;

/// Writes its digit behind those of the items that were dropped before it.
struct Noted<'a> {
    digit: u64,
    dropped: &'a Cell<u64>,
}

impl<'a> Drop for Noted<'a> {
    fn drop(self) {
        let Noted { digit, dropped } = self;
        dropped.set(dropped.get().wrapping_mul(10).wrapping_add(digit));
    }
}

/// What a window of four places is made to do: items are offered, their numbers being their digits,
/// the window skips to a number, some items are taken and dropped, and others are offered. In the
/// end the window is dropped. `dropped` says in which order all that is.
#[derive(Clone, Copy)]
struct Case {
    name: &'static str,
    first: u16,
    offered: &'static [u16],
    skipped_to: u16,
    taken: usize,
    offered_then: &'static [u16],
    dropped: u64,
}

fn made_to(
    name: &'static str,
    (first, offered): (u16, &'static [u16]),
    (skipped_to, taken): (u16, usize),
    offered_then: &'static [u16],
    dropped: u64,
) -> Case {
    Case {
        name,
        first,
        offered,
        skipped_to,
        taken,
        offered_then,
        dropped,
    }
}

/// Items at each place of the ring: as it was made, turned as items were taken, begun anew, and
/// turned by one number and by more.
fn cases() -> [Case; 6] {
    [
        made_to("backwards", (1, &[4, 3, 2, 1]), (1, 0), &[], 1234),
        made_to("two taken", (1, &[1, 2, 3, 4]), (1, 2), &[5, 6], 12_3456),
        made_to("taken in place", (1, &[1]), (1, 1), &[5, 4, 3, 2], 1_2345),
        made_to("one number on", (1, &[2]), (2, 0), &[5, 4, 3], 2345),
        made_to("two on", (1, &[4, 3]), (3, 0), &[6, 5], 3456),
        made_to("three on", (1, &[4]), (4, 0), &[7, 6, 5], 4567),
    ]
}

fn offer_all<'a>(
    rt: &impl Abort,
    window: &mut Window<Noted<'a>>,
    name: &str,
    numbers: &[u16],
    dropped: &'a Cell<u64>,
) {
    for number in numbers {
        expect_true(rt, name, *number < MODULUS);
        let digit = u64::from(*number);
        let verdict = window.offer(*number, Noted { digit, dropped });
        expect_true(rt, name, matches!(verdict, Verdict::Kept));
    }
}

fn drops_in_order(rt: &impl Abort, alloc: Global, case: &Case) -> Result<(), Fail> {
    expect_true(
        rt,
        case.name,
        case.first < MODULUS && case.skipped_to < MODULUS,
    );
    let dropped = Cell::new(0);
    let mut window = Window::new(alloc, case.first, 4)?;
    offer_all(rt, &mut window, case.name, case.offered, &dropped);
    window.skip_to(case.skipped_to);
    for _ in 0..case.taken {
        expect_true(rt, case.name, window.take_next().is_some());
    }
    offer_all(rt, &mut window, case.name, case.offered_then, &dropped);
    drop(window);
    expect_same(rt, case.name, dropped.get(), case.dropped);
    Ok(())
}

#[test]
fn dropped_in_the_order_of_their_numbers(rt: HostRuntime) -> Result<(), Fail> {
    for case in &cases() {
        drops_in_order(&rt, rt.alloc(), case)?;
    }
    Ok(())
}

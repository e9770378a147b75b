//! How many numbers are given up where a number is declared or skipped to.
use crate::expect::{expect_same, expect_true};
use reorder::{MODULUS, Verdict, WIDTH_MAX, Window};
use std::alloc::Global;
use std::process::Abort;
use std::test::Fail;

/// A window that waits for `first` and holds one item under each of `held`, a number up to which
/// numbers are given up, how many those are, and the expected number then.
#[derive(Clone, Copy)]
struct UpTo {
    name: &'static str,
    first: u16,
    width: u16,
    held: &'static [u16],
    number: u16,
    count: u16,
    expected: u16,
}

fn up_to(
    name: &'static str,
    (first, width): (u16, u16),
    held: &'static [u16],
    number: u16,
    (count, expected): (u16, u16),
) -> UpTo {
    UpTo {
        name,
        first,
        width,
        held,
        number,
        count,
        expected,
    }
}

fn window_of(rt: &impl Abort, alloc: Global, case: &UpTo) -> Result<Window<u16>, Fail> {
    let in_range = case.first < MODULUS && 1 <= case.width && case.width <= WIDTH_MAX;
    expect_true(rt, case.name, in_range);
    let mut window = Window::new(alloc, case.first, case.width)?;
    for number in case.held {
        expect_true(rt, case.name, *number < MODULUS);
        expect_same(rt, case.name, window.offer(*number, *number), Verdict::Kept);
    }
    Ok(window)
}

fn gave_up(rt: &impl Abort, window: &Window<u16>, case: &UpTo) {
    expect_same(rt, case.name, window.expected(), case.expected);
    expect_same(rt, case.name, window.held(), case.held.len());
    let next = case.held.contains(&case.expected).then_some(case.expected);
    expect_same(rt, case.name, window.next().copied(), next);
}

fn declares_to(rt: &impl Abort, alloc: Global, case: &UpTo) -> Result<(), Fail> {
    expect_true(rt, case.name, case.number < MODULUS);
    let mut window = window_of(rt, alloc, case)?;
    expect_same(rt, case.name, window.declare_to(case.number), case.count);
    gave_up(rt, &window, case);
    Ok(())
}

fn skips_to(rt: &impl Abort, alloc: Global, case: &UpTo) -> Result<(), Fail> {
    expect_true(rt, case.name, case.number < MODULUS);
    let mut window = window_of(rt, alloc, case)?;
    expect_same(rt, case.name, window.skip_to(case.number), case.count);
    gave_up(rt, &window, case);
    Ok(())
}

/// Windows that hold something, of which both calls give up as many.
fn something_held() -> [UpTo; 23] {
    [
        up_to("behind", (10, 16), &[12], 9, (0, 10)),
        up_to("far behind", (10, 16), &[12], 4106, (0, 10)),
        up_to("at the expected number", (10, 16), &[12], 10, (0, 10)),
        up_to("one held below", (10, 16), &[12], 14, (2, 12)),
        up_to("one held just below", (10, 16), &[13], 14, (3, 13)),
        up_to("one held at the number", (10, 16), &[14], 14, (4, 14)),
        up_to("one held above", (10, 16), &[15], 14, (4, 14)),
        up_to("two held below", (10, 16), &[13, 12], 14, (2, 12)),
        up_to("held below and above", (10, 16), &[20, 12], 14, (2, 12)),
        up_to("the expected number held", (10, 16), &[10, 15], 14, (0, 10)),
        up_to("the same, width 1", (10, 1), &[10], 14, (0, 10)),
        up_to("the next number", (10, 16), &[15], 11, (1, 11)),
        up_to("beyond the width", (10, 16), &[25], 40, (15, 25)),
        up_to("to 8191", (8190, 16), &[3], 8191, (1, 8191)),
        up_to("to 0", (8190, 16), &[3], 0, (2, 0)),
        up_to("across 8191", (8190, 16), &[3], 1, (3, 1)),
        up_to("held across 8191", (8190, 16), &[0], 2, (2, 0)),
        up_to("greatest offset", (0, 4096), &[4095], 4095, (4095, 4095)),
        up_to("far across 8191", (8190, 4096), &[4093], 4093, (4095, 4093)),
        up_to("far past a held one", (8190, 16), &[13], 4093, (15, 13)),
        up_to("4,096 ahead", (0, 4096), &[4095], 4096, (0, 0)),
        up_to("4,096 across 8191", (8190, 4096), &[4093], 4094, (0, 8190)),
        up_to("just behind across 8191", (0, 4096), &[4095], 8191, (0, 0)),
    ]
}

/// Windows that hold nothing, with how many numbers are skipped.
fn nothing_held() -> [UpTo; 18] {
    [
        up_to("behind", (10, 16), &[], 9, (0, 10)),
        up_to("far behind", (10, 16), &[], 4106, (0, 10)),
        up_to("at the expected number", (10, 16), &[], 10, (0, 10)),
        up_to("the next number", (10, 16), &[], 11, (1, 11)),
        up_to("within the width", (10, 16), &[], 25, (15, 25)),
        up_to("just beyond the width", (10, 16), &[], 26, (16, 26)),
        up_to("far beyond the width", (10, 16), &[], 4105, (4095, 4105)),
        up_to("to 8191", (8190, 16), &[], 8191, (1, 8191)),
        up_to("to 0", (8190, 16), &[], 0, (2, 0)),
        up_to("from 8191 to 0", (8191, 16), &[], 0, (1, 0)),
        up_to("across 8191", (8190, 16), &[], 5, (7, 5)),
        up_to("width 1", (10, 1), &[], 14, (4, 14)),
        up_to("width 1 across 8191", (8191, 1), &[], 3, (4, 3)),
        up_to("width 1, greatest offset", (0, 1), &[], 4095, (4095, 4095)),
        up_to("greatest offset", (0, 4096), &[], 4095, (4095, 4095)),
        up_to("far across 8191", (8190, 4096), &[], 4093, (4095, 4093)),
        up_to("4,096 ahead", (0, 4096), &[], 4096, (0, 0)),
        up_to("4,096 across 8191", (8190, 4096), &[], 4094, (0, 8190)),
    ]
}

#[test]
fn declares_to_a_number(rt: HostRuntime) -> Result<(), Fail> {
    for case in &something_held() {
        declares_to(&rt, rt.alloc(), case)?;
    }
    for case in &nothing_held() {
        let none = UpTo {
            count: 0,
            expected: case.first,
            ..*case
        };
        declares_to(&rt, rt.alloc(), &none)?;
    }
    Ok(())
}

#[test]
fn skips_to_a_number(rt: HostRuntime) -> Result<(), Fail> {
    for case in &something_held() {
        skips_to(&rt, rt.alloc(), case)?;
    }
    for case in &nothing_held() {
        skips_to(&rt, rt.alloc(), case)?;
    }
    Ok(())
}

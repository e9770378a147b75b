//! Orders of short lists that were worked out by hand.
use receiver::check_order;
use std::process::Abort;
use std::test::Fail;

const LAWFUL: [(&str, [usize; 5], &[u8]); 4] = [
    ("five empty lists", [0; 5], &[]),
    ("one item of each", [1; 5], &[4, 2, 0, 3, 1]),
    ("one sender's items only", [0, 0, 3, 0, 0], &[2, 2, 2]),
    ("two lists in turn", [2, 0, 0, 0, 2], &[4, 0, 4, 0]),
];

/// Each with the place of its first fault.
const FAULTY: [(&str, [usize; 5], &[u8], usize); 8] = [
    ("an item of an empty list", [0; 5], &[0], 0),
    ("no sender 5", [1; 5], &[0, 5, 1, 2, 3, 4], 1),
    ("no sender 255", [1; 5], &[4, 3, 2, 1, 0, 255], 5),
    ("a list is used up", [1, 2, 0, 0, 0], &[1, 0, 0, 1], 2),
    (
        "a list is used up before a tag of no sender",
        [1, 0, 0, 0, 0],
        &[0, 0, 5],
        1,
    ),
    ("an empty order", [0, 0, 0, 0, 1], &[], 0),
    ("a sender is left out", [1, 1, 0, 0, 1], &[1, 0], 2),
    ("one item is left over", [2, 2, 0, 0, 0], &[0, 1, 0], 3),
];

/// Ends the test if the answer to an order is another than this.
fn expect_answer(
    rt: &impl Abort,
    name: &str,
    lengths: [usize; 5],
    order: &[u8],
    answer: Result<(), usize>,
) {
    assert!(rt; check_order(lengths, order) == answer, "{name}");
}

#[test]
fn takes_lawful_orders(rt: HostRuntime) -> Result<(), Fail> {
    for (name, lengths, order) in &LAWFUL {
        expect_answer(&rt, name, *lengths, order, Ok(()));
    }
    Ok(())
}

#[test]
fn finds_the_first_fault(rt: HostRuntime) -> Result<(), Fail> {
    for (name, lengths, order, place) in &FAULTY {
        expect_answer(&rt, name, *lengths, order, Err(*place));
    }
    Ok(())
}

//! Which frames are in both, and which only one side has.
use frame_comparison::Side::{Analyser, Here};
use frame_comparison::{ComparedCounts, FrameComparison, LonelyFrame, Side};
use std::alloc::{AllocError, Global};
use std::process::Abort;
use std::test::Fail;

/// A frame of a flow that came.
#[derive(Drop)]
pub(crate) struct Came<'a>(pub(crate) Side, pub(crate) usize, pub(crate) &'a [u8]);

/// What is known of frames once all came, each a second after the one before.
pub(crate) fn compared(
    alloc: Global,
    flows: usize,
    frames: &[Came],
) -> Result<FrameComparison, AllocError> {
    let mut comparison = FrameComparison::new(alloc, flows)?;
    let mut time = 0u64;
    for came in frames {
        comparison.take(alloc, came.0, came.1, time, came.2, &[]);
        time = time.saturating_add(1_000_000_000);
    }
    comparison.finish(alloc);
    Ok(comparison)
}

/// The counts of a flow.
const fn counts(both: u64, only_analyser: u64, only_here: u64) -> ComparedCounts {
    ComparedCounts {
        both,
        only_analyser,
        only_here,
    }
}

/// A comparison is whole and has these counts, and is equal where none is only one side's.
fn expect_counts(rt: &impl Abort, comparison: &FrameComparison, wanted: &[ComparedCounts]) {
    assert!(rt; comparison.is_whole());
    assert!(rt; comparison.counts() == wanted);
    let mut alone = false;
    for one in wanted {
        alone = alone || one.only_analyser > 0 || one.only_here > 0;
    }
    assert!(rt; comparison.is_equal() != alone);
}

/// The frames that are listed begin with these.
fn expect_firsts(rt: &impl Abort, listed: &[LonelyFrame], wanted: &[&[u8]]) {
    assert!(rt; listed.len() == wanted.len());
    for (frame, first) in listed.iter().zip(wanted) {
        assert!(rt; frame.first.as_slice() == *first);
    }
}

/// The frame that is listed at this place is of this flow, and came at this time.
fn expect_frame(rt: &impl Abort, listed: &[LonelyFrame], place: usize, flow: usize, time: u64) {
    match listed.get(place) {
        Some(frame) => assert!(rt; frame.flow == flow && frame.time == time),
        None => assert!(rt; false),
    }
}

/// In which order the sides give their next frames.
const ORDERS: [[Side; 6]; 6] = [
    [Analyser, Analyser, Analyser, Here, Here, Here],
    [Here, Here, Here, Analyser, Analyser, Analyser],
    [Analyser, Here, Analyser, Here, Analyser, Here],
    [Here, Analyser, Here, Analyser, Here, Analyser],
    [Analyser, Here, Here, Analyser, Analyser, Here],
    [Here, Here, Analyser, Analyser, Analyser, Here],
];

#[test]
fn equal_frames_are_equal_in_any_order_of_arrival(rt: HostRuntime) -> Result<(), Fail> {
    let frames: [&[u8]; 3] = [b"one", b"two", b"three"];
    for order in ORDERS {
        let mut comparison = FrameComparison::new(rt.alloc(), 1)?;
        let mut of_analyser = frames.iter();
        let mut of_here = frames.iter();
        for side in order {
            let next = match side {
                Analyser => of_analyser.next(),
                Here => of_here.next(),
            };
            comparison.take(rt.alloc(), side, 0, 5, next.unwrap_or(&frames[0]), &[]);
        }
        comparison.finish(rt.alloc());
        expect_counts(&rt, &comparison, &[counts(3, 0, 0)]);
        assert!(rt; comparison.lonely(Analyser).is_empty());
        assert!(rt; comparison.lonely(Here).is_empty());
    }
    Ok(())
}

#[test]
fn frame_that_one_side_lacks_is_told(rt: HostRuntime) -> Result<(), Fail> {
    let lacking_here = compared(
        rt.alloc(),
        1,
        &[
            Came(Analyser, 0, b"one"),
            Came(Analyser, 0, b"two"),
            Came(Here, 0, b"one"),
            Came(Analyser, 0, b"three"),
            Came(Here, 0, b"three"),
        ],
    )?;
    expect_counts(&rt, &lacking_here, &[counts(2, 1, 0)]);
    expect_firsts(&rt, lacking_here.lonely(Analyser), &[b"two"]);
    expect_frame(&rt, lacking_here.lonely(Analyser), 0, 0, 1_000_000_000);
    let lacking_there = compared(
        rt.alloc(),
        1,
        &[
            Came(Here, 0, b"one"),
            Came(Here, 0, b"two"),
            Came(Analyser, 0, b"two"),
            Came(Here, 0, b"three"),
        ],
    )?;
    expect_counts(&rt, &lacking_there, &[counts(1, 0, 2)]);
    expect_firsts(&rt, lacking_there.lonely(Here), &[b"one", b"three"]);
    Ok(())
}

#[test]
fn last_byte_and_length_tell_frames_apart(rt: HostRuntime) -> Result<(), Fail> {
    let pairs: [(&[u8], &[u8]); 4] = [
        (b"abcdefghijklmnopqr", b"abcdefghijklmnopqs"),
        (b"abc", b"abcd"),
        (b"abcd", b"abc"),
        (b"", b"a"),
    ];
    for (one, other) in pairs {
        let comparison = compared(
            rt.alloc(),
            1,
            &[Came(Analyser, 0, one), Came(Here, 0, other)],
        )?;
        expect_counts(&rt, &comparison, &[counts(0, 1, 1)]);
    }
    let empty = compared(rt.alloc(), 1, &[Came(Here, 0, b""), Came(Analyser, 0, b"")])?;
    expect_counts(&rt, &empty, &[counts(1, 0, 0)]);
    Ok(())
}

/// One frame of the analyser, and one that is joined here.
fn two_compared(alloc: Global, one: &[u8], other: &[u8]) -> Result<FrameComparison, AllocError> {
    compared(alloc, 1, &[Came(Analyser, 0, one), Came(Here, 0, other)])
}

/// The first so many bytes.
fn front(bytes: &[u8], count: usize) -> &[u8] {
    bytes.get(..count).unwrap_or_default()
}

/// The first frame that is listed has this length and begins so.
fn expect_shown(rt: &impl Abort, listed: &[LonelyFrame], length: usize, first: &[u8]) {
    match listed.first() {
        Some(frame) => {
            assert!(rt; frame.length == length);
            assert!(rt; frame.first.as_slice() == first);
        }
        None => assert!(rt; false),
    }
}

/// A MAC frame has 65,541 bytes at most.
#[test]
fn frame_that_nobody_sent_equals_none(rt: HostRuntime) -> Result<(), Fail> {
    let long = vec![in rt.alloc(); 7u8; 65_542]?;
    let sent = front(&long, 65_541);
    let equal = two_compared(rt.alloc(), sent, sent)?;
    expect_counts(&rt, &equal, &[counts(1, 0, 0)]);
    for length in [65_542, 65_541, 16] {
        let unequal = two_compared(rt.alloc(), &long, front(&long, length))?;
        expect_counts(&rt, &unequal, &[counts(0, 1, 1)]);
        expect_shown(&rt, unequal.lonely(Analyser), 65_542, front(&long, 16));
    }
    Ok(())
}

#[test]
fn repeats_are_counted_one_by_one(rt: HostRuntime) -> Result<(), Fail> {
    let comparison = compared(
        rt.alloc(),
        1,
        &[
            Came(Analyser, 0, b"same"),
            Came(Analyser, 0, b"same"),
            Came(Analyser, 0, b"same"),
            Came(Here, 0, b"same"),
            Came(Here, 0, b"same"),
        ],
    )?;
    expect_counts(&rt, &comparison, &[counts(2, 1, 0)]);
    expect_frame(&rt, comparison.lonely(Analyser), 0, 0, 2_000_000_000);
    Ok(())
}

#[test]
fn own_frames_that_wait_are_given_up_at_an_equal(rt: HostRuntime) -> Result<(), Fail> {
    let comparison = compared(
        rt.alloc(),
        1,
        &[
            Came(Analyser, 0, b"alone"),
            Came(Here, 0, b"ours"),
            Came(Analyser, 0, b"ours"),
            Came(Here, 0, b"alone"),
        ],
    )?;
    expect_counts(&rt, &comparison, &[counts(1, 1, 1)]);
    Ok(())
}

#[test]
fn flows_do_not_touch(rt: HostRuntime) -> Result<(), Fail> {
    let comparison = compared(
        rt.alloc(),
        3,
        &[
            Came(Analyser, 0, b"one"),
            Came(Here, 1, b"one"),
            Came(Here, 2, b"two"),
            Came(Analyser, 2, b"two"),
            Came(Analyser, 3, b"three"),
            Came(Here, usize::MAX, b"four"),
        ],
    )?;
    expect_counts(
        &rt,
        &comparison,
        &[counts(0, 1, 0), counts(0, 0, 1), counts(1, 0, 0)],
    );
    expect_frame(&rt, comparison.lonely(Analyser), 0, 0, 0);
    expect_frame(&rt, comparison.lonely(Here), 0, 1, 1_000_000_000);
    let none = compared(rt.alloc(), 0, &[Came(Here, 0, b"one")])?;
    expect_counts(&rt, &none, &[]);
    Ok(())
}

#[test]
fn first_of_1025_that_wait_is_given_up(rt: HostRuntime) -> Result<(), Fail> {
    let mut comparison = FrameComparison::new(rt.alloc(), 1)?;
    for number in 0..1024u16 {
        comparison.take(
            rt.alloc(),
            Here,
            0,
            u64::from(number),
            &number.to_be_bytes(),
            &[],
        );
    }
    expect_counts(&rt, &comparison, &[counts(0, 0, 0)]);
    comparison.take(rt.alloc(), Here, 0, 1024, &1024u16.to_be_bytes(), &[]);
    expect_counts(&rt, &comparison, &[counts(0, 0, 1)]);
    expect_firsts(&rt, comparison.lonely(Here), &[&[0, 0]]);
    for number in 0..1025u16 {
        comparison.take(
            rt.alloc(),
            Analyser,
            0,
            2000,
            &number.to_be_bytes(),
            &[u64::from(number), 7],
        );
    }
    comparison.finish(rt.alloc());
    expect_counts(&rt, &comparison, &[counts(1024, 1, 1)]);
    let named = comparison.lonely(Analyser).first();
    assert!(rt; named.is_some_and(|frame| frame.bursts.as_slice() == [0, 7].as_slice()));
    Ok(())
}

#[test]
fn first_hundred_are_listed(rt: HostRuntime) -> Result<(), Fail> {
    for count in [99u16, 100, 101, 300] {
        let mut comparison = FrameComparison::new(rt.alloc(), 2)?;
        for number in 0..count {
            let flow = usize::from(number % 2);
            comparison.take(
                rt.alloc(),
                Analyser,
                flow,
                u64::from(number),
                &number.to_be_bytes(),
                &[],
            );
            comparison.take(
                rt.alloc(),
                Here,
                1 - flow,
                u64::from(number),
                &number.to_be_bytes(),
                &[],
            );
        }
        comparison.finish(rt.alloc());
        let odd = u64::from(count / 2);
        let even = u64::from(count) - odd;
        expect_counts(
            &rt,
            &comparison,
            &[counts(0, even, odd), counts(0, odd, even)],
        );
        let listed = comparison.lonely(Analyser);
        assert!(rt; listed.len() == usize::from(count).min(100));
        assert!(rt; comparison.lonely(Here).len() == listed.len());
        expect_frame(&rt, listed, 0, 0, 0);
        expect_frame(&rt, listed, 1, 0, 2);
    }
    Ok(())
}

#[test]
fn sixteen_bytes_are_told(rt: HostRuntime) -> Result<(), Fail> {
    let long = [7u8; 40];
    for length in [0, 1, 15, 16, 17, 40] {
        let comparison = compared(rt.alloc(), 1, &[Came(Here, 0, &long[..length])])?;
        let listed = comparison.lonely(Here);
        let Some(frame) = listed.first() else {
            return Err(Fail::from(AllocError));
        };
        assert!(rt; listed.len() == 1);
        assert!(rt; frame.length == length);
        assert!(rt; frame.first.as_slice() == &long[..length.min(16)]);
    }
    Ok(())
}

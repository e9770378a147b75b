//! What no clause says: that the definitions give the answers that were worked out by hand.
mod failed_allocations;

use loss_rule::{LastNumbers, slid_to};
use std::alloc::{AllocError, Global};
use std::process::Abort;
use std::test::Fail;

/// A call, with the expected answer.
#[derive(Clone, Copy)]
enum Step {
    /// A number comes on a channel.
    Note(usize, u16),
    /// The flow expects this number now.
    Expects(u16),
    /// The number to which every channel has come.
    Passed(Option<u16>),
}

use Step::{Expects, Note, Passed};

/// Plays the steps of a flow that expects this number at first.
fn play(
    rt: &impl Abort,
    alloc: Global,
    name: &str,
    (channels, first): (&[bool], u16),
    steps: &[Step],
) -> Result<(), AllocError> {
    assert!(rt; first < 8192);
    let mut lasts = LastNumbers::new(alloc, channels, first)?;
    for step in steps {
        match *step {
            Note(channel, number) => {
                assert!(rt; number < 8192);
                lasts.note(channel, number);
            }
            Expects(number) => {
                assert!(rt; number < 8192);
                lasts.come_to(number);
            }
            Passed(answer) => assert!(rt; lasts.passed_by_all() == answer, "{name}"),
        }
    }
    Ok(())
}

#[test]
fn least_by_offset(rt: HostRuntime) -> Result<(), Fail> {
    let rows: [(&str, u16, &[Step]); 4] = [
        (
            "over the wrap",
            8189,
            &[Note(0, 8190), Note(1, 3), Passed(Some(8190))],
        ),
        (
            "the expected number itself is not passed over",
            5,
            &[Note(0, 7), Note(1, 5), Passed(None)],
        ),
        (
            "what is come past is dropped, and the channel holds back until it brings something",
            0,
            &[
                Note(0, 5),
                Note(1, 9),
                Passed(Some(5)),
                Expects(6),
                Passed(None),
                Note(0, 11),
                Passed(Some(9)),
            ],
        ),
        (
            "a number behind is none",
            0,
            &[Note(0, 5), Note(1, 9), Note(1, 8191), Passed(None)],
        ),
    ];
    for (name, first, steps) in rows {
        play(&rt, rt.alloc(), name, (&[true, true], first), steps)?;
    }
    Ok(())
}

/// Places are counted anew once the expected one is above 61,440.
#[test]
fn counted_anew(rt: HostRuntime) -> Result<(), Fail> {
    let rows: [(&str, &[Step]); 3] = [
        (
            "what lies ahead stays",
            &[
                Note(0, 4101),
                Note(1, 4105),
                Expects(4098),
                Passed(Some(4101)),
                Expects(4102),
                Passed(None),
            ],
        ),
        (
            "what is come past is dropped",
            &[
                Note(0, 4101),
                Note(1, 4105),
                Expects(4102),
                Passed(None),
                Note(0, 4110),
                Passed(Some(4105)),
            ],
        ),
        (
            "all is come past",
            &[Note(0, 4101), Note(1, 4105), Expects(4095), Passed(None)],
        ),
    ];
    for (name, steps) in rows {
        let mut all = Vec::new(rt.alloc());
        all.push(Expects(4096))?;
        for _ in 0..7 {
            all.push(Expects(0))?;
            all.push(Expects(4096))?;
        }
        all.extend_from_slice(steps)?;
        play(&rt, rt.alloc(), name, (&[true, true], 0), &all)?;
    }
    Ok(())
}

#[test]
fn who_holds_back(rt: HostRuntime) -> Result<(), Fail> {
    let came = [Note(0, 5), Note(2, 9)];
    let rows: [(&str, [bool; 3], Option<u16>); 4] = [
        ("not one without identifier", [true, false, true], Some(5)),
        ("one that never brought anything", [true, true, true], None),
        ("one channel alone", [false, false, true], Some(9)),
        ("no channel", [false, false, false], None),
    ];
    for (name, channels, answer) in rows {
        let [first, second] = came;
        let steps = [first, second, Passed(answer)];
        play(&rt, rt.alloc(), name, (&channels, 0), &steps)?;
    }
    Ok(())
}

#[test]
fn slides(rt: HostRuntime) -> Result<(), Fail> {
    let rows = [
        ("the last of the window", 0, 4, 3, None),
        ("the first beyond", 0, 4, 4, Some(1)),
        ("in the window over the wrap", 8190, 4, 1, None),
        ("beyond it over the wrap", 8190, 4, 2, Some(8191)),
        ("furthest ahead", 0, 4, 4095, Some(4092)),
        ("behind", 0, 4, 4096, None),
        ("a window of one", 9, 1, 12, Some(12)),
        ("the widest window", 9, 4096, 4104, None),
    ];
    for (name, expected, width, number, answer) in rows {
        assert!(&rt; expected < 8192 && number < 8192 && width >= 1 && width <= 4096);
        assert!(&rt; slid_to(expected, width, number) == answer, "{name}");
    }
    Ok(())
}

//! Where flows begin and begin anew.
use crate::handed::told;
use capture_rules::{Arrival, BEGINNING, Beginning, Begun, HandedOn, MOST_WAITING};
use std::test::Fail;

/// A silence lasts for more than so many nanoseconds.
const WAIT: u64 = 1000;

/// A burst that is handed on as it came.
fn one(time: u64, number: u16) -> HandedOn<u64> {
    HandedOn {
        time,
        arrival: Arrival {
            time,
            channel: 0,
            number: number % 8192,
            item: u64::from(number),
        },
    }
}

/// What a beginning has come to: its first number, whether it is anew, and how many were kept.
fn come_to(begun: Option<Begun<u64>>) -> Option<(u16, bool, usize)> {
    let begun = begun?;
    Some((begun.first, begun.is_anew, begun.kept.len()))
}

#[test]
fn a_first_number_is_the_least(rt: HostRuntime) -> Result<(), Fail> {
    let mut flow = Beginning::new(rt.alloc(), WAIT, false);
    assert!(rt; flow.end(rt.alloc()).is_none());
    for (time, number) in [
        (0, 3),
        (WAIT * 2, 1),
        (BEGINNING - 1, 8190),
        (BEGINNING, 8191),
    ] {
        assert!(rt; flow.end_at(rt.alloc(), time).is_none());
        assert!(rt; !flow.is_silent(time));
        assert!(rt; flow.hand_on(one(time, number), 0, 16)?.is_none());
    }
    let begun = come_to(flow.end_at(rt.alloc(), BEGINNING + 1));
    assert!(rt; begun == Some((8190, false, 4)));
    let next = flow.hand_on(one(BEGINNING + 1, 9), 4, 16)?;
    assert!(rt; told(next) == Some((BEGINNING + 1, 9)));
    Ok(())
}

#[test]
fn after_a_silence_a_flow_goes_on_or_begins_anew(rt: HostRuntime) -> Result<(), Fail> {
    let mut flow = Beginning::new(rt.alloc(), WAIT, true);
    assert!(rt; !flow.is_silent(7));
    assert!(rt; flow.hand_on(one(7, 500), 0, 16)?.is_some());
    // No silence, or within the window.
    assert!(rt; !flow.is_silent(WAIT + 7));
    assert!(rt; flow.is_silent(WAIT + 8));
    assert!(rt; flow.hand_on(one(WAIT + 7, 16), 0, 16)?.is_some());
    assert!(rt; flow.hand_on(one(WAIT * 9, 15), 0, 16)?.is_some());
    // After a silence, and out of the window.
    assert!(rt; flow.hand_on(one(WAIT * 18, 16), 0, 16)?.is_none());
    assert!(rt; !flow.is_silent(WAIT * 90));
    assert!(rt; flow.hand_on(one(WAIT * 90, 1), 0, 16)?.is_none());
    assert!(rt; come_to(flow.end(rt.alloc())) == Some((1, true, 2)));
    assert!(rt; flow.end(rt.alloc()).is_none());
    Ok(())
}

#[test]
fn times_that_go_back_are_no_silence(rt: HostRuntime) -> Result<(), Fail> {
    let mut flow = Beginning::new(rt.alloc(), WAIT, true);
    assert!(rt; flow.hand_on(one(u64::MAX, 1), 1, 1)?.is_some());
    assert!(rt; !flow.is_silent(0));
    assert!(rt; flow.hand_on(one(0, 9), 1, 1)?.is_some());
    assert!(rt; flow.is_silent(u64::MAX));
    Ok(())
}

#[test]
fn a_beginning_is_over_with_so_many(rt: HostRuntime) -> Result<(), Fail> {
    let mut flow = Beginning::new(rt.alloc(), WAIT, false);
    for number in 0..2048_u16 {
        assert!(rt; flow.end_at(rt.alloc(), 7).is_none());
        assert!(rt; flow.hand_on(one(7, number ^ 1), 0, 16)?.is_none());
    }
    let begun = come_to(flow.end_at(rt.alloc(), 7));
    assert!(rt; begun == Some((0, false, MOST_WAITING)));
    Ok(())
}

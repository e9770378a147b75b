//! The order on each channel.
use crate::handed::{Handed, told};
use capture_rules::{Arrival, ChannelOrder, ClockCounts, MOST_WAITING};
use std::alloc::{AllocError, Global};
use std::test::Fail;

/// Bursts wait for so many nanoseconds.
const REORDER: u64 = 100;

/// What is handed on of bursts that come so: when, on which channel, under which number. After the
/// last one comes all that waits.
fn handed_on(alloc: Global, came: &[(u64, usize, u16)]) -> Result<Vec<Handed>, AllocError> {
    let mut order = ChannelOrder::new(alloc, REORDER);
    let mut handed = Vec::new(alloc);
    let mut item = 0;
    for (time, channel, number) in came {
        for _ in 0..=item {
            match told(order.next(*time)) {
                Some(next) => handed.push(next)?,
                None => break,
            }
        }
        let last = order.push(Arrival {
            time: *time,
            channel: *channel,
            number: *number % 8192,
            item,
        })?;
        if let Some(next) = told(last) {
            handed.push(next)?;
        }
        item = item.wrapping_add(1);
    }
    for _ in came {
        match told(order.next_left()) {
            Some(next) => handed.push(next)?,
            None => break,
        }
    }
    Ok(handed)
}

#[test]
fn neighbours_change_places(rt: HostRuntime) -> Result<(), Fail> {
    let handed = handed_on(rt.alloc(), &[(0, 1, 8), (10, 1, 7), (20, 1, 9)])?;
    assert!(rt; handed.as_slice() == [(0, 1), (0, 0), (20, 2)].as_slice());
    Ok(())
}

#[test]
fn numbers_begin_again(rt: HostRuntime) -> Result<(), Fail> {
    let handed = handed_on(rt.alloc(), &[(0, 1, 0), (10, 1, 8191), (20, 1, 8190)])?;
    assert!(rt; handed.as_slice() == [(0, 2), (0, 1), (0, 0)].as_slice());
    Ok(())
}

#[test]
fn channels_keep_their_places(rt: HostRuntime) -> Result<(), Fail> {
    let handed = handed_on(rt.alloc(), &[(0, 1, 8), (10, 2, 7), (20, 2, 6), (30, 1, 5)])?;
    assert!(rt; handed.as_slice() == [(0, 3), (0, 0), (10, 2), (10, 1)].as_slice());
    Ok(())
}

#[test]
fn none_from_after_a_silence(rt: HostRuntime) -> Result<(), Fail> {
    // The second came within 100 ns of the first, and the third didn't.
    let handed = handed_on(rt.alloc(), &[(0, 1, 9), (100, 1, 8), (101, 1, 1)])?;
    assert!(rt; handed.as_slice() == [(0, 1), (0, 0), (101, 2)].as_slice());
    Ok(())
}

#[test]
fn of_one_number_the_first(rt: HostRuntime) -> Result<(), Fail> {
    let handed = handed_on(rt.alloc(), &[(0, 1, 9), (1, 1, 8), (2, 1, 8)])?;
    assert!(rt; handed.as_slice() == [(0, 1), (0, 2), (0, 0)].as_slice());
    Ok(())
}

#[test]
fn it_waits_for_longer_than_that(rt: HostRuntime) -> Result<(), Fail> {
    let mut order = ChannelOrder::new(rt.alloc(), REORDER);
    let last = order.push(Arrival {
        time: 5,
        channel: 0,
        number: 4,
        item: 3,
    })?;
    assert!(rt; last.is_none());
    assert!(rt; order.next(0).is_none());
    assert!(rt; order.next(105).is_none());
    assert!(rt; order.len() == 1);
    assert!(rt; told(order.next(106)) == Some((5, 3)));
    assert!(rt; order.next(u64::MAX).is_none());
    assert!(rt; order.next_left().is_none());
    Ok(())
}

#[test]
fn an_earlier_burst_counts_as_of_the_time_before(rt: HostRuntime) -> Result<(), Fail> {
    // The third is earlier than the second, and by no more than 100 ns.
    let handed = handed_on(
        rt.alloc(),
        &[(0, 1, 3), (200, 1, 5), (100, 1, 4), (301, 1, 6)],
    )?;
    assert!(rt; handed.as_slice() == [(0, 0), (200, 2), (200, 1), (301, 3)].as_slice());
    Ok(())
}

#[test]
fn all_that_waits_goes_where_the_clock_is_set_back(rt: HostRuntime) -> Result<(), Fail> {
    // The third is earlier by 101 ns, and the fourth comes within 100 ns of it.
    let handed = handed_on(
        rt.alloc(),
        &[(500, 1, 4), (501, 1, 3), (400, 1, 9), (450, 1, 8)],
    )?;
    assert!(rt; handed.as_slice() == [(500, 1), (500, 0), (400, 3), (400, 2)].as_slice());
    Ok(())
}

#[test]
fn so_many_wait_where_the_clock_stands_still(rt: HostRuntime) -> Result<(), Fail> {
    let mut order = ChannelOrder::new(rt.alloc(), REORDER);
    for item in 0..5000_u64 {
        assert!(rt; order.next(7).is_none());
        // Neighbours come the other way round.
        let last = order.push(Arrival {
            time: 7,
            channel: 0,
            number: ((item ^ 1) % 8192) as u16,
            item,
        })?;
        match item.checked_sub(2048) {
            None => assert!(rt; last.is_none()),
            Some(passed) => {
                let next = last.ok_or("the oldest one")?;
                assert!(rt; u64::from(next.arrival.number) == passed);
                assert!(rt; next.arrival.item == passed ^ 1);
            }
        }
    }
    assert!(rt; order.len() == MOST_WAITING);
    let counts = ClockCounts {
        set_back: 0,
        crowded: 5000 - 2048,
    };
    assert!(rt; order.clock_counts() == counts);
    Ok(())
}

#[test]
fn how_often_a_clock_is_set_back_is_counted(rt: HostRuntime) -> Result<(), Fail> {
    let mut order = ChannelOrder::new(rt.alloc(), REORDER);
    // The second is no earlier than it may be; the third and the last are.
    for (number, time) in [500, 400, 399, 399, 900, 799].iter().enumerate() {
        for _ in 0..=number {
            let _ = order.next(*time);
        }
        let last = order.push(Arrival {
            time: *time,
            channel: 0,
            number: number as u16,
            item: 0_u64,
        })?;
        assert!(rt; last.is_none());
    }
    let counts = ClockCounts {
        set_back: 2,
        crowded: 0,
    };
    assert!(rt; order.clock_counts() == counts);
    assert!(rt; order.len() == 1);
    let both = ClockCounts {
        set_back: u64::MAX,
        crowded: 7,
    };
    assert!(rt; counts.and(both) == both);
    assert!(rt; ClockCounts::none().and(counts) == counts);
    Ok(())
}

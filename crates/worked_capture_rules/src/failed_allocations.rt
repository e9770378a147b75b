//! Each allocation is refused once: what was handed in is given back, and all is as it was.
use crate::handed::told;
use capture_rules::{Arrival, Beginning, ChannelOrder, HandedOn, HeldTime, HeldTimes};
use std::alloc::AllocError;
use std::test::Fail;

/// A burst that comes at time 0 on channel 0.
fn arrival(number: u16) -> Arrival<u64> {
    Arrival {
        time: 0,
        channel: 0,
        number: number % 8192,
        item: u64::from(number),
    }
}

#[test]
fn a_burst_waits_the_next_time(rt: HostRuntime) -> Result<(), Fail> {
    let mut order = ChannelOrder::new(rt.alloc(), 0);
    for number in 0..20_u16 {
        if let Err(back) = order.push(arrival(number)) {
            assert!(rt; order.len() == usize::from(number));
            assert!(rt; back.value.item == u64::from(number));
            assert!(rt; order.push(back.value)?.is_none());
        }
        assert!(rt; order.len() == usize::from(number) + 1);
    }
    assert!(rt; told(order.next_left()) == Some((0, 0)));
    Ok(())
}

#[test]
fn many_bursts_are_handed_on_after_a_refusal(rt: HostRuntime) -> Result<(), Fail> {
    let mut order = ChannelOrder::new(rt.alloc(), 0);
    // Greatest numbers first, and then more while they are handed on.
    for number in 0..200_u16 {
        if let Err(back) = order.push(arrival(200_u16.wrapping_sub(number))) {
            assert!(rt; order.len() == usize::from(number));
            assert!(rt; order.push(back.value)?.is_none());
        }
    }
    for number in 1..=200_u16 {
        assert!(rt; told(order.next_left()) == Some((0, u64::from(number))));
        // There is room for as many as waited, so nothing is asked for.
        let pushed = order.push(arrival(number.wrapping_add(200)));
        assert!(rt; matches!(pushed, Ok(None)));
        assert!(rt; order.len() == 200);
    }
    for number in 201..=400_u64 {
        assert!(rt; told(order.next_left()) == Some((0, number)));
    }
    assert!(rt; order.next_left().is_none());
    Ok(())
}

#[test]
fn a_burst_is_kept_the_next_time(rt: HostRuntime) -> Result<(), Fail> {
    let mut flow = Beginning::new(rt.alloc(), 0, false);
    for number in 0..20_u16 {
        let one = HandedOn {
            time: 0,
            arrival: arrival(number),
        };
        if let Err(back) = flow.hand_on(one, 0, 1) {
            assert!(rt; back.value.arrival.item == u64::from(number));
            assert!(rt; flow.hand_on(back.value, 0, 1)?.is_none());
        }
    }
    let kept = flow.end(rt.alloc()).ok_or("a flow that began")?.kept;
    assert!(rt; kept.len() == 20);
    Ok(())
}

#[test]
fn a_number_is_kept_the_next_time(rt: HostRuntime) -> Result<(), Fail> {
    let mut held = HeldTimes::new(rt.alloc(), 0);
    let mut last = None;
    for number in 1..20 {
        let one = HeldTime { number, time: 0 };
        if held.keep(one) == Err(AllocError) {
            assert!(rt; held.skip_to(1, 0) == last);
            held.keep(one)?;
        }
        last = Some(number);
        assert!(rt; held.skip_to(1, 0) == last);
    }
    Ok(())
}

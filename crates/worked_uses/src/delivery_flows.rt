//! Two flows, one of which has no frame, go through the calls from end to end.
use delivery::ring;
use std::alloc::AllocError;
use std::test::Fail;
use uses::delivery_flows::{begin, settle_all, take_all};

#[test]
fn two_flows(rt: HostRuntime) -> Result<(), Fail> {
    let alloc = rt.alloc();
    let (mut first, first_taker) = ring(alloc, 4)?;
    let (second, second_taker) = ring(alloc, 4)?;
    let frame = [1_u8, 2, 3].to_vec(alloc)?;
    first.offer(frame).map_err(|_| AllocError)?;
    let Ok(first) = first.close() else {
        panic!(&rt; "the feeder came back");
    };
    let Ok(second) = second.close() else {
        panic!(&rt; "the feeder came back");
    };
    let takers = Vec::from_array(alloc, [first_taker, second_taker])?;
    let feeders = Vec::from_array(alloc, [first, second])?;
    let all = take_all(&rt, begin(alloc, takers)?);
    let taken = settle_all(alloc, feeders, all).ok_or("out of memory")?;
    assert!(rt; taken.len() == 2);
    assert!(rt; taken[0].len() == 1);
    assert!(rt; taken[0][0].as_slice() == [1, 2, 3].as_slice());
    assert!(rt; taken[1].is_empty());
    Ok(())
}

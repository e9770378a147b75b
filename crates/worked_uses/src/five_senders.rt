//! What no clause says: that five workers and their taker end, at little and at ample room.
use mailbox::OpenFault;
use std::alloc::{AllocError, Global};
use std::process::Abort;
use std::test::Fail;
use uses::five_senders::{Gathered, Lists, gather};

const EACH: u32 = 2_000;

// The numbers of one sender.
fn numbers(alloc: Global) -> Result<Vec<u32>, AllocError> {
    let mut numbers = Vec::new(alloc);
    for number in 0..EACH {
        numbers.push(number)?;
    }
    Ok(numbers)
}

fn five_lists(alloc: Global) -> Result<Lists<u32>, AllocError> {
    Ok(Lists {
        l0: numbers(alloc)?,
        l1: numbers(alloc)?,
        l2: numbers(alloc)?,
        l3: numbers(alloc)?,
        l4: numbers(alloc)?,
    })
}

// Of each sender all numbers are there, in order.
fn check(rt: &impl Abort, gathered: &Gathered<u32>) {
    let mut next = [0; 5];
    for (from, item) in gathered.order.iter().zip(&gathered.items) {
        let expected = next
            .get_mut(usize::from(*from))
            .expect(rt, "a sender below 5");
        assert!(rt; *item == *expected);
        assert!(rt; *expected < EACH);
        *expected += 1;
    }
    assert!(rt; next == [EACH; 5]);
}

#[test]
fn at_each_capacity(rt: HostRuntime) -> Result<(), Fail> {
    for capacity in [1, 2, 16, 1_024] {
        check(
            &rt,
            &gather(rt, rt.alloc(), capacity, five_lists(rt.alloc())?)?,
        );
    }
    Ok(())
}

#[test]
fn no_room(rt: HostRuntime) -> Result<(), Fail> {
    let gathered = gather(rt, rt.alloc(), 0, five_lists(rt.alloc())?);
    assert!(rt; matches!(gathered, Err(OpenFault::NoCapacity)));
    Ok(())
}

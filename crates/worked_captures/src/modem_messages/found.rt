//! What messages tell.
use super::{change, first, second, told_by_change, told_by_response, whole};
use registrations::{Told, ToldFault, UpstreamFlow, read_part, told_by};
use std::test::Fail;

#[test]
fn what_a_message_tells(rt: HostRuntime) -> Result<(), Fail> {
    let part = read_part(whole()).ok().ok_or("a part")?;
    let told = told_by(rt.alloc(), part.tlvs)?;
    assert!(rt; told.as_slice() == told_by_response().as_slice());
    let part = read_part(change()).ok().ok_or("a part")?;
    let told = told_by(rt.alloc(), part.tlvs)?;
    assert!(rt; told.as_slice() == told_by_change().as_slice());
    Ok(())
}

#[test]
fn the_tlvs_of_all_parts_stand_end_to_end(rt: HostRuntime) -> Result<(), Fail> {
    let mut tlvs = Vec::new(rt.alloc());
    let front = read_part(first()).ok().ok_or("a part")?;
    tlvs.extend_from_slice(front.tlvs)?;
    let cut = told_by(rt.alloc(), &tlvs);
    assert!(rt; cut.err() == Some(ToldFault::Malformed));
    let back = read_part(second()).ok().ok_or("a part")?;
    tlvs.extend_from_slice(back.tlvs)?;
    let told = told_by(rt.alloc(), &tlvs)?;
    assert!(rt; told.as_slice() == told_by_response().as_slice());
    Ok(())
}

/// A flow of which nothing is said.
const NOTHING: UpstreamFlow = UpstreamFlow {
    reference: None,
    sfid: None,
    sid: None,
    policy: None,
};

#[test]
fn messages_that_tell_nothing_or_little(rt: HostRuntime) -> Result<(), Fail> {
    let nothing: [&[u8]; 5] = [
        &[],
        &[18, 1, 7],
        &[200, 0],
        &[47, 6, 1, 4, 0, 0, 0, 100],
        &[47, 11, 1, 4, 0, 0, 0, 100, 2, 3, 1, 1, 0],
    ];
    for tlvs in nothing {
        let told = told_by(rt.alloc(), tlvs)?;
        assert!(rt; told.is_empty());
    }
    let told = told_by(rt.alloc(), &[24, 0, 24, 3, 4, 1, 9])?;
    assert!(rt; told.as_slice() == [Told::Flow(NOTHING), Told::Flow(NOTHING)].as_slice());
    let told = told_by(rt.alloc(), &[24, 8, 3, 2, 0, 7, 3, 2, 1, 8])?;
    let last = UpstreamFlow {
        sid: Some(264),
        ..NOTHING
    };
    assert!(rt; told.as_slice() == [Told::Flow(last)].as_slice());
    Ok(())
}

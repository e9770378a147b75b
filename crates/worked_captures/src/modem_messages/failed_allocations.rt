//! Each allocation is refused once: it is reported, and what is asked again gives what a first call
//! gives.
use super::joined::take;
use super::{first, second, told_by_response, whole};
use registrations::{JoinFault, ToldFault, Unfinished, WholeMessage, read_part, told_by};
use std::alloc::Global;
use std::test::Fail;

#[test]
fn what_a_message_tells(rt: HostRuntime) -> Result<(), Fail> {
    let part = read_part(whole()).ok().ok_or("a part")?;
    let told = match told_by(rt.alloc(), part.tlvs) {
        Ok(told) => told,
        Err(fault) => {
            assert!(rt; fault == ToldFault::OutOfMemory);
            told_by(rt.alloc(), part.tlvs)?
        }
    };
    assert!(rt; told.as_slice() == told_by_response().as_slice());
    Ok(())
}

/// What comes of both parts of a message, up to the first that is refused.
fn both_parts(
    alloc: Global,
    unfinished: &mut Unfinished,
) -> Result<Option<WholeMessage>, JoinFault> {
    match take(alloc, unfinished, first())? {
        Some(message) => Ok(Some(message)),
        None => take(alloc, unfinished, second()),
    }
}

#[test]
fn a_message_in_two_parts(rt: HostRuntime) -> Result<(), Fail> {
    let mut unfinished = Unfinished::new(rt.alloc());
    let joined = match both_parts(rt.alloc(), &mut unfinished) {
        Ok(joined) => joined,
        Err(fault) => {
            assert!(rt; fault == JoinFault::OutOfMemory);
            both_parts(rt.alloc(), &mut unfinished)?
        }
    };
    assert!(rt; joined.is_some_and(|message| message.tlvs.len() == 149));
    Ok(())
}

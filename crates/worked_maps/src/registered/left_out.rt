//! Messages that tell nothing, and what a map can't say.
use super::{ACCEPTED, ADD, DELETE, TIME, message, text_of, told};
use registered_map::{MOST_REMARKS, RegisteredMap};
use registrations::MessageName;
use std::alloc::{AllocError, Global};
use std::test::Fail;

#[test]
fn a_refused_registration_tells_nothing(rt: HostRuntime) -> Result<(), Fail> {
    let mut map = RegisteredMap::new(rt.alloc());
    let refused = MessageName::RegRspMp {
        sid: 2,
        response: 1,
    };
    let message = message(rt.alloc(), refused, &[told(1, 0, 1, 1, ADD)])?;
    map.take(rt.alloc(), &message, TIME, 1)?;
    assert!(rt; map.is_empty());
    Ok(())
}

#[test]
fn a_malformed_message_tells_nothing(rt: HostRuntime) -> Result<(), Fail> {
    let mut map = RegisteredMap::new(rt.alloc());
    let malformed = message(
        rt.alloc(),
        ACCEPTED,
        &[told(1, 0, 1, 1, ADD), told(1, 0, 1, 1, 3)],
    )?;
    map.take(rt.alloc(), &malformed, TIME, 1)?;
    assert!(rt; map.is_empty());
    Ok(())
}

/// The lines of a text that begin so.
fn count_of(text: &[u8], front: &[u8]) -> usize {
    text.split(|byte| *byte == b'\n')
        .filter(|line| line.starts_with(front))
        .count()
}

/// A map of one message.
fn map_of(alloc: Global, all: &[[u8; 25]]) -> Result<Vec<u8>, AllocError> {
    let mut map = RegisteredMap::new(alloc);
    let message = message(alloc, ACCEPTED, all)?;
    map.take(alloc, &message, TIME, 1)?;
    text_of(alloc, &map)
}

#[test]
fn what_a_map_cannot_say_is_left_out(rt: HostRuntime) -> Result<(), Fail> {
    let mut all = Vec::new(rt.alloc());
    for channel in 0..17u8 {
        all.push(told(1, 7, 100 + channel, 16_383, ADD))?;
    }
    all.push(told(2, 8, 100, 1, ADD))?;
    all.push(told(2, 0, 100, 16_384, ADD))?;
    let text = map_of(rt.alloc(), &all)?;
    assert!(rt; count_of(&text, b"flow") == 1);
    assert!(rt; count_of(&text, b"flow 1 auto 1024 8") == 1);
    assert!(rt; count_of(&text, b"channel") == 16);
    assert!(rt; count_of(&text, b"channel 15 115") == 1);
    assert!(rt; count_of(&text, b"sid") == 16);
    assert!(rt; count_of(&text, b"# left out, as a map can't say it: ") == 3);
    Ok(())
}

#[test]
fn a_flow_has_its_greatest_cluster_and_a_channel_its_first_line(
    rt: HostRuntime,
) -> Result<(), Fail> {
    let text = map_of(
        rt.alloc(),
        &[
            told(1, 3, 9, 1, ADD),
            told(1, 0, 9, 1, ADD),
            told(1, 5, 9, 2, ADD),
            told(1, 1, 9, 2, ADD),
        ],
    )?;
    assert!(rt; count_of(&text, b"flow 1 auto 1024 6") == 1);
    assert!(rt; count_of(&text, b"channel") == 1);
    assert!(rt; count_of(&text, b"sid") == 2);
    Ok(())
}

#[test]
fn remarks_beyond_the_most_are_counted(rt: HostRuntime) -> Result<(), Fail> {
    let mut all = Vec::new(rt.alloc());
    for _ in 0..MOST_REMARKS + 3 {
        all.push(told(1, 0, 9, 1, DELETE))?;
    }
    let text = map_of(rt.alloc(), &all)?;
    assert!(rt; count_of(&text, b"# deleted later: ") == MOST_REMARKS);
    assert!(rt; count_of(&text, b"# and 3 more like these") == 1);
    assert!(rt; count_of(&text, b"flow") == 0);
    Ok(())
}

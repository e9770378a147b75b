//! Each allocation is refused once: a map stays as it was, and the message is taken the next time.
use super::{ACCEPTED, ADD, TEXT, TIME, message, text_of, told, two_messages};
use registered_map::RegisteredMap;
use std::test::Fail;

#[test]
fn a_map_is_made(rt: HostRuntime) -> Result<(), Fail> {
    let map = match two_messages(rt.alloc()) {
        Ok(map) => map,
        Err(_) => two_messages(rt.alloc())?,
    };
    let text = match text_of(rt.alloc(), &map) {
        Ok(text) => text,
        Err(_) => text_of(rt.alloc(), &map)?,
    };
    assert!(rt; text.as_slice() == TEXT);
    Ok(())
}

#[test]
fn a_message_is_taken_whole_or_not_at_all(rt: HostRuntime) -> Result<(), Fail> {
    let told = [told(1, 0, 9, 1, ADD), told(2, 0, 8, 1, ADD)];
    let message = match message(rt.alloc(), ACCEPTED, &told) {
        Ok(message) => message,
        Err(_) => return Ok(()),
    };
    let mut map = RegisteredMap::new(rt.alloc());
    if map.take(rt.alloc(), &message, TIME, 1).is_err() {
        assert!(rt; map.is_empty());
        map.take(rt.alloc(), &message, TIME, 1)?;
    }
    assert!(rt; !map.is_empty());
    Ok(())
}

//! Each allocation is refused once: it is reported, and the map is read the next time.
use super::{GOOD, is_good};
use capture_map::{MapFault, read_map};
use std::test::Fail;

#[test]
fn a_map_is_read(rt: HostRuntime) -> Result<(), Fail> {
    let map = match read_map(rt.alloc(), GOOD) {
        Ok(map) => map,
        Err(fault) => {
            assert!(rt; fault == MapFault::OutOfMemory);
            read_map(rt.alloc(), GOOD)?
        }
    };
    assert!(rt; is_good(&map));
    Ok(())
}

//! Maps of captures, line by line.
mod failed_allocations;

use capture_map::{CaptureMap, MapChannel, MapFault, MapFlow, MapKind, MapSid, read_map};
use std::alloc::Global;
use std::test::Fail;

/// A map of two flows over two channels, with all that separates words and lines.
const MAP: &[u8] = b"# two flows\n\
    flow 100 auto 1024 2\r\n\
    \n\
    flow 0101 08191 1 8\n\
    channel 0 17\tup\n";

/// The same without its fault.
const GOOD: &[u8] = b"# two flows\n\
    flow 100 auto 1024 2\r\n\
    \n\
    \t flow 0101 08191 1 8\n\
    channel 0 17\n\
    channel 15 4294967295\n\
    sid 0 256 0\n\
    sid 15 256 0 \n\
    #sid 15 256 0\n\
    sid 0 16383 1";

/// What it says.
fn is_good(map: &CaptureMap) -> bool {
    let flows = [
        MapFlow {
            sfid: 100,
            first: None,
            window: 1024,
            clusters: 2,
        },
        MapFlow {
            sfid: 101,
            first: Some(8191),
            window: 1,
            clusters: 8,
        },
    ];
    let channels = [
        MapChannel { channel: 0, id: 17 },
        MapChannel {
            channel: 15,
            id: 4_294_967_295,
        },
    ];
    let row = |channel: u8, sid: u16, flow: u16| MapSid { channel, sid, flow };
    let sids = [row(0, 256, 0), row(15, 256, 0), row(0, 16_383, 1)];
    map.flows.as_slice() == flows.as_slice()
        && map.channels.as_slice() == channels.as_slice()
        && map.sids.as_slice() == sids.as_slice()
}

#[test]
fn a_map_is_read(rt: HostRuntime) -> Result<(), Fail> {
    let map = read_map(rt.alloc(), GOOD)?;
    assert!(rt; is_good(&map));
    let empty = read_map(rt.alloc(), b"\n# nothing\n \t\n")?;
    assert!(rt; empty.flows.is_empty() && empty.channels.is_empty() && empty.sids.is_empty());
    let none = read_map(rt.alloc(), b"")?;
    assert!(rt; none.flows.is_empty());
    Ok(())
}

/// A text, the number of its faulty line, and its fault.
fn faulty() -> &'static [(&'static [u8], u64, MapKind)] {
    &[
        (MAP, 5, MapKind::FieldCount),
        (b"flows 1 0 1 1", 1, MapKind::UnknownLine),
        (b"Flow 1 0 1 1", 1, MapKind::UnknownLine),
        (b"\n\ngrant 0 1 1 1\n", 3, MapKind::UnknownLine),
        (b"flow", 1, MapKind::FieldCount),
        (b"flow 1 0 1", 1, MapKind::FieldCount),
        (b"flow 1 0 1 1 1", 1, MapKind::FieldCount),
        (b"sid 0 1", 1, MapKind::FieldCount),
        (b"channel 0", 1, MapKind::FieldCount),
        (b"flow 4294967296 0 1 1", 1, MapKind::BadNumber),
        (b"flow auto 0 1 1", 1, MapKind::BadNumber),
        (b"flow 1 8192 1 1", 1, MapKind::BadNumber),
        (b"flow 1 Auto 1 1", 1, MapKind::BadNumber),
        (b"flow 1 -1 1 1", 1, MapKind::BadNumber),
        (b"flow 1 0 0 1", 1, MapKind::BadNumber),
        (b"flow 1 0 4097 1", 1, MapKind::BadNumber),
        (b"flow 1 0 1 0", 1, MapKind::BadNumber),
        (b"flow 1 0 1 9", 1, MapKind::BadNumber),
        (b"channel 16 1", 1, MapKind::BadNumber),
        (b"channel 0 0x11", 1, MapKind::BadNumber),
        (b"sid 16 1 0", 1, MapKind::BadNumber),
        (b"sid 0 16384 0", 1, MapKind::BadNumber),
        (b"sid 0 1 16384", 1, MapKind::BadNumber),
        (b"flow 1 auto 1 1\nsid 0 1 0", 2, MapKind::UnknownChannel),
        (b"sid 0 1 7", 1, MapKind::UnknownChannel),
        (
            b"channel 0 1\nsid 0 1 0\nflow 1 auto 1 1",
            2,
            MapKind::UnknownFlow,
        ),
        (b"flow 7 auto 1 1\n\nflow 7 0 2 2", 3, MapKind::SameFlow),
        (b"channel 1 7\nchannel 1 8", 2, MapKind::SameChannel),
        (b"channel 1 7\nchannel 2 7", 2, MapKind::SameChannel),
        (
            b"flow 7 auto 1 1\nflow 8 auto 1 1\nchannel 1 7\nsid 1 9 0\nsid 1 9 1\nbad",
            5,
            MapKind::SameSid,
        ),
    ]
}

#[test]
fn the_first_faulty_line_is_reported(rt: HostRuntime) {
    for (text, number, why) in faulty() {
        let fault = read_map(rt.alloc(), text).err();
        let wanted = MapFault::Line {
            line: *number,
            kind: *why,
        };
        assert!(rt; fault == Some(wanted), "line {number}: {why:?}");
    }
}

/// A text of so many flows, each of another identifier.
fn flows(alloc: Global, count: u32) -> Result<Vec<u8>, std::alloc::AllocError> {
    let mut text = Vec::new(alloc);
    for sfid in 0..count {
        let line = format!(in alloc; "flow {sfid} auto 1 1\n")?;
        text.extend_from_slice(line.as_bytes())?;
    }
    Ok(text)
}

#[test]
fn as_many_flows_as_may_be(rt: HostRuntime) -> Result<(), Fail> {
    let text = flows(rt.alloc(), 16_384)?;
    let map = read_map(rt.alloc(), &text)?;
    assert!(rt; map.flows.len() == 16_384);
    let more = flows(rt.alloc(), 16_385)?;
    let wanted = MapFault::Line {
        line: 16_385,
        kind: MapKind::TooManyFlows,
    };
    assert!(rt; read_map(rt.alloc(), &more).err() == Some(wanted));
    Ok(())
}

#[test]
fn faults_in_words(rt: HostRuntime) -> Result<(), Fail> {
    let fault = read_map(rt.alloc(), b"channel 1 7\nchannel 1 8").err();
    let words = fault.ok_or("a fault")?.to_string(rt.alloc())?;
    assert!(rt; words.as_str() == "line 2: channel given before");
    let words = MapFault::OutOfMemory.to_string(rt.alloc())?;
    assert!(rt; words.as_str() == "out of memory");
    Ok(())
}

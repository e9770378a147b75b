//! Maps of messages.
mod failed_allocations;
mod left_out;

use capture_map::{MapChannel, MapFlow, MapSid, read_map};
use registered_map::{RegisteredMap, put_map};
use registrations::{MessageName, WholeMessage};
use std::alloc::{AllocError, Global};
use std::test::Fail;
use text_lines::TextBuffer;

/// A registration that is accepted.
const ACCEPTED: MessageName = MessageName::RegRspMp {
    sid: 2,
    response: 0,
};
/// The modem that is told.
const MODEM: u64 = 0x0200_0000_0001;
/// When it is told: one nanosecond after a second.
const TIME: u64 = 1_000_000_001;

/// Adds a SID, or deletes it.
const ADD: u8 = 1;

const DELETE: u8 = 2;

/// The TLV 47 that tells a SID of a flow's cluster on a channel.
fn told(sfid: u32, cluster: u8, channel: u8, sid: u16, action: u8) -> [u8; 25] {
    let [a, b, c, d] = sfid.to_be_bytes();
    let [high, low] = sid.to_be_bytes();
    [
        47, 23, 1, 4, a, b, c, d, 2, 15, 1, 1, cluster, 2, 10, 1, 1, channel, 2, 2, high, low, 3,
        1, action,
    ]
}

/// A message with such TLVs.
fn message(
    alloc: Global,
    message: MessageName,
    told: &[[u8; 25]],
) -> Result<WholeMessage, AllocError> {
    let mut tlvs = Vec::new(alloc);
    for one in told {
        tlvs.extend_from_slice(one)?;
    }
    Ok(WholeMessage {
        modem: MODEM,
        message,
        tlvs,
    })
}

/// The text of a map.
fn text_of(alloc: Global, map: &RegisteredMap) -> Result<Vec<u8>, AllocError> {
    let mut text = TextBuffer::new(alloc);
    put_map(&mut text, map);
    text.finish()
}

/// Two flows over two channels, one of two clusters, and then a change.
const TEXT: &[u8] = b"# modem 02:00:00:00:00:01 at 1.000000001, record 7, by REG-RSP-MP\n\
    flow 100 auto 1024 2\n\
    # modem 02:00:00:00:00:01 at 1.000000001, record 7, by REG-RSP-MP\n\
    flow 4294967295 auto 1024 1\n\
    # modem 02:00:00:00:00:01 at 1.000000001, record 7, by REG-RSP-MP\n\
    channel 0 17\n\
    # modem 02:00:00:00:00:01 at 1.000000001, record 7, by REG-RSP-MP\n\
    channel 1 255\n\
    # modem 02:00:00:00:00:01 at 1.000000001, record 7, by REG-RSP-MP\n\
    sid 0 256 0\n\
    # modem 02:00:00:00:00:01 at 1.000000001, record 7, by REG-RSP-MP\n\
    sid 1 16383 1\n\
    # modem 02:00:00:00:00:01 at 61.120000000, record 1000, by DBC-REQ, transaction 8\n\
    sid 1 300 0\n\
    # deleted later: upstream channel 17, SID 256, flow 100, cluster 0, \
    modem 02:00:00:00:00:01 at 61.120000000, record 1000, by DBC-REQ, transaction 8\n\
    # of another flow before: upstream channel 255, SID 16383, flow 100, cluster 0, \
    modem 02:00:00:00:00:01 at 61.120000000, record 1000, by DBC-REQ, transaction 8\n";

/// The map of these messages.
fn two_messages(alloc: Global) -> Result<RegisteredMap, AllocError> {
    let mut map = RegisteredMap::new(alloc);
    let first = message(
        alloc,
        ACCEPTED,
        &[
            told(100, 0, 17, 256, ADD),
            told(u32::MAX, 0, 255, 16_383, ADD),
        ],
    )?;
    map.take(alloc, &first, TIME, 7)?;
    let change = MessageName::DbcReq { transaction: 8 };
    let second = message(
        alloc,
        change,
        &[
            told(100, 0, 17, 256, DELETE),
            told(100, 1, 255, 300, ADD),
            told(100, 0, 255, 16_383, ADD),
        ],
    )?;
    map.take(alloc, &second, 61_120_000_000, 1000)?;
    Ok(map)
}

#[test]
fn two_messages_are_a_map(rt: HostRuntime) -> Result<(), Fail> {
    let map = two_messages(rt.alloc())?;
    assert!(rt; !map.is_empty());
    let text = text_of(rt.alloc(), &map)?;
    assert!(rt; text.as_slice() == TEXT);
    Ok(())
}

#[test]
fn the_text_is_read_as_that_map(rt: HostRuntime) -> Result<(), Fail> {
    let read = read_map(rt.alloc(), TEXT)?;
    let flow = |sfid: u32, clusters: u8| MapFlow {
        sfid,
        first: None,
        window: 1024,
        clusters,
    };
    let row = |channel: u8, sid: u16, flow: u16| MapSid { channel, sid, flow };
    let channels = [
        MapChannel { channel: 0, id: 17 },
        MapChannel {
            channel: 1,
            id: 255,
        },
    ];
    assert!(rt; read.flows.as_slice() == [flow(100, 2), flow(u32::MAX, 1)].as_slice());
    assert!(rt; read.channels.as_slice() == channels.as_slice());
    let sids = [row(0, 256, 0), row(1, 16_383, 1), row(1, 300, 0)];
    assert!(rt; read.sids.as_slice() == sids.as_slice());
    Ok(())
}

#[test]
fn no_messages_are_an_empty_map(rt: HostRuntime) -> Result<(), Fail> {
    let map = RegisteredMap::new(rt.alloc());
    assert!(rt; map.is_empty());
    assert!(rt; text_of(rt.alloc(), &map)?.is_empty());
    Ok(())
}

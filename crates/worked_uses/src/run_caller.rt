//! A frame that a running receiver gives.
use docsis_wire::{Bytes, NoCheck};
use flow_core::FlowRecord;
use std::alloc::Global;
use std::test::Fail;
use uplink::{Input, ListDecisions, ListSource, Setup, SidRow, Sources};
use uses::run_caller::receive;

/// A frame of eight bytes, cut in two.
const FRAME: &[u8] = &[0, 0, 0, 2, 0x11, 0x11, 0xaa, 0xbb];

const FIRST: &[u8] = &[0x80, 0, 0, 0, 0, 0, 0, 0, 0, 0, 0, 2, 0x11];

const SECOND: &[u8] = &[0, 0, 0, 8, 0, 0, 0, 0, 0x11, 0xaa, 0xbb];

/// A grant to this service identifier, and the burst that comes in it.
fn granted(alloc: Global, sid: u16, bytes: &[u8]) -> Result<ListSource, Fail> {
    let mut inputs = Vec::new(alloc);
    inputs.push(Input::Grant {
        number: 1,
        sid,
        bytes: 64,
    })?;
    inputs.push(Input::Burst {
        grant: 1,
        hcs_ok: true,
        bytes: Bytes::from(Vec::from_slice(alloc, bytes)?),
    })?;
    Ok(ListSource::new(inputs))
}

fn row(channel: u8, sid: u16) -> SidRow {
    SidRow {
        channel,
        sid,
        flow: 0,
    }
}

#[test]
fn receives_a_frame_in_two_segments_on_two_channels(rt: HostRuntime) -> Result<(), Fail> {
    let alloc = rt.alloc();
    let flow_record = FlowRecord {
        sfid: 1,
        first: 0,
        window: 16,
        clusters: 2,
        ring: 1,
    };
    let setup = Setup {
        flows: Vec::from_slice(alloc, &[flow_record])?,
        sids: Vec::from_slice(alloc, &[row(0, 1), row(1, 2)])?,
        mailbox: 1,
    };
    let sources = Sources {
        s0: granted(alloc, 1, FIRST)?,
        s1: granted(alloc, 2, SECOND)?,
        s2: ListSource::new(Vec::new(alloc)),
        s3: ListSource::new(Vec::new(alloc)),
    };
    let decisions = ListDecisions::new(Vec::new(alloc));
    let flows = receive(alloc, rt, setup, sources, decisions, NoCheck)?;
    assert!(rt; flows.len() == 1);
    assert!(rt; flows[0].frames.len() == 1);
    assert!(rt; flows[0].frames.get(0) == Some(FRAME));
    Ok(())
}

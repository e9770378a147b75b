//! What single lines of a trace say.
use crate::flow_lines::below_flows;
use flow_core::FlowRecord;
use lane::{Input, SidRow};
use receiver::{Decision, Lists, Setup};
use std::alloc::Global;
use std::test::Fail;
use texts::{ParseFault, Trace, parse_trace};

/// The capacity of each flow's ring.
const RING: u16 = 7;

fn trace_of(alloc: Global, input: &str) -> Result<Trace, ParseFault> {
    parse_trace(alloc, input.as_bytes(), RING, 1)
}

/// Flows: the identifier, the first number, the window and how many clusters.
const FLOWS: [(&str, u32, u16, u16, u8); 4] = [
    ("flow 100 0 16 2", 100, 0, 16, 2),
    ("flow 0 0 1 1", 0, 0, 1, 1),
    ("flow 4294967295 8191 4096 8", u32::MAX, 8191, 4096, 8),
    (" flow\t007  0008 0009\t0001 \r", 7, 8, 9, 1),
];

fn flows_of(alloc: Global, line: &str) -> Result<Vec<FlowRecord>, ParseFault> {
    let Setup { flows, .. } = trace_of(alloc, line)?.setup;
    Ok(flows)
}

#[test]
fn reads_flows(rt: HostRuntime) -> Result<(), Fail> {
    for (line, sfid, first, window, clusters) in &FLOWS {
        let record = FlowRecord {
            sfid: *sfid,
            first: *first,
            window: *window,
            clusters: *clusters,
            ring: RING,
        };
        let flows = flows_of(rt.alloc(), line)?;
        assert!(rt; flows.as_slice() == [record].as_slice(), "{line}");
    }
    Ok(())
}

/// Service identifiers: the channel, the identifier and the flow.
const SIDS: [(&str, u8, u16, usize); 3] = [
    ("sid 0 1 0", 0, 1, 0),
    ("sid 3 16383 63", 3, 16_383, 63),
    ("sid 01 0 02", 1, 0, 2),
];

/// The service identifiers of a line below 64 flows.
fn sids_of(alloc: Global, line: &str) -> Result<Vec<SidRow>, Fail> {
    let input = below_flows(alloc, 64, line)?;
    let Setup { sids, .. } = trace_of(alloc, &input)?.setup;
    Ok(sids)
}

#[test]
fn reads_sids(rt: HostRuntime) -> Result<(), Fail> {
    for (line, channel, sid, flow) in &SIDS {
        let row = SidRow {
            channel: *channel,
            sid: *sid,
            flow: *flow,
        };
        let sids = sids_of(rt.alloc(), line)?;
        assert!(rt; sids.as_slice() == [row].as_slice(), "{line}");
    }
    Ok(())
}

/// The one input of a trace and its channel, or `None` where it has more or none.
fn only_input(trace: &Trace) -> Option<(u8, &Input)> {
    let [channel] = trace.tags.as_slice() else {
        return None;
    };
    match trace.lists.inputs.get(usize::from(*channel))?.as_slice() {
        [input] => Some((*channel, input)),
        _ => None,
    }
}

/// Grants: the channel, the number, the service identifier and how many bytes.
const GRANTS: [(&str, (u8, u32, u16, u32)); 3] = [
    ("grant 0 1 1 13", (0, 1, 1, 13)),
    (
        "grant 3 4294967295 16383 4294967295",
        (3, u32::MAX, 16_383, u32::MAX),
    ),
    ("grant 2 0 0 0", (2, 0, 0, 0)),
];

/// What the one line of a trace says, if it is a grant.
fn grant_of(alloc: Global, line: &str) -> Result<Option<(u8, u32, u16, u32)>, ParseFault> {
    let trace = trace_of(alloc, line)?;
    match only_input(&trace) {
        Some((channel, Input::Grant { number, sid, bytes })) => {
            Ok(Some((channel, *number, *sid, *bytes)))
        }
        _ => Ok(None),
    }
}

#[test]
fn reads_grants(rt: HostRuntime) -> Result<(), Fail> {
    for (line, says) in &GRANTS {
        assert!(rt; grant_of(rt.alloc(), line)? == Some(*says), "{line}");
    }
    Ok(())
}

/// Bursts: the channel, the number of the grant, whether the check is right, and the bytes.
const BURSTS: [(&str, (u8, u32, bool), &[u8]); 6] = [
    (
        "burst 1 1 ok 8003aabb",
        (1, 1, true),
        &[0x80, 0x03, 0xaa, 0xbb],
    ),
    ("burst 3 4294967295 bad 00", (3, u32::MAX, false), &[0x00]),
    ("burst 0 0 bad -", (0, 0, false), &[]),
    (
        "burst 0 0 ok aBCdEF09",
        (0, 0, true),
        &[0xab, 0xcd, 0xef, 0x09],
    ),
    ("burst 0 0 ok 00ff", (0, 0, true), &[0x00, 0xff]),
    (
        "burst 0 0 ok aBcDeF09",
        (0, 0, true),
        &[0xab, 0xcd, 0xef, 0x09],
    ),
];

/// The number of a burst's grant, whether the check is right, and the bytes.
fn burst_of(input: &Input) -> Option<(u32, bool, &[u8])> {
    match input {
        Input::Grant { .. } => None,
        Input::Burst {
            grant,
            hcs_ok,
            bytes,
        } => Some((*grant, *hcs_ok, bytes.as_slice())),
    }
}

/// Whether this burst is all that a trace gives.
fn is_burst(trace: &Trace, says: (u8, u32, bool), written: &[u8]) -> bool {
    let (channel, grant, hcs_ok) = says;
    match only_input(trace) {
        Some((other, input)) => {
            other == channel && burst_of(input) == Some((grant, hcs_ok, written))
        }
        None => false,
    }
}

#[test]
fn reads_bursts(rt: HostRuntime) -> Result<(), Fail> {
    for (line, says, written) in &BURSTS {
        let trace = trace_of(rt.alloc(), line)?;
        assert!(rt; is_burst(&trace, *says, written), "{line}");
    }
    Ok(())
}

/// Decisions: the flow, and the number up to which segments are lost.
const GAPS: [(&str, usize, Option<u16>); 4] = [
    ("gap 0", 0, None),
    ("gap 63", 63, None),
    ("gap 0 0", 0, Some(0)),
    ("gap 063 08191", 63, Some(8191)),
];

/// The decisions of a line below 64 flows.
fn decisions_of(alloc: Global, line: &str) -> Result<Vec<Decision>, Fail> {
    let input = below_flows(alloc, 64, line)?;
    let Trace { lists, .. } = trace_of(alloc, &input)?;
    let Lists { decisions, .. } = lists;
    Ok(decisions)
}

#[test]
fn reads_gaps(rt: HostRuntime) -> Result<(), Fail> {
    for (line, flow, upto) in &GAPS {
        let decision = Decision {
            flow: *flow,
            upto: *upto,
        };
        let decisions = decisions_of(rt.alloc(), line)?;
        assert!(rt; decisions.as_slice() == [decision].as_slice(), "{line}");
    }
    Ok(())
}

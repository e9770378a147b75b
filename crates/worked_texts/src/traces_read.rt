//! What whole traces give.
use crate::flow_lines::below_flows;
use crate::text_samples::TRACE;
use flow_core::FlowRecord;
use lane::{Input, SidRow};
use receiver::{Decision, Lists, Setup};
use std::alloc::{AllocError, Global};
use std::process::Abort;
use std::test::Fail;
use texts::{ParseFault, Trace, parse_trace};

/// The trace of an input, with rings of nine entries and mailboxes of five.
fn trace_of(alloc: Global, input: &str) -> Result<Trace, ParseFault> {
    parse_trace(alloc, input.as_bytes(), 9, 5)
}

fn setup_of(alloc: Global, input: &str) -> Result<Setup, ParseFault> {
    let Trace { setup, .. } = trace_of(alloc, input)?;
    Ok(setup)
}

fn lists_of(alloc: Global, input: &str) -> Result<Lists, ParseFault> {
    let Trace { lists, .. } = trace_of(alloc, input)?;
    Ok(lists)
}

fn tags_of(alloc: Global, input: &str) -> Result<Vec<u8>, ParseFault> {
    let Trace { tags, .. } = trace_of(alloc, input)?;
    Ok(tags)
}

/// What came in, as a line of a trace says it, but for the channel.
fn line_of(alloc: Global, input: &Input) -> Result<String, AllocError> {
    match input {
        Input::Grant { number, sid, bytes } => {
            format!(in alloc; "grant {number} {sid} {bytes}\n")
        }
        Input::Burst {
            grant,
            hcs_ok,
            bytes,
        } => {
            let digits = hex::encode(alloc, bytes.as_slice())?;
            format!(in alloc; "burst {grant} {hcs_ok} {digits}\n")
        }
    }
}

/// What came in on a channel, in such lines.
fn lines_of(alloc: Global, inputs: &[Input]) -> Result<String, AllocError> {
    let mut text = String::new(alloc);
    for input in inputs {
        text.push_str(&line_of(alloc, input)?)?;
    }
    Ok(text)
}

/// The flow of the sample, and its service identifiers.
const FLOW: FlowRecord = FlowRecord {
    sfid: 100,
    first: 0,
    window: 16,
    clusters: 2,
    ring: 9,
};

const ROWS: [SidRow; 2] = [
    SidRow {
        channel: 0,
        sid: 1,
        flow: 0,
    },
    SidRow {
        channel: 1,
        sid: 2,
        flow: 0,
    },
];

#[test]
fn reads_the_setup(rt: HostRuntime) -> Result<(), Fail> {
    let setup = setup_of(rt.alloc(), TRACE)?;
    assert!(rt; setup.flows.as_slice() == [FLOW].as_slice());
    assert!(rt; setup.sids.as_slice() == ROWS.as_slice());
    assert!(rt; setup.mailbox == 5);
    Ok(())
}

/// A trace with decisions.
const DECIDED: &str = "flow 1 0 16 1\nflow 2 0 16 1\ngap 1\nburst 3 7 bad -\ngap 0 8191";

#[test]
fn reads_the_senders(rt: HostRuntime) -> Result<(), Fail> {
    let tags = tags_of(rt.alloc(), TRACE)?;
    assert!(rt; tags.as_slice() == [0, 1, 0, 1, 0, 0].as_slice());
    let tags = tags_of(rt.alloc(), DECIDED)?;
    assert!(rt; tags.as_slice() == [4, 3, 4].as_slice());
    Ok(())
}

/// What came in on each channel of the sample, and of the trace with decisions.
const CAME: [&str; 4] = [
    "grant 1 1 13\ngrant 2 1 13\nburst 1 true 80000000000000000000000211\n\
    burst 2 true 0000001000000000e02222ccdd\n",
    "grant 1 2 15\nburst 1 true 800300080000000011aabb01010003\n",
    "",
    "",
];

const CAME_WITH_DECISIONS: [&str; 4] = ["", "", "", "burst 7 false \n"];

/// This came in on each channel of a trace.
fn expect_inputs(
    rt: &impl Abort,
    alloc: Global,
    trace: &str,
    came: &[&str; 4],
) -> Result<(), Fail> {
    let lists = lists_of(alloc, trace)?;
    for (inputs, lines) in lists.inputs.iter().zip(came) {
        let text = lines_of(alloc, inputs)?;
        assert!(rt; text.as_str() == *lines);
    }
    Ok(())
}

#[test]
fn reads_what_came_in(rt: HostRuntime) -> Result<(), Fail> {
    expect_inputs(&rt, rt.alloc(), TRACE, &CAME)?;
    expect_inputs(&rt, rt.alloc(), DECIDED, &CAME_WITH_DECISIONS)
}

/// The decisions of that trace.
const DECISIONS: [Decision; 2] = [
    Decision {
        flow: 1,
        upto: None,
    },
    Decision {
        flow: 0,
        upto: Some(8191),
    },
];

#[test]
fn reads_decisions(rt: HostRuntime) -> Result<(), Fail> {
    let lists = lists_of(rt.alloc(), DECIDED)?;
    assert!(rt; lists.decisions.as_slice() == DECISIONS.as_slice());
    let lists = lists_of(rt.alloc(), TRACE)?;
    assert!(rt; lists.decisions.is_empty());
    Ok(())
}

/// Lines below some flows: how many flows, and how many service identifiers there are then.
const COUNTED: [(&str, u32, usize); 5] = [
    ("", 0, 0),
    ("\n# flow 1 0 16 1\n \t\r\n", 0, 0),
    ("sid 0 1 63", 64, 1),
    ("sid 0 1 0\nsid 1 1 0\nsid 2 1 1\nsid 3 1 0\n", 2, 4),
    ("sid 0 0 0\nsid 0 16383 0", 1, 2),
];

/// How many flows, service identifiers and tags a trace gives.
fn counts_of(alloc: Global, input: &str) -> Result<[usize; 3], ParseFault> {
    let trace = trace_of(alloc, input)?;
    Ok([
        trace.setup.flows.len(),
        trace.setup.sids.len(),
        trace.tags.len(),
    ])
}

#[test]
fn counts_flows_and_rows(rt: HostRuntime) -> Result<(), Fail> {
    for (lines, flows, rows) in &COUNTED {
        let input = below_flows(rt.alloc(), *flows, lines)?;
        let counts = counts_of(rt.alloc(), &input)?;
        assert!(rt; counts == [*flows as usize, *rows, 0], "{lines}");
    }
    Ok(())
}

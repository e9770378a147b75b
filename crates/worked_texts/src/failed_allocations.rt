//! The calls of the crates `texts` and `text_lines` where an allocation fails at one place of each
//! call. Each test takes out of memory as lawful there, says so by the word `refused`, and calls
//! again; where nothing failed it says nothing.
use crate::taken_lines::TakenLines;
use crate::text_samples::{
    FRAMES, FRAMES_AND_PIECES, REPORT, RULED_TRACE, SEGMENTS, SLID_REPORT, TRACE,
};
use docsis_wire::{Bytes, FillByte};
use flow_core::FlowCounts;
use lane::{LaneReport, Request};
use loss_rule::LossRule;
use receiver::{FlowOutcome, FrameList, Outcome};
use std::alloc::{AllocError, Global};
use std::process::Abort;
use std::test::Fail;
use text_lines::LineReader;
use texts::{
    ParseFault, TextFault, Trace, cut_lines, join_lines, parse_trace, replay_lines,
    replay_lines_by, report,
};

#[test]
fn join_lines_is_refused(rt: HostRuntime) -> Result<(), Fail> {
    let mut text = join_lines(rt.alloc(), SEGMENTS.as_bytes());
    if let Err(TextFault::OutOfMemory) = text {
        println!(rt; "refused")?;
        text = join_lines(rt.alloc(), SEGMENTS.as_bytes());
    }
    assert!(rt; text?.as_slice() == FRAMES.as_bytes());
    Ok(())
}

/// Cuts the frames of a copy of the input, which the call takes.
fn cut_copy(alloc: Global) -> Result<Vec<u8>, TextFault> {
    let input = Vec::from_slice(alloc, FRAMES_AND_PIECES.as_bytes())?;
    cut_lines(alloc, input, 0, FillByte::Zero)
}

#[test]
fn cut_lines_is_refused(rt: HostRuntime) -> Result<(), Fail> {
    let mut text = cut_copy(rt.alloc());
    if let Err(TextFault::OutOfMemory) = text {
        println!(rt; "refused")?;
        text = cut_copy(rt.alloc());
    }
    assert!(rt; text?.as_slice() == SEGMENTS.as_bytes());
    Ok(())
}

/// What an input comes to in pieces that cut each of its lines. A refused call is refused again.
fn take_cut_lines(rt: &impl Abort, alloc: Global) -> Result<Vec<u8>, ParseFault> {
    let mut taken = TakenLines::new(alloc);
    let mut reader = LineReader::new(alloc);
    for piece in b"one two\nthree four\nfive six".chunks(5) {
        if let Err(fault) = reader.take_piece(alloc, piece, &mut taken) {
            assert!(rt; reader.take_piece(alloc, b"", &mut taken) == Err(fault));
            return Err(fault);
        }
    }
    reader.finish(alloc, &mut taken)?;
    Ok(taken.text)
}

#[test]
fn line_reader_is_refused(rt: HostRuntime) -> Result<(), Fail> {
    let mut text = take_cut_lines(&rt, rt.alloc());
    if let Err(ParseFault::OutOfMemory) = text {
        println!(rt; "refused")?;
        text = take_cut_lines(&rt, rt.alloc());
    }
    assert!(rt; text?.as_slice() == b"one two|three four|five six|".as_slice());
    Ok(())
}

/// A flow with a row, a grant with its burst, and a decision.
const SHORT_TRACE: &[u8; 74] =
    b"flow 1 0 16 1\nsid 2 9 0\ngrant 2 4 9 8\nburst 2 4 ok 0102030405060708\ngap 0\n";

/// How many flows, service identifiers, inputs of channel 2 and decisions it gives, and its tags.
fn parse_short(alloc: Global) -> Result<([usize; 4], Vec<u8>), ParseFault> {
    let Trace { setup, lists, tags } = parse_trace(alloc, SHORT_TRACE, 1, 1)?;
    let [_, _, inputs, _] = &lists.inputs;
    let counts = [
        setup.flows.len(),
        setup.sids.len(),
        inputs.len(),
        lists.decisions.len(),
    ];
    Ok((counts, tags))
}

#[test]
fn parse_trace_is_refused(rt: HostRuntime) -> Result<(), Fail> {
    let mut parsed = parse_short(rt.alloc());
    if let Err(ParseFault::OutOfMemory) = parsed {
        println!(rt; "refused")?;
        parsed = parse_short(rt.alloc());
    }
    let (counts, tags) = parsed?;
    assert!(rt; counts == [1, 1, 2, 1]);
    assert!(rt; tags.as_slice() == [2, 2, 4].as_slice());
    Ok(())
}

/// The report of a copy of the trace, which the call takes.
fn replay_copy(alloc: Global) -> Result<Vec<u8>, TextFault> {
    replay_lines(alloc, Vec::from_slice(alloc, TRACE.as_bytes())?)
}

#[test]
fn replay_lines_is_refused(rt: HostRuntime) -> Result<(), Fail> {
    let mut text = replay_copy(rt.alloc());
    if let Err(TextFault::OutOfMemory) = text {
        println!(rt; "refused")?;
        text = replay_copy(rt.alloc());
    }
    assert!(rt; text?.as_slice() == REPORT.as_bytes());
    Ok(())
}

/// The report by the rule with the most to do of a copy of a trace.
fn replay_copy_by_rule(alloc: Global) -> Result<Vec<u8>, TextFault> {
    let input = Vec::from_slice(alloc, RULED_TRACE.as_bytes())?;
    replay_lines_by(LossRule::PassedOrSlid, alloc, input)
}

#[test]
fn replay_lines_by_is_refused(rt: HostRuntime) -> Result<(), Fail> {
    let mut text = replay_copy_by_rule(rt.alloc());
    if let Err(TextFault::OutOfMemory) = text {
        println!(rt; "refused")?;
        text = replay_copy_by_rule(rt.alloc());
    }
    assert!(rt; text?.as_slice() == SLID_REPORT.as_bytes());
    Ok(())
}

/// An outcome with two flows, a frame, a request and refusals.
fn sample_outcome(alloc: Global) -> Result<Outcome, AllocError> {
    let counts = FlowCounts {
        kept: 1,
        late: 2,
        repeat: 3,
        beyond: 4,
        lost: 5,
        frames: 6,
        skipped: u64::MAX,
    };
    let mut frames = FrameList::new(alloc);
    frames.push(Bytes::from(Vec::from_slice(alloc, &[0x0a, 0xff])?))?;
    let request = Request {
        channel: 1,
        flow: 0,
        cluster: 7,
        units: 65_535,
        sequence: 8191,
    };
    let lane = |admitted: u64| LaneReport {
        admitted,
        refused: Vec::new(alloc),
    };
    let refused = Vec::from_slice(alloc, &[6, 3, 10])?;
    Ok(Outcome {
        flows: vec![in alloc;
            FlowOutcome {
                sfid: 9,
                frames,
                counts
            },
            FlowOutcome {
                sfid: u32::MAX,
                frames: FrameList::new(alloc),
                counts
            },
        ]?,
        requests: [
            Vec::new(alloc),
            vec![in alloc; request, request]?,
            Vec::new(alloc),
            Vec::new(alloc),
        ],
        lanes: [
            lane(0),
            lane(u64::MAX),
            LaneReport {
                admitted: 2,
                refused,
            },
            lane(0),
        ],
        order: Vec::from_slice(alloc, &[1])?,
    })
}

/// The report of the outcome.
fn report_outcome(alloc: Global) -> Result<Vec<u8>, AllocError> {
    report(alloc, &sample_outcome(alloc)?)
}

#[test]
fn report_is_refused(rt: HostRuntime) -> Result<(), Fail> {
    let mut text = report_outcome(rt.alloc());
    if text.is_err() {
        println!(rt; "refused")?;
        text = report_outcome(rt.alloc());
    }
    let lines = "\
flow 0 9 kept 1 late 2 repeat 3 beyond 4 lost 5 frames 6 skipped 18446744073709551615
frame 0 0aff
flow 1 4294967295 kept 1 late 2 repeat 3 beyond 4 lost 5 frames 6 skipped 18446744073709551615
request 1 0 7 65535 8191
request 1 0 7 65535 8191
lane 0 admitted 0 refused -
lane 1 admitted 18446744073709551615 refused -
lane 2 admitted 2 refused 6 3 10
lane 3 admitted 0 refused -
";
    assert!(rt; text?.as_slice() == lines.as_bytes());
    Ok(())
}

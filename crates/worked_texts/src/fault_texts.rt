//! The words for faults.
use docsis_wire::CutFault;
use std::alloc::{AllocError, Global};
use std::process::Abort;
use std::test::Fail;
use texts::{ParseFault, TextFault, TraceFault, TraceKind};

/// Each kind of a faulty line, and the words for it.
const KINDS: [(TraceKind, &str); 12] = [
    (TraceKind::UnknownLine, "unknown line"),
    (TraceKind::SetupLate, "setup after input"),
    (TraceKind::FieldCount, "wrong number of fields"),
    (TraceKind::BadNumber, "bad number"),
    (TraceKind::BadWord, "not ok or bad"),
    (TraceKind::NotHex, "not hexadecimal"),
    (TraceKind::UnknownFlow, "unknown flow"),
    (TraceKind::TooManyFlows, "too many flows"),
    (TraceKind::SameFlow, "flow given before"),
    (TraceKind::SameSid, "sid given before"),
    (TraceKind::TooShort, "too short"),
    (TraceKind::PointerPast, "pointer past the end"),
];

/// A faulty line is shown so by itself, as the fault of a trace, and as that of a text.
fn expect_three_times(
    rt: &impl Abort,
    alloc: Global,
    fault: TraceFault,
    line: &str,
) -> Result<(), AllocError> {
    assert!(rt; fault.to_string(alloc)?.as_str() == line);
    assert!(rt; ParseFault::Line(fault).to_string(alloc)?.as_str() == line);
    assert!(rt; TextFault::Trace(fault).to_string(alloc)?.as_str() == line);
    Ok(())
}

#[test]
fn shows_each_kind_of_a_faulty_line(rt: HostRuntime) -> Result<(), Fail> {
    for (kind, words) in &KINDS {
        assert!(rt; kind.text() == *words);
        let line = format!(in rt.alloc(); "line 7: {words}")?;
        let fault = TraceFault {
            line: 7,
            kind: *kind,
        };
        expect_three_times(&rt, rt.alloc(), fault, &line)?;
    }
    Ok(())
}

/// Faults of an input, and how they are shown.
const FAULTS: [(TextFault, &str); 5] = [
    (
        TextFault::Trace(TraceFault {
            line: u64::MAX,
            kind: TraceKind::NotHex,
        }),
        "line 18446744073709551615: not hexadecimal",
    ),
    (
        TextFault::Cut(CutFault::BadFrame(0)),
        "frame 0 is not a frame",
    ),
    (
        TextFault::Cut(CutFault::FillInsideFrame(1)),
        "piece 1 has fill inside a frame",
    ),
    (
        TextFault::Cut(CutFault::PointerTooFar(2)),
        "piece 2 has a pointer past 16383",
    ),
    (TextFault::OutOfMemory, "out of memory"),
];

#[test]
fn shows_each_fault_of_an_input(rt: HostRuntime) -> Result<(), Fail> {
    for (fault, words) in &FAULTS {
        let shown = fault.to_string(rt.alloc())?;
        assert!(rt; shown.as_str() == *words);
    }
    Ok(())
}

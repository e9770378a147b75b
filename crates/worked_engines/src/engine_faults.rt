//! The texts of faults.
use crate::fitful::{FitfulWriter, Full};
use docsis_wire::CutFault;
use engines::{Device, EngineFault, UsageFault, WriteFault, status, write_fault};
use std::alloc::{AllocError, Global};
use std::process::Abort;
use std::test::Fail;
use texts::{TraceFault, TraceKind};

/// Faults of lines, and how they are written.
const OF_LINES: [(u64, TraceKind, &str); 6] = [
    (1, TraceKind::UnknownLine, "line 1: unknown line"),
    (7, TraceKind::FieldCount, "line 7: wrong number of fields"),
    (10, TraceKind::BadNumber, "line 10: bad number"),
    (99, TraceKind::NotHex, "line 99: not hexadecimal"),
    (4096, TraceKind::TooShort, "line 4096: too short"),
    (
        u64::MAX,
        TraceKind::PointerPast,
        "line 18446744073709551615: pointer past the end",
    ),
];

/// Other faults, with their exit status, and how they are written.
const OTHERS: [(EngineFault, u8, &str); 8] = [
    (
        EngineFault::Cut(CutFault::BadFrame(0)),
        1,
        "frame 0 is not a frame",
    ),
    (
        EngineFault::Cut(CutFault::FillInsideFrame(12)),
        1,
        "piece 12 has fill inside a frame",
    ),
    (
        EngineFault::Cut(CutFault::PointerTooFar(usize::MAX)),
        1,
        "piece 18446744073709551615 has a pointer past 16383",
    ),
    (EngineFault::Cut(CutFault::OutOfMemory), 3, "out of memory"),
    (EngineFault::Usage, 2, "usage"),
    (EngineFault::OutOfMemory, 3, "out of memory"),
    (EngineFault::Read, 4, "read failed"),
    (EngineFault::Write, 4, "write failed"),
];

/// A fault has this exit status, and these words are written of it in a line that names the
/// program.
fn expect_line(
    rt: &impl Abort,
    alloc: Global,
    fault: EngineFault,
    code: u8,
    text: &str,
) -> Result<(), AllocError> {
    let mut written = Vec::new(alloc);
    let mut writer = Device::new(&mut written);
    assert!(rt; write_fault(&fault, &mut writer) == Ok(()), "{text}");
    writer.into_inner();
    let line = format!(in alloc; "segrx: {text}\n")?;
    assert!(rt; written.as_slice() == line.as_bytes(), "{text}");
    assert!(rt; status(&fault) == code, "{text}");
    Ok(())
}

#[test]
fn writes_the_faults_of_lines(rt: HostRuntime) -> Result<(), Fail> {
    for (line, kind, text) in OF_LINES {
        let fault = EngineFault::Trace(TraceFault { line, kind });
        expect_line(&rt, rt.alloc(), fault, 1, text)?;
    }
    Ok(())
}

#[test]
fn writes_other_faults(rt: HostRuntime) -> Result<(), Fail> {
    for (fault, code, text) in OTHERS {
        expect_line(&rt, rt.alloc(), fault, code, text)?;
    }
    Ok(())
}

#[test]
fn reports_that_a_line_cannot_be_written(rt: HostRuntime) {
    let mut written = Vec::new(rt.alloc());
    let mut writer = Device::new(FitfulWriter::new(&mut written, 3, Full::TakesNothing));
    let reported = write_fault(&EngineFault::Usage, &mut writer);
    assert!(rt; reported == Err(WriteFault));
    assert!(rt; writer.failed());
    writer.into_inner();
    assert!(rt; written.as_slice() == b"seg".as_slice());
}

/// Faults of engines, and how they are displayed.
const DISPLAYED: [(EngineFault, &str); 6] = [
    (
        EngineFault::Trace(TraceFault {
            line: 7,
            kind: TraceKind::TooShort,
        }),
        "line 7: too short",
    ),
    (
        EngineFault::Cut(CutFault::BadFrame(3)),
        "frame 3 is not a frame",
    ),
    (EngineFault::OutOfMemory, "out of memory"),
    (EngineFault::Read, "read failed"),
    (EngineFault::Write, "write failed"),
    (EngineFault::Usage, "usage"),
];

#[test]
fn displays_faults_of_engines(rt: HostRuntime) -> Result<(), Fail> {
    for (fault, text) in DISPLAYED {
        let shown = fault.to_string(rt.alloc())?;
        assert!(rt; shown.as_str() == text);
    }
    Ok(())
}

/// Faults of words, and how they are displayed.
const OF_WORDS: [(UsageFault, &str); 2] = [
    (UsageFault::Usage, "usage"),
    (UsageFault::OutOfMemory, "out of memory"),
];

#[test]
fn displays_other_faults(rt: HostRuntime) -> Result<(), Fail> {
    for (fault, text) in OF_WORDS {
        let shown = fault.to_string(rt.alloc())?;
        assert!(rt; shown.as_str() == text);
    }
    let shown = WriteFault.to_string(rt.alloc())?;
    assert!(rt; shown.as_str() == "write failed");
    Ok(())
}

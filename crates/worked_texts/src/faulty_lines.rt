//! Inputs with a faulty line.
use std::alloc::Global;
use std::process::Abort;
use texts::{ParseFault, TextFault, TraceFault, TraceKind, parse_trace};

/// An input is no trace, since this line of it is the first one with a fault, of this kind.
pub(crate) fn expect_no_trace(
    rt: &impl Abort,
    alloc: Global,
    input: &str,
    line: u64,
    kind: TraceKind,
) {
    let fault = parse_trace(alloc, input.as_bytes(), 1, 1).err();
    let wanted = ParseFault::Line(TraceFault { line, kind });
    assert!(rt; fault == Some(wanted), "{input}");
}

/// No text stands for an input, since this line of it is the first one with a fault, of this kind.
pub(crate) fn expect_no_text(
    rt: &impl Abort,
    text: Result<Vec<u8>, TextFault>,
    input: &str,
    line: u64,
    kind: TraceKind,
) {
    let wanted = TextFault::Trace(TraceFault { line, kind });
    assert!(rt; text.err() == Some(wanted), "{input}");
}

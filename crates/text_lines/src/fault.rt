//! Why an input was not read: the faults of a line and of an input, to which a failed allocation
//! and the faults of a segment and of a cut convert by `?`.
ghost use Rattle.std.specs.Prelude.{◌≡◌};
ghost use Rattle.text_lines.specs.Kinds.{kind_text};
ghost use Rattle.text_lines.specs.declared.fault.LineFault.TheVariants as line_fault;
ghost use Rattle.text_lines.specs.declared.fault.ParseFault.TheVariants as parse_fault;
ghost use Rattle.text_lines.specs.declared.fault.TextFault.TheVariants as text_fault;
ghost use Rattle.text_lines.specs.Inside.LineFault.{fault_at, line_fault_of_segment};
ghost use Rattle.text_lines.specs.Fault.{text_fault_of_cut, text_fault_of_parse};

use docsis_wire::{CutFault, SegmentFault};
use std::alloc::{AllocError, AllocFailed};
use thiserror::Error;

/// Why a line of an input cannot be read. Where a line has several faults, the first of these is
/// reported.
#[derive(Clone, Copy, Debug, PartialEq, Eq)]
pub enum TraceKind {
    /// The first word is none of the command's.
    UnknownLine,
    /// A line that sets a trace up stands after one that says what came in.
    SetupLate,
    /// There are too few or too many words.
    FieldCount,
    /// A number field is no number in its range.
    BadNumber,
    /// The word for a burst's check is neither `ok` nor `bad`.
    BadWord,
    /// A hexadecimal field is none.
    NotHex,
    /// No line above gives the flow that is named.
    UnknownFlow,
    /// There are 64 flows already.
    TooManyFlows,
    /// The service flow identifier stands in a line above.
    SameFlow,
    /// The channel and the service identifier stand in a line above.
    SameSid,
    /// A segment has fewer than the eight bytes of its header.
    TooShort,
    /// A segment's pointer leads past its payload.
    PointerPast,
}

impl TraceKind {
    /// The words for it in a fault's line.
    pub fn text(self) -> &'static str
        ensures { result.now ≡ kind_text self }
    {
        match self {
            TraceKind::UnknownLine => "unknown line",
            TraceKind::SetupLate => "setup after input",
            TraceKind::FieldCount => "wrong number of fields",
            TraceKind::BadNumber => "bad number",
            TraceKind::BadWord => "not ok or bad",
            TraceKind::NotHex => "not hexadecimal",
            TraceKind::UnknownFlow => "unknown flow",
            TraceKind::TooManyFlows => "too many flows",
            TraceKind::SameFlow => "flow given before",
            TraceKind::SameSid => "sid given before",
            TraceKind::TooShort => "too short",
            TraceKind::PointerPast => "pointer past the end",
        }
    }
}

/// A line that cannot be read.
#[derive(Clone, Copy, Debug, PartialEq, Eq, Error)]
#[error("line {line}: {}", .kind.text())]
pub struct TraceFault {
    /// Its number. Lines are numbered from 1, skipped ones included.
    pub line: u64,
    /// Why it cannot be read.
    pub kind: TraceKind,
}

/// Why an input's lines were not read.
#[derive(Clone, Copy, Debug, PartialEq, Eq, Error)]
pub enum ParseFault {
    /// A line of the input cannot be read. It is the first such line.
    #[error(transparent)]
    Line(TraceFault),
    /// An allocation failed.
    #[error("out of memory")]
    OutOfMemory,
}

/// Why no text stands for an input.
#[derive(Clone, Copy, Debug, PartialEq, Eq, Error)]
pub enum TextFault {
    /// A line of the input cannot be read.
    #[error(transparent)]
    Trace(TraceFault),
    /// The frames cannot be cut into their pieces. It is never `CutFault::OutOfMemory`.
    #[error(transparent)]
    Cut(CutFault),
    /// An allocation failed, or a thread of `run` could not be started.
    #[error("out of memory")]
    OutOfMemory,
}

/// Why a line was not read.
#[derive(Clone, Copy, Debug, PartialEq, Eq)]
pub enum LineFault {
    /// The line has a fault.
    Kind(TraceKind),
    /// An allocation failed.
    OutOfMemory,
}

impl LineFault {
    /// The fault of the input whose line of this number it is.
    pub fn at(self, line: u64) -> ParseFault
        ensures { result ≡ fault_at line self }
    {
        match self {
            LineFault::Kind(kind) => ParseFault::Line(TraceFault { line, kind }),
            LineFault::OutOfMemory => ParseFault::OutOfMemory,
        }
    }
}

impl From<AllocError> for LineFault {
    ghost from_gives = { λ _ fault. fault ≡ line_fault.OutOfMemory };

    fn from(_: AllocError) -> LineFault {
        LineFault::OutOfMemory
    }
}

impl<T: Drop> From<AllocFailed<T>> for LineFault {
    ghost from_gives = { λ _ fault. fault ≡ line_fault.OutOfMemory };

    fn from(_: AllocFailed<T>) -> LineFault {
        LineFault::OutOfMemory
    }
}

impl From<SegmentFault> for LineFault {
    ghost from_gives = { λ segment line. line ≡ line_fault_of_segment segment };

    fn from(fault: SegmentFault) -> LineFault {
        match fault {
            SegmentFault::TooShort => LineFault::Kind(TraceKind::TooShort),
            SegmentFault::PointerPast => LineFault::Kind(TraceKind::PointerPast),
            SegmentFault::OutOfMemory => LineFault::OutOfMemory,
        }
    }
}

impl From<AllocError> for ParseFault {
    ghost from_gives = { λ _ fault. fault ≡ parse_fault.OutOfMemory };

    fn from(_: AllocError) -> ParseFault {
        ParseFault::OutOfMemory
    }
}

impl From<ParseFault> for TextFault {
    ghost from_gives = { λ parse text. text ≡ text_fault_of_parse parse };

    fn from(fault: ParseFault) -> TextFault {
        match fault {
            ParseFault::Line(fault) => TextFault::Trace(fault),
            ParseFault::OutOfMemory => TextFault::OutOfMemory,
        }
    }
}

impl From<AllocError> for TextFault {
    ghost from_gives = { λ _ fault. fault ≡ text_fault.OutOfMemory };

    fn from(_: AllocError) -> TextFault {
        TextFault::OutOfMemory
    }
}

impl From<CutFault> for TextFault {
    ghost from_gives = { λ cut text. text ≡ text_fault_of_cut cut };

    fn from(fault: CutFault) -> TextFault {
        match fault {
            CutFault::OutOfMemory => TextFault::OutOfMemory,
            fault => TextFault::Cut(fault),
        }
    }
}

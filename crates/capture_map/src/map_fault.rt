//! Why a map is not read.
ghost use Rattle.std.specs.Prelude.{◌≡◌};
ghost use Rattle.capture_map.specs.Fault.{kind_text, fault_at};
ghost use Rattle.capture_map.specs.declared.map_fault.LineFault.TheVariants as line_fault;

use std::alloc::AllocFailed;
use thiserror::Error;

/// Why a line of a map can't be read. Where a line has several faults, the first of these is
/// reported.
#[derive(Clone, Copy, Debug, PartialEq, Eq)]
pub enum MapKind {
    /// The first word is none of `flow`, `channel` and `sid`.
    UnknownLine,
    /// There are too few or too many words.
    FieldCount,
    /// A field is no number in its range, nor `auto` where a first number stands.
    BadNumber,
    /// No line above gives the channel that is named.
    UnknownChannel,
    /// No line above gives the flow that is named.
    UnknownFlow,
    /// There are 16,384 flows already.
    TooManyFlows,
    /// The service flow identifier stands in a line above.
    SameFlow,
    /// The channel or the upstream channel id stands in a line above.
    SameChannel,
    /// The channel and the service identifier stand in a line above.
    SameSid,
}

impl MapKind {
    /// The words for it in a fault's line.
    pub fn text(self) -> &'static str
        ensures { result.now ≡ kind_text self }
    {
        match self {
            MapKind::UnknownLine => "unknown line",
            MapKind::FieldCount => "wrong number of fields",
            MapKind::BadNumber => "bad number",
            MapKind::UnknownChannel => "unknown channel",
            MapKind::UnknownFlow => "unknown flow",
            MapKind::TooManyFlows => "too many flows",
            MapKind::SameFlow => "flow given before",
            MapKind::SameChannel => "channel given before",
            MapKind::SameSid => "sid given before",
        }
    }
}

/// Why a map is not read.
#[derive(Clone, Copy, Debug, PartialEq, Eq, Error)]
pub enum MapFault {
    /// This line can't be read. It is the first such line; lines are numbered from 1, skipped ones
    /// included.
    #[error("line {line}: {}", .kind.text())]
    Line { line: u64, kind: MapKind },
    /// An allocation failed.
    #[error("out of memory")]
    OutOfMemory,
}

/// Why a line is not read.
#[derive(Clone, Copy, Debug, PartialEq, Eq)]
pub(crate) enum LineFault {
    /// The line has a fault.
    Kind(MapKind),
    /// An allocation failed.
    OutOfMemory,
}

impl LineFault {
    /// The fault of the map whose line of this number it is.
    pub(crate) fn at(self, line: u64) -> MapFault
        ensures { result ≡ fault_at line self }
    {
        match self {
            LineFault::Kind(kind) => MapFault::Line { line, kind },
            LineFault::OutOfMemory => MapFault::OutOfMemory,
        }
    }
}

impl From<MapKind> for LineFault {
    ghost from_gives = { λ kind fault. fault ≡ line_fault.Kind kind };

    fn from(kind: MapKind) -> LineFault {
        LineFault::Kind(kind)
    }
}

impl<T: Drop> From<AllocFailed<T>> for LineFault {
    ghost from_gives = { λ _ fault. fault ≡ line_fault.OutOfMemory };

    fn from(_: AllocFailed<T>) -> LineFault {
        LineFault::OutOfMemory
    }
}

//! A format for tests, of which each line is kept as it is.
use std::alloc::Global;
use text_lines::{LineFault, TakeLine, TraceKind};

/// The lines so far, each from its first field on and with `|` behind it. A line whose first field
/// is `bad` or `worse` has a fault.
#[derive(Drop)]
pub(crate) struct TakenLines {
    pub(crate) text: Vec<u8>,
}

impl TakenLines {
    pub(crate) fn new(alloc: Global) -> TakenLines {
        TakenLines {
            text: Vec::new(alloc),
        }
    }
}

impl TakeLine for TakenLines {
    ghost State = { Unit {0} };

    ghost format = { record { Takes = λ _ _ _. Unit {0}; HasFault = λ _ _ _. Unit {0} } };

    ghost stands_for = { λ _ _. Unit {0} };

    fn take_line(&mut self, _alloc: Global, field: &[u8], rest: &[u8]) -> Result<(), LineFault> {
        match field {
            b"bad" => Err(LineFault::Kind(TraceKind::UnknownLine)),
            b"worse" => Err(LineFault::Kind(TraceKind::PointerPast)),
            _ => {
                self.text.extend_from_slice(field)?;
                self.text.extend_from_slice(rest)?;
                self.text.push(b'|')?;
                Ok(())
            }
        }
    }
}

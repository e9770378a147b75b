//! Which headers of frames pass.
use docsis_wire::{HeaderCheck, HeaderSequence};

/// Which headers of frames pass.
#[derive(Clone, Copy, Debug, PartialEq, Eq)]
pub enum InnerCheck {
    /// Those that end with their header check sequence.
    Sequence,
    /// All.
    Nothing,
}

impl HeaderCheck for InnerCheck {
    ghost use Rattle.frame_engine.specs.Settings.{inner_accepts};

    ghost accepts = { inner_accepts };

    fn passes(&self, header: &[u8]) -> bool {
        match self {
            InnerCheck::Sequence => HeaderSequence.passes(header),
            InnerCheck::Nothing => true,
        }
    }
}

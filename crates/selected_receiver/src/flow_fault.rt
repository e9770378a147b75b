//! Why something isn't taken to the end.
ghost use Rattle.std.specs.Prelude.{◌≡◌};

use std::alloc::{AllocError, AllocFailed};
use thiserror::Error;

/// Why something isn't taken to the end. After it nothing more is to be taken.
#[derive(Clone, Copy, Debug, PartialEq, Eq, Error)]
pub enum FlowFault {
    /// The receiver has no such flow or no such channel, or a segment came of something that was to
    /// bring none of its flow.
    #[error("the receiver has no such flow or channel")]
    NotThere,
    /// An allocation failed.
    #[error("out of memory")]
    OutOfMemory,
}

impl From<AllocError> for FlowFault {
    ghost use Rattle.selected_receiver.specs.declared.flow_fault.FlowFault.TheVariants.{OutOfMemory};

    ghost from_gives = { λ _ fault. fault ≡ OutOfMemory };

    fn from(_: AllocError) -> FlowFault {
        FlowFault::OutOfMemory
    }
}

impl<T: Drop> From<AllocFailed<T>> for FlowFault {
    ghost use Rattle.selected_receiver.specs.declared.flow_fault.FlowFault.TheVariants.{OutOfMemory};

    ghost from_gives = { λ _ fault. fault ≡ OutOfMemory };

    fn from(_: AllocFailed<T>) -> FlowFault {
        FlowFault::OutOfMemory
    }
}

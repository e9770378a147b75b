//! What a receiver answers to what is handed in.
use bonded_flows::{NotReady, Told};
use lane::{Input, Refusal};
use std::alloc::AllocError;
use thiserror::Error;

/// What became of an input that was taken.
#[derive(Clone, Copy, Debug, PartialEq, Eq)]
pub enum Reply {
    /// A grant was accepted, and is outstanding.
    Granted,
    /// A burst was admitted, and its segment came to its flow.
    Admitted {
        /// The index of the flow's record.
        flow: usize,
        /// The segment's number, 0 to 8191.
        sequence: u16,
        /// What became of the segment.
        told: Told,
    },
    /// A grant or a burst was refused.
    Refused(Refusal),
}

/// Why an input isn't taken, or not to the end.
#[derive(Debug, Drop, Error)]
pub enum TakeError {
    /// The receiver has no such channel. Nothing changed, and the input is given back.
    #[error("the receiver has no such channel")]
    NoChannel(Input),
    /// The input isn't taken, and is given back: it can be handed in again. Its channel is as it
    /// was; of its flow no more was done than an earlier call had left to be done.
    #[error("the input is not taken: {1}")]
    NotTaken(Input, NotReady),
    /// The input is taken, and an allocation failed before all was given that is whole.
    /// [`Receiver::go_on`](crate::Receiver::go_on) gives what is left, and so does whatever comes
    /// to the flow next, before it is taken.
    #[error("the input is taken, and out of memory for flow {flow}")]
    Unfinished {
        /// The index of the flow's record.
        flow: usize,
    },
}

/// What became of a decision that was taken.
#[derive(Clone, Copy, Debug, PartialEq, Eq)]
pub enum DecisionReply {
    /// It was passed over: there is no such flow, or its number is above 8191.
    PassedOver,
    /// It came to its flow.
    Taken {
        /// Whether a segment is lost by it.
        lost: bool,
    },
}

/// Why a flow doesn't begin anew. The first of these is reported.
#[derive(Clone, Copy, Debug, PartialEq, Eq, Error)]
pub enum RestartError {
    /// The receiver has no such flow.
    #[error("the receiver has no such flow")]
    NoFlow,
    /// The number is above 8191.
    #[error("the first number is above 8191")]
    NumberRange,
    /// An allocation failed, and the flow doesn't begin anew: the call is to be made again. Until
    /// then the flow may be ready for nothing else.
    #[error("out of memory")]
    OutOfMemory,
}

impl From<AllocError> for RestartError {
    ghost use Rattle.std.specs.Prelude.{◌≡◌};
    ghost use Rattle.receiver.specs.declared.reply.RestartError.TheVariants.{OutOfMemory};

    ghost from_gives = { λ _ error. error ≡ OutOfMemory };

    fn from(_: AllocError) -> RestartError {
        RestartError::OutOfMemory
    }
}

//! What a receiver is set up with, and what comes in on its channels.
use crate::width::Width;
use flow_core::{FlowRecord, SetupFault, check_records};
use flow_records::{Decision, check_many_records};
use lane::{CHANNELS, Input, LaneFault, SidRow, check_rows, check_rows_within};
use std::alloc::{AllocError, Global};
use thiserror::Error;

/// What a receiver is set up with.
#[derive(Debug, Drop)]
pub struct Setup {
    /// The flows: at most 64 of recorded inputs and of a run, and as many as its [`Width`] says of
    /// a [`Receiver`](crate::Receiver). A flow's index is the place of its record.
    pub flows: Vec<FlowRecord>,
    /// The service identifiers of all channels.
    pub sids: Vec<SidRow>,
    /// How many entries each of the two mailboxes has room for, of all senders together and with
    /// their end marks: 1 to 65,535. A replay doesn't look at it.
    pub mailbox: u16,
}

/// Why a setup can't be used. The first of these is reported.
#[derive(Clone, Copy, Debug, PartialEq, Eq, Error)]
pub enum BadSetup {
    /// The flows can't be set up. It is never `SetupFault::OutOfMemory`.
    #[error(transparent)]
    Flows(SetupFault),
    /// The flows can, but the lanes can't be opened. It is never `LaneFault::OutOfMemory`.
    #[error(transparent)]
    Rows(LaneFault),
}

/// Why no receiver of some width is made of a setup. The first of these is reported, or in place of
/// an identifier that is given twice, or of a row's fault, that an allocation failed.
#[derive(Clone, Copy, Debug, PartialEq, Eq, Error)]
pub enum SetupError {
    /// The flows can't be set up. It is never `SetupFault::OutOfMemory`.
    #[error(transparent)]
    Flows(SetupFault),
    /// The flows can, but the lanes can't be opened. It is never `LaneFault::OutOfMemory`.
    #[error(transparent)]
    Rows(LaneFault),
    /// An allocation failed.
    #[error("out of memory")]
    OutOfMemory,
}

impl From<SetupFault> for SetupError {
    ghost use Rattle.std.specs.Prelude.{◌≡◌};
    ghost use Rattle.receiver.specs.Widths.{error_of_flows};

    ghost from_gives = { λ fault error. error ≡ error_of_flows fault };

    fn from(fault: SetupFault) -> SetupError {
        match fault {
            SetupFault::OutOfMemory => SetupError::OutOfMemory,
            found => SetupError::Flows(found),
        }
    }
}

impl From<LaneFault> for SetupError {
    ghost use Rattle.std.specs.Prelude.{◌≡◌};
    ghost use Rattle.receiver.specs.Widths.{error_of_rows};

    ghost from_gives = { λ fault error. error ≡ error_of_rows fault };

    fn from(fault: LaneFault) -> SetupError {
        match fault {
            LaneFault::OutOfMemory => SetupError::OutOfMemory,
            found => SetupError::Rows(found),
        }
    }
}

impl From<AllocError> for SetupError {
    ghost use Rattle.std.specs.Prelude.{◌≡◌};
    ghost use Rattle.receiver.specs.declared.setup.SetupError.TheVariants.{OutOfMemory};

    ghost from_gives = { λ _ error. error ≡ OutOfMemory };

    fn from(_: AllocError) -> SetupError {
        SetupError::OutOfMemory
    }
}

impl Setup {
    ghost use Rattle.std.specs.Prelude.{◌≡◌, ◌↔◌, IfErr, IfOk, Ok};
    ghost use Rattle.receiver.specs.Faults.{CanReceive, IsBadSetup};
    ghost use Rattle.receiver.specs.Widths.{CanReceiveWithin, IsSetupErrorWithin};

    /// Looks for the first fault of a setup. It takes no memory.
    pub fn check(&self) -> Result<(), BadSetup>
        ensures ok { (result ≡ Ok tt) ↔ CanReceive self.now }
        ensures fault { IfErr result (IsBadSetup self.now) }
    {
        check_records(&self.flows).map_err(BadSetup::Flows)?;
        check_rows(&self.sids, self.flows.len()).map_err(BadSetup::Rows)
    }

    /// Looks for the first fault of a setup, for a receiver of such a width: in about a step for
    /// each record and each row, with memory for a table of the identifiers.
    pub fn check_within(&self, alloc: Global, width: Width) -> Result<(), SetupError>
        ensures ok { IfOk result (λ _. CanReceiveWithin width.channels width.flows self.now) }
        ensures fault { IfErr result (IsSetupErrorWithin width.channels width.flows self.now) }
    {
        check_many_records(alloc, usize::from(width.flows()), &self.flows)?;
        check_rows_within(alloc, width.channels(), &self.sids, self.flows.len())?;
        Ok(())
    }
}

/// All that comes in: the inputs of each channel, in their order, and the decisions, in theirs.
#[derive(Debug, Drop)]
pub struct Lists {
    /// The inputs of the channels 0 to 3.
    pub inputs: [Vec<Input>; CHANNELS],
    /// The decisions.
    pub decisions: Vec<Decision>,
}

//! Why a receiver doesn't run, and which setups are run.
ghost use Rattle.std.specs.Prelude.{◌≡◌, ◌<◌, ◌↔◌, IfErr, IfOk, Ok};
ghost use Rattle.uplink.specs.Faults.{CanRun, IsRunFault, CanRunWithin, IsRunFaultWithin};

use flow_core::SetupFault;
use lane::LaneFault;
use receiver::{BadSetup, Setup, SetupError, Width};
use std::alloc::{AllocError, Global};
use thiserror::Error;

/// Why a receiver doesn't run. The first of these is reported.
#[derive(Clone, Copy, Debug, PartialEq, Eq, Error)]
pub enum RunFault {
    /// The flows can't be set up. It is never `SetupFault::OutOfMemory`.
    #[error(transparent)]
    Setup(SetupFault),
    /// The lanes can't be opened. It is never `LaneFault::OutOfMemory`.
    #[error(transparent)]
    Lane(LaneFault),
    /// The mailboxes have no room: their capacity is 0.
    #[error("a mailbox needs room for an entry")]
    NoCapacity,
    /// An allocation failed, or a thread could not be started.
    #[error("out of memory")]
    OutOfMemory,
}

impl From<AllocError> for RunFault {
    ghost use Rattle.std.specs.Prelude.{◌≡◌};
    ghost use Rattle.uplink.specs.declared.faults.RunFault.TheVariants.{OutOfMemory};

    ghost from_gives = { λ _ fault. fault ≡ OutOfMemory };

    fn from(_: AllocError) -> RunFault {
        RunFault::OutOfMemory
    }
}

impl From<BadSetup> for RunFault {
    ghost use Rattle.std.specs.Prelude.{◌≡◌};
    ghost use Rattle.uplink.specs.Faults.{run_fault_of};

    ghost from_gives = { λ bad fault. fault ≡ run_fault_of bad };

    fn from(bad: BadSetup) -> RunFault {
        match bad {
            BadSetup::Flows(fault) => RunFault::Setup(fault),
            BadSetup::Rows(fault) => RunFault::Lane(fault),
        }
    }
}

impl From<SetupError> for RunFault {
    ghost use Rattle.std.specs.Prelude.{◌≡◌};
    ghost use Rattle.uplink.specs.Faults.{run_fault_within};

    ghost from_gives = { λ error fault. fault ≡ run_fault_within error };

    fn from(error: SetupError) -> RunFault {
        match error {
            SetupError::Flows(fault) => RunFault::Setup(fault),
            SetupError::Rows(fault) => RunFault::Lane(fault),
            SetupError::OutOfMemory => RunFault::OutOfMemory,
        }
    }
}

/// Looks for the first fault of a setup that is to be run. It takes no memory.
pub fn check_setup(setup: &Setup) -> Result<(), RunFault>
    ensures ok { (result ≡ Ok tt) ↔ CanRun setup.now }
    ensures fault { IfErr result (IsRunFault setup.now) }
{
    setup.check()?;
    check_capacity(setup.mailbox)
}

/// Looks for the first fault of a setup that is to be run by a receiver of this width, with memory
/// for a table of the identifiers.
pub fn check_within(alloc: Global, width: Width, setup: &Setup) -> Result<(), RunFault>
    ensures ok { IfOk result (λ _. CanRunWithin width.channels width.flows setup.now) }
    ensures fault { IfErr result (IsRunFaultWithin width.channels width.flows setup.now) }
{
    setup.check_within(alloc, width)?;
    check_capacity(setup.mailbox)
}

/// Whether a mailbox of this capacity has room for an entry.
fn check_capacity(capacity: u16) -> Result<(), RunFault>
    ensures ok { (result ≡ Ok tt) ↔ (0 < capacity) }
    ensures fault { IfErr result (λ fault. (fault ≡ RunFault.NoCapacity) × (capacity ≡ 0)) }
{
    if capacity == 0 {
        return Err(RunFault::NoCapacity);
    }
    Ok(())
}

//! The faults of the engines and of the program, and the exit status of each outcome.
ghost use Rattle.std.specs.Prelude.{◌≡◌};
ghost use Rattle.engines.specs.declared.fault.EngineFault.TheVariants.{OutOfMemory, Write};
ghost use Rattle.engines.specs.Fault.{status_of, exit_status_of, usage_fault, fault_of_capture};
ghost use Rattle.text_lines.specs.Fault.{text_fault_of_parse};
ghost use Rattle.engines.specs.Engine.{engine_fault};

use capture::{CaptureFault, PcapFault, PcapngFault};
use command_line::UsageFault;
use docsis_wire::CutFault;
use std::alloc::AllocError;
use std::io;
use texts::{ParseFault, TextFault};
pub use texts::{TraceFault, TraceKind};
use thiserror::Error;

/// Why an engine, or the program, could not do its work.
#[derive(Clone, Copy, Debug, PartialEq, Eq, Error)]
pub enum EngineFault {
    /// A line of the input cannot be read.
    #[error(transparent)]
    Trace(TraceFault),
    /// Frames cannot be cut into their pieces. Out of memory is reported as `OutOfMemory`.
    #[error(transparent)]
    Cut(CutFault),
    /// A capture cannot be read. Out of memory is reported as `OutOfMemory`.
    #[error(transparent)]
    Capture(PlacedFault),
    /// An allocation failed, or a thread of `run` could not be started.
    #[error("out of memory")]
    OutOfMemory,
    /// The reader failed, or gave more than 268,435,456 bytes; to `follow` and `map`, more than
    /// 2^64 - 2.
    #[error("read failed")]
    Read,
    /// The writer failed.
    #[error("write failed")]
    Write,
    /// The program does not know its arguments.
    #[error("usage")]
    Usage,
}

/// The fault of a capture, and where it is.
#[derive(Clone, Copy, Debug, PartialEq, Eq, Error)]
#[error("after {records} records: {fault}")]
pub struct PlacedFault {
    /// How many records came before it. It stays at its greatest value.
    pub records: u64,
    pub fault: CaptureFault,
}

impl EngineFault {
    /// The fault of an engine whose capture has this one behind so many records.
    pub fn of_capture(fault: CaptureFault, records: u64) -> EngineFault
        ensures { result ≡ fault_of_capture fault records }
    {
        match fault {
            CaptureFault::Pcap(PcapFault::OutOfMemory)
            | CaptureFault::Pcapng(PcapngFault::OutOfMemory) => EngineFault::OutOfMemory,
            _ => EngineFault::Capture(PlacedFault { records, fault }),
        }
    }
}

impl From<AllocError> for EngineFault {
    ghost from_gives = { λ _ reported. reported ≡ OutOfMemory };

    fn from(_error: AllocError) -> EngineFault {
        EngineFault::OutOfMemory
    }
}

impl From<ParseFault> for EngineFault {
    ghost from_gives = { λ fault reported. reported ≡ engine_fault (text_fault_of_parse fault) };

    fn from(fault: ParseFault) -> EngineFault {
        EngineFault::from(TextFault::from(fault))
    }
}

impl From<TextFault> for EngineFault {
    ghost from_gives = { λ fault reported. reported ≡ engine_fault fault };

    fn from(fault: TextFault) -> EngineFault {
        match fault {
            TextFault::Trace(fault) => EngineFault::Trace(fault),
            TextFault::Cut(fault) => EngineFault::Cut(fault),
            TextFault::OutOfMemory => EngineFault::OutOfMemory,
        }
    }
}

impl From<UsageFault> for EngineFault {
    ghost from_gives = { λ fault reported. reported ≡ usage_fault fault };

    fn from(fault: UsageFault) -> EngineFault {
        match fault {
            UsageFault::Usage => EngineFault::Usage,
            UsageFault::OutOfMemory => EngineFault::OutOfMemory,
        }
    }
}

impl From<WriteFault> for EngineFault {
    ghost from_gives = { λ _ reported. reported ≡ Write };

    fn from(_fault: WriteFault) -> EngineFault {
        EngineFault::Write
    }
}

/// The writer failed.
#[derive(Clone, Copy, Debug, PartialEq, Eq, Error)]
#[error("write failed")]
pub struct WriteFault;

impl From<io::Error> for WriteFault {
    fn from(_error: io::Error) -> WriteFault {
        WriteFault
    }
}

/// The exit status of a fault: 1 to 4.
pub fn status(fault: &EngineFault) -> u8
    ensures { result ≡ status_of fault.now }
{
    match fault {
        EngineFault::OutOfMemory | EngineFault::Cut(CutFault::OutOfMemory) => 3,
        EngineFault::Trace(_) | EngineFault::Cut(_) | EngineFault::Capture(_) => 1,
        EngineFault::Usage => 2,
        EngineFault::Read | EngineFault::Write => 4,
    }
}

/// The exit status of an outcome: 0 where the work was done, and else that of the fault.
pub fn exit_status(outcome: &Result<(), EngineFault>) -> u8
    ensures { result ≡ exit_status_of outcome.now }
{
    match outcome {
        Ok(()) => 0,
        Err(fault) => status(fault),
    }
}

//! Why bytes are no pcap file that is read.
ghost use Rattle.std.specs.Prelude.{◌≡◌};
ghost use Rattle.capture.specs.declared.pcap_fault.PcapFault.TheVariants.{OutOfMemory};

use std::alloc::AllocError;
use thiserror::Error;

/// Why a pcap file is not read to its end.
#[derive(Clone, Copy, Debug, PartialEq, Eq, Error)]
pub enum PcapFault {
    /// The first 24 bytes don't begin with a magic number of pcap.
    #[error("not a pcap file")]
    NotPcap,
    /// A record is said to have more than 1 MiB.
    #[error("a record of more than 1 MiB")]
    RecordTooLong,
    /// The file ends within its header or within a record.
    #[error("the file ends within a record")]
    EndsInside,
    /// An allocation failed.
    #[error("out of memory")]
    OutOfMemory,
}

impl From<AllocError> for PcapFault {
    ghost from_gives = { λ _ fault. fault ≡ OutOfMemory };

    fn from(_: AllocError) -> PcapFault {
        PcapFault::OutOfMemory
    }
}

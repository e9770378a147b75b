//! Why bytes are no capture that is read, of whichever format.
ghost use Rattle.std.specs.Prelude.{◌≡◌};
ghost use Rattle.capture.specs.Captures.{fault_of_pcap, fault_of_pcapng};

use crate::pcap_fault::PcapFault;
use crate::pcapng_fault::PcapngFault;
use thiserror::Error;

/// Why a capture is not read to its end.
#[derive(Clone, Copy, Debug, PartialEq, Eq, Error)]
pub enum CaptureFault {
    /// The file begins as neither a pcap nor a pcapng file does, or has no bytes.
    #[error("neither a pcap nor a pcapng file")]
    NoCapture,
    /// The fault of a pcap file.
    #[error("{0}")]
    Pcap(PcapFault),
    /// The fault of a pcapng file.
    #[error("{0}")]
    Pcapng(PcapngFault),
}

impl From<PcapFault> for CaptureFault {
    ghost from_gives = { λ fault of_capture. of_capture ≡ fault_of_pcap fault };

    fn from(fault: PcapFault) -> CaptureFault {
        match fault {
            PcapFault::NotPcap => CaptureFault::NoCapture,
            _ => CaptureFault::Pcap(fault),
        }
    }
}

impl From<PcapngFault> for CaptureFault {
    ghost from_gives = { λ fault of_capture. of_capture ≡ fault_of_pcapng fault };

    fn from(fault: PcapngFault) -> CaptureFault {
        match fault {
            PcapngFault::NoSectionHeader => CaptureFault::NoCapture,
            _ => CaptureFault::Pcapng(fault),
        }
    }
}

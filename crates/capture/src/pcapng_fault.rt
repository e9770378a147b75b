//! Why bytes are no pcapng file that is read.
ghost use Rattle.std.specs.Prelude.{◌≡◌};
ghost use Rattle.capture.specs.declared.pcapng_fault.PcapngFault.TheVariants.{OutOfMemory};

use std::alloc::AllocError;
use thiserror::Error;

/// Why a pcapng file is not read to its end. What is looked at first stands first, but for the
/// last two.
#[derive(Clone, Copy, Debug, PartialEq, Eq, Error)]
pub enum PcapngFault {
    /// The first block is no section header.
    #[error("not a pcapng file")]
    NoSectionHeader,
    /// The byte-order magic of a section header is 1A2B3C4D in neither order.
    #[error("a section of no byte order")]
    BadByteOrder,
    /// A block's length is no multiple of four, or less than a block of its type has: 28 bytes of a
    /// section header, 20 of an interface, 32 of a packet, 12 of any other.
    #[error("a block of a wrong length")]
    BadBlockLength,
    /// A section header, an interface or a packet is a block of more than 2 MiB.
    #[error("a block of more than 2 MiB")]
    BlockTooLong,
    /// The length at a block's end is not the one at its beginning.
    #[error("a block whose two lengths differ")]
    LengthsDiffer,
    /// A section's major version is not 1.
    #[error("a section of an unsupported version")]
    UnsupportedVersion,
    /// A section has more than 4,096 interfaces.
    #[error("a section with too many interfaces")]
    TooManyInterfaces,
    /// An option of an interface overruns its block, or the first one of type 9, its time
    /// resolution, hasn't one byte.
    #[error("an interface with a malformed option")]
    BadInterface,
    /// A packet names an interface that its section doesn't have.
    #[error("a packet of an unknown interface")]
    UnknownInterface,
    /// A packet is said to have more than 1 MiB.
    #[error("a record of more than 1 MiB")]
    RecordTooLong,
    /// A packet is said to have more bytes than its block.
    #[error("a packet that overruns its block")]
    PacketOverruns,
    /// The file ends before its first section header or within a block.
    #[error("the file ends within a block")]
    EndsInside,
    /// An allocation failed.
    #[error("out of memory")]
    OutOfMemory,
}

impl From<AllocError> for PcapngFault {
    ghost from_gives = { λ _ fault. fault ≡ OutOfMemory };

    fn from(_: AllocError) -> PcapngFault {
        PcapngFault::OutOfMemory
    }
}

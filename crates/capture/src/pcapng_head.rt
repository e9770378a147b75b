//! A block's head and its end: its type, and its length at both ends.
ghost use Rattle.std.specs.Prelude.{◌≡◌, ◌≤◌, ◌++◌, length, OnOk, IfErr};
ghost use Rattle.std.specs.Int.{w32};
ghost use Rattle.capture.specs.Endian.{number_bytes};
ghost use Rattle.capture.specs.Pcapng.{block_head_bytes, IsLawfulHead};
ghost use Rattle.capture.specs.Inside.BlockStages.{IsFaultOfHead};

use crate::endian::Endian;
use crate::pcapng::{BlockHead, BlockKind, block_kind, least_total};
use crate::pcapng_fault::PcapngFault;

/// A section header, an interface or a packet is a block of at most so many bytes.
pub const LONGEST_BLOCK: u32 = 1 << 21;

/// The head of a block in an order, and the bytes after it.
pub(crate) fn split_block_head(endian: Endian, bytes: &[u8]) -> (BlockHead, &[u8])
    requires { 8 ≤ length bytes.now }
    ensures spelled { bytes.now ≡ block_head_bytes result.0 ++ result.1.now }
    ensures order { result.0.endian ≡ endian }
{
    let (number, rest) = endian.split_u32(bytes);
    let (total, rest) = endian.split_u32(rest);
    let head = BlockHead {
        endian,
        number,
        total,
    };
    (head, rest)
}

/// Whether a block can have the length that its head says.
pub(crate) fn check_head(head: BlockHead) -> Result<(), PcapngFault>
    ensures lawful { OnOk result (IsLawfulHead head) }
    ensures fault { IfErr result (λ fault. IsFaultOfHead fault head) }
{
    let kind = block_kind(head.number);
    if head.total < least_total(kind) {
        return Err(PcapngFault::BadBlockLength);
    }
    if head.total % 4 != 0 {
        return Err(PcapngFault::BadBlockLength);
    }
    match kind {
        BlockKind::Other => Ok(()),
        _ if head.total > LONGEST_BLOCK => Err(PcapngFault::BlockTooLong),
        _ => Ok(()),
    }
}

/// Whether a block's last four bytes say its length as its first ones do.
pub(crate) fn check_last(head: BlockHead, last: &[u8]) -> Result<(), PcapngFault>
    requires { length last.now ≡ 4 }
    ensures same { OnOk result (last.now ≡ number_bytes head.endian w32 head.total) }
    ensures differ { IfErr result (λ fault. (fault ≡ PcapngFault.LengthsDiffer)
        × (last.now ≡ number_bytes head.endian w32 head.total → ⊥)) }
{
    let (total, _) = head.endian.split_u32(last);
    if total == head.total {
        Ok(())
    } else {
        Err(PcapngFault::LengthsDiffer)
    }
}

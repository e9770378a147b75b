//! The packet in a block of a pcapng file.
ghost use Rattle.std.specs.Prelude.{◌≡◌, ◌+◌, ◌*◌, ◌≤◌, ◌++◌, [], ◌∷◌, length, IfOk, IfErr};
ghost use Rattle.capture.specs.PcapngBlocks.{packet_head_bytes, FitsPacketHead, GivesPacket};
ghost use Rattle.capture.specs.PcapngFaults.{Refuses};
ghost use Rattle.capture.specs.Pcapng.{block_kind};
ghost use Rattle.capture.specs.SeenCapture.{capture_parts, section_parts};
ghost use Rattle.capture.specs.Inside.BlockStages.{block_of};

use crate::capture_record::CaptureRecord;
use crate::endian::Endian;
use crate::pcap_parts::LONGEST_RECORD;
use crate::pcapng::{BlockHead, BlockKind, nanoseconds};
use crate::pcapng_fault::PcapngFault;
use crate::pcapng_section::Section;
use std::alloc::Global;

/// A packet's head in its block: 20 bytes before those that were captured.
#[derive(Clone, Copy, Debug, PartialEq, Eq)]
pub(crate) struct PacketHead {
    /// Which of the section's interfaces it came by, from 0.
    pub(crate) interface: u32,
    /// The more significant half of its time, in units of its interface.
    pub(crate) high: u32,
    /// The less significant half.
    pub(crate) low: u32,
    /// How many of its bytes follow.
    pub(crate) captured: u32,
    /// How many bytes it had.
    pub(crate) original: u32,
}

/// A packet's head, and the bytes after it.
fn split_packet_head(endian: Endian, body: &[u8]) -> (PacketHead, &[u8])
    requires { 20 ≤ length body.now }
    ensures spelled { body.now ≡ packet_head_bytes endian result.0 ++ result.1.now }
    ensures fits { FitsPacketHead result.0 }
{
    let (interface, rest) = endian.split_u32(body);
    let (high, rest) = endian.split_u32(rest);
    let (low, rest) = endian.split_u32(rest);
    let (captured, rest) = endian.split_u32(rest);
    let (original, rest) = endian.split_u32(rest);
    let head = PacketHead {
        interface,
        high,
        low,
        captured,
        original,
    };
    (head, rest)
}

/// A packet's time in units of its interface.
fn time_of(head: PacketHead) -> u64
    ensures { result ≡ head.high * 4294967296 + head.low }
{
    u64::from(head.high) * (1 << 32) + u64::from(head.low)
}

/// The packet in a block.
pub(crate) fn read_packet_block(
    alloc: Global,
    head: BlockHead,
    section: &Section,
    body: &[u8],
) -> Result<CaptureRecord, PcapngFault>
    requires kind { block_kind head.number ≡ BlockKind.EnhancedPacket }
    requires order { section.now.endian ≡ Some head.endian }
    requires enough { 20 ≤ length body.now }
    ensures given { IfOk result (λ «record». GivesPacket (section_parts section.now)
        (block_of head body.now)
        (record { endian = head.endian; interfaces = section.now.interfaces.items })
        (capture_parts «record» ∷ [])) }
    ensures refused { IfErr result (λ fault. Refuses fault (section_parts section.now)
        (block_of head body.now)) }
{
    let (packet, rest) = split_packet_head(head.endian, body);
    let Some(interface) = section.interfaces.get(packet.interface as usize) else {
        return Err(PcapngFault::UnknownInterface);
    };
    if packet.captured > LONGEST_RECORD {
        return Err(PcapngFault::RecordTooLong);
    }
    let Some((bytes, _)) = rest.split_at_checked(packet.captured as usize) else {
        return Err(PcapngFault::PacketOverruns);
    };
    Ok(CaptureRecord {
        link_type: u32::from(interface.link_type),
        nanoseconds: nanoseconds(interface.unit, time_of(packet)),
        original: packet.original,
        bytes: Vec::from_slice(alloc, bytes)?,
    })
}

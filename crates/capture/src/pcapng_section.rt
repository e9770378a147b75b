//! What a section of a pcapng file has said, and what its next block adds.
ghost use Rattle.std.specs.Prelude.{◌≡◌, ℕ, ◌+◌, ◌≤◌, ◌++◌, List, [], length, IfSome, IfNone, OnOk};
ghost use Rattle.std.specs.Prelude.{IfErr, IfOk};
ghost use Rattle.std.specs.Int.{w32};
ghost use Rattle.capture.specs.Endian.{number_bytes};
ghost use Rattle.capture.specs.Pcapng.{block_kind, least_total, byte_order_magic};
ghost use Rattle.capture.specs.PcapngBlocks.{SpellsInterface};
ghost use Rattle.capture.specs.PcapngReading.{HasOrder};
ghost use Rattle.capture.specs.PcapngFaults.{Refuses};
ghost use Rattle.capture.specs.SeenCapture.{captured_by, section_parts};
ghost use Rattle.capture.specs.Inside.BlockStages.{block_of, Leaves};
ghost use Rattle.capture.specs.declared.pcapng.Interface.{Interface};

use crate::capture_record::CaptureRecord;
use crate::endian::Endian;
use crate::pcapng::{BlockHead, BlockKind, Interface, block_kind};
use crate::pcapng_fault::PcapngFault;
use crate::pcapng_options::time_unit;
use crate::pcapng_packet::read_packet_block;
use std::alloc::Global;

/// A section has at most so many interfaces.
pub const MOST_INTERFACES: usize = 4096;
/// The major version of the format that is read.
const MAJOR_VERSION: u16 = 1;

/// What a section has said: the order of its numbers, once a section has begun, and its interfaces
/// so far.
#[derive(Debug, Drop)]
pub(crate) struct Section {
    pub(crate) endian: Option<Endian>,
    pub(crate) interfaces: Vec<Interface>,
}

/// A section header: a new section begins, without interfaces.
fn begin_section(head: BlockHead, section: &mut Section, body: &[u8]) -> Result<(), PcapngFault>
    requires kind { block_kind head.number ≡ BlockKind.SectionHeader }
    requires order { HasOrder BlockKind.SectionHeader (section_parts section.old)
        head.endian body.now }
    requires enough { 16 ≤ length body.now }
    ensures begins { OnOk result (Leaves (section_parts section.old) (block_of head body.now)
        (section_parts section.new) []) }
    ensures refused { IfErr result (λ fault. Refuses fault (section_parts section.old)
        (block_of head body.now)) }
{
    let (_, rest) = head.endian.split_u32(body);
    let (major, _) = head.endian.split_u16(rest);
    if major != MAJOR_VERSION {
        return Err(PcapngFault::UnsupportedVersion);
    }
    section.endian = Some(head.endian);
    section.interfaces.clear();
    Ok(())
}

/// The interface that the bytes between a block's lengths describe.
fn read_interface(endian: Endian, body: &[u8]) -> Option<Interface>
    requires { 8 ≤ length body.now }
    ensures found { IfSome result (SpellsInterface endian body.now) }
    ensures none { IfNone result ((interface : Interface)
        → SpellsInterface endian body.now interface → ⊥) }
{
    let (link_type, rest) = endian.split_u16(body);
    let (_, options) = rest.split_at(6);
    let unit = time_unit(endian, options)?;
    Some(Interface { link_type, unit })
}

/// The section has an interface more.
fn add_interface(head: BlockHead, section: &mut Section, body: &[u8]) -> Result<(), PcapngFault>
    requires kind { block_kind head.number ≡ BlockKind.InterfaceDescription }
    requires order { section.old.endian ≡ Some head.endian }
    requires enough { 8 ≤ length body.now }
    ensures adds { OnOk result (Leaves (section_parts section.old) (block_of head body.now)
        (section_parts section.new) []) }
    ensures refused { IfErr result (λ fault. Refuses fault (section_parts section.old)
        (block_of head body.now)) }
{
    if section.interfaces.len() >= MOST_INTERFACES {
        return Err(PcapngFault::TooManyInterfaces);
    }
    let Some(interface) = read_interface(head.endian, body) else {
        return Err(PcapngFault::BadInterface);
    };
    match section.interfaces.push(interface) {
        Ok(()) => Ok(()),
        Err(_) => Err(PcapngFault::OutOfMemory),
    }
}

/// What a block says: it changes the section, or gives a record.
pub(crate) fn apply(
    alloc: Global,
    head: BlockHead,
    section: &mut Section,
    body: &[u8],
) -> Result<Option<CaptureRecord>, PcapngFault>
    requires order { HasOrder (block_kind head.number) (section_parts section.old) head.endian
        body.now }
    requires enough { least_total (block_kind head.number) ≤ length body.now + 12 }
    ensures says { IfOk result (λ given. Leaves (section_parts section.old)
        (block_of head body.now) (section_parts section.new) (captured_by given)) }
    ensures refused { IfErr result (λ fault. Refuses fault (section_parts section.old)
        (block_of head body.now)) }
{
    match block_kind(head.number) {
        BlockKind::SectionHeader => {
            begin_section(head, section, body)?;
            Ok(None)
        }
        BlockKind::InterfaceDescription => {
            add_interface(head, section, body)?;
            Ok(None)
        }
        BlockKind::EnhancedPacket => Ok(Some(read_packet_block(alloc, head, section, body)?)),
        BlockKind::Other => Ok(None),
    }
}

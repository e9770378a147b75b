//! What each piece brings to the block of a pcapng file that is next.
ghost use Rattle.std.specs.Prelude.{◌≡◌, ◌≤◌, ◌<◌, [], length, Option, IfOk, IfErr};
ghost use Rattle.capture.specs.PcapngBlocks.{SectionParts};
ghost use Rattle.capture.specs.SeenCapture.{captured_by, section_parts};
ghost use Rattle.capture.specs.Inside.BlockStages.{wanted, IsFilling, BeginsWithSection};
ghost use Rattle.capture.specs.Inside.BlockStages.{BeginsWithHead, IsPassing, IsKeptAt, IsInBlock};
ghost use Rattle.capture.specs.Inside.BlockStages.{Advances, IsFaultHere, PassesOn, IsFaultWith};

use crate::capture_record::{CaptureRecord, CaptureTaken};
use crate::endian::Endian;
use crate::pcap_parts::fill;
use crate::pcapng::{BlockHead, BlockKind, SECTION_HEADER, block_kind, order_said};
use crate::pcapng_fault::PcapngFault;
use crate::pcapng_head::{check_head, check_last, split_block_head};
use crate::pcapng_section::{Section, apply};
use std::alloc::Global;

/// Which part of a block comes next.
#[derive(Clone, Copy, Debug, PartialEq, Eq)]
pub(crate) enum BlockStage {
    /// Its type and its length.
    Head,
    /// The byte-order magic of a section header, whose first eight bytes are kept.
    Magic,
    /// The rest of a block that is kept whole.
    Whole(BlockHead),
    /// The rest of a block that is passed over: so many bytes, and its last four.
    Skip(BlockHead, u32),
}

/// How many bytes are kept when the part is whole.
fn wanted(stage: BlockStage) -> usize
    ensures { result ≡ wanted stage }
{
    match stage {
        BlockStage::Head => 8,
        BlockStage::Magic => 12,
        BlockStage::Whole(head) => head.total as usize,
        BlockStage::Skip(_, _) => 4,
    }
}

/// Takes bytes from the front of a piece for the part that is next, and says what is next then.
pub(crate) fn take_block_part<'a>(
    alloc: Global,
    stage: BlockStage,
    section: &mut Section,
    pending: &mut Vec<u8>,
    piece: &'a [u8],
) -> Result<(BlockStage, CaptureTaken<'a>), PcapngFault>
    requires { IsInBlock stage (section_parts section.old) pending.old.items }
    ensures passes { IfOk result (λ next. PassesOn stage (section_parts section.old)
        pending.old.items next.0 (section_parts section.new) pending.new.items
        (captured_by next.1.record) piece.now next.1.rest.now) }
    ensures fault { IfErr result (IsFaultWith stage (section_parts section.old) pending.old.items
        piece.now) }
{
    match stage {
        BlockStage::Skip(head, left) if left > 0 => {
            let count = piece.len().min(left as usize);
            let (_, rest) = piece.split_at(count);
            let stage = BlockStage::Skip(head, left - count as u32);
            Ok((stage, CaptureTaken { record: None, rest }))
        }
        _ => fill_part(alloc, stage, section, pending, piece),
    }
}

/// The same where bytes are kept.
fn fill_part<'a>(
    alloc: Global,
    stage: BlockStage,
    section: &mut Section,
    pending: &mut Vec<u8>,
    piece: &'a [u8],
) -> Result<(BlockStage, CaptureTaken<'a>), PcapngFault>
    requires part { IsInBlock stage (section_parts section.old) pending.old.items }
    requires filling { IsFilling stage }
    ensures passes { IfOk result (λ next. PassesOn stage (section_parts section.old)
        pending.old.items next.0 (section_parts section.new) pending.new.items
        (captured_by next.1.record) piece.now next.1.rest.now) }
    ensures fault { IfErr result (IsFaultWith stage (section_parts section.old) pending.old.items
        piece.now) }
{
    let size = wanted(stage);
    let rest = fill(pending, size, piece)?;
    if pending.len() < size {
        return Ok((stage, CaptureTaken { record: None, rest }));
    }
    let (stage, record) = advance(alloc, stage, section, pending)?;
    Ok((stage, CaptureTaken { record, rest }))
}

/// What comes next when a part is whole.
fn advance(
    alloc: Global,
    stage: BlockStage,
    section: &mut Section,
    pending: &mut Vec<u8>,
) -> Result<(BlockStage, Option<CaptureRecord>), PcapngFault>
    requires kept { IsKeptAt stage (section_parts section.old) pending.old.items }
    requires whole { length pending.old.items ≡ wanted stage }
    requires filling { IsFilling stage }
    ensures next { IfOk result (λ next. Advances stage (section_parts section.old)
        pending.old.items next.0 (section_parts section.new) pending.new.items
        (captured_by next.1)) }
    ensures fault { IfErr result (IsFaultHere stage (section_parts section.old)
        pending.old.items) }
{
    match stage {
        BlockStage::Head => Ok((after_head(section, pending)?, None)),
        BlockStage::Magic => Ok((after_magic(pending)?, None)),
        BlockStage::Whole(head) => {
            let record = after_block(alloc, head, section, pending)?;
            Ok((BlockStage::Head, record))
        }
        BlockStage::Skip(head, _) => {
            check_last(head, pending)?;
            pending.clear();
            Ok((BlockStage::Head, None))
        }
    }
}

/// What comes after a block's first eight bytes.
fn after_head(section: &Section, pending: &mut Vec<u8>) -> Result<BlockStage, PcapngFault>
    requires { length pending.old.items ≡ 8 }
    ensures next { IfOk result (λ stage. Advances BlockStage.Head (section_parts section.now)
        pending.old.items stage (section_parts section.now) pending.new.items []) }
    ensures fault { IfErr result (IsFaultHere BlockStage.Head (section_parts section.now)
        pending.old.items) }
{
    let (number, _) = Endian::Big.split_u32(pending);
    if number == SECTION_HEADER {
        return Ok(BlockStage::Magic);
    }
    let Some(endian) = section.endian else {
        return Err(PcapngFault::NoSectionHeader);
    };
    let (head, _) = split_block_head(endian, pending);
    check_head(head)?;
    match block_kind(head.number) {
        BlockKind::Other => {
            pending.clear();
            Ok(BlockStage::Skip(head, head.total - 12))
        }
        _ => Ok(BlockStage::Whole(head)),
    }
}

/// What comes after a section header's first twelve bytes.
fn after_magic(pending: &[u8]) -> Result<BlockStage, PcapngFault>
    requires twelve { length pending.now ≡ 12 }
    requires begins { BeginsWithSection pending.now }
    ensures next { IfOk result (λ stage. (section : Option SectionParts)
        → Advances BlockStage.Magic section pending.now stage section pending.now []) }
    ensures fault { IfErr result (λ fault. (section : Option SectionParts)
        → IsFaultHere BlockStage.Magic section pending.now fault) }
{
    let (_, last) = pending.split_at(8);
    let (magic, _) = Endian::Big.split_u32(last);
    let Some(endian) = order_said(magic) else {
        return Err(PcapngFault::BadByteOrder);
    };
    let (head, _) = split_block_head(endian, pending);
    check_head(head)?;
    Ok(BlockStage::Whole(head))
}

/// What comes after a block of which all bytes are there, and the record that it gives.
fn after_block(
    alloc: Global,
    head: BlockHead,
    section: &mut Section,
    pending: &mut Vec<u8>,
) -> Result<Option<CaptureRecord>, PcapngFault>
    requires begins { BeginsWithHead (section_parts section.old) head pending.old.items }
    requires whole { length pending.old.items ≡ head.total }
    ensures next { IfOk result (λ given.
        Advances (BlockStage.Whole head) (section_parts section.old)
        pending.old.items BlockStage.Head (section_parts section.new) pending.new.items
        (captured_by given)) }
    ensures fault { IfErr result (IsFaultHere (BlockStage.Whole head) (section_parts section.old)
        pending.old.items) }
{
    let (front, last) = pending.split_at(head.total as usize - 4);
    let (_, body) = front.split_at(8);
    check_last(head, last)?;
    let record = apply(alloc, head, section, body)?;
    pending.clear();
    Ok(record)
}

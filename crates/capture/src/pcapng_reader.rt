//! A reader of pcapng files that come in pieces.
ghost use Rattle.std.specs.Prelude.{◌≡◌, ◌++◌, ◌↔◌, ℕ, List, [], Some, None, IfOk, IfErr, IsOk};

use crate::capture_record::CaptureTaken;
use crate::pcapng_fault::PcapngFault;
use crate::pcapng_section::Section;
use crate::pcapng_step::{BlockStage, take_block_part};
use std::alloc::Global;
use std::marker::Model;

/// Reads a pcapng file that comes in pieces of any size. It holds one block at most, of 2 MiB or
/// less, and up to 4,096 interfaces. Contracts see what it knows: what the section has said, what
/// it holds back of the block that isn't whole, and the fault that ended it.
#[derive(Debug, Drop)]
pub struct PcapngReader {
    stage: BlockStage,
    section: Section,
    pending: Vec<u8>,
    fault: Option<PcapngFault>,
}

impl Model for PcapngReader {
    ghost use Rattle.capture.specs.PcapngReading.{PcapngState};
    ghost use Rattle.capture.specs.SeenCapture.{section_parts};
    ghost use Rattle.capture.specs.Inside.BlockStages.{passing_of, IsInBlock};
    ghost use Rattle.std.specs.Prelude.{◌≡◌, None};

    ghost Value = { PcapngState };

    ghost view = { λ reader. record {
      section = section_parts reader.section;
      passing = passing_of reader.stage;
      pending = reader.pending.items;
      fault = reader.fault;
    } };

    ghost invariant = { λ reader. reader.fault ≡ None
        → IsInBlock reader.stage (section_parts reader.section) reader.pending.items };
}

ghost use Rattle.capture.specs.PcapReading.{MovesOn};
ghost use Rattle.capture.specs.PcapngBlocks.{CaptureParts};
ghost use Rattle.capture.specs.PcapngReading.{HasRead, TakesBlocks, IsBetweenBlocks};
ghost use Rattle.capture.specs.PcapngFaults.{HasFault};
ghost use Rattle.capture.specs.SeenCapture.{captured_by};

impl PcapngReader {
    /// A reader that has taken nothing.
    pub fn new(alloc: Global) -> PcapngReader
        ensures { HasRead result [] [] }
    {
        PcapngReader {
            stage: BlockStage::Head,
            section: Section {
                endian: None,
                interfaces: Vec::new(alloc),
            },
            pending: Vec::new(alloc),
            fault: None,
        }
    }

    /// Takes bytes from the front of the piece, at most up to the end of the block that is next,
    /// and gives its packet if it is one. Call it again with the rest until nothing is left.
    ///
    /// After a fault each call reports the same one.
    pub fn take<'a>(
        &mut self,
        alloc: Global,
        piece: &'a [u8],
    ) -> Result<CaptureTaken<'a>, PcapngFault>
        // Whatever bytes it had taken, it now has taken these and those from the piece; what it
        // gives is the next record of them.
        ensures taken { IfOk result (λ taken. TakesBlocks self.old self.new
            (captured_by taken.record) piece.now taken.rest.now) }
        // Of a piece that isn't empty it takes something.
        ensures some { IfOk result (λ taken. MovesOn piece.now taken.rest.now) }
        // A new fault is one of all bytes that came, right behind the blocks of what it gave.
        ensures fault { IfErr result (λ fault. (records : List CaptureParts) (bytes : List ℕ)
            → HasRead self.old records bytes → HasFault records (bytes ++ piece.now) fault) }
        ensures kept { IfErr result (λ fault. self.new.fault ≡ Some fault) }
        ensures again { (fault : PcapngFault) → self.old.fault ≡ Some fault → result ≡ Err fault }
    {
        if let Some(fault) = self.fault {
            return Err(fault);
        }
        match take_block_part(
            alloc,
            self.stage,
            &mut self.section,
            &mut self.pending,
            piece,
        ) {
            Ok((stage, taken)) => {
                self.stage = stage;
                Ok(taken)
            }
            Err(fault) => {
                self.fault = Some(fault);
                Err(fault)
            }
        }
    }

    /// Whether the file may end here: a section was begun, and no part of a block is pending.
    /// `EndsInside` where it may not, and the fault where one came.
    pub fn finish(&self) -> Result<(), PcapngFault>
        ensures end { IsOk result ↔ IsBetweenBlocks self.now }
        ensures fault { (fault : PcapngFault) → self.now.fault ≡ Some fault → result ≡ Err fault }
        ensures inside { self.now.fault ≡ None
            → IfErr result (λ fault. fault ≡ PcapngFault.EndsInside) }
    {
        if let Some(fault) = self.fault {
            return Err(fault);
        }
        match (self.stage, self.section.endian) {
            (BlockStage::Head, Some(_)) if self.pending.is_empty() => Ok(()),
            _ => Err(PcapngFault::EndsInside),
        }
    }
}

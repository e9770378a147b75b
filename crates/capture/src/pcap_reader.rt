//! A reader of pcap files that come in pieces.
ghost use Rattle.std.specs.Prelude.{◌≡◌, ◌++◌, ◌↔◌, ℕ, List, [], Some, None, IfOk, IfErr, IsOk};

use crate::pcap::PcapHeader;
use crate::pcap_fault::PcapFault;
use crate::pcap_step::{Stage, take_next};
use crate::record::Taken;
use std::alloc::Global;
use std::marker::Model;

/// Reads a pcap file that comes in pieces of any size. It holds the bytes of one record at most,
/// and contracts see what it knows: the file's header, the bytes after the last whole record, and
/// the fault that ended it.
#[derive(Debug, Drop)]
pub struct PcapReader {
    stage: Stage,
    pending: Vec<u8>,
    fault: Option<PcapFault>,
}

impl Model for PcapReader {
    ghost use Rattle.std.specs.Prelude.{◌++◌, length};
    ghost use Rattle.capture.specs.PcapReading.{PcapState};
    ghost use Rattle.capture.specs.Inside.Stages.{header_of, stage_bytes, IsInStep};

    ghost Value = { PcapState };

    ghost view = { λ reader. record {
      header = header_of reader.stage;
      pending = stage_bytes reader.stage ++ reader.pending.items;
      fault = reader.fault;
    } };

    ghost invariant = { λ reader. IsInStep reader.stage (length reader.pending.items) };
}

ghost use Rattle.capture.specs.Pcap.{RecordParts};
ghost use Rattle.capture.specs.PcapReading.{Takes, StandsFor, MovesOn, Reports, IsAtEnd};
ghost use Rattle.capture.specs.SeenRecord.{given_by};

impl PcapReader {
    /// A reader that has taken nothing.
    pub fn new(alloc: Global) -> PcapReader
        ensures { StandsFor result [] [] }
    {
        PcapReader {
            stage: Stage::Header,
            pending: Vec::new(alloc),
            fault: None,
        }
    }

    /// The file's header, once its 24 bytes were taken.
    pub fn header(&self) -> Option<PcapHeader>
        ensures { result ≡ self.now.header }
    {
        match self.stage {
            Stage::Header => None,
            Stage::Head(header) | Stage::Bytes(header, _) => Some(header),
        }
    }

    /// Takes bytes from the front of the piece, at most up to the end of the next record, which it
    /// then gives. Call it again with the rest until nothing is left.
    ///
    /// After a fault each call reports the same one.
    pub fn take<'a>(&mut self, alloc: Global, piece: &'a [u8]) -> Result<Taken<'a>, PcapFault>
        // Whatever bytes it had taken, it now has taken these and those from the piece; what it
        // gives is the next record of them.
        ensures taken { IfOk result (λ taken. Takes self.old self.new (given_by taken.record)
            piece.now taken.rest.now) }
        // Of a piece that isn't empty it takes something.
        ensures some { IfOk result (λ taken. MovesOn piece.now taken.rest.now) }
        // A fault that is new is one of all bytes that came.
        ensures fault { IfErr result (λ fault. (records : List RecordParts) (bytes : List ℕ)
            → StandsFor self.old records bytes → Reports (bytes ++ piece.now) fault) }
        ensures kept { IfErr result (λ fault. self.new.fault ≡ Some fault) }
        ensures header { IfErr result (λ _. self.new.header ≡ self.old.header) }
        ensures again { (fault : PcapFault) → self.old.fault ≡ Some fault → result ≡ Err fault }
    {
        if let Some(fault) = self.fault {
            return Err(fault);
        }
        match take_next(alloc, &mut self.stage, &mut self.pending, piece) {
            Ok(taken) => Ok(taken),
            Err(fault) => {
                self.pending.clear();
                self.fault = Some(fault);
                Err(fault)
            }
        }
    }

    /// Whether the file may end here: its header was taken, and no part of a record is pending.
    /// `EndsInside` where it may not, and the fault where one came.
    pub fn finish(&self) -> Result<(), PcapFault>
        ensures end { IsOk result ↔ IsAtEnd self.now }
        ensures fault { (fault : PcapFault) → self.now.fault ≡ Some fault → result ≡ Err fault }
        ensures inside { self.now.fault ≡ None → IfErr result (λ fault. fault ≡ PcapFault.EndsInside) }
    {
        if let Some(fault) = self.fault {
            return Err(fault);
        }
        match self.stage {
            Stage::Head(_) if self.pending.is_empty() => Ok(()),
            _ => Err(PcapFault::EndsInside),
        }
    }
}

//! How far a capture was read.
ghost use Rattle.std.specs.Prelude.{◌≡◌, [], IfOk, IfErr, OnOk, OnErr};
ghost use Rattle.std.specs.Io.KnownBytes.{Appends};
ghost use Rattle.capture.specs.PcapReading.{MovesOn};
ghost use Rattle.captured_flows.specs.Captures.{IsFaultOf};
ghost use Rattle.engines.specs.Device.{inner_of, has_failed};
ghost use Rattle.engines.specs.Transfer.{IsLeftFlushed};
ghost use Rattle.frame_engine.specs.Begun.{IsBegun, IsBegunBeside, CanJoin};
ghost use Rattle.frame_engine.specs.Inside.Joins.{JoinsSome, JoinsPiece, CannotJoin};
ghost use Rattle.frame_engine.specs.Inside.Joins.{JoinsWritten, FinishesJoined};
ghost use Rattle.frame_engine.specs.Inside.Beside.{JoinsSomeBeside, JoinsPieceBeside};
ghost use Rattle.frame_engine.specs.Inside.Beside.{JoinsWrittenBeside, FinishesBeside};

use crate::comparing::Comparing;
use crate::joining::Joining;
use crate::settings::CaptureSettings;
use crate::tally::CaptureTally;
use capture::{CaptureReader, CaptureTaken};
use capture_map::CaptureMap;
use engines::{Device, EngineFault};
use receiver::SetupError;
use std::alloc::Global;
use std::io::Write;

/// A capture with a map that is read, and what came of it so far.
#[derive(Drop)]
pub struct FrameReading {
    pub(crate) reader: CaptureReader,
    pub(crate) joining: Joining,
}

impl FrameReading {
    /// Nothing was read. A fault is one of the setup that the map makes; a map that was read has
    /// none but a failed allocation.
    pub fn new(
        alloc: Global,
        settings: CaptureSettings,
        capture_map: CaptureMap,
    ) -> Result<FrameReading, SetupError>
        ensures begun { IfOk result (IsBegun settings capture_map) }
        ensures begun_beside { IfOk result (IsBegunBeside settings capture_map) }
        ensures ready { IfOk result CanJoin }
        ensures fault { IfErr result (IsFaultOf capture_map) }
    {
        Ok(FrameReading {
            reader: CaptureReader::new(),
            joining: Joining::new(alloc, settings, capture_map)?,
        })
    }

    /// Notes how often times couldn't be gone by so far.
    pub(crate) fn note_clocks(&self, tally: &mut CaptureTally) {
        tally.note_clocks(self.joining.flows.clock_counts());
    }

    /// Notes how often times couldn't be gone by, and what came of the flows, where a fault ends
    /// the capture.
    pub(crate) fn note_all(&self, tally: &mut CaptureTally) {
        self.note_clocks(tally);
        self.joining.count_open(tally);
    }

    /// Takes bytes from the front of the piece, at most up to the end of a record, and answers what
    /// is left of it.
    fn take_some<'a>(
        &mut self,
        alloc: Global,
        piece: &'a [u8],
        tally: &mut CaptureTally,
        comparing: &mut Comparing,
    ) -> Result<&'a [u8], EngineFault>
        requires ready { CanJoin self.old }
        ensures taken { IfOk result (λ rest. JoinsSome self.old piece.now rest.now self.new) }
        ensures compared { IfOk result (λ rest. JoinsSomeBeside self.old comparing.old
            piece.now rest.now self.new comparing.new) }
        ensures some { IfOk result (λ rest. MovesOn piece.now rest.now) }
        ensures ready { OnOk result (CanJoin self.new) }
        ensures fault { IfErr result (CannotJoin self.old piece.now self.new) }
    {
        match self.reader.take(alloc, piece) {
            Ok(CaptureTaken { record, rest }) => match record {
                Some(given) => {
                    self.joining.take_record(alloc, given, tally, comparing)?;
                    Ok(rest)
                }
                None => Ok(rest),
            },
            Err(fault) => Err(EngineFault::of_capture(fault, self.joining.records)),
        }
    }

    /// Takes the next bytes of the capture.
    fn take_piece(
        &mut self,
        alloc: Global,
        piece: &[u8],
        tally: &mut CaptureTally,
        comparing: &mut Comparing,
    ) -> Result<(), EngineFault>
        requires ready { CanJoin self.old }
        ensures taken { OnOk result (JoinsPiece self.old piece.now self.new) }
        ensures compared { OnOk result (JoinsPieceBeside self.old comparing.old
            piece.now self.new comparing.new) }
        ensures ready { OnOk result (CanJoin self.new) }
        ensures fault { IfErr result (CannotJoin self.old piece.now self.new) }
    {
        let mut rest = piece;
        while !rest.is_empty() {
            rest = self.take_some(alloc, rest, tally, comparing)?;
        }
        Ok(())
    }

    /// Takes the next bytes of the capture, writes what came of them, and flushes.
    pub(crate) fn join_piece<W: Write>(
        &mut self,
        alloc: Global,
        piece: &[u8],
        tally: &mut CaptureTally,
        comparing: &mut Comparing,
        writer: &mut Device<W>,
    ) -> Result<(), EngineFault>
        requires ready { CanJoin self.old }
        ensures joins { JoinsWritten W.contents self.old writer.old piece.now
            self.new writer.new result }
        ensures compared { OnOk result (JoinsWrittenBeside W.contents self.old comparing.old
            writer.old piece.now self.new comparing.new writer.new) }
        ensures ready { OnOk result (CanJoin self.new) }
        ensures empty { OnOk result (self.new.joining.file.bytes.items ≡ []) }
        ensures flushed { OnOk result (IsLeftFlushed writer.old writer.new) }
    {
        let taken = self.take_piece(alloc, piece, tally, comparing);
        self.joining.file.write(writer)?;
        taken
    }

    /// Nothing more comes: what is left is written, and flushed.
    pub(crate) fn finish<W: Write>(
        self,
        alloc: Global,
        tally: &mut CaptureTally,
        comparing: &mut Comparing,
        writer: &mut Device<W>,
    ) -> Result<(), EngineFault>
        requires ready { CanJoin self }
        requires empty { self.joining.file.bytes.items ≡ [] }
        ensures written { FinishesJoined W.contents self writer.old writer.new result }
        ensures compared { OnOk result (FinishesBeside W.contents self comparing.old
            writer.old comparing.new writer.new) }
    {
        let FrameReading { reader, joining } = self;
        match reader.finish() {
            Ok(()) => joining.finish(alloc, tally, comparing, writer),
            Err(fault) => {
                joining.count_open(tally);
                Err(EngineFault::of_capture(fault, joining.records))
            }
        }
    }
}

//! What the records of a capture tell so far.
ghost use Rattle.std.specs.Prelude.{◌≡◌, ◌≢◌, [], IfOk, IfErr, OnOk};
ghost use Rattle.capture.specs.SeenCapture.{capture_parts};
ghost use Rattle.capture.specs.PcapReading.{MovesOn};
ghost use Rattle.capture.specs.Captures.{IsWholeCapture};
ghost use Rattle.engines.specs.declared.fault.EngineFault.TheVariants.{OutOfMemory};
ghost use Rattle.registrations.specs.Part.{part_seen};
ghost use Rattle.seen_sids.specs.Seen.{seen_in};
ghost use Rattle.capture_engines.specs.Telling.{Counts, Shows};
ghost use Rattle.capture_engines.specs.Inside.Reading.{HasMapped, TakesRecord, TakesMessage};
ghost use Rattle.capture_engines.specs.Inside.Reading.{TakesPart, MapsSome, MapsPiece, CannotMap};
ghost use Rattle.capture_engines.specs.Inside.Reading.{EndsEarly};

use capture::{CaptureReader, CaptureRecord, XRA, read_burst};
use engines::EngineFault;
use registered_map::RegisteredMap;
use registrations::{JoinFault, Part, Unfinished, read_part};
use seen_sids::SeenSids;
use std::alloc::Global;

/// What the records of a capture tell so far.
#[derive(Drop)]
pub(crate) struct MapReading {
    pub(crate) reader: CaptureReader,
    pub(crate) unfinished: Unfinished,
    pub(crate) map: RegisteredMap,
    pub(crate) seen: SeenSids,
    /// How many records came. It stays at its greatest value.
    pub(crate) records: u64,
}

/// What comes of a part that is refused: nothing, but where an allocation failed.
fn after_refusal(fault: JoinFault) -> Result<(), EngineFault>
    ensures other { OnOk result (fault ≢ JoinFault.OutOfMemory) }
    ensures only { IfErr result (λ fault. fault ≡ OutOfMemory) }
{
    match fault {
        JoinFault::OutOfMemory => Err(EngineFault::OutOfMemory),
        _ => Ok(()),
    }
}

impl MapReading {
    /// Nothing was read.
    pub fn new(alloc: Global) -> MapReading
        ensures { HasMapped [] result }
    {
        MapReading {
            reader: CaptureReader::new(),
            unfinished: Unfinished::new(alloc),
            map: RegisteredMap::new(alloc),
            seen: SeenSids::new(alloc),
            records: 0,
        }
    }

    /// Takes the next bytes of the capture.
    pub fn take_piece(&mut self, alloc: Global, piece: &[u8]) -> Result<(), EngineFault>
        ensures taken { OnOk result (MapsPiece self.old piece.now self.new) }
        ensures fault { IfErr result (CannotMap self.old piece.now) }
    {
        let mut rest = piece;
        while !rest.is_empty() {
            rest = self.take_some(alloc, rest)?;
        }
        Ok(())
    }

    /// Takes bytes from the front of the piece, at most up to the end of a record, and answers what
    /// is left of it.
    fn take_some<'a>(&mut self, alloc: Global, piece: &'a [u8]) -> Result<&'a [u8], EngineFault>
        ensures taken { IfOk result (λ rest. MapsSome self.old piece.now rest.now self.new) }
        ensures some { IfOk result (λ rest. MovesOn piece.now rest.now) }
        ensures fault { IfErr result (CannotMap self.old piece.now) }
    {
        match self.reader.take(alloc, piece) {
            Ok(taken) => {
                if let Some(given) = &taken.record {
                    self.take_record(alloc, given)?;
                }
                Ok(taken.rest)
            }
            Err(fault) => Err(EngineFault::of_capture(fault, self.records)),
        }
    }

    /// Takes what a record tells and shows.
    fn take_record(&mut self, alloc: Global, given: &CaptureRecord) -> Result<(), EngineFault>
        ensures reader { self.new.reader ≡ self.old.reader }
        ensures taken { OnOk result (TakesRecord self.old (capture_parts given.now) self.new) }
        ensures only { IfErr result (λ fault. fault ≡ OutOfMemory) }
    {
        self.records = self.records.saturating_add(1);
        if given.link_type != XRA || given.is_cut_short() {
            return Ok(());
        }
        self.take_message(alloc, given)?;
        self.take_burst(given)
    }

    /// Takes the part of a message that a record holds, and the message where it is whole.
    fn take_message(&mut self, alloc: Global, given: &CaptureRecord) -> Result<(), EngineFault>
        requires { Counts (capture_parts given.now) }
        ensures reader { self.new.reader ≡ self.old.reader }
        ensures seen { self.new.seen ≡ self.old.seen }
        ensures records { self.new.records ≡ self.old.records }
        ensures taken { OnOk result (TakesMessage self.old (capture_parts given.now) self.new) }
        ensures only { IfErr result (λ fault. fault ≡ OutOfMemory) }
    {
        match read_part(&given.bytes) {
            Ok(part) => self.take_part(alloc, part, given.nanoseconds),
            Err(_) => Ok(()),
        }
    }

    /// Takes a part of a message, and the message where it is whole.
    fn take_part(
        &mut self,
        alloc: Global,
        part: Part<'_>,
        nanoseconds: u64,
    ) -> Result<(), EngineFault>
        ensures reader { self.new.reader ≡ self.old.reader }
        ensures seen { self.new.seen ≡ self.old.seen }
        ensures records { self.new.records ≡ self.old.records }
        ensures taken { OnOk result
            (TakesPart self.old (part_seen part.entry) nanoseconds self.new) }
        ensures only { IfErr result (λ fault. fault ≡ OutOfMemory) }
    {
        match self.unfinished.take(alloc, part) {
            Ok(Some(message)) => Ok(self.map.take(alloc, &message, nanoseconds, self.records)?),
            Ok(None) => Ok(()),
            Err(fault) => after_refusal(fault),
        }
    }

    /// Counts the burst that a record holds.
    fn take_burst(&mut self, given: &CaptureRecord) -> Result<(), EngineFault>
        requires { Counts (capture_parts given.now) }
        ensures reader { self.new.reader ≡ self.old.reader }
        ensures unfinished { self.new.unfinished ≡ self.old.unfinished }
        ensures map { self.new.map ≡ self.old.map }
        ensures records { self.new.records ≡ self.old.records }
        ensures shown { OnOk result
            (Shows (capture_parts given.now) (seen_in self.old.seen) (seen_in self.new.seen)) }
        ensures only { IfErr result (λ fault. fault ≡ OutOfMemory) }
    {
        match read_burst(&given.bytes) {
            Ok(burst) => Ok(self.seen.take(&burst)?),
            Err(_) => Ok(()),
        }
    }

    /// Whether the capture may end here.
    pub fn finish(&self) -> Result<(), EngineFault>
        ensures whole { OnOk result (IsWholeCapture self.now.reader) }
        ensures fault { IfErr result (EndsEarly self.now) }
    {
        match self.reader.finish() {
            Ok(()) => Ok(()),
            Err(fault) => Err(EngineFault::of_capture(fault, self.records)),
        }
    }
}

//! A text that is written to a device as it is put.
ghost use Rattle.std.specs.Prelude.{◌≡◌, ◌++◌, ℕ, List, [], IfOk, OnOk, OnErr, true};
ghost use Rattle.std.specs.Io.KnownBytes.{Appends};
ghost use Rattle.engines.specs.Device.{inner_of, has_failed};
ghost use Rattle.engines.specs.Transfer.{AppendsFront};

use crate::device::Device;
use crate::fault::WriteFault;
use crate::transfer::write_bytes;
use std::alloc::{AllocError, Global};
use std::io::Write;
use text_lines::PutText;

/// How many bytes of a text are held back, so that one write takes many pieces.
const HELD_BYTES: usize = 65_536;

/// How far a text has come.
#[derive(Clone, Copy, Debug)]
enum Stage {
    /// Nothing was put.
    Unused,
    /// Each write went well.
    Writing,
    /// A write failed. What is put from then on is passed over.
    Failed,
}

/// Writes a text to a device as it is put. It takes no memory but the room that it is made with,
/// which it borrows: the proof would not see a borrow of the device end in a value with memory.
#[derive(Drop)]
pub struct TextWriter<'a, W> {
    writer: &'a mut Device<W>,
    /// What was put last, and isn't written yet.
    held: &'a mut Vec<u8>,
    stage: Stage,
}

/// Room for what a writer of a text holds back.
pub fn held_room(alloc: Global) -> Result<Vec<u8>, AllocError>
    ensures { IfOk result (λ room. room.items ≡ []) }
{
    Vec::with_capacity(alloc, HELD_BYTES)
}

impl<'a, W: Write> TextWriter<'a, W> {
    ghost use Rattle.engines.specs.Inside.Writing.{HasWritten, Takes};
    ghost use Rattle.engines.specs.Writing.{IsWritten};

    /// A text to which nothing was put. What is put is held back in the room, which is empty.
    pub fn new(writer: &'a mut Device<W>, room: &'a mut Vec<u8>) -> TextWriter<'a, W>
        requires { room.old.items ≡ [] }
        ensures same_reference { result.writer.ghost_name ≡ writer.entry.ghost_name }
        ensures same_writer { result.writer.now ≡ writer.old }
        ensures unused { HasWritten W.contents result [] result }
    {
        TextWriter {
            writer,
            held: room,
            stage: Stage::Unused,
        }
    }

    /// Writes what is held back, and flushes. An empty text makes neither write nor flush. Where
    /// the writer failed, a front of the text may have gone out.
    pub fn finish(&mut self) -> Result<(), WriteFault>
        ensures same_reference { self.new.writer.ghost_name ≡ self.old.writer.ghost_name }
        ensures written { (start : TextWriter W) (text : List ℕ)
            → HasWritten W.contents start text self.old
            → IsWritten W.contents text start.writer.now self.new.writer.now result }
    {
        match self.stage {
            Stage::Unused => Ok(()),
            Stage::Failed => Err(WriteFault),
            Stage::Writing => {
                write_bytes(self.writer, self.held)?;
                self.writer.flush()?;
                Ok(())
            }
        }
    }

    /// Whether so many bytes more can be held back.
    #[inline(always)]
    fn has_room(&self, count: usize) -> bool {
        count <= self.held.capacity().saturating_sub(self.held.len())
    }

    /// Holds some bytes back, or writes what is held back and then these. It answers how far the
    /// text has come.
    #[inline(always)]
    fn take(&mut self, bytes: &[u8]) -> Stage
        ensures same_reference { self.new.writer.ghost_name ≡ self.old.writer.ghost_name }
        ensures taken { Takes W.contents self.old bytes.now self.new result }
    {
        if self.has_room(bytes.len()) && self.held.extend_from_slice(bytes).is_ok() {
            return Stage::Writing;
        }
        match self.write_with(bytes) {
            Ok(()) => Stage::Writing,
            Err(_) => Stage::Failed,
        }
    }

    /// Writes what is held back, and then these bytes. It stands apart, so that the test for room
    /// is inlined.
    #[cold]
    #[inline(never)]
    fn write_with(&mut self, bytes: &[u8]) -> Result<(), WriteFault>
        ensures same_reference { self.new.writer.ghost_name ≡ self.old.writer.ghost_name }
        ensures written { OnOk result (Appends (W.contents (inner_of self.old.writer.now))
            (W.contents (inner_of self.new.writer.now)) (self.old.held.now.items ++ bytes.now)) }
        ensures none_held { OnOk result (self.new.held.now.items ≡ []) }
        ensures sound { OnOk result
            (has_failed self.new.writer.now ≡ has_failed self.old.writer.now) }
        ensures front { OnErr result (AppendsFront (W.contents (inner_of self.old.writer.now))
            (W.contents (inner_of self.new.writer.now)) (self.old.held.now.items ++ bytes.now)) }
        ensures failed { OnErr result (has_failed self.new.writer.now ≡ true) }
    {
        write_bytes(self.writer, self.held)?;
        self.held.clear();
        write_bytes(self.writer, bytes)
    }
}

impl<W: Write> PutText for TextWriter<'_, W> {
    ghost use Rattle.engines.specs.Inside.Writing.{HasWritten};

    ghost after = { HasWritten W.contents };

    // Most pieces of a text are a word or a space. Inlined, one that is known takes a store, not a
    // call of the function that copies bytes.
    #[inline(always)]
    fn put(&mut self, bytes: &[u8]) {
        if let Stage::Failed = self.stage {
            return;
        }
        if !bytes.is_empty() {
            self.stage = self.take(bytes);
        }
    }

    fn is_closed(&self) -> bool {
        matches!(self.stage, Stage::Failed)
    }
}

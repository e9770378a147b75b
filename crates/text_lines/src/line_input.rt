//! An input of lines that comes in pieces, with what is made of its lines.
ghost use Rattle.std.specs.Prelude.{◌++◌, ◌^◌, ◌<◌, [], ℕ, List, length, IfOk, IfErr};
ghost use Rattle.text_lines.specs.Format.{IsRead, IsReadingFault};
ghost use Rattle.text_lines.specs.LineReading.{HasTakenBytes};
ghost use Rattle.text_lines.specs.Lines.{lines_of};

use crate::fault::ParseFault;
use crate::line_reader::LineReader;
use crate::lines::TakeLine;
use std::alloc::Global;

/// An input of lines that comes in pieces of any size, and what is made of its lines. Once a line
/// is faulty, or an allocation failed, what comes behind it is passed over.
#[derive(Drop)]
pub struct LineInput<T> {
    reader: LineReader,
    taker: T,
}

impl<T: TakeLine + Drop> LineInput<T> {
    /// An input of which nothing came yet.
    pub fn new(alloc: Global, taker: T) -> LineInput<T>
        ensures { (start : T.State) → T.stands_for start taker
            → HasTakenBytes T.format start T.stands_for result.taker result.reader [] }
    {
        LineInput {
            reader: LineReader::new(alloc),
            taker,
        }
    }

    /// Takes the next piece.
    pub fn take_piece(&mut self, alloc: Global, piece: &[u8])
        ensures { (start : T.State) (bytes : List ℕ)
            → HasTakenBytes T.format start T.stands_for self.old.taker self.old.reader bytes
            → HasTakenBytes T.format start T.stands_for self.new.taker self.new.reader
            (bytes ++ piece.now) }
    {
        let _ = self.reader.take_piece(alloc, piece, &mut self.taker);
    }

    /// What was made of all lines. Otherwise it reports the first faulty one of them, or that an
    /// allocation failed.
    pub fn finish(self, alloc: Global) -> Result<T, ParseFault>
        ensures read { (start : T.State) (bytes : List ℕ)
            → HasTakenBytes T.format start T.stands_for self.taker self.reader bytes
            → IfOk result (λ taker. (end : T.State)
            × IsRead T.format start (lines_of bytes) end × T.stands_for end taker) }
        ensures fault { (start : T.State) (bytes : List ℕ)
            → HasTakenBytes T.format start T.stands_for self.taker self.reader bytes
            → length bytes < 2 ^ 64
            → IfErr result (IsReadingFault T.format start (lines_of bytes)) }
    {
        let LineInput { reader, mut taker } = self;
        reader.finish(alloc, &mut taker)?;
        Ok(taker)
    }
}

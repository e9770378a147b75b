//! Lines of an input that comes in pieces.
ghost use Rattle.std.specs.Prelude.{◌≡◌, ℕ, ◌^◌, ◌<◌, ◌≤◌, List, [], ◌∷◌, ◌++◌, length, OnOk};
ghost use Rattle.std.specs.Prelude.{IfErr};

use crate::fault::ParseFault;
use crate::lines::{
    TakeLine, ended_line, split_whole_line, take_last_line, take_or_skip, take_whole_lines,
};
use std::alloc::{AllocError, Global};
use std::marker::Model;

/// Takes the lines of an input that comes in pieces of any size, as
/// [`take_lines`](crate::take_lines) takes those of a whole one. It holds the bytes of the one line
/// that isn't whole yet.
#[derive(Debug, Drop)]
pub struct LineReader {
    unfinished: Vec<u8>,
    count: u64,
    fault: Option<ParseFault>,
}

impl Model for LineReader {
    ghost use Rattle.text_lines.specs.LineReading.{Progress};

    ghost Value = { Progress };

    ghost view = { λ reader. record {
      count = reader.count;
      unfinished = reader.unfinished.items;
      fault = reader.fault;
    } };
}

ghost use Rattle.text_lines.specs.Format.{IsRead, IsReadingFault};
ghost use Rattle.text_lines.specs.Inside.LineFeeds.{HasNoLineFeed};
ghost use Rattle.text_lines.specs.LineReading.{no_progress, HasTaken, TakesPiece, IsPieceFault};
ghost use Rattle.text_lines.specs.Lines.{lines_of, line_feed};

impl LineReader {
    /// A reader that has taken nothing.
    pub fn new(alloc: Global) -> LineReader
        ensures { result ≡ no_progress }
    {
        LineReader {
            unfinished: Vec::new(alloc),
            count: 0,
            fault: None,
        }
    }

    /// The bytes of the line that isn't whole yet. The reader holds no others, so a caller whose
    /// input has no end can refuse a line that is too long.
    pub fn unfinished(&self) -> &[u8]
        ensures { result.now ≡ self.now.unfinished }
    {
        &self.unfinished
    }

    /// How many lines were taken, up to 2^64 − 1; those that have no fields count too.
    pub fn line_count(&self) -> u64
        ensures { result ≡ self.now.count }
    {
        self.count
    }

    /// Takes each line that ends in this piece, the first one with what earlier pieces had of it.
    ///
    /// It reports the first faulty line by its number in the whole input, in which lines are
    /// numbered up to 2^64 − 1, or that an allocation failed. After a fault the taker stands for
    /// nothing, and each call reports the same one.
    pub fn take_piece<T: TakeLine>(
        &mut self,
        alloc: Global,
        piece: &[u8],
        taker: &mut T,
    ) -> Result<(), ParseFault>
        ensures taken { OnOk result (TakesPiece T.format T.stands_for taker.old self.old
            taker.new self.new piece.now) }
        ensures fault { IfErr result (IsPieceFault T.format T.stands_for taker.old self.old
            piece.now) }
        ensures kept { IfErr result (λ fault. self.new.fault ≡ Some fault) }
        ensures again { (fault : ParseFault) → self.old.fault ≡ Some fault → result ≡ Err fault }
    {
        if let Some(fault) = self.fault {
            return Err(fault);
        }
        let taken = self.take_more(alloc, piece, taker);
        self.fault = taken.err();
        taken
    }

    /// Takes a piece of one line at most as [`take_piece`](LineReader::take_piece) does, but looks
    /// for a line feed at its end alone.
    pub fn take_one_line<T: TakeLine>(
        &mut self,
        alloc: Global,
        piece: &[u8],
        taker: &mut T,
    ) -> Result<(), ParseFault>
        requires { length (lines_of piece.now) ≤ 1 }
        ensures taken { OnOk result (TakesPiece T.format T.stands_for taker.old self.old
            taker.new self.new piece.now) }
        ensures fault { IfErr result (IsPieceFault T.format T.stands_for taker.old self.old
            piece.now) }
        ensures kept { IfErr result (λ fault. self.new.fault ≡ Some fault) }
        ensures again { (fault : ParseFault) → self.old.fault ≡ Some fault → result ≡ Err fault }
    {
        if let Some(fault) = self.fault {
            return Err(fault);
        }
        let took = self.take_or_hold(alloc, piece, taker);
        self.fault = took.err();
        took
    }

    /// Takes the last line, which no line feed ends, if there is one.
    ///
    /// Of an input of fewer than 2^64 bytes a fault is what
    /// [`take_lines`](crate::take_lines) reports of all of it.
    pub fn finish<T: TakeLine>(self, alloc: Global, taker: &mut T) -> Result<(), ParseFault>
        ensures read { (start : T.State) (bytes : List ℕ)
            → HasTaken T.format start T.stands_for taker.old self bytes
            → OnOk result ((end : T.State)
            × IsRead T.format start (lines_of bytes) end × T.stands_for end taker.new) }
        ensures fault { (start : T.State) (bytes : List ℕ)
            → HasTaken T.format start T.stands_for taker.old self bytes
            → length bytes < 2 ^ 64
            → IfErr result (IsReadingFault T.format start (lines_of bytes)) }
        ensures again { (fault : ParseFault) → self.fault ≡ Some fault → result ≡ Err fault }
    {
        match self.fault {
            Some(fault) => Err(fault),
            None => take_last_line(alloc, &self.unfinished, self.count, taker),
        }
    }

    /// Takes a piece where no fault came before.
    fn take_more<T: TakeLine>(
        &mut self,
        alloc: Global,
        piece: &[u8],
        taker: &mut T,
    ) -> Result<(), ParseFault>
        ensures taken { OnOk result (TakesPiece T.format T.stands_for taker.old self.old
            taker.new self.new piece.now) }
        ensures fault { IfErr result (IsPieceFault T.format T.stands_for taker.old self.old
            piece.now) }
    {
        let Some((end, below)) = split_whole_line(piece) else {
            self.unfinished.extend_from_slice(piece)?;
            return Ok(());
        };
        self.finish_line(alloc, end, taker)?;
        let rest = take_whole_lines(alloc, below, &mut self.count, taker)?;
        self.unfinished.extend_from_slice(rest)?;
        Ok(())
    }

    /// Takes a part of one line at most where no fault came before.
    fn take_or_hold<T: TakeLine>(
        &mut self,
        alloc: Global,
        part: &[u8],
        taker: &mut T,
    ) -> Result<(), ParseFault>
        requires { length (lines_of part.now) ≤ 1 }
        ensures taken { OnOk result (TakesPiece T.format T.stands_for taker.old self.old
            taker.new self.new part.now) }
        ensures fault { IfErr result (IsPieceFault T.format T.stands_for taker.old self.old
            part.now) }
    {
        let Some(end) = ended_line(part) else {
            self.unfinished.extend_from_slice(part)?;
            return Ok(());
        };
        self.finish_line(alloc, end, taker)
    }

    /// Takes the line that isn't whole yet, which ends so.
    fn finish_line<T: TakeLine>(
        &mut self,
        alloc: Global,
        end: &[u8],
        taker: &mut T,
    ) -> Result<(), ParseFault>
        requires { HasNoLineFeed end.now }
        ensures taken { OnOk result (TakesPiece T.format T.stands_for taker.old self.old
            taker.new self.new (end.now ++ line_feed ∷ [])) }
        ensures whole { OnOk result (self.new.unfinished ≡ []) }
        ensures fault { IfErr result (IsPieceFault T.format T.stands_for taker.old self.old
            (end.now ++ line_feed ∷ [])) }
    {
        if self.unfinished.is_empty() {
            return take_or_skip(alloc, end, &mut self.count, taker);
        }
        self.unfinished.extend_from_slice(end)?;
        take_or_skip(alloc, &self.unfinished, &mut self.count, taker)?;
        self.unfinished.clear();
        Ok(())
    }
}

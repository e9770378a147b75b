//! Readers that may be shown the output at each read.
ghost use Rattle.std.specs.Prelude.{◌≡◌, true, List, ◌∷◌, [], ◌++◌};
ghost use Rattle.std.specs.Io.{ReadsAtMost};
ghost use Rattle.std.specs.Io.KnownBytes.{ReadConsumes};
ghost use Rattle.engines.specs.Device.{inner_of, is_flushed};
ghost use Rattle.engines.specs.FlushedReads.{FlushedRead, flushed_read};

use crate::device::Device;
use std::io;
use std::io::{Read, Stdin, Write};

/// A reader that may be shown the output at each read: whoever gives the input may wait until they
/// have seen what it brought so far.
pub trait ReadBehind: Read {
    // The first became the second by these reads, in order. Of a reader that passes the output over
    // nothing is known.
    ghost after: { Self → List FlushedRead → Self → Type 0 } = { λ _ _ _. Unit {0} };

    /// Reads as [`Read::read`] does, where all that was written to a writer is flushed.
    fn read_behind<W: Write>(&mut self, writer: &Device<W>, buf: &mut [u8]) -> io::Result<usize>
        requires flushed { is_flushed writer.now ≡ true }
        ensures bound { ReadsAtMost result buf.new }
        ensures bytes { ReadConsumes (Self.remaining self.old) (Self.remaining self.new)
            result buf.new }
        ensures shown { (start : Self) (reads : List FlushedRead) → after start reads self.old
            → after start (reads ++ flushed_read (W.contents (inner_of writer.now))
            result buf.new ∷ []) self.new };
}

impl ReadBehind for Stdin {
    fn read_behind<W: Write>(&mut self, _writer: &Device<W>, buf: &mut [u8]) -> io::Result<usize> {
        self.read(buf)
    }
}

impl ReadBehind for &[u8] {
    fn read_behind<W: Write>(&mut self, _writer: &Device<W>, buf: &mut [u8]) -> io::Result<usize> {
        self.read(buf)
    }
}

impl<R: ReadBehind> ReadBehind for &mut R {
    ghost after = { λ start reads end. R.after start.now reads end.now };

    fn read_behind<W: Write>(&mut self, writer: &Device<W>, buf: &mut [u8]) -> io::Result<usize> {
        ReadBehind::read_behind(&mut **self, writer, buf)
    }
}

//! Readers and writers that remember what became of their calls.
ghost use Rattle.std.specs.Prelude.{◌≡◌, true, false};
ghost use Rattle.std.specs.Io.{ReadsAtMost, WritesAtMost};
ghost use Rattle.std.specs.Io.KnownBytes.{Keeps, ReadConsumes, WriteAppends};
ghost use Rattle.engines.specs.Device.{inner_of, has_failed, given_of, is_flushed};
ghost use Rattle.engines.specs.Device.{is_read_behind_flushes, IsFresh};
ghost use Rattle.engines.specs.Device.{RecordsRead, RecordsWrite, RecordsFlush};
ghost use Rattle.engines.specs.Inside.Counting.{with_given};
ghost use Rattle.engines.specs.FlushedReads.{MakesReads, bytes_given};

use crate::flushed_reads::ReadBehind;
use std::io;
use std::io::{Error, ErrorKind, Read, Write};

/// A reader or a writer that remembers whether a call of it failed, how many bytes it gave, whether
/// all that was written to it is flushed, and whether each of its reads was made where all that was
/// written to another device was flushed.
///
/// A call that was interrupted is made again, and is no failure. It is not dropped by chance:
/// whoever made the device looks at it, or takes it apart.
pub struct Device<T> {
    inner: T,
    failed: bool,
    given: u64,
    flushed: bool,
    behind_flushes: bool,
}

impl<T> Device<T> {
    /// A device of which no call was made yet.
    pub fn new(inner: T) -> Device<T>
        ensures inner { inner_of result ≡ inner }
        ensures fresh { IsFresh result }
    {
        Device {
            inner,
            failed: false,
            given: 0,
            flushed: true,
            behind_flushes: true,
        }
    }

    /// Whether a call failed. A write that took none of some bytes is a failure.
    pub fn failed(&self) -> bool
        ensures { result ≡ has_failed self.now }
    {
        self.failed
    }

    /// How many bytes its reads gave. It stays at its greatest value.
    pub fn given(&self) -> u64
        ensures { result ≡ given_of self.now }
    {
        self.given
    }

    /// Whether all that was written by way of the device is flushed: nothing was, or a flush ended
    /// well after the last write.
    pub fn flushed(&self) -> bool
        ensures { result ≡ is_flushed self.now }
    {
        self.flushed
    }

    /// Whether each read of the device was made by [`Device::read_behind`], and so where all that
    /// was written to another device was flushed.
    pub fn behind_flushes(&self) -> bool
        ensures { result ≡ is_read_behind_flushes self.now }
    {
        self.behind_flushes
    }

    /// Counts the bytes that a read gave.
    fn count_given(&mut self, count: usize)
        ensures { self.new ≡ with_given self.old count }
    {
        self.given = self.given.saturating_add(count as u64);
    }

    /// The reader or the writer itself.
    pub fn into_inner(self) -> T
        ensures { result ≡ inner_of self }
    {
        let Device {
            inner,
            failed: _,
            given: _,
            flushed: _,
            behind_flushes: _,
        } = self;
        inner
    }
}

/// The failure after 2^64 - 1 interruptions.
fn too_many_interruptions() -> Error {
    Error::new(ErrorKind::TimedOut, "interrupted too often")
}

/// Answers what a call of a device's inner reader or writer does, which is made again for as long
/// as it is interrupted. What it gave is recorded, and any other error is a failure of the device.
macro_rules! answer {
    ($device:ident, $call:expr, |$given:ident| $record:expr) => {{
        for _ in 0..u64::MAX {
            match $call {
                Ok($given) => {
                    $record;
                    return Ok($given);
                }
                Err(error) => {
                    if error.kind() != ErrorKind::Interrupted {
                        $device.failed = true;
                        return Err(error);
                    }
                }
            }
        }
        $device.failed = true;
        Err(too_many_interruptions())
    }};
}

impl<R: Read> Device<R> {
    /// Reads, whatever is flushed.
    fn read_inner(&mut self, buf: &mut [u8]) -> io::Result<usize>
        ensures bound { ReadsAtMost result buf.new }
        ensures bytes { ReadConsumes (R.remaining (inner_of self.old))
            (R.remaining (inner_of self.new)) result buf.new }
        ensures record { RecordsRead self.old self.new result }
        ensures behind { is_read_behind_flushes self.new ≡ is_read_behind_flushes self.old }
    {
        answer!(self, self.inner.read(buf), |count| {
            self.count_given(count);
        })
    }
}

impl<R: ReadBehind> Device<R> {
    /// Reads where all that was written to a writer is flushed, and shows the reader that writer.
    /// There is no other read that leaves [`Device::behind_flushes`] true.
    pub fn read_behind<W: Write>(&mut self, writer: &Device<W>, buf: &mut [u8]) -> io::Result<usize>
        requires flushed { is_flushed writer.now ≡ true }
        ensures bound { ReadsAtMost result buf.new }
        ensures bytes { ReadConsumes (R.remaining (inner_of self.old))
            (R.remaining (inner_of self.new)) result buf.new }
        ensures record { RecordsRead self.old self.new result }
        ensures behind { is_read_behind_flushes self.new ≡ is_read_behind_flushes self.old }
        ensures shown { MakesReads R.after (W.contents (inner_of writer.now))
            (inner_of self.old) (inner_of self.new) (bytes_given result buf.new) }
    {
        answer!(self, self.inner.read_behind(writer, buf), |count| {
            self.count_given(count);
        })
    }
}

impl<R: Read> Read for Device<R> {
    ghost remaining = { λ device. R.remaining (inner_of device) };

    fn read(&mut self, buf: &mut [u8]) -> io::Result<usize>
        ensures bound { ReadsAtMost result buf.new }
        ensures bytes { ReadConsumes (R.remaining (inner_of self.old))
            (R.remaining (inner_of self.new)) result buf.new }
        ensures record { RecordsRead self.old self.new result }
        ensures behind { is_read_behind_flushes self.new ≡ false }
    {
        self.behind_flushes = false;
        self.read_inner(buf)
    }
}

impl<W: Write> Write for Device<W> {
    ghost contents = { λ device. W.contents (inner_of device) };

    fn write(&mut self, buf: &[u8]) -> io::Result<usize>
        ensures bound { WritesAtMost result buf.now }
        ensures bytes { WriteAppends (W.contents (inner_of self.old))
            (W.contents (inner_of self.new)) result buf.now }
        ensures record { RecordsWrite self.old self.new buf.now result }
        ensures behind { is_read_behind_flushes self.new ≡ is_read_behind_flushes self.old }
    {
        self.flushed = false;
        answer!(self, self.inner.write(buf), |count| {
            self.failed = self.failed || (count == 0 && !buf.is_empty());
        })
    }

    fn flush(&mut self) -> io::Result<()>
        ensures bytes { Keeps (W.contents (inner_of self.old)) (W.contents (inner_of self.new)) }
        ensures record { RecordsFlush self.old self.new result }
        ensures behind { is_read_behind_flushes self.new ≡ is_read_behind_flushes self.old }
    {
        answer!(self, self.inner.flush(), |done| {
            self.flushed = true;
        })
    }
}

//! A reader and a writer of one byte a call, interrupted before each call, that can fail.
use engines::{Device, ReadBehind};
use std::io;
use std::io::{Error, ErrorKind, Read, Write};

/// Each kind of error but `Interrupted`.
pub(crate) const FAILURES: [ErrorKind; 41] = [
    ErrorKind::NotFound,
    ErrorKind::PermissionDenied,
    ErrorKind::ConnectionRefused,
    ErrorKind::ConnectionReset,
    ErrorKind::HostUnreachable,
    ErrorKind::NetworkUnreachable,
    ErrorKind::ConnectionAborted,
    ErrorKind::NotConnected,
    ErrorKind::AddrInUse,
    ErrorKind::AddrNotAvailable,
    ErrorKind::NetworkDown,
    ErrorKind::BrokenPipe,
    ErrorKind::AlreadyExists,
    ErrorKind::WouldBlock,
    ErrorKind::NotADirectory,
    ErrorKind::IsADirectory,
    ErrorKind::DirectoryNotEmpty,
    ErrorKind::ReadOnlyFilesystem,
    ErrorKind::FilesystemLoop,
    ErrorKind::StaleNetworkFileHandle,
    ErrorKind::InvalidInput,
    ErrorKind::InvalidData,
    ErrorKind::TimedOut,
    ErrorKind::WriteZero,
    ErrorKind::StorageFull,
    ErrorKind::NotSeekable,
    ErrorKind::QuotaExceeded,
    ErrorKind::FileTooLarge,
    ErrorKind::ResourceBusy,
    ErrorKind::ExecutableFileBusy,
    ErrorKind::Deadlock,
    ErrorKind::CrossesDevices,
    ErrorKind::TooManyLinks,
    ErrorKind::InvalidFilename,
    ErrorKind::ArgumentListTooLong,
    ErrorKind::Unsupported,
    ErrorKind::UnexpectedEof,
    ErrorKind::OutOfMemory,
    ErrorKind::InProgress,
    ErrorKind::Other,
    ErrorKind::Uncategorized,
];

/// A reader that gives a text a byte a call, and then its end or an error of some kind.
#[derive(Drop)]
pub(crate) struct FitfulReader<'a> {
    rest: &'a [u8],
    end: Option<ErrorKind>,
    interrupted: bool,
}

impl<'a> FitfulReader<'a> {
    pub(crate) fn new(text: &'a [u8], end: Option<ErrorKind>) -> Self {
        FitfulReader {
            rest: text,
            end,
            interrupted: false,
        }
    }
}

impl Read for FitfulReader<'_> {
    fn read(&mut self, buf: &mut [u8]) -> io::Result<usize> {
        self.interrupted = !self.interrupted;
        if self.interrupted {
            return Err(Error::from(ErrorKind::Interrupted));
        }
        match self.rest.split_first() {
            Some((byte, rest)) if !buf.is_empty() => {
                buf[0] = *byte;
                self.rest = rest;
                Ok(1)
            }
            _ => match self.end {
                Some(kind) => Err(Error::from(kind)),
                None => Ok(0),
            },
        }
    }
}

impl ReadBehind for FitfulReader<'_> {
    fn read_behind<W: Write>(&mut self, _writer: &Device<W>, buf: &mut [u8]) -> io::Result<usize> {
        self.read(buf)
    }
}

/// What a writer answers once it is full.
#[derive(Clone, Copy, Drop)]
pub(crate) enum Full {
    /// An error of this kind.
    Fails(ErrorKind),
    /// That it took no byte.
    TakesNothing,
}

/// A writer that takes a byte a call and is full after some bytes. Its flush may fail, too.
#[derive(Drop)]
pub(crate) struct FitfulWriter<'a> {
    taken: &'a mut Vec<u8>,
    room: usize,
    full: Full,
    flush: Option<ErrorKind>,
    interrupted: bool,
}

impl<'a> FitfulWriter<'a> {
    /// A writer that is full after so many bytes.
    pub(crate) fn new(taken: &'a mut Vec<u8>, room: usize, full: Full) -> Self {
        FitfulWriter {
            taken,
            room,
            full,
            flush: None,
            interrupted: false,
        }
    }

    /// A writer that takes all, and fails to flush.
    pub(crate) fn fails_to_flush(taken: &'a mut Vec<u8>, kind: ErrorKind) -> Self {
        FitfulWriter {
            taken,
            room: usize::MAX,
            full: Full::TakesNothing,
            flush: Some(kind),
            interrupted: false,
        }
    }
}

impl Write for FitfulWriter<'_> {
    fn write(&mut self, buf: &[u8]) -> io::Result<usize> {
        self.interrupted = !self.interrupted;
        if self.interrupted {
            return Err(Error::from(ErrorKind::Interrupted));
        }
        if self.room == 0 || buf.is_empty() {
            return match self.full {
                Full::Fails(kind) => Err(Error::from(kind)),
                Full::TakesNothing => Ok(0),
            };
        }
        self.taken.push(buf[0])?;
        self.room -= 1;
        Ok(1)
    }

    fn flush(&mut self) -> io::Result<()> {
        self.interrupted = !self.interrupted;
        if self.interrupted {
            return Err(Error::from(ErrorKind::Interrupted));
        }
        match self.flush {
            Some(kind) => Err(Error::from(kind)),
            None => Ok(()),
        }
    }
}

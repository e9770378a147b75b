//! A runtime whose files are a map that is read and files that take all that is written.
use std::alloc::Allocator;
use std::fs::{Metadata, OpenFile, OpenOptions};
use std::io;
use std::io::{Error, ErrorKind, Read, Seek, SeekFrom, Write};
use std::rt::{Clock, Files};
use std::time::Duration;

/// The path of the map.
pub(crate) const MAP_PATH: &str = "two_channels.map";
/// The map of a flow that begins at 0 on two channels.
const MAP: &str = "\
flow 1 0 64 1
channel 0 100
channel 1 101
sid 0 7 0
sid 1 7 0
";

/// A runtime with this map at its path, where each other path is a new file, and with a clock.
#[derive(Drop)]
pub(crate) struct OneMap<C> {
    pub(crate) clock: C,
}

/// One whose clock fails.
pub(crate) const ONE_MAP: OneMap<NoClock> = OneMap { clock: NoClock };

/// A clock that fails.
#[derive(Drop)]
pub(crate) struct NoClock;

impl Clock for NoClock {
    fn monotonic(&self) -> io::Result<Duration> {
        refused()
    }

    fn since_1970(&self) -> io::Result<Duration> {
        refused()
    }
}

impl<C: Clock> Clock for OneMap<C> {
    fn monotonic(&self) -> io::Result<Duration> {
        self.clock.monotonic()
    }

    fn since_1970(&self) -> io::Result<Duration> {
        self.clock.since_1970()
    }
}

/// A file that gives a text, and takes all that is written.
#[derive(Drop)]
pub(crate) struct MapFile {
    rest: &'static [u8],
}

fn refused<T>() -> io::Result<T> {
    Err(Error::from(ErrorKind::Unsupported))
}

impl Read for MapFile {
    fn read(&mut self, buf: &mut [u8]) -> io::Result<usize> {
        let count = self.rest.len().min(buf.len());
        let (front, rest) = self.rest.split_at(count);
        buf[..count].copy_from_slice(front);
        self.rest = rest;
        Ok(count)
    }
}

impl Write for MapFile {
    fn write(&mut self, buf: &[u8]) -> io::Result<usize> {
        Ok(buf.len())
    }

    fn flush(&mut self) -> io::Result<()> {
        Ok(())
    }
}

impl Seek for MapFile {
    fn seek(&mut self, _to: SeekFrom) -> io::Result<u64> {
        refused()
    }
}

impl OpenFile for MapFile {
    fn metadata(&self) -> io::Result<Metadata> {
        refused()
    }

    fn set_len(&self, _size: u64) -> io::Result<()> {
        refused()
    }

    fn sync_all(&self) -> io::Result<()> {
        refused()
    }

    fn sync_data(&self) -> io::Result<()> {
        refused()
    }
}

impl<C> Files for OneMap<C> {
    type File = MapFile;

    type Dir = MapFile;

    fn open_file(&self, how: &OpenOptions, path: &str) -> io::Result<MapFile> {
        how.check()?;
        if how.asks_write() {
            return Ok(MapFile { rest: b"" });
        }
        if path == MAP_PATH {
            return Ok(MapFile {
                rest: MAP.as_bytes(),
            });
        }
        Err(Error::from(ErrorKind::NotFound))
    }

    fn open_dir(&self, _path: &str) -> io::Result<MapFile> {
        refused()
    }

    fn metadata(&self, _path: &str) -> io::Result<Metadata> {
        refused()
    }

    fn symlink_metadata(&self, _path: &str) -> io::Result<Metadata> {
        refused()
    }

    fn copy(&self, _from: &str, _to: &str) -> io::Result<u64> {
        refused()
    }

    fn rename(&self, _from: &str, _to: &str) -> io::Result<()> {
        refused()
    }

    fn remove_file(&self, _path: &str) -> io::Result<()> {
        refused()
    }

    fn create_dir(&self, _path: &str) -> io::Result<()> {
        refused()
    }

    fn remove_dir(&self, _path: &str) -> io::Result<()> {
        refused()
    }

    fn remove_dir_all<B: Allocator>(&self, _alloc: B, _path: &str) -> io::Result<()> {
        refused()
    }
}

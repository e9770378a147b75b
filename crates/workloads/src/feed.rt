//! A reader of what is made as it is read.
ghost use Rattle.std.specs.Prelude.{◌≤◌, length};

use engines::{Device, ReadBehind};
use std::io;
use std::io::{Read, Write};

/// Makes an input, a part at a time.
pub trait Make {
    /// Appends the next part, or nothing where all was made.
    fn make(&mut self, out: &mut Vec<u8>) -> io::Result<()>;

    /// How many segments were made.
    fn segments(&self) -> u64;
}

/// Gives what is made to whoever reads.
#[derive(Drop)]
pub struct Feed<M> {
    maker: M,
    made: Vec<u8>,
    /// How many of the bytes that were made were given.
    given: usize,
}

impl<M> Feed<M> {
    /// An input of which nothing was made yet. What is made stands in this room, which is empty.
    pub fn new(room: Vec<u8>, maker: M) -> Feed<M> {
        Feed {
            maker,
            made: room,
            given: 0,
        }
    }

    /// How many segments were made.
    pub fn segments(&self) -> u64
    where
        M: Make,
    {
        self.maker.segments()
    }

    /// Copies what isn't given yet, as far as there is room.
    fn give(&self, buf: &mut [u8]) -> usize
        ensures { result ≤ length buf.old }
    {
        match self.made.get(self.given..) {
            Some(rest) => copy_front(rest, buf),
            None => 0,
        }
    }
}

/// Copies as many bytes as there is room for, and answers how many.
fn copy_front(from: &[u8], to: &mut [u8]) -> usize
    ensures { result ≤ length to.old }
{
    let count = from.len().min(to.len());
    to[..count].copy_from_slice(&from[..count]);
    count
}

impl<M: Make> Read for Feed<M> {
    fn read(&mut self, buf: &mut [u8]) -> io::Result<usize> {
        if self.given >= self.made.len() {
            self.made.clear();
            self.given = 0;
            self.maker.make(&mut self.made)?;
        }
        let count = self.give(buf);
        self.given = self.given.saturating_add(count);
        Ok(count)
    }
}

impl<M: Make> ReadBehind for Feed<M> {
    fn read_behind<W: Write>(&mut self, _writer: &Device<W>, buf: &mut [u8]) -> io::Result<usize> {
        self.read(buf)
    }
}

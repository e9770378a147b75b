//! A writer that keeps a digest of what it is given.
ghost use Rattle.std.specs.Prelude.{◌<◌};

use std::io;
use std::io::Write;

/// How many bytes are taken at once, by eight in each lane.
const BLOCK: usize = 32;

/// What was mixed of each lane.
#[derive(Clone, Copy, Debug)]
struct Lanes(u64, u64, u64, u64);

/// A digest of the bytes that it is given, however they are split, and of the numbers between them;
/// and how many bytes these all were.
#[derive(Clone, Copy, Debug)]
pub struct Digest {
    lanes: Lanes,
    /// What was mixed of the numbers.
    numbers: u64,
    length: u64,
    /// What came since the last whole block, at its front.
    partial: [u8; BLOCK],
    filled: usize,
}

/// A lane after a number more.
fn mixed(lane: u64, number: u64) -> u64 {
    (lane ^ number)
        .wrapping_mul(0x9FB2_1C65_1E98_DF25)
        .rotate_left(32)
}

/// The number that eight bytes spell.
fn spelled(bytes: &[u8]) -> u64 {
    match bytes.first_chunk::<8>() {
        Some(eight) => u64::from_le_bytes(*eight),
        None => 0,
    }
}

/// The lanes after a block more.
fn mixed_block(lanes: Lanes, block: &[u8]) -> Lanes {
    let (first, rest) = block.split_at(block.len().min(8));
    let (second, rest) = rest.split_at(rest.len().min(8));
    let (third, fourth) = rest.split_at(rest.len().min(8));
    Lanes(
        mixed(lanes.0, spelled(first)),
        mixed(lanes.1, spelled(second)),
        mixed(lanes.2, spelled(third)),
        mixed(lanes.3, spelled(fourth)),
    )
}

impl Digest {
    /// Of no bytes.
    pub fn new() -> Digest {
        Digest {
            lanes: Lanes(1, 2, 3, 4),
            numbers: 5,
            length: 0,
            partial: [0; BLOCK],
            filled: 0,
        }
    }

    /// Takes as many bytes as the partial block has room for, and answers the others.
    fn fill<'a>(&mut self, bytes: &'a [u8]) -> &'a [u8] {
        let room = BLOCK.saturating_sub(self.filled);
        let (front, rest) = bytes.split_at(room.min(bytes.len()));
        let end = self.filled.saturating_add(front.len());
        if let Some(places) = self.partial.get_mut(self.filled..end)
            && places.len() == front.len()
        {
            places.copy_from_slice(front);
        }
        self.filled = end;
        if end >= BLOCK {
            self.lanes = mixed_block(self.lanes, &self.partial);
            self.filled = 0;
        }
        rest
    }

    /// Takes the next bytes.
    pub fn take(&mut self, bytes: &[u8]) {
        self.length = self.length.wrapping_add(bytes.len() as u64);
        let rest = if self.filled > 0 {
            self.fill(bytes)
        } else {
            bytes
        };
        let blocks = rest.chunks_exact(BLOCK);
        let last = blocks.remainder();
        let mut lanes = self.lanes;
        for block in blocks {
            lanes = mixed_block(lanes, block);
        }
        self.lanes = lanes;
        self.fill(last);
    }

    /// Takes a number, which is told from the same bytes and stands at its place among those.
    pub fn take_number(&mut self, number: u64) {
        self.numbers = mixed(self.numbers.wrapping_add(self.length), number);
        self.length = self.length.wrapping_add(8);
    }

    /// The digest of all that was taken.
    pub fn value(&self) -> u64 {
        let mut last = self.partial;
        for place in last.iter_mut().skip(self.filled) {
            *place = 0;
        }
        let Lanes(l0, l1, l2, l3) = mixed_block(self.lanes, &last);
        let mut value = self.length;
        for number in [self.filled as u64, self.numbers, l0, l1, l2, l3] {
            value = mixed(value, number);
        }
        value
    }

    /// How many bytes were taken.
    pub fn length(&self) -> u64 {
        self.length
    }
}

/// Gives what is written to a digest.
#[derive(Drop)]
pub struct Digested<'a> {
    pub digest: &'a mut Digest,
}

impl Write for Digested<'_> {
    fn write(&mut self, buf: &[u8]) -> io::Result<usize> {
        self.digest.take(buf);
        Ok(buf.len())
    }

    fn flush(&mut self) -> io::Result<()> {
        Ok(())
    }
}

#[cfg(test)]
mod tests {
    use super::*;

    /// The digest of bytes that are taken in pieces of this size.
    fn of_pieces(bytes: &[u8], size: usize) -> u64
        requires { 0 < size }
    {
        let mut digest = Digest::new();
        for piece in bytes.chunks(size) {
            digest.take(piece);
        }
        digest.value()
    }

    #[test]
    fn splitting_bytes_leaves_their_digest(rt: HostRuntime) {
        let mut bytes = [0; 3 * BLOCK + 5];
        for (place, byte) in bytes.iter_mut().zip(1..=255) {
            *place = byte;
        }
        for size in 1..bytes.len() {
            assert!(rt;
                of_pieces(&bytes, size) == of_pieces(&bytes, bytes.len()),
                "{size}"
            );
        }
    }

    #[test]
    fn numbers_stand_at_their_places(rt: HostRuntime) {
        let (mut before, mut behind, mut bytes) = (Digest::new(), Digest::new(), Digest::new());
        before.take_number(7);
        before.take(b"seven");
        behind.take(b"seven");
        behind.take_number(7);
        bytes.take(&7_u64.to_le_bytes());
        bytes.take(b"seven");
        assert!(rt; before.value() != behind.value());
        assert!(rt; before.value() != bytes.value());
    }
}

//! Frames that are made once, and of which all streams are.
use crate::dice::Dice;
use docsis_wire::{check_sequence, frame_check_sequence};
use std::alloc::{AllocError, Global};

/// How many frames a pool has.
const FRAMES: u32 = 384;
/// The longest payload of a segment, with room to spare: so many bytes of the first frames stand
/// once more behind the last one.
const LONGEST: usize = 4096;

/// Which sizes frames have.
#[derive(Clone, Copy, Debug)]
pub enum Mix {
    /// Ethernet frames of 64 to 1,518 bytes: a third are short, a third long.
    Ordinary,
    /// Ethernet frames of 64 to 250 bytes.
    Small,
    /// MAC frames of 8 to 200 bytes, most of them short.
    Tiny,
}

impl Mix {
    /// How many bytes follow the six of a MAC header.
    fn size(self, dice: &mut Dice) -> u32 {
        match (self, dice.below(3)) {
            (Mix::Ordinary, 0) => dice.between(64, 100),
            (Mix::Ordinary, 1) => dice.between(101, 999),
            (Mix::Ordinary, _) => dice.between(1000, 1518),
            (Mix::Small, _) => dice.between(64, 250),
            (Mix::Tiny, 0) => dice.between(60, 194),
            (Mix::Tiny, _) => dice.between(2, 60),
        }
    }
}

/// Frames end to end, with right check sequences.
#[derive(Drop)]
pub struct Pool {
    /// All frames, and then the first ones once more.
    bytes: Vec<u8>,
    /// The same in hexadecimal.
    digits: Vec<u8>,
    /// Where each frame begins, and where the first one begins once more.
    starts: Vec<usize>,
    /// How many bytes all frames have.
    size: usize,
}

/// The digit of a value.
fn digit(value: u8) -> u8 {
    let value = value % 16;
    if value < 10 {
        b'0' + value
    } else {
        b'a' - 10 + value
    }
}

/// Appends the digits of some bytes.
pub fn push_hex(out: &mut Vec<u8>, bytes: &[u8]) -> Result<(), AllocError> {
    for byte in bytes {
        out.extend_from_slice(&[digit(byte / 16), digit(*byte)])?;
    }
    Ok(())
}

/// Appends a frame: its MAC header with the check sequence, and an Ethernet frame with its own, or
/// what is too short to be one.
fn push_frame(
    alloc: Global,
    out: &mut Vec<u8>,
    mix: Mix,
    dice: &mut Dice,
) -> Result<(), AllocError> {
    let size = mix.size(dice);
    let [high, low] = u16::try_from(size).unwrap_or(0).to_be_bytes();
    let front = [0, 0, high, low];
    out.extend_from_slice(&front)?;
    out.extend_from_slice(&check_sequence(&front).to_le_bytes())?;
    let mut inside = Vec::new(alloc);
    for _ in 0..size.saturating_sub(4) {
        let [byte, ..] = dice.next().to_le_bytes();
        inside.extend_from_slice(&[byte])?;
    }
    let sequence = frame_check_sequence(&inside).to_le_bytes();
    let last = sequence.get(..(size as usize).min(4)).unwrap_or(&[]);
    out.extend_from_slice(&inside)?;
    out.extend_from_slice(last)
}

impl Pool {
    /// Frames of these sizes.
    pub fn new(alloc: Global, mix: Mix, dice: &mut Dice) -> Result<Pool, AllocError> {
        let mut bytes = Vec::new(alloc);
        let mut starts = Vec::new(alloc);
        for _ in 0..FRAMES {
            starts.push(bytes.len())?;
            push_frame(alloc, &mut bytes, mix, dice)?;
        }
        let size = bytes.len();
        starts.push(size)?;
        let again = Vec::from_slice(alloc, bytes.get(..LONGEST).unwrap_or(&[]))?;
        bytes.extend_from_slice(&again)?;
        let mut digits = Vec::new(alloc);
        push_hex(&mut digits, &bytes)?;
        Ok(Pool {
            bytes,
            digits,
            starts,
            size,
        })
    }

    /// A stream that begins with one of the frames.
    pub fn stream(&self, dice: &mut Dice) -> Stream {
        let next = dice.below(FRAMES) as usize;
        Stream {
            at: self.starts.get(next).copied().unwrap_or(0),
            next,
            number: 0,
        }
    }

    /// The payload of a segment.
    pub fn payload(&self, cut: &Cut) -> &[u8] {
        self.bytes
            .get(cut.from..cut.from.saturating_add(cut.length))
            .unwrap_or(&[])
    }

    /// The payload of a segment in hexadecimal.
    pub fn payload_digits(&self, cut: &Cut) -> &[u8] {
        let from = cut.from.saturating_mul(2);
        self.digits
            .get(from..from.saturating_add(cut.length.saturating_mul(2)))
            .unwrap_or(&[])
    }
}

/// How far a modem has sent the frames of a pool, one after another and then from the first on.
#[derive(Clone, Copy, Debug)]
pub struct Stream {
    at: usize,
    /// The first frame that begins there or behind it.
    next: usize,
    /// The number of the next segment.
    pub number: u16,
}

/// A segment: its header, and where its payload stands.
#[derive(Clone, Copy, Debug)]
pub struct Cut {
    pub head: [u8; 8],
    from: usize,
    length: usize,
}

impl Cut {
    /// How many bytes the segment has.
    pub fn size(&self) -> u32 {
        u32::try_from(self.length.saturating_add(8)).unwrap_or(u32::MAX)
    }

    /// The segment's number.
    pub fn number(&self) -> u16 {
        let [_, _, high, low, ..] = self.head;
        u16::from_be_bytes([high, low]) >> 3
    }
}

/// A segment header with its check sequence.
fn head_of(pointer: Option<u16>, number: u16, units: u16) -> [u8; 8] {
    let first = match pointer {
        Some(pointer) => 0x8000 | (pointer & 0x3FFF),
        None => 0,
    };
    let [b0, b1] = first.to_be_bytes();
    let [b2, b3] = ((number % 8192) << 3).to_be_bytes();
    let [b4, b5] = units.to_be_bytes();
    let [b6, b7] = check_sequence(&[b0, b1, b2, b3, b4, b5]).to_le_bytes();
    [b0, b1, b2, b3, b4, b5, b6, b7]
}

impl Stream {
    /// The next segment, with a payload of so many bytes, which asks for so many units.
    pub fn cut(&mut self, pool: &Pool, length: u32, units: u16) -> Cut {
        let length = length as usize;
        let start = pool.starts.get(self.next).copied().unwrap_or(usize::MAX);
        let before = start.saturating_sub(self.at);
        let pointer = if before < length {
            u16::try_from(before).ok()
        } else {
            None
        };
        let cut = Cut {
            head: head_of(pointer, self.number, units),
            from: self.at,
            length,
        };
        self.number = self.number.wrapping_add(1) % 8192;
        self.advance(pool, length);
        cut
    }

    /// Comes so many bytes further.
    fn advance(&mut self, pool: &Pool, length: usize) {
        self.at = self.at.saturating_add(length);
        if self.at >= pool.size {
            self.at = self.at.saturating_sub(pool.size);
            self.next = 0;
        }
        for start in pool.starts.get(self.next..).unwrap_or(&[]) {
            if *start >= self.at {
                break;
            }
            self.next = self.next.saturating_add(1);
        }
    }
}

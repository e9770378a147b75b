//! The frame check sequence of Ethernet.
ghost use Rattle.std.specs.Prelude.{◌≡◌, ◌+◌, ◌*◌, ◌%◌, ◌<◌, ◌≤◌, length, take, drop, bit_xor};
ghost use Rattle.std.specs.Prelude.{MatchOption};
ghost use Rattle.docsis_wire.specs.Division.{message, remainder_after};
ghost use Rattle.docsis_wire.specs.Checks.{frame_generator, frame_check_sequence};
ghost use Rattle.docsis_wire.specs.Inside.Pending.{pair_sum, to_add, whole_remainder};

use crate::frame_remainders::FRAME_REMAINDERS;
use crate::sparse_multiple::{Pending, sum, words_at};
use std::simd::prelude::*;

/// The frame check sequence of these bytes, as at the end of an Ethernet frame in a packet's
/// frame: the 32-bit CRC of IEEE 802.3. Its low byte is sent first.
pub fn frame_check_sequence(bytes: &[u8]) -> u32
    ensures { result ≡ frame_check_sequence bytes.now }
{
    let (remainder, rest) = after_front(0xFFFF_FFFF, bytes);
    after_bytes(remainder, rest) ^ 0xFFFF_FFFF
}

/// From so many bytes on a message has words that may be taken away: two, and six behind them.
const LONG_BYTES: usize = 64;

/// What is left after the front of a long message, and the bytes behind it, fewer than sixteen. Of
/// a message that isn't long all bytes are behind.
fn after_front(remainder: u32, bytes: &[u8]) -> (u32, &[u8])
    ensures { whole_remainder result.0 result.1.now ≡ whole_remainder remainder bytes.now }
{
    if bytes.len() < LONG_BYTES {
        return (remainder, bytes);
    }
    let mut pending = Pending::new(remainder);
    let mut rest = bytes;
    while rest.len() >= LONG_BYTES {
        pending = pending.take_away(words_at(rest, 0));
        rest = &rest[16..];
    }
    after_pending(pending, rest)
}

/// What is left after six words more, to which what is pending is added, and the bytes behind them.
fn after_pending(pending: Pending, bytes: &[u8]) -> (u32, &[u8])
    requires { 48 ≤ length bytes.now }
    ensures { whole_remainder result.0 result.1.now ≡ whole_remainder (to_add pending) bytes.now }
{
    let (first, second, third) = pending.pairs();
    let remainder = after_pair(0, sum(first, words_at(bytes, 0)));
    let remainder = after_pair(remainder, sum(second, words_at(bytes, 16)));
    let remainder = after_pair(remainder, sum(third, words_at(bytes, 32)));
    (remainder, &bytes[48..])
}

/// What is left after two words more.
#[inline(always)]
fn after_pair(remainder: u32, pair: u64x2) -> u32
    ensures { result ≡ remainder_after frame_generator 128 (bit_xor remainder (pair_sum pair)) }
{
    let words = pair.to_array();
    after_words(remainder, words[0], words[1])
}

/// What is left after all these bytes, sixteen at a time and then fewer.
fn after_bytes(remainder: u32, bytes: &[u8]) -> u32
    ensures { result ≡ whole_remainder remainder bytes.now }
{
    let mut remainder = remainder;
    let mut rest = bytes;
    while let Some((low, high, behind)) = split_sixteen(rest) {
        remainder = after_sixteen(remainder, low, high);
        rest = behind;
    }
    after_few(remainder, rest)
}

/// The first eight bytes, the next eight, and those behind them.
#[inline(always)]
fn split_sixteen(bytes: &[u8]) -> Option<(&[u8; 8], &[u8; 8], &[u8])>
    ensures { MatchOption result (length bytes.now < 16) (λ split. (16 ≤ length bytes.now)
        × (split.0.now ≡ take 8 bytes.now) × (split.1.now ≡ take 8 (drop 8 bytes.now))
        × (split.2.now ≡ drop 8 (drop 8 bytes.now))) }
{
    let (low, others) = bytes.split_first_chunk::<8>()?;
    let (high, behind) = others.split_first_chunk::<8>()?;
    Some((low, high, behind))
}

/// What is left after sixteen bytes more.
#[inline(always)]
fn after_sixteen(remainder: u32, low: &[u8; 8], high: &[u8; 8]) -> u32
    ensures { result ≡ remainder_after frame_generator 64 (bit_xor
        (remainder_after frame_generator 64 (bit_xor remainder (message low.now)))
        (message high.now)) }
{
    after_words(
        remainder,
        u64::from_le_bytes(*low),
        u64::from_le_bytes(*high),
    )
}

/// What is left after two words more. Each of their bytes is divided by a table of its own. The
/// first four wait for what was left before them: they are looked up last, so that no other one
/// waits.
#[inline(always)]
fn after_words(remainder: u32, low: u64, high: u64) -> u32
    ensures { result ≡ remainder_after frame_generator 64 (bit_xor
        (remainder_after frame_generator 64 (bit_xor remainder low)) high) }
{
    let others = left_of_eight(0, high);
    others ^ left_of_eight(8, u64::from(remainder) ^ low)
}

/// What is left after some bytes more, eight at a time and then one.
fn after_few(remainder: u32, few: &[u8]) -> u32
    ensures { result ≡ remainder_after frame_generator (8 * length few.now)
        (bit_xor remainder (message few.now)) }
{
    let mut remainder = remainder;
    let mut rest = few;
    while let Some((eight, behind)) = rest.split_first_chunk::<8>() {
        remainder = after_eight(remainder, eight);
        rest = behind;
    }
    for byte in rest {
        remainder = after_one(remainder, *byte);
    }
    remainder
}

/// What is left after eight bytes more.
fn after_eight(remainder: u32, eight: &[u8; 8]) -> u32
    ensures { result ≡ remainder_after frame_generator 64 (bit_xor remainder (message eight.now)) }
{
    left_of_eight(0, u64::from(remainder) ^ u64::from_le_bytes(*eight))
}

/// What is left after one byte more.
fn after_one(remainder: u32, byte: u8) -> u32
    ensures { result ≡ remainder_after frame_generator 8 (bit_xor remainder byte) }
{
    let dividend = remainder ^ u32::from(byte);
    left_of(0, u64::from(dividend)) ^ (dividend / 256)
}

/// What is left of a dividend of eight bytes where so many bytes follow it, 0 to 8. The byte that
/// was sent last is looked up first.
#[inline(always)]
fn left_of_eight(behind: usize, dividend: u64) -> u32
    requires { behind ≤ 8 }
    ensures { result ≡ remainder_after frame_generator (8 * behind + 64) dividend }
{
    left_of(behind, dividend / 0x100_0000_0000_0000)
        ^ left_of(behind + 1, dividend / 0x1_0000_0000_0000)
        ^ left_of(behind + 2, dividend / 0x100_0000_0000)
        ^ left_of(behind + 3, dividend / 0x1_0000_0000)
        ^ left_of(behind + 4, dividend / 0x100_0000)
        ^ left_of(behind + 5, dividend / 0x1_0000)
        ^ left_of(behind + 6, dividend / 0x100)
        ^ left_of(behind + 7, dividend)
}

/// What is left of the low byte of a dividend where so many bytes follow it, 0 to 15.
#[inline(always)]
fn left_of(behind: usize, dividend: u64) -> u32
    requires { behind < 16 }
    ensures { result ≡ remainder_after frame_generator (8 * (behind + 1)) (dividend % 256) }
{
    FRAME_REMAINDERS[behind][(dividend % 256) as usize]
}

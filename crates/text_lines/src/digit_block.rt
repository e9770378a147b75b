//! A block of hexadecimal digits at once, by vectors: 32 digits, which spell sixteen bytes.
ghost use Rattle.std.specs.Prelude.{◌≡◌, ◌+◌, ◌-◌, ◌%◌, ◌&&◌, nat_lt, map, min, MatchOption};
ghost use Rattle.std.specs.List.{list_all};
ghost use Rattle.std.specs.Simd.Lanes.{zip2};
ghost use Rattle.hex.specs.Hex.{is_hex_digit};
ghost use Rattle.text_lines.specs.Inside.Digits.{SpellsPairs, SpellsNothing};
ghost use Rattle.text_lines.specs.Inside.DigitBlocks.{paired, value_or_16, letter_from_10};
ghost use Rattle.text_lines.specs.Inside.DigitBlocks.{are_below_16};

use std::simd::prelude::*;

/// How many bytes a vector has: so many are spelled, or written, at once.
pub(crate) const BLOCK_BYTES: usize = 16;

/// How many digits spell them.
pub(crate) const BLOCK_DIGITS: usize = 2 * BLOCK_BYTES;

/// What stands for a byte that is no digit: one more than the greatest digit's value.
pub(crate) const NO_DIGIT: u8 = 16;

/// The bytes that the digits of a block spell, if all are digits.
#[inline(always)]
pub(crate) fn spell_block(digits: &[u8; BLOCK_DIGITS]) -> Option<[u8; BLOCK_BYTES]>
    ensures { MatchOption result (SpellsNothing digits.now) (SpellsPairs digits.now) }
{
    let (high_digits, low_digits) = split_pairs(digits);
    let high = values_of_digits(high_digits);
    let low = values_of_digits(low_digits);
    if are_all_values(high, low) {
        Some((high * u8x16::splat(16) + low).to_array())
    } else {
        None
    }
}

/// Whether all of a block are digits, in either case. What they spell isn't worked out.
#[inline(always)]
pub(crate) fn is_digit_block(digits: &[u8; BLOCK_DIGITS]) -> bool
    ensures { result ≡ list_all is_hex_digit digits.now }
{
    let first = u8x16::from_slice(&digits[..BLOCK_BYTES]);
    let second = u8x16::from_slice(&digits[BLOCK_BYTES..]);
    are_all_values(marks_of_digits(first), marks_of_digits(second))
}

/// Of each byte less than 16 exactly if it is a digit, in either case.
///
/// One way counts the ten decimal digits up to 15, the other the letters; a sum that stops at the
/// end of a byte's range keeps each other byte at 16 or more. So the lesser of the two tells.
#[inline(always)]
fn marks_of_digits(digits: u8x16) -> u8x16
    ensures { map (λ mark. nat_lt mark 16) result ≡ map is_hex_digit digits }
{
    let decimal = raised(moved_down(digits, b'0'), 6);
    lesser(decimal, letters_from_10(digits))
}

/// The first digit of each pair, and the second one.
#[inline(always)]
fn split_pairs(digits: &[u8; BLOCK_DIGITS]) -> (u8x16, u8x16)
    ensures { digits.now ≡ paired result.0 result.1 }
{
    let front = u8x16::from_slice(&digits[..BLOCK_BYTES]);
    let back = u8x16::from_slice(&digits[BLOCK_BYTES..]);
    front.deinterleave(back)
}

/// The values of sixteen digits, in either case, or 16 for a byte that is none.
///
/// After Muła and Langdale: one way brings the ten decimal digits to 0 to 9, the other the letters
/// to 10 to 15, and a difference or a sum that stops at the end of a byte's range keeps each other
/// byte at 16 or more. So the lesser of the two is the value.
#[inline(always)]
fn values_of_digits(digits: u8x16) -> u8x16
    ensures { result ≡ map value_or_16 digits }
{
    let decimal = moved_down(excess(moved_down(digits, b'9' + 1), 6), 0xF0);
    let letter = letters_from_10(digits);
    lesser(lesser(decimal, letter), u8x16::splat(NO_DIGIT))
}

/// Of sixteen bytes 10 for an `a` in either case, 11 for a `b` and so on, and 16 or more for each
/// that is no letter from there to `f`.
#[inline(always)]
fn letters_from_10(digits: u8x16) -> u8x16
    ensures { result ≡ map letter_from_10 digits }
{
    raised(moved_down(digits & u8x16::splat(0xDF), b'A'), 10)
}

/// Whether all of these are values of digits.
#[inline(always)]
fn are_all_values(high: u8x16, low: u8x16) -> bool
    ensures { result ≡ (are_below_16 high && are_below_16 low) }
{
    !high.simd_max(low).simd_ge(u8x16::splat(NO_DIGIT)).any()
}

/// Each byte less so much, from 255 on again below 0.
#[inline(always)]
fn moved_down(bytes: u8x16, by: u8) -> u8x16
    ensures { result ≡ map (λ byte. (byte + (256 - by)) % 256) bytes }
{
    bytes - u8x16::splat(by)
}

/// Each byte less so much, or 0 below 0: one instruction of the processor.
#[inline(always)]
fn excess(bytes: u8x16, over: u8) -> u8x16
    ensures { result ≡ map (λ byte. byte - over) bytes }
{
    bytes.simd_max(u8x16::splat(over)) - u8x16::splat(over)
}

/// Each byte and so much, or 255 above 255: one instruction of the processor.
#[inline(always)]
fn raised(bytes: u8x16, by: u8) -> u8x16
    ensures { result ≡ map (λ byte. min (byte + by) 255) bytes }
{
    bytes.simd_min(u8x16::splat(255 - by)) + u8x16::splat(by)
}

/// The lesser of each two bytes.
#[inline(always)]
fn lesser(one: u8x16, other: u8x16) -> u8x16
    ensures { result ≡ zip2 min one other }
{
    one.simd_min(other)
}

//! Hexadecimal digits of sixteen bytes at once.
ghost use Rattle.std.specs.Prelude.{◌≡◌, ◌*◌, ◌%◌, ◌++◌, length, map, slice_index};
ghost use Rattle.hex.specs.Hex.{lower_digits, encode_lower};

use crate::digit_block::{BLOCK_BYTES, BLOCK_DIGITS};
use std::simd::prelude::*;

/// Writes the lower-case digits of some bytes, two for each, to a slice of just so many.
#[inline(always)]
pub(crate) fn write_digits(bytes: &[u8], digits: &mut [u8])
    requires { length digits.old ≡ 2 * length bytes.now }
    ensures { digits.new ≡ encode_lower bytes.now }
{
    for block in 0..bytes.len() / BLOCK_BYTES {
        let (front, back) = digits_of(u8x16::from_slice(&bytes[BLOCK_BYTES * block..]));
        front.copy_to_slice(&mut digits[BLOCK_DIGITS * block..]);
        back.copy_to_slice(&mut digits[BLOCK_DIGITS * block + BLOCK_BYTES..]);
    }
    let done = bytes.len() / BLOCK_BYTES * BLOCK_BYTES;
    hex::encode_to_slice(&bytes[done..], &mut digits[2 * done..]).unwrap();
}

/// The digits of sixteen bytes, those of the first eight and the others.
#[inline(always)]
fn digits_of(bytes: u8x16) -> (u8x16, u8x16)
    ensures { result.0 ++ result.1 ≡ encode_lower bytes }
{
    low_digits(bytes >> 4).interleave(low_digits(bytes))
}

/// The digits of the low four bits of sixteen bytes: one instruction looks them all up.
#[inline(always)]
fn low_digits(bytes: u8x16) -> u8x16
    ensures { result ≡ map (λ byte. slice_index lower_digits (byte % 16)) bytes }
{
    u8x16::from_array(*b"0123456789abcdef").swizzle_dyn(bytes & u8x16::splat(15))
}

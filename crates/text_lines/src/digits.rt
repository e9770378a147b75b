//! Hexadecimal digits, read in blocks ([`spell_block`]) and the last ones by a table: a branch for
//! each digit would be guessed wrongly as often as digits and letters change.
ghost use Rattle.std.specs.Prelude.{◌≡◌, ◌<◌, ◌≤◌, ◌*◌, ◌/◌, ◌%◌, ◌⊎◌, IsTrue, IsFalse, length};
ghost use Rattle.std.specs.Prelude.{take, drop, vec_capacity};
ghost use Rattle.std.specs.List.{list_all};
ghost use Rattle.hex.specs.Hex.{is_hex_digit};
ghost use Rattle.text_lines.specs.Inside.Digits.{IsDigitEntry, SpellsPairs, SpellsNothing};
ghost use Rattle.text_lines.specs.Inside.DigitBlocks.{SpellsFront};

use crate::digit_block::{BLOCK_DIGITS, NO_DIGIT, is_digit_block, spell_block};

/// Of each byte the value of the digit that it is, in either case, or [`NO_DIGIT`].
static DIGIT_VALUES: [u8; 256] = [
    16, 16, 16, 16, 16, 16, 16, 16, 16, 16, 16, 16, 16, 16, 16, 16, 16, 16, 16, 16, 16, 16, 16, 16,
    16, 16, 16, 16, 16, 16, 16, 16, 16, 16, 16, 16, 16, 16, 16, 16, 16, 16, 16, 16, 16, 16, 16, 16,
    0, 1, 2, 3, 4, 5, 6, 7, 8, 9, 16, 16, 16, 16, 16, 16, 16, 10, 11, 12, 13, 14, 15, 16, 16, 16,
    16, 16, 16, 16, 16, 16, 16, 16, 16, 16, 16, 16, 16, 16, 16, 16, 16, 16, 16, 16, 16, 16, 16, 10,
    11, 12, 13, 14, 15, 16, 16, 16, 16, 16, 16, 16, 16, 16, 16, 16, 16, 16, 16, 16, 16, 16, 16, 16,
    16, 16, 16, 16, 16, 16, 16, 16, 16, 16, 16, 16, 16, 16, 16, 16, 16, 16, 16, 16, 16, 16, 16, 16,
    16, 16, 16, 16, 16, 16, 16, 16, 16, 16, 16, 16, 16, 16, 16, 16, 16, 16, 16, 16, 16, 16, 16, 16,
    16, 16, 16, 16, 16, 16, 16, 16, 16, 16, 16, 16, 16, 16, 16, 16, 16, 16, 16, 16, 16, 16, 16, 16,
    16, 16, 16, 16, 16, 16, 16, 16, 16, 16, 16, 16, 16, 16, 16, 16, 16, 16, 16, 16, 16, 16, 16, 16,
    16, 16, 16, 16, 16, 16, 16, 16, 16, 16, 16, 16, 16, 16, 16, 16, 16, 16, 16, 16, 16, 16, 16, 16,
    16, 16, 16, 16, 16, 16, 16, 16, 16, 16, 16, 16, 16, 16,
];

/// The value of the digit that a byte is, or [`NO_DIGIT`].
#[inline(always)]
fn digit_value(byte: u8) -> u8
    ensures { IsDigitEntry byte result }
{
    DIGIT_VALUES[usize::from(byte)]
}

/// The greater of two.
#[inline(always)]
fn greater(one: u8, other: u8) -> u8
    ensures one { one ≤ result }
    ensures other { other ≤ result }
    ensures is { (result ≡ one) ⊎ (result ≡ other) }
{
    if one < other { other } else { one }
}

/// Fills an empty vector, which has room for them, with the bytes that these digits spell, two for
/// each, the first of them its high four bits, and says whether all are digits. Where one isn't,
/// what the vector then has means nothing.
pub fn append_spelled(bytes: &mut Vec<u8>, digits: &[u8]) -> bool
    requires even { length digits.now % 2 ≡ 0 }
    requires none { length bytes.old.items ≡ 0 }
    requires room { length digits.now / 2 ≤ vec_capacity bytes.old }
    ensures spelled { IsTrue result → SpellsPairs digits.now bytes.new.items }
    ensures refused { IsFalse result → SpellsNothing digits.now }
{
    append_blocks(bytes, digits);
    append_pairs(bytes, digits)
}

/// Appends the bytes that these digits spell, pair by pair, behind the first of them, which are
/// there already, and says whether all are digits. There is room. Where one is no digit, what the
/// vector then has means nothing.
#[inline(always)]
pub(crate) fn append_pairs(bytes: &mut Vec<u8>, digits: &[u8]) -> bool
    requires even { length digits.now % 2 ≡ 0 }
    requires so_far { SpellsFront digits.now bytes.old.items }
    requires within { 2 * length bytes.old.items ≤ length digits.now }
    requires room { length digits.now / 2 ≤ vec_capacity bytes.old }
    ensures spelled { IsTrue result → SpellsPairs digits.now bytes.new.items }
    ensures refused { IsFalse result → SpellsNothing digits.now }
{
    let mut greatest = 0;
    for place in bytes.len()..digits.len() / 2 {
        let high = digit_value(digits[2 * place]);
        let low = digit_value(digits[2 * place + 1]);
        greatest = greater(greatest, greater(high, low));
        bytes.push_reserved(high % NO_DIGIT * NO_DIGIT + low % NO_DIGIT);
    }
    greatest < NO_DIGIT
}

/// Appends to an empty vector, which has room for them, the bytes that these digits spell, a block
/// of them at a time as long as all of those are digits.
fn append_blocks(bytes: &mut Vec<u8>, digits: &[u8])
    requires none { length bytes.old.items ≡ 0 }
    requires room { length digits.now / 2 ≤ vec_capacity bytes.old }
    ensures spelled { SpellsFront digits.now bytes.new.items }
    ensures within { 2 * length bytes.new.items ≤ length digits.now }
    ensures stopped { let others = drop (2 * length bytes.new.items) digits.now in
        (length others < 32) ⊎ SpellsNothing (take 32 others) }
    ensures room { vec_capacity bytes.old ≤ vec_capacity bytes.new }
{
    let mut rest = digits;
    while let Some((block, others)) = rest.split_first_chunk::<BLOCK_DIGITS>() {
        let Some(spelled) = spell_block(block) else {
            return;
        };
        // There is room, so this asks for no memory.
        bytes.extend_from_slice(&spelled).unwrap();
        rest = others;
    }
}

/// Whether these are all hexadecimal digits, in either case. It stands apart, since what its caller
/// holds in registers would be saved and loaded again for each block.
#[inline(never)]
pub fn are_digits(digits: &[u8]) -> bool
    ensures { result ≡ list_all is_hex_digit digits.now }
{
    let mut rest = digits;
    while let Some((block, others)) = rest.split_first_chunk::<BLOCK_DIGITS>() {
        if !is_digit_block(block) {
            return false;
        }
        rest = others;
    }
    let mut greatest = 0;
    for digit in rest {
        greatest = greater(greatest, digit_value(*digit));
    }
    greatest < NO_DIGIT
}

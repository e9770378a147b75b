//! Hexadecimal fields.
ghost use Rattle.std.specs.Prelude.{◌≡◌, ◌≢◌, ◌∷◌, [], ◌<◌, ◌-◌, ◌↔◌, ℕ, List, IsTrue, IfOk, IfErr};
ghost use Rattle.std.specs.Prelude.{IfSome, MatchOption, length, take, drop, replicate};
ghost use Rattle.text_lines.specs.Inside.LineFault.{IsLineFault};
ghost use Rattle.text_lines.specs.Field.{SpellsBytes, IsHex};
ghost use Rattle.text_lines.specs.Inside.LineFault.{HasHexFault};
ghost use Rattle.text_lines.specs.Lines.{words_of};

use crate::digits::{append_pairs, append_spelled, are_digits};
use crate::fault::{LineFault, TraceKind};
use crate::words::only_word;
use std::alloc::{AllocError, Global};

/// The bytes that a hexadecimal field spells: two digits for each, in either case, or `-` for none.
///
/// `NotHex`: it is neither `-` nor an even number of hexadecimal digits.
pub fn read_hex(alloc: Global, field: &[u8]) -> Result<Vec<u8>, LineFault>
    ensures spelled { IfOk result (λ bytes. SpellsBytes field.now bytes.items) }
    ensures fault { IfErr result (IsLineFault (HasHexFault field.now)) }
{
    if field == b"-".as_slice() {
        return Ok(Vec::new(alloc));
    }
    if field.len() % 2 == 1 {
        return Err(LineFault::Kind(TraceKind::NotHex));
    }
    let mut bytes = Vec::with_capacity(alloc, field.len() / 2)?;
    if append_spelled(&mut bytes, field) {
        Ok(bytes)
    } else {
        Err(LineFault::Kind(TraceKind::NotHex))
    }
}

/// The bytes that the only word spells, or `None` where it isn't hexadecimal. A field that ends the
/// line and has one space before it is read where it stands: where that is hexadecimal, no end of a
/// word is in it.
///
/// `FieldCount`: there are more words or none.
#[inline(always)]
pub fn read_only_hex(alloc: Global, rest: &[u8]) -> Result<Option<Vec<u8>>, LineFault>
    ensures spelled { IfOk result (λ spelled. (field : List ℕ) × (words_of rest.now ≡ field ∷ [])
        × MatchOption spelled (¬ IsHex field) (λ bytes. SpellsBytes field bytes.items)) }
    ensures fault { IfErr result (IsLineFault
        (λ kind. (kind ≡ TraceKind.FieldCount) × (length (words_of rest.now) ≢ 1))) }
{
    if let Some(bytes) = read_behind_space(alloc, rest)? {
        return Ok(Some(bytes));
    }
    let Some(field) = only_word(rest) else {
        return Err(LineFault::Kind(TraceKind::FieldCount));
    };
    read_if_hex(alloc, field)
}

/// The bytes that a field spells, or `None` where it isn't hexadecimal.
pub fn read_if_hex(alloc: Global, field: &[u8]) -> Result<Option<Vec<u8>>, LineFault>
    ensures spelled { IfOk result (λ spelled.
        MatchOption spelled (¬ IsHex field.now) (λ bytes. SpellsBytes field.now bytes.items)) }
    ensures fault { IfErr result (λ fault. fault ≡ LineFault.OutOfMemory) }
{
    match read_hex(alloc, field) {
        Ok(bytes) => Ok(Some(bytes)),
        Err(LineFault::Kind(_)) => Ok(None),
        Err(LineFault::OutOfMemory) => Err(LineFault::OutOfMemory),
    }
}

/// The bytes that all that stands behind a space spells, if that is so much as one field.
fn read_behind_space(alloc: Global, rest: &[u8]) -> Result<Option<Vec<u8>>, LineFault>
    ensures spelled { IfOk result (λ spelled. IfSome spelled (λ bytes. (field : List ℕ)
        × (words_of rest.now ≡ field ∷ []) × SpellsBytes field bytes.items)) }
    ensures fault { IfErr result (λ fault. fault ≡ LineFault.OutOfMemory) }
{
    match all_behind_space(rest) {
        Some(field) => read_if_hex(alloc, field),
        None => Ok(None),
    }
}

/// What the only word is, if that is hexadecimal: all that stands behind one space, where it
/// neither begins nor ends in a separator, so that no end of a word is looked for among digits;
/// else the only word.
///
/// Where there are more words or none, it is none, or what isn't hexadecimal.
pub fn likely_field(rest: &[u8]) -> Option<&[u8]>
    ensures { MatchOption result (length (words_of rest.now) ≢ 1)
        (λ field. IsHex field.now → words_of rest.now ≡ field.now ∷ []) }
{
    let Some(field) = all_behind_space(rest) else {
        return only_word(rest);
    };
    if matches!(
        field,
        [b' ' | b'\t' | b'\r', ..] | [.., b' ' | b'\t' | b'\r']
    ) {
        return only_word(rest);
    }
    Some(field)
}

/// Whether a field spells bytes: its digits are looked at and not decoded.
pub fn is_hex(field: &[u8]) -> bool
    ensures { IsTrue result ↔ IsHex field.now }
{
    field == b"-".as_slice() || (field.len() % 2 == 0 && are_digits(field))
}

/// All that stands behind a space, if something does.
#[inline(always)]
fn all_behind_space(rest: &[u8]) -> Option<&[u8]>
    ensures { IfSome result (λ field. (rest.now ≡ 32 ∷ field.now) × (0 < length field.now)) }
{
    let (first, field) = rest.split_first()?;
    if *first == b' ' && !field.is_empty() {
        Some(field)
    } else {
        None
    }
}

/// The first so many of the bytes that a field spells if it is hexadecimal, and zeros in place of
/// those behind them. It asks for the memory of all; it is an error that this failed.
pub fn read_hex_front(alloc: Global, field: &[u8], count: usize) -> Result<Vec<u8>, AllocError>
    ensures spelled { IfOk result (λ front. (bytes : List ℕ) → SpellsBytes field.now bytes
        → (length front.items ≡ length bytes) × (take count front.items ≡ take count bytes)) }
    ensures zeros { IfOk result (λ front. IsHex field.now
        → drop count front.items ≡ replicate (length front.items - count) 0) }
{
    let length = field.len() / 2;
    let mut front = Vec::with_capacity(alloc, length)?;
    // Whether they are digits is for the whole field to say; of `-` there are none.
    append_pairs(&mut front, &field[..2 * count.min(length)]);
    front.resize(length, 0)?;
    Ok(front)
}

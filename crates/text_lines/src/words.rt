//! The words of a line, and its fields: the words of a line that is no comment.
ghost use Rattle.std.specs.Prelude.{◌≡◌, ◌≢◌, ◌↔◌, ◌<◌, ◌∷◌, [], length, IsTrue, MatchOption, map};
ghost use Rattle.std.specs.Prelude.{not, position};
ghost use Rattle.std.specs.Simd.Lanes.{mask_l};
ghost use Rattle.text_lines.specs.Lines.{words_of, fields_of, is_separator};

use memchr::memchr3;
use std::simd::prelude::*;

/// Whether a byte separates words: a space, a tab or a carriage return.
fn separates(byte: u8) -> bool
    ensures { result ≡ is_separator byte }
{
    matches!(byte, b' ' | b'\t' | b'\r')
}

/// The place of the first byte of a word.
fn word_start(line: &[u8]) -> Option<usize>
    ensures { result ≡ position (λ byte. not (is_separator byte)) line.now }
{
    line.iter().position(|byte| !separates(*byte))
}

/// The place of the first byte that separates words. Most words are short: where a line has sixteen
/// bytes, these are looked at first, all at once, and no branch depends on how long the word is.
#[inline(always)]
fn word_end(line: &[u8]) -> Option<usize>
    ensures { result ≡ position is_separator line.now }
{
    let Some(front) = line.first_chunk::<16>() else {
        return line.iter().position(|byte| separates(*byte));
    };
    let marks = separator_marks(u8x16::from_array(*front));
    if marks == 0 {
        return long_word_end(line);
    }
    Some(marks.trailing_zeros() as usize)
}

/// The same of a long word. It stands apart, since its search takes all registers, and they would
/// be saved for each short word too.
#[inline(never)]
fn long_word_end(line: &[u8]) -> Option<usize>
    ensures { result ≡ position is_separator line.now }
{
    memchr3(b' ', b'\t', b'\r', line)
}

/// A bit for each of sixteen bytes, the lowest for the first: whether it separates words.
#[inline(always)]
fn separator_marks(bytes: u8x16) -> u64
    ensures { result ≡ mask_l (map is_separator bytes) }
{
    let spaces = bytes.simd_eq(u8x16::splat(b' '));
    let tabs = bytes.simd_eq(u8x16::splat(b'\t'));
    let returns = bytes.simd_eq(u8x16::splat(b'\r'));
    (spaces | tabs | returns).to_bitmask()
}

/// The first word of a line and what follows it.
#[inline(always)]
fn split_word(line: &[u8]) -> Option<(&[u8], &[u8])>
    ensures { MatchOption result (words_of line.now ≡ [])
        (λ r. words_of line.now ≡ r.0.now ∷ words_of r.1.now) }
{
    let start = word_start(line)?;
    let (_, words) = line.split_at(start);
    match word_end(words) {
        Some(end) => Some(words.split_at(end)),
        None => Some((words, &[])),
    }
}

/// The first field of a line and what follows it. A line without words, or whose first word begins
/// with `#`, has none.
pub fn split_field(line: &[u8]) -> Option<(&[u8], &[u8])>
    ensures { MatchOption result (fields_of line.now ≡ [])
        (λ r. fields_of line.now ≡ r.0.now ∷ words_of r.1.now) }
{
    let (word, rest) = split_word(line)?;
    match word {
        [b'#', ..] => None,
        _ => Some((word, rest)),
    }
}

/// Whether there is no word.
pub fn no_word(rest: &[u8]) -> bool
    ensures { IsTrue result ↔ (words_of rest.now ≡ []) }
{
    split_word(rest).is_none()
}

/// The only word, or `None` where there are more or none.
#[inline(always)]
pub fn only_word(rest: &[u8]) -> Option<&[u8]>
    ensures { MatchOption result (length (words_of rest.now) ≢ 1)
        (λ word. words_of rest.now ≡ word.now ∷ []) }
{
    let (word, more) = split_word(rest)?;
    match split_word(more) {
        Some(_) => None,
        None => Some(word),
    }
}

/// The only two words, or `None` where there are more or fewer.
#[inline(always)]
pub fn only_two_words(rest: &[u8]) -> Option<(&[u8], &[u8])>
    ensures { MatchOption result (length (words_of rest.now) ≢ 2)
        (λ two. words_of rest.now ≡ two.0.now ∷ two.1.now ∷ []) }
{
    let (word, more) = split_word(rest)?;
    let second = only_word(more)?;
    Some((word, second))
}

/// The only three words, or `None` where there are more or fewer.
#[inline(always)]
pub fn only_three_words(rest: &[u8]) -> Option<(&[u8], &[u8], &[u8])>
    ensures { MatchOption result (length (words_of rest.now) ≢ 3)
        (λ three. words_of rest.now ≡ three.0.now ∷ three.1.now ∷ three.2.now ∷ []) }
{
    let (word, more) = split_word(rest)?;
    let (second, third) = only_two_words(more)?;
    Some((word, second, third))
}

/// The only four words, or `None` where there are more or fewer.
#[inline(always)]
pub fn only_four_words(rest: &[u8]) -> Option<(&[u8], &[u8], &[u8], &[u8])>
    ensures { MatchOption result (length (words_of rest.now) ≢ 4)
        (λ four. words_of rest.now
        ≡ four.0.now ∷ four.1.now ∷ four.2.now ∷ four.3.now ∷ []) }
{
    let (word, more) = split_word(rest)?;
    let (second, third, fourth) = only_three_words(more)?;
    Some((word, second, third, fourth))
}

/// The first three words and what follows them, or `None` where there are fewer.
#[inline(always)]
pub fn three_words(rest: &[u8]) -> Option<(&[u8], &[u8], &[u8], &[u8])>
    ensures { MatchOption result (length (words_of rest.now) < 3)
        (λ r. words_of rest.now ≡ r.0.now ∷ r.1.now ∷ r.2.now ∷ words_of r.3.now) }
{
    let (first, behind_first) = split_word(rest)?;
    let (second, behind_second) = split_word(behind_first)?;
    let (third, more) = split_word(behind_second)?;
    Some((first, second, third, more))
}

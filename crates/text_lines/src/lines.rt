//! The lines of an input, numbered from 1, and the one walk over them.
ghost use Rattle.std.specs.Prelude.{◌≡◌, ℕ, ◌+◌, ◌-◌, ◌^◌, ◌<◌, ◌≤◌, min, List, [], ◌∷◌, ◌++◌};
ghost use Rattle.std.specs.Prelude.{length, position, OnOk, IfOk, IfErr, MatchOption};
ghost use Rattle.text_lines.specs.Inside.LineFault.{IsLineFault, IsFaultAt};
ghost use Rattle.text_lines.specs.Inside.LineFeeds.{HasNoLineFeed, BeginsWithLine};
ghost use Rattle.text_lines.specs.Format.{Format, IsRead, IsReadingFault};
ghost use Rattle.text_lines.specs.LineReading.{AreTaken, IsSettledFault};
ghost use Rattle.text_lines.specs.Lines.{lines_of, words_of, fields_of, is_line_feed};

use crate::fault::{LineFault, ParseFault};
use crate::words::split_field;
use memchr::memchr;
use std::alloc::Global;

/// What is made of the lines of one format, one line after another.
pub trait TakeLine {
    // What lines of the format say.
    ghost State: { Type 0 };
    // The format.
    ghost format: { Format State };
    // The value is what it is after lines that say this.
    ghost stands_for: { State → Self → Type 0 };

    /// Takes the next line that has fields, by its first field and what follows that on the line.
    /// Once it reports a fault, no more lines are taken.
    fn take_line(&mut self, alloc: Global, field: &[u8], rest: &[u8]) -> Result<(), LineFault>
        ensures taken { (before : State) → stands_for before self.old
            → OnOk result ((after : State)
            × format.Takes before (field.now ∷ words_of rest.now) after
            × stands_for after self.new) }
        ensures fault { (before : State) → stands_for before self.old
            → IfErr result (IsLineFault (format.HasFault before (field.now ∷ words_of rest.now))) };
}

/// The place of the first line feed.
fn line_end(text: &[u8]) -> Option<usize>
    ensures { result ≡ position is_line_feed text.now }
{
    memchr(b'\n', text)
}

/// The first line that a line feed ends, without that, and what follows it.
pub(crate) fn split_whole_line(text: &[u8]) -> Option<(&[u8], &[u8])>
    ensures { MatchOption result (HasNoLineFeed text.now)
        (λ r. BeginsWithLine text.now r.0.now r.1.now) }
{
    let end = line_end(text)?;
    Some((&text[..end], &text[end + 1..]))
}

/// The first line of a text, without its line feed, and what follows that.
pub fn split_line(text: &[u8]) -> (&[u8], &[u8])
    requires { 0 < length text.now }
    ensures lines { lines_of text.now ≡ result.0.now ∷ lines_of result.1.now }
    ensures shorter { length result.1.now < length text.now }
{
    split_whole_line(text).unwrap_or((text, &[]))
}

/// The first line of a text with the line feed that ends it, or all of a text that has none; and
/// what follows that.
pub fn split_behind_line(text: &[u8]) -> (&[u8], &[u8])
    ensures all { text.now ≡ result.0.now ++ result.1.now }
    ensures one { length (lines_of result.0.now) ≤ 1 }
    ensures shorter { 0 < length text.now → length result.1.now < length text.now }
{
    match line_end(text) {
        Some(end) => (&text[..end + 1], &text[end + 1..]),
        None => (text, &[]),
    }
}

/// The line before the line feed that ends a text, if one does. The text has one line at most, so
/// no other line feed is looked for.
pub(crate) fn ended_line(text: &[u8]) -> Option<&[u8]>
    requires { length (lines_of text.now) ≤ 1 }
    ensures { MatchOption result (HasNoLineFeed text.now)
        (λ line. BeginsWithLine text.now line.now []) }
{
    let (last, line) = text.split_last()?;
    if *last == b'\n' { Some(line) } else { None }
}

/// Counts a line, and takes it, or skips it where it has no fields.
pub(crate) fn take_or_skip<T: TakeLine>(
    alloc: Global,
    line: &[u8],
    count: &mut u64,
    taker: &mut T,
) -> Result<(), ParseFault>
    ensures counted { count.new ≡ min (count.old + 1) (2 ^ 64 - 1) }
    ensures taken { (before : T.State) → T.stands_for before taker.old
        → OnOk result ((after : T.State)
        × IsRead T.format before (line.now ∷ []) after × T.stands_for after taker.new) }
    ensures fault { (before : T.State) → T.stands_for before taker.old
        → IfErr result (IsFaultAt count.new (T.format.HasFault before (fields_of line.now))) }
{
    *count = count.saturating_add(1);
    let Some((field, rest)) = split_field(line) else {
        return Ok(());
    };
    taker
        .take_line(alloc, field, rest)
        .map_err(|fault| fault.at(*count))
}

/// Takes each line that a line feed ends, and gives what follows the last of them.
pub(crate) fn take_whole_lines<'a, T: TakeLine>(
    alloc: Global,
    text: &'a [u8],
    count: &mut u64,
    taker: &mut T,
) -> Result<&'a [u8], ParseFault>
    ensures taken { (start : T.State) (bytes : List ℕ)
        → AreTaken T.format start T.stands_for taker.old count.old [] bytes
        → IfOk result (λ rest. AreTaken T.format start T.stands_for taker.new count.new
        rest.now (bytes ++ text.now)) }
    ensures fault { (start : T.State) (bytes : List ℕ)
        → AreTaken T.format start T.stands_for taker.old count.old [] bytes
        → length bytes + length text.now < 2 ^ 64
        → IfErr result (IsSettledFault T.format start (bytes ++ text.now)) }
{
    let mut rest = text;
    while let Some((line, below)) = split_whole_line(rest) {
        take_or_skip(alloc, line, count, taker)?;
        rest = below;
    }
    Ok(rest)
}

/// Takes the last line, which no line feed ends, if there is something in it.
pub(crate) fn take_last_line<T: TakeLine>(
    alloc: Global,
    rest: &[u8],
    mut count: u64,
    taker: &mut T,
) -> Result<(), ParseFault>
    ensures read { (start : T.State) (bytes : List ℕ)
        → AreTaken T.format start T.stands_for taker.old count rest.now bytes
        → OnOk result ((end : T.State)
        × IsRead T.format start (lines_of bytes) end × T.stands_for end taker.new) }
    ensures fault { (start : T.State) (bytes : List ℕ)
        → AreTaken T.format start T.stands_for taker.old count rest.now bytes
        → length bytes < 2 ^ 64 → IfErr result (IsReadingFault T.format start (lines_of bytes)) }
{
    if rest.is_empty() {
        return Ok(());
    }
    take_or_skip(alloc, rest, &mut count, taker)
}

/// Takes the lines of an input in order, and reports the first faulty one. A line without fields is
/// skipped.
pub fn take_lines<T: TakeLine>(alloc: Global, input: &[u8], taker: &mut T) -> Result<(), ParseFault>
    ensures read { (start : T.State) → T.stands_for start taker.old
        → OnOk result ((end : T.State)
        × IsRead T.format start (lines_of input.now) end × T.stands_for end taker.new) }
    ensures fault { (start : T.State) → T.stands_for start taker.old
        → IfErr result (IsReadingFault T.format start (lines_of input.now)) }
{
    let mut count = 0;
    let rest = take_whole_lines(alloc, input, &mut count, taker)?;
    take_last_line(alloc, rest, count, taker)
}

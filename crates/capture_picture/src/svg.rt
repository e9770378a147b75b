//! The pieces of an SVG.
ghost use Rattle.text_lines.specs.Putting.{Puts};
ghost use Rattle.capture_picture.specs.Svg.{valued, time_text};

use text_lines::{NANOSECONDS_PER_SECOND, PutText, put_number, put_word};

/// So many nanoseconds are a millisecond.
const MILLISECOND: u64 = 1_000_000;

/// Puts a word and a number behind it.
pub(crate) fn put_valued<O: PutText>(out: &mut O, word: &str, number: u64)
    ensures { Puts O.after out.old (valued word.now number) out.new }
{
    put_word(out, word);
    put_number(out, number);
}

/// Puts a time in seconds, with three digits behind the point.
pub(crate) fn put_time<O: PutText>(out: &mut O, nanoseconds: u64)
    ensures { Puts O.after out.old (time_text nanoseconds) out.new }
{
    let milliseconds = nanoseconds % NANOSECONDS_PER_SECOND / MILLISECOND;
    put_number(out, nanoseconds / NANOSECONDS_PER_SECOND);
    put_valued(out, ".", milliseconds / 100);
    put_number(out, milliseconds / 10 % 10);
    put_number(out, milliseconds % 10);
}

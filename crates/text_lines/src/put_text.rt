//! Where a text goes that is made piece by piece.
ghost use Rattle.std.specs.Prelude.{◌*◌, ◌/◌, ◌++◌, ◌≤◌, IsTrue, List, ℕ, length};
ghost use Rattle.std.specs.Fmt.{decimal};
ghost use Rattle.hex.specs.Hex.{encode_lower};
ghost use Rattle.text_lines.specs.Putting.{Puts, IsClosed, seconds_text, spaced};

use crate::digit_writer::write_digits;
use itoa::Buffer;

/// How many bytes are spelled at once.
const SPELLED_BYTES: usize = 64;

/// How many bytes a space and the digits of a number are at most.
const SPACED_MAX: usize = 21;

/// So many nanoseconds are a second.
pub const NANOSECONDS_PER_SECOND: u64 = 1_000_000_000;

/// Takes a text, piece by piece. It can't refuse: one that can't take what it is given says so
/// itself, as [`TextBuffer`](crate::TextBuffer) does.
pub trait PutText {
    // The first became the second by being given this text.
    ghost after: { Self → List ℕ → Self → Type 0 };

    /// Takes the next bytes of the text.
    fn put(&mut self, bytes: &[u8])
        ensures { Puts after self.old bytes.now self.new };

    /// Whether what follows makes no difference any more, so that it may be left out.
    fn is_closed(&self) -> bool
        ensures { IsTrue result → IsClosed after self.now };
}

/// Puts a word, or more than one.
pub fn put_word<O: PutText>(out: &mut O, word: &str)
    ensures { Puts O.after out.old word.now out.new }
{
    out.put(word.as_bytes());
}

/// Puts a space and the decimal digits of a number.
pub fn put_spaced<O: PutText>(out: &mut O, number: u64)
    ensures { Puts O.after out.old (spaced number) out.new }
{
    if number < 10 {
        return out.put(&[b' ', b'0' + number as u8]);
    }
    let mut text = [0; SPACED_MAX];
    let start = itoa::write_digits(number, &mut text, SPACED_MAX) - 1;
    text[start] = b' ';
    out.put(&text[start..]);
}

/// Puts the decimal digits of a number.
pub fn put_number<O: PutText>(out: &mut O, number: u64)
    ensures { Puts O.after out.old (decimal number) out.new }
{
    out.put(Buffer::new().format(number).as_bytes());
}

/// Puts a time in seconds, with nine digits behind the point.
pub fn put_seconds<O: PutText>(out: &mut O, nanoseconds: u64)
    ensures { Puts O.after out.old (seconds_text nanoseconds) out.new }
{
    put_number(out, nanoseconds / NANOSECONDS_PER_SECOND);
    put_word(out, ".");
    let mut buffer = Buffer::new();
    let (_, digits) = buffer
        .format(NANOSECONDS_PER_SECOND + nanoseconds % NANOSECONDS_PER_SECOND)
        .as_bytes()
        .split_at(1);
    out.put(digits);
}

/// Puts the lower-case digits of some bytes, two for each.
pub fn put_hex<O: PutText>(out: &mut O, bytes: &[u8])
    ensures { Puts O.after out.old (encode_lower bytes.now) out.new }
{
    let mut rest = bytes;
    while let Some((block, others)) = rest.split_first_chunk::<SPELLED_BYTES>() {
        put_spelled(out, block);
        rest = others;
    }
    put_spelled(out, rest);
}

/// Puts the digits of at most [`SPELLED_BYTES`] bytes. Inlined, so that nothing is filled or copied
/// by a call where there are just so many.
#[inline(always)]
fn put_spelled<O: PutText>(out: &mut O, bytes: &[u8])
    requires { length bytes.now ≤ SPELLED_BYTES }
    ensures put { Puts O.after out.old (encode_lower bytes.now) out.new }
{
    let mut digits = [0u8; 2 * SPELLED_BYTES];
    let spelled = &mut digits[..2 * bytes.len()];
    write_digits(bytes, spelled);
    out.put(spelled);
}

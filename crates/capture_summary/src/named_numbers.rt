//! Words with their numbers, as lines have them.
ghost use Rattle.std.specs.Prelude.{[], ◌∷◌, ◌++◌, flat_map};
ghost use Rattle.text_lines.specs.Lines.{line_feed};
ghost use Rattle.text_lines.specs.Putting.{Puts};
ghost use Rattle.capture_summary.specs.Words.{named, texts_from};

use text_lines::{PutText, put_spaced, put_word};

/// Puts a word, a space and a number.
pub(crate) fn put_named<O: PutText>(out: &mut O, word: &str, number: u64)
    ensures { Puts O.after out.old (named word.now number) out.new }
{
    put_word(out, word);
    put_spaced(out, number);
}

/// Puts words, each with a space and its number.
fn put_all_named<O: PutText>(out: &mut O, parts: &[(&str, u64)])
    ensures { Puts O.after out.old (flat_map (λ part. named part.0.now part.1) parts.now) out.new }
{
    for part in parts {
        put_named(out, part.0, part.1);
    }
}

/// Puts a line of words, each with a space and its number.
pub(crate) fn put_named_line<O: PutText>(out: &mut O, parts: &[(&str, u64)])
    ensures { Puts O.after out.old
        (texts_from (λ part. named part.0.now part.1) [] parts.now ++ line_feed ∷ []) out.new }
{
    put_all_named(out, parts);
    put_word(out, "\n");
}

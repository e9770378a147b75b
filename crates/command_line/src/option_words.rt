//! An option with a value among words.
//!
//! Options are looked for in the words themselves, so that contracts can say what a command is
//! asked for; that the words are lawful otherwise is for `clap` to say.
ghost use Rattle.std.specs.Prelude.{◌≡◌, map, List, ℕ, MatchOption, IfOk, IfErr};
ghost use Rattle.command_line.specs.declared.command.UsageFault.TheVariants.{Usage};
ghost use Rattle.command_line.specs.OptionWords.{with_value, HasNoOption, HasOneValue};
ghost use Rattle.command_line.specs.OptionWords.{value_behind, HasFirstValue, HasItTwice};

use crate::command::UsageFault;
use std::convert::AsStr;

/// The value of an option that has none in its own word: the next word, if there is one.
fn value_behind<S: AsStr>(words: &[S]) -> &str
    ensures { result.now ≡ value_behind (map S.text words.now) }
{
    match words {
        [] => "",
        [value, ..] => value.as_str(),
    }
}

/// The value that a word of this option has in itself.
pub fn value_within<'a>(word: &'a str, option: &str) -> Option<&'a str>
    ensures { MatchOption result ((value : List ℕ) → ¬ (word.now ≡ with_value option.now value))
        (λ value. word.now ≡ with_value option.now value.now) }
{
    word.strip_prefix(option)?.strip_prefix("=")
}

/// The value of the first word of this option, and the words behind the option.
pub fn first_value<'a, S: AsStr>(words: &'a [S], option: &str) -> Option<(&'a str, &'a [S])>
    ensures { MatchOption result (HasNoOption option.now (map S.text words.now))
        (λ found. HasFirstValue option.now (map S.text words.now)
        found.0.now (map S.text found.1.now)) }
{
    let mut rest = words;
    while let [word, more @ ..] = rest {
        let word = word.as_str();
        if word == option {
            return Some((value_behind(more), more));
        }
        if let Some(value) = value_within(word, option) {
            return Some((value, more));
        }
        rest = more;
    }
    None
}

/// The value of the only word of this option, if there is one.
///
/// `Usage`: there are two.
pub fn only_value<'a, S: AsStr>(words: &'a [S], option: &str) -> Result<Option<&'a str>, UsageFault>
    ensures only { IfOk result (λ found.
        MatchOption found (HasNoOption option.now (map S.text words.now))
        (λ value. HasOneValue option.now (map S.text words.now) value.now)) }
    ensures twice { IfErr result (λ fault. (fault ≡ Usage)
        × HasItTwice option.now (map S.text words.now)) }
{
    let Some((value, behind)) = first_value(words, option) else {
        return Ok(None);
    };
    match first_value(behind, option) {
        None => Ok(Some(value)),
        Some(_) => Err(UsageFault::Usage),
    }
}

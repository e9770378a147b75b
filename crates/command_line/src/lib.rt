//! The command line of the program `segrx`: what its arguments ask for.
//!
//! [`read_words`] reads the arguments, the program's name first, as the [`Command`] that they ask
//! for: an engine with its options, or a text of help. Words that ask for nothing that the program
//! does are a [`UsageFault`].
//!
//! The options `--losses`, `--channels` and `--events` are read from the words themselves, so that
//! contracts can say what a command is asked for; the other options are read by `clap`, which
//! writes the text of help too.
//!
//! It stands on `text_lines` and on the names of the loss rules, and on no receiver, so that it is
//! proved beside the receiver. `engines` exports its names.
#![tactic(auto)]

mod arguments;
mod channels;
mod command;
mod flows;
mod losses;
mod option_words;

pub use command::{Command, UsageFault, has_word, read_words};
pub use flows::asked_flows;
pub use losses::rule_named;
pub use option_words::only_value;

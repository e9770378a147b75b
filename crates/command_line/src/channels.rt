//! The option `--channels` of `follow`: how many channels the trace may have.
ghost use Rattle.std.specs.Prelude.{◌≡◌, ◌↔◌, ℕ, map};
ghost use Rattle.text_lines.specs.Number.{IsNumberIn};
ghost use Rattle.command_line.specs.Channels.{channels_max, AskForChannels};

use crate::option_words::only_value;
use lane::MOST_CHANNELS;
use std::convert::AsStr;
use text_lines::read_number_in;

/// The greatest number of channels of a trace that is followed, and how many it may have where none
/// is asked for.
pub const CHANNELS_MAX: u8 = MOST_CHANNELS as u8;

/// The number of channels that a value says, from 1 to 16.
fn read_channels(value: &str) -> Option<u8>
    ensures { (channels : ℕ)
        → (result ≡ Some channels) ↔ IsNumberIn value.now 1 channels_max channels }
{
    let channels = read_number_in(value.as_bytes(), 1, u32::from(CHANNELS_MAX))?;
    Some(channels as u8)
}

/// How many channels options ask for, 1 to 16, and 16 where they ask for none. Two `--channels` ask
/// for no number.
pub fn asked_channels<S: AsStr>(options: &[S]) -> Option<u8>
    ensures { (channels : ℕ)
        → (result ≡ Some channels) ↔ AskForChannels channels (map S.text options.now) }
{
    match only_value(options, "--channels") {
        Ok(None) => Some(CHANNELS_MAX),
        Ok(Some(value)) => read_channels(value),
        Err(_) => None,
    }
}

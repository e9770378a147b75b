//! What a source of a running receiver gives.
use lane::Input;

/// An input, and the channel on which it came.
#[derive(Debug, Drop)]
pub struct ChannelInput {
    /// The number of the channel.
    pub channel: u8,
    /// What came in on it.
    pub input: Input,
}

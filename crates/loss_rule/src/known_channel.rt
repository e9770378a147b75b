//! What is known of one channel of a flow.

/// What is known of one channel of a flow.
#[derive(Clone, Copy, Debug, PartialEq, Eq)]
pub struct KnownChannel {
    /// Whether the flow has a service identifier on the channel.
    pub carried: bool,
    /// The place of the last segment that came there, where its number lay ahead. Places go on
    /// where numbers begin again.
    pub last: Option<u16>,
}

//! Which service identifiers were seen.
ghost use Rattle.std.specs.Prelude.{◌≡◌, ◌<◌, ◌↔◌, ◌⊎◌, ℕ, IsTrue, [], length, slice_index_or};
ghost use Rattle.lane.specs.Limits.{channel_limit, sid_limit};

/// The greatest number of channels for which a receiver can be made.
pub const MOST_CHANNELS: usize = 16;

/// How many channels there are.
pub const CHANNELS: usize = 4;
/// How many service identifiers a channel has: they have 14 bits.
pub const SIDS: usize = 16_384;

/// Which service identifiers of which channels were seen. It has one place for each, so that it
/// takes no memory and a search through many rows takes no longer for each.
#[derive(Drop)]
pub struct SeenSids {
    seen: [[bool; SIDS]; CHANNELS],
    ghost channels: { length seen ≡ channel_limit },
    ghost sids: { (i : ℕ) → i < channel_limit → length (slice_index_or seen i []) ≡ sid_limit },
}

impl SeenSids {
    ghost use Rattle.lane.specs.Inside.Seen.{HasSeen};

    /// None was seen yet.
    pub fn new() -> SeenSids
        ensures { (channel sid : ℕ) → ¬ (HasSeen result channel sid) }
    {
        SeenSids {
            seen: [[false; SIDS]; CHANNELS],
        }
    }

    /// Whether this service identifier, 0 to 16,383, of this channel, 0 to 3, was seen.
    pub fn contains(&self, channel: u8, sid: u16) -> bool
        requires channel { channel < channel_limit }
        requires sid { sid < sid_limit }
        ensures { IsTrue result ↔ HasSeen self.now channel sid }
    {
        self.seen[usize::from(channel)][usize::from(sid)]
    }

    /// This service identifier, 0 to 16,383, of this channel, 0 to 3, was seen.
    pub fn insert(&mut self, channel: u8, sid: u16)
        requires channel { channel < channel_limit }
        requires sid { sid < sid_limit }
        ensures inserted { (other number : ℕ) → HasSeen self.new other number
            ↔ (HasSeen self.old other number ⊎ ((other ≡ channel) × (number ≡ sid))) }
    {
        self.seen[usize::from(channel)][usize::from(sid)] = true;
    }
}

//! Which service identifiers of many channels were seen.
ghost use Rattle.std.specs.Prelude.{◌≡◌, ◌+◌, ◌*◌, ◌<◌, ◌↔◌, ◌⊎◌, ℕ, IsTrue, IfOk, length};
ghost use Rattle.lane.specs.Limits.{sid_limit};

use crate::sids::seen::SIDS;
use std::alloc::{AllocError, Global};

/// Which service identifiers of so many channels were seen: a byte for each, in memory, so that a
/// search through many rows takes no longer for each.
#[derive(Drop)]
pub struct SidTable {
    channels: u8,
    places: Vec<bool>,
    ghost size: { length places.items ≡ channels * sid_limit },
}

impl SidTable {
    ghost use Rattle.lane.specs.Inside.Seen.{HasMarked};

    /// Of so many channels, none was seen yet.
    pub fn new(alloc: Global, channels: u8) -> Result<SidTable, AllocError>
        ensures channels { IfOk result (λ table. table.channels ≡ channels) }
        ensures none { IfOk result (λ table. (channel sid : ℕ) → ¬ (HasMarked table channel sid)) }
    {
        let places = vec![in alloc; false; usize::from(channels) * SIDS]?;
        Ok(SidTable { channels, places })
    }

    /// Whether this service identifier, 0 to 16,383, of this channel was seen.
    pub fn contains(&self, channel: u8, sid: u16) -> bool
        requires channel { channel < self.now.channels }
        requires sid { sid < sid_limit }
        ensures { IsTrue result ↔ HasMarked self.now channel sid }
    {
        self.places[place_of(channel, sid)]
    }

    /// This service identifier, 0 to 16,383, of this channel was seen.
    pub fn insert(&mut self, channel: u8, sid: u16)
        requires channel { channel < self.old.channels }
        requires sid { sid < sid_limit }
        ensures channels { self.new.channels ≡ self.old.channels }
        ensures inserted { (other number : ℕ) → number < sid_limit
            → HasMarked self.new other number
            ↔ (HasMarked self.old other number ⊎ ((other ≡ channel) × (number ≡ sid))) }
    {
        self.places[place_of(channel, sid)] = true;
    }
}

/// The place of a service identifier of this channel.
fn place_of(channel: u8, sid: u16) -> usize
    ensures { result ≡ channel * sid_limit + sid }
{
    usize::from(channel) * SIDS + usize::from(sid)
}

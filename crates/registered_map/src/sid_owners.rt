//! The SIDs that modems were told to add.
ghost use Rattle.std.specs.Prelude.{◌≡◌, ◌&&◌, ℕ, nat_eq};
ghost use Rattle.std.specs.HashMap.{get};
ghost use Rattle.registered_map.specs.Places.{owner_of};

use crate::telling::RegisteredSid;
use std::alloc::{AllocError, Global};
use std::collections::HashMap;

/// SIDs of channels, each with its flow. Contracts see the rows.
#[derive(Debug, Drop)]
pub(crate) struct Sids {
    pub(crate) rows: Vec<RegisteredSid>,
    owners: HashMap<(u8, u16), u16>,
    ghost indexed: { (channel sid : ℕ)
        → get (λ p q. nat_eq p.0 q.0 && nat_eq p.1 q.1) owners (channel, sid)
        ≡ owner_of channel sid rows.items },
}

impl Sids {
    ghost use Rattle.std.specs.Prelude.{◌+◌, ◌∷◌, ◌++◌, [], None, OnOk};
    ghost use Rattle.registered_map.specs.Inside.Room.{SidsHaveRoom};

    /// No SIDs.
    pub fn new(alloc: Global) -> Sids
        ensures { result.rows.items ≡ [] }
    {
        Sids {
            rows: Vec::new(alloc),
            owners: HashMap::new(alloc),
        }
    }

    /// The flow to which a SID of a channel was added.
    pub fn owner_of(&self, channel: u8, sid: u16) -> Option<u16>
        ensures { result ≡ owner_of channel sid self.now.rows.items }
    {
        self.owners.get(&(channel, sid)).copied()
    }

    /// Makes room for so many SIDs more.
    pub fn reserve(&mut self, count: usize) -> Result<(), AllocError>
        ensures same { self.new.rows.items ≡ self.old.rows.items }
        ensures room { OnOk result (SidsHaveRoom count self.new) }
    {
        self.rows.reserve(count)?;
        self.owners.reserve(count)
    }

    /// Appends a row whose SID was added to no flow.
    pub fn give(&mut self, row: RegisteredSid)
        requires new { owner_of row.channel row.sid self.old.rows.items ≡ None }
        requires room { SidsHaveRoom 1 self.old }
        ensures rows { self.new.rows.items ≡ self.old.rows.items ++ row ∷ [] }
        ensures room { (k : ℕ) → SidsHaveRoom (k + 1) self.old → SidsHaveRoom k self.new }
    {
        self.rows.push_reserved(row);
        let _ = self.owners.insert((row.channel, row.sid), row.flow);
    }
}

//! Which SIDs carry segments.
ghost use Rattle.std.specs.Prelude.{◌≡◌, ◌&&◌, ℕ, nat_eq};
ghost use Rattle.std.specs.HashMap.{get};
ghost use Rattle.seen_sids.specs.Places.{sid_if_seen};

use crate::seen_sid::SeenSid;
use capture::Burst;
use docsis_wire::{HeaderCheck, HeaderSequence};
use std::alloc::{AllocError, Global};
use std::collections::HashMap;

/// So many pairs of a channel and a SID are told apart.
pub const MOST_PAIRS: usize = 1024;

/// What was seen of each SID of each channel, in the order in which they came first.
#[derive(Debug, Drop)]
pub struct SeenSids {
    pub(crate) rows: Vec<SeenSid>,
    places: HashMap<(u32, u32), u16>,
    /// How many segments of other SIDs there were. It stays at its greatest value.
    pub(crate) others: u64,
    ghost indexed: { (channel sid : ℕ)
        → get (λ p q. nat_eq p.0 q.0 && nat_eq p.1 q.1) places (channel, sid)
        ≡ sid_if_seen channel sid rows.items },
}

impl SeenSids {
    ghost use Rattle.std.specs.Prelude.{◌<◌, ◌∷◌, ◌++◌, [], length, OnOk, OnErr};
    ghost use Rattle.capture.specs.SeenBurst.{burst_parts};
    ghost use Rattle.seen_sids.specs.Places.{most_pairs, place_of_sid};
    ghost use Rattle.seen_sids.specs.Rows.{with_at};
    ghost use Rattle.seen_sids.specs.Seen.{seen_in, nothing_seen, with_seen, with_burst};

    /// Nothing was seen.
    pub fn new(alloc: Global) -> SeenSids
        ensures { seen_in result ≡ nothing_seen }
    {
        SeenSids {
            rows: Vec::new(alloc),
            places: HashMap::new(alloc),
            others: 0,
        }
    }

    /// Counts a burst. Where an allocation fails nothing is changed.
    pub fn take(&mut self, burst: &Burst<'_>) -> Result<(), AllocError>
        ensures taken { OnOk result
            (seen_in self.new ≡ with_burst (seen_in self.old) (burst_parts burst.now)) }
        ensures refused { OnErr result (seen_in self.new ≡ seen_in self.old) }
    {
        let [_, _, high, low, ..] = burst.bytes else {
            return Ok(());
        };
        let number = u16::from_be_bytes([*high, *low]) / 8;
        let (header, _) = burst.bytes.split_at(burst.bytes.len().min(8));
        let is_right = HeaderSequence.passes(header);
        self.count(burst.channel, burst.sid, is_right, number)
    }

    /// The place of a SID of a channel, or how many were seen where it wasn't.
    fn place_of(&self, channel: u32, sid: u32) -> usize
        ensures { result ≡ place_of_sid channel sid self.now.rows.items }
    {
        match self.places.get(&(channel, sid)) {
            Some(place) => usize::from(*place),
            None => self.rows.len(),
        }
    }

    /// Counts a segment.
    fn count(
        &mut self,
        channel: u32,
        sid: u32,
        is_right: bool,
        number: u16,
    ) -> Result<(), AllocError>
        ensures taken { OnOk result
            (seen_in self.new ≡ with_seen (seen_in self.old) channel sid is_right number) }
        ensures refused { OnErr result (seen_in self.new ≡ seen_in self.old) }
    {
        let place = self.place_of(channel, sid);
        if place < self.rows.len() {
            self.count_at(place, is_right, number);
            return Ok(());
        }
        if place >= MOST_PAIRS {
            self.others = self.others.saturating_add(1);
            return Ok(());
        }
        self.add(SeenSid::new(channel, sid).with(is_right, number))
    }

    /// Counts a segment of the SID at this place.
    fn count_at(&mut self, place: usize, is_right: bool, number: u16)
        requires { place < length self.old.rows.items }
        ensures rows { self.new.rows.items ≡ with_at place is_right number self.old.rows.items }
        ensures others { self.new.others ≡ self.old.others }
    {
        self.rows[place] = self.rows[place].with(is_right, number);
    }

    /// Appends a SID that wasn't seen.
    fn add(&mut self, row: SeenSid) -> Result<(), AllocError>
        requires few { length self.old.rows.items < most_pairs }
        requires new { place_of_sid row.channel row.sid self.old.rows.items
            ≡ length self.old.rows.items }
        ensures taken { OnOk result (self.new.rows.items ≡ self.old.rows.items ++ row ∷ []) }
        ensures refused { OnErr result (self.new.rows.items ≡ self.old.rows.items) }
        ensures others { self.new.others ≡ self.old.others }
    {
        self.rows.reserve(1)?;
        self.places.reserve(1)?;
        let place = self.rows.len() as u16;
        self.rows.push_reserved(row);
        let _ = self.places.insert((row.channel, row.sid), place);
        Ok(())
    }
}

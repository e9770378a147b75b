//! The last that was told of bursts.
ghost use Rattle.std.specs.Prelude.{◌≡◌};
ghost use Rattle.burst_fates.specs.Room.{most_told};

use crate::burst_fate::{BurstFate, ToldFate, is_kept};
use crate::missing_reason::MissingReason;
use circular_buffer::HeapCircularBuffer;
use std::alloc::{AllocError, Global};

/// So many things that were told are kept.
pub const MOST_TOLD: usize = 32_768;

/// The last 32,768 things that were told of bursts, in order.
#[derive(Debug, Drop)]
pub struct BurstFates {
    told: HeapCircularBuffer<ToldFate>,
    ghost room: { told.capacity ≡ most_told },
}

impl BurstFates {
    ghost use Rattle.std.specs.Prelude.{◌<◌, [], IfOk, nat_le, length};
    ghost use Rattle.burst_fates.specs.Fates.{known_of, told_at, Tells, unknown, reason_of_burst};
    ghost use Rattle.burst_fates.specs.Fates.{reason_of};

    /// Nothing was told. All memory that will be used is asked for here.
    pub fn new(alloc: Global) -> Result<BurstFates, AllocError>
        ensures { IfOk result (λ fates. fates.told.items ≡ []) }
    {
        Ok(BurstFates {
            told: HeapCircularBuffer::with_capacity(alloc, MOST_TOLD)?,
        })
    }

    /// It is told what became of a burst, by its number. The first thing that is kept is forgotten
    /// where too many were told.
    pub fn tell(&mut self, id: u64, fate: BurstFate)
        ensures { Tells (record { id = id; fate = fate }) self.old self.new }
    {
        let _ = self.told.push_back(ToldFate { id, fate });
    }

    /// What is known of a burst, by what is kept of what was told: that it was kept, if that was
    /// told once, and else what was told last.
    pub fn fate_of(&self, id: u64) -> Option<BurstFate>
        ensures { result ≡ known_of id self.now.told.items }
    {
        let mut last = None;
        let mut left = self.told.len();
        while left > 0 {
            left -= 1;
            let told = self.told_at(left, id);
            if is_kept(told) {
                return Some(BurstFate::Kept);
            }
            last = last.or(told);
        }
        last
    }

    /// What the thing at this place tells of a burst, if it is of that.
    fn told_at(&self, place: usize, id: u64) -> Option<BurstFate>
        requires { place < length self.now.told.items }
        ensures { result ≡ told_at place id self.now.told.items }
    {
        let one = self.told.get(place)?;
        if one.id == id { Some(one.fate) } else { None }
    }

    /// Why nothing is known of this burst: it never came, or that was forgotten.
    fn unknown(&self, id: u64) -> MissingReason
        ensures { result ≡ unknown (nat_le most_told (length self.now.told.items)) id }
    {
        if self.told.len() >= MOST_TOLD {
            MissingReason::NotSeenLately(id)
        } else {
            MissingReason::NeverCame(id)
        }
    }

    /// Why a frame of this burst is missing, if the burst wasn't kept.
    fn reason_of_burst(&self, id: u64) -> Option<MissingReason>
        ensures { result ≡ reason_of_burst self.now.told.items id }
    {
        match self.fate_of(id) {
            Some(BurstFate::Kept) => None,
            Some(fate) => Some(MissingReason::Burst(id, fate)),
            None => Some(self.unknown(id)),
        }
    }

    /// Why a frame is missing that came of these bursts: the first of them that wasn't kept.
    pub fn reason(&self, ids: &[u64]) -> MissingReason
        ensures { result ≡ reason_of self.now.told.items ids.now }
    {
        if ids.is_empty() {
            return MissingReason::Unnamed;
        }
        for id in ids {
            if let Some(reason) = self.reason_of_burst(*id) {
                return reason;
            }
        }
        MissingReason::AllKept
    }
}

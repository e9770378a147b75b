//! The messages that are under way.
ghost use Rattle.std.specs.Prelude.{◌≤◌};
ghost use Rattle.std.specs.HashMap.{hash_map_len};

use crate::joining::{
    JoinFault, LONGEST_MESSAGE, MOST_UNDER_WAY, UnderWay, WholeMessage, precedes,
};
use crate::part::Part;
use std::alloc::Global;
use std::collections::HashMap;

/// The messages of which some parts came, at most one of a modem. It holds at most 256 of them,
/// each of at most 64 KiB. Contracts see what is under way for each modem, and how many there are.
#[derive(Debug, Drop)]
pub struct Unfinished {
    messages: HashMap<u64, UnderWay>,
    ghost few: { hash_map_len messages ≤ 256 },
}

impl Unfinished {
    ghost use Rattle.std.specs.Prelude.{◌≡◌, ◌≢◌, ℕ, None, Err, option_map, OnOk, IfOk, IfErr};
    ghost use Rattle.std.specs.Prelude.{IsOk, IsTrue, IsFalse};
    ghost use Rattle.registrations.specs.Part.{part_seen};
    ghost use Rattle.registrations.specs.Joining.{most_under_way, open_seen, whole_seen};
    ghost use Rattle.registrations.specs.Joining.{message_of, joined, IsHeldBefore};
    ghost use Rattle.registrations.specs.UnderWay.{held_at, count_of, Joins, Refused, HasRoom};
    ghost use Rattle.registrations.specs.UnderWay.{IsTakenOut};

    /// Nothing is under way.
    pub fn new(alloc: Global) -> Unfinished
        ensures none { (modem : ℕ) → held_at result modem ≡ None }
        ensures count { count_of result ≡ 0 }
    {
        Unfinished {
            messages: HashMap::new(alloc),
        }
    }

    /// How many messages are under way: at most 256.
    pub fn count(&self) -> usize
        ensures count { result ≡ count_of self.now }
        ensures few { result ≤ most_under_way }
    {
        self.messages.len()
    }

    /// Gives all messages up that are under way.
    pub fn forget(&mut self)
        ensures none { (modem : ℕ) → held_at self.new modem ≡ None }
        ensures count { count_of self.new ≡ 0 }
    {
        self.messages.clear();
    }

    /// Takes a part, and gives the message if it was the last one of it. A first part begins its
    /// message anew, whatever was under way for its modem.
    pub fn take(&mut self, alloc: Global, part: Part<'_>) -> Result<Option<WholeMessage>, JoinFault>
        // The message that is under way for the part's modem grows by it, and is given or kept.
        ensures taken { IfOk result (λ given. Joins self.old self.new (part_seen part.entry)
            (option_map whole_seen given)) }
        // A part that is refused changes nothing, but where an allocation failed.
        ensures refused { IfErr result (Refused self.old self.new (part_seen part.entry)) }
        ensures others { (modem : ℕ) → modem ≢ part.entry.modem
            → held_at self.new modem ≡ held_at self.old modem }
    {
        self.check(part)?;
        let mut held = self.take_out(alloc, part);
        held.tlvs.extend_from_slice(part.tlvs)?;
        held.taken = part.number;
        if held.taken == held.of {
            return Ok(Some(WholeMessage {
                modem: part.modem,
                message: held.message,
                tlvs: held.tlvs,
            }));
        }
        self.messages.insert(part.modem, held)?;
        Ok(None)
    }

    /// How many bytes of a part's message came before it, if it is the next one or begins it.
    fn held_before(&self, part: Part<'_>) -> Result<usize, JoinFault>
        ensures held { IfOk result
            (IsHeldBefore (message_of (held_at self.now part.entry.modem) (part_seen part.entry))) }
        ensures refused { IfErr result (λ why.
            message_of (held_at self.now part.entry.modem) (part_seen part.entry) ≡ Err why) }
    {
        if part.number == 1 {
            return Ok(0);
        }
        let Some(held) = self.messages.get(&part.modem) else {
            return Err(JoinFault::NoBeginning);
        };
        if !precedes(held, part) {
            return Err(JoinFault::OutOfTurn);
        }
        Ok(held.tlvs.len())
    }

    /// Whether a message of this modem is under way, or there is room for one more.
    fn has_room(&self, modem: u64) -> bool
        ensures yes { IsTrue result → HasRoom self.now modem }
        ensures no { IsFalse result
            → (held_at self.now modem ≡ None) × (most_under_way ≤ count_of self.now) }
    {
        self.messages.contains_key(&modem) || self.messages.len() < MOST_UNDER_WAY
    }

    /// Looks whether a part can be taken.
    fn check(&self, part: Part<'_>) -> Result<(), JoinFault>
        ensures fits { OnOk result (IsOk (joined (held_at self.now part.entry.modem) (part_seen part.entry))) }
        ensures room { OnOk result (part.entry.number ≢ part.entry.of
            → HasRoom self.now part.entry.modem) }
        ensures refused { IfErr result (Refused self.now self.now (part_seen part.entry)) }
    {
        let before = self.held_before(part)?;
        if before + part.tlvs.len() > LONGEST_MESSAGE {
            return Err(JoinFault::TooLong);
        }
        if part.number != part.of && !self.has_room(part.modem) {
            return Err(JoinFault::TooManyUnderWay);
        }
        Ok(())
    }

    /// Takes the message out that is under way for the part's modem, and begins one anew for a
    /// first part.
    fn take_out(&mut self, alloc: Global, part: Part<'_>) -> UnderWay
        ensures { IsTakenOut self.old self.new (part_seen part.entry) (open_seen result) }
    {
        match self.messages.remove(&part.modem) {
            Some(held) if part.number != 1 => held,
            _ => UnderWay {
                message: part.message,
                of: part.of,
                taken: 0,
                tlvs: Vec::new(alloc),
            },
        }
    }
}

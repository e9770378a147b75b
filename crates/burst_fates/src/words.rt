//! The words for why a frame wasn't joined.
ghost use Rattle.std.specs.Prelude.{◌≡◌};
ghost use Rattle.text_lines.specs.Putting.{Puts};
ghost use Rattle.burst_fates.specs.Words.{refusal_word, fate_word, fate_for_people};
ghost use Rattle.burst_fates.specs.Words.{refusal_for_people, fate_text, burst_text, reason_word};
ghost use Rattle.burst_fates.specs.Words.{burst_in, reason_text};

use crate::burst_fate::BurstFate;
use crate::missing_reason::MissingReason;
use lane::Refusal;
use text_lines::{PutText, put_number, put_word};

/// The word for a refusal.
fn refusal_word(refusal: Refusal) -> &'static str
    ensures { result.now ≡ refusal_word refusal }
{
    match refusal {
        Refusal::GrantRange => "grant_out_of_range",
        Refusal::GrantKnown => "grant_known",
        Refusal::UnknownSid => "grant_unknown_sid",
        Refusal::TooManyGrants => "grant_too_many",
        Refusal::GrantOutOfMemory => "grant_out_of_memory",
        Refusal::NoGrant => "no_grant",
        Refusal::TooLong => "too_long",
        Refusal::BadCheck => "bad_check",
        Refusal::TooShort => "too_short",
        Refusal::PointerPast => "pointer_past_the_end",
        Refusal::BurstOutOfMemory => "out_of_memory",
    }
}

/// The word for what became of a burst.
fn fate_word(fate: BurstFate) -> &'static str
    ensures { result.now ≡ fate_word fate }
{
    match fate {
        BurstFate::UnknownChannel => "unknown_channel",
        BurstFate::UnknownSid => "unknown_sid",
        BurstFate::Refused(refusal) => refusal_word(refusal),
        BurstFate::Waits => "waits",
        BurstFate::Kept => "kept",
        BurstFate::Late => "late",
        BurstFate::Repeat => "repeat",
        BurstFate::Beyond => "beyond",
    }
}

impl MissingReason {
    /// Its word for programs.
    pub fn word(&self) -> &'static str
        ensures { result.now ≡ reason_word self.now }
    {
        match self {
            MissingReason::Unnamed => "unnamed",
            MissingReason::NeverCame(_) => "never_came",
            MissingReason::NotSeenLately(_) => "not_seen_lately",
            MissingReason::Burst(_, fate) => fate_word(*fate),
            MissingReason::AllKept => "kept",
        }
    }

    /// The burst that it names, by the analyser's number.
    pub fn burst(&self) -> Option<u64>
        ensures { result ≡ burst_in self.now }
    {
        match self {
            MissingReason::NeverCame(id)
            | MissingReason::NotSeenLately(id)
            | MissingReason::Burst(id, _) => Some(*id),
            MissingReason::Unnamed | MissingReason::AllKept => None,
        }
    }
}

/// The words for what became of a burst, behind which the refusal stands where it was refused.
fn fate_for_people(fate: BurstFate) -> &'static str
    ensures { result.now ≡ fate_for_people fate }
{
    match fate {
        BurstFate::UnknownChannel => " is of no channel of the map",
        BurstFate::UnknownSid => " is of no flow of the map",
        BurstFate::Refused(_) => " was refused: ",
        BurstFate::Waits => " waits",
        BurstFate::Kept => " was kept",
        BurstFate::Late => " came late",
        BurstFate::Repeat => " came again",
        BurstFate::Beyond => " was beyond the window",
    }
}

/// The word for the refusal of a burst, or none.
fn refusal_for_people(fate: BurstFate) -> &'static str
    ensures { result.now ≡ refusal_for_people fate }
{
    match fate {
        BurstFate::Refused(refusal) => refusal_word(refusal),
        BurstFate::UnknownChannel
        | BurstFate::UnknownSid
        | BurstFate::Waits
        | BurstFate::Kept
        | BurstFate::Late
        | BurstFate::Repeat
        | BurstFate::Beyond => "",
    }
}

/// Puts what people read of what became of a burst.
fn put_fate<O: PutText>(out: &mut O, fate: BurstFate)
    ensures { Puts O.after out.old (fate_text fate) out.new }
{
    put_word(out, fate_for_people(fate));
    put_word(out, refusal_for_people(fate));
}

/// Puts a burst by its number.
fn put_burst<O: PutText>(out: &mut O, id: u64)
    ensures { Puts O.after out.old (burst_text id) out.new }
{
    put_word(out, "burst ");
    put_number(out, id);
}

/// Puts what people read of why a frame wasn't joined.
pub fn put_reason<O: PutText>(out: &mut O, reason: &MissingReason)
    ensures { Puts O.after out.old (reason_text reason.now) out.new }
{
    match *reason {
        MissingReason::Unnamed => put_word(out, "its bursts aren't named"),
        MissingReason::NeverCame(id) => {
            put_burst(out, id);
            put_word(out, " never came");
        }
        MissingReason::NotSeenLately(id) => {
            put_burst(out, id);
            put_word(out, " wasn't seen lately");
        }
        MissingReason::Burst(id, fate) => {
            put_burst(out, id);
            put_fate(out, fate);
        }
        MissingReason::AllKept => put_word(out, "its bursts were kept"),
    }
}

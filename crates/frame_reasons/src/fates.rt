//! What became of a burst, by what was replied to it.
ghost use Rattle.std.specs.Prelude.{◌≡◌};
ghost use Rattle.frame_reasons.specs.Told.{fate_of_verdict, fate_of_reply, fate_of_taken};

use burst_fates::BurstFate;
use captured_flows::BurstTaken;
use receiver::{Reply, SegmentVerdict};

/// What became of a burst whose segment came to its flow.
fn fate_of_verdict(verdict: SegmentVerdict) -> BurstFate
    ensures { result ≡ fate_of_verdict verdict }
{
    match verdict {
        SegmentVerdict::Kept => BurstFate::Kept,
        SegmentVerdict::Late => BurstFate::Late,
        SegmentVerdict::Repeat => BurstFate::Repeat,
        SegmentVerdict::Beyond => BurstFate::Beyond,
    }
}

/// What became of a burst to which this was replied.
pub(crate) fn fate_of_reply(reply: Reply) -> Option<BurstFate>
    ensures { result ≡ fate_of_reply reply }
{
    match reply {
        Reply::Granted => None,
        Reply::Admitted { told, .. } => Some(fate_of_verdict(told.verdict)),
        Reply::Refused(refusal) => Some(BurstFate::Refused(refusal)),
    }
}

/// What became of a burst that came.
pub(crate) fn fate_of_taken(told: BurstTaken) -> Option<BurstFate>
    ensures { result ≡ fate_of_taken told }
{
    match told {
        BurstTaken::UnknownChannel => Some(BurstFate::UnknownChannel),
        BurstTaken::UnknownSid => Some(BurstFate::UnknownSid),
        BurstTaken::Refused(reply) => fate_of_reply(reply),
        BurstTaken::Waits(_) => Some(BurstFate::Waits),
    }
}

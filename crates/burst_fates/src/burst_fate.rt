//! What became of a burst.
ghost use Rattle.std.specs.Prelude.{◌≡◌};
ghost use Rattle.burst_fates.specs.Fates.{is_kept};

use lane::Refusal;

/// What became of a burst of a capture.
#[derive(Clone, Copy, Debug, PartialEq, Eq)]
pub enum BurstFate {
    /// The map has no channel with its upstream channel id.
    UnknownChannel,
    /// The map has no such service identifier of its channel.
    UnknownSid,
    /// Its lane refused it, for this reason.
    Refused(Refusal),
    /// It came to its flow, and wasn't handed in yet.
    Waits,
    /// Its segment was kept.
    Kept,
    /// Its segment came when its number had passed: it was given up as lost, or kept and joined.
    Late,
    /// Its segment's number was held already.
    Repeat,
    /// Its segment's number was beyond the window.
    Beyond,
}

/// What was told of a burst.
#[derive(Clone, Copy, Debug, PartialEq, Eq)]
pub struct ToldFate {
    /// The analyser's number of the burst.
    pub id: u64,
    /// What became of it.
    pub fate: BurstFate,
}

/// Whether this says that a burst was kept.
pub(crate) fn is_kept(told: Option<BurstFate>) -> bool
    ensures { result ≡ is_kept told }
{
    matches!(told, Some(BurstFate::Kept))
}

//! How often a lane refused something, and why.
ghost use Rattle.std.specs.Prelude.{◌≡◌, ◌==◌};
ghost use Rattle.std.specs.List.{list_all};
ghost use Rattle.capture_summary.specs.Counting.{no_refusals, count_of_refusal, with_refusal};
ghost use Rattle.capture_summary.specs.Words.{refusal_text};

use lane::Refusal;

/// All refusals, by their numbers.
pub(crate) const ALL_REFUSALS: [Refusal; 11] = [
    Refusal::GrantRange,
    Refusal::GrantKnown,
    Refusal::UnknownSid,
    Refusal::TooManyGrants,
    Refusal::GrantOutOfMemory,
    Refusal::NoGrant,
    Refusal::TooLong,
    Refusal::BadCheck,
    Refusal::TooShort,
    Refusal::PointerPast,
    Refusal::BurstOutOfMemory,
];

/// The words for a refusal.
pub(crate) fn refusal_text(refusal: Refusal) -> &'static str
    ensures { result.now ≡ refusal_text refusal }
{
    match refusal {
        Refusal::GrantRange => "grant out of range",
        Refusal::GrantKnown => "grant known",
        Refusal::UnknownSid => "unknown SID",
        Refusal::TooManyGrants => "too many grants",
        Refusal::GrantOutOfMemory => "out of memory for a grant",
        Refusal::NoGrant => "no grant",
        Refusal::TooLong => "longer than its grant",
        Refusal::BadCheck => "bad check",
        Refusal::TooShort => "too short",
        Refusal::PointerPast => "pointer past the end",
        Refusal::BurstOutOfMemory => "out of memory for a burst",
    }
}

/// How often each refusal came. Each count stays at its greatest value, 2^64 − 1.
#[derive(Clone, Copy, Debug, PartialEq, Eq)]
pub struct RefusalCounts {
    /// The counts, in the order of the refusals' numbers.
    pub(crate) counts: [u64; 11],
}

impl RefusalCounts {
    /// There was none yet.
    pub fn none() -> RefusalCounts
        ensures { result ≡ no_refusals }
    {
        RefusalCounts { counts: [0; 11] }
    }

    /// Whether none came.
    pub fn is_empty(&self) -> bool
        ensures { result ≡ list_all (λ count. count == 0) self.now.counts }
    {
        self.counts.iter().all(|count| *count == 0)
    }

    /// How often a refusal came.
    pub fn of(&self, refusal: Refusal) -> u64
        ensures { result ≡ count_of_refusal self.now refusal }
    {
        self.counts[usize::from(refusal.number()) - 1]
    }

    /// Counts a refusal.
    pub fn count(&mut self, refusal: Refusal)
        ensures { self.new ≡ with_refusal refusal self.old }
    {
        let place = usize::from(refusal.number()) - 1;
        self.counts[place] = self.counts[place].saturating_add(1);
    }
}

//! Why a lane refuses an input.
ghost use Rattle.std.specs.Prelude.{◌≡◌, ◌↔◌, ◌⊎◌, IsTrue};
ghost use Rattle.lane.specs.Report.{refusal_number};

use thiserror::Error;

/// Why a lane refuses a grant or a burst. The first that applies is reported, in this order. All
/// refusals of a grant, `NoGrant` and `BurstOutOfMemory` change nothing; the others spend the
/// grant.
#[derive(Clone, Copy, Debug, PartialEq, Eq, Error)]
pub enum Refusal {
    /// A grant has fewer than 8 bytes or more than 65,535.
    #[error("grant out of range")]
    GrantRange,
    /// A grant has the number of one that is outstanding.
    #[error("grant known")]
    GrantKnown,
    /// A grant was made to a service identifier that no row of this channel has.
    #[error("unknown service identifier")]
    UnknownSid,
    /// 65,536 grants are outstanding.
    #[error("too many grants")]
    TooManyGrants,
    /// A grant can't be kept, since an allocation failed.
    #[error("out of memory for a grant")]
    GrantOutOfMemory,
    /// A burst names a grant that isn't outstanding.
    #[error("no grant")]
    NoGrant,
    /// A burst has more bytes than its grant.
    #[error("too long")]
    TooLong,
    /// The check sequence of a burst's segment header is wrong.
    #[error("bad check")]
    BadCheck,
    /// A burst has fewer than 8 bytes, and so no segment header.
    #[error("too short")]
    TooShort,
    /// In a burst's segment header PFI is 1 and the pointer is not below the payload's length.
    #[error("pointer past the end")]
    PointerPast,
    /// A burst can't be kept, since an allocation failed.
    #[error("out of memory for a burst")]
    BurstOutOfMemory,
}

impl Refusal {
    /// The refusal's number, 1 to 11: grants' refusals are 1 to 5 and bursts' 6 to 11, each in the
    /// order in which they are looked for.
    pub fn number(self) -> u8
        ensures { result ≡ refusal_number self }
    {
        match self {
            Refusal::GrantRange => 1,
            Refusal::GrantKnown => 2,
            Refusal::UnknownSid => 3,
            Refusal::TooManyGrants => 4,
            Refusal::GrantOutOfMemory => 5,
            Refusal::NoGrant => 6,
            Refusal::TooLong => 7,
            Refusal::BadCheck => 8,
            Refusal::TooShort => 9,
            Refusal::PointerPast => 10,
            Refusal::BurstOutOfMemory => 11,
        }
    }

    /// Whether it is that an allocation failed.
    pub fn is_out_of_memory(self) -> bool
        ensures { IsTrue result
            ↔ ((self ≡ Refusal.GrantOutOfMemory) ⊎ (self ≡ Refusal.BurstOutOfMemory)) }
    {
        matches!(self, Refusal::GrantOutOfMemory | Refusal::BurstOutOfMemory)
    }
}

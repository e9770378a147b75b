//! What was passed over of a capture.
ghost use Rattle.std.specs.Prelude.{◌≡◌};
ghost use Rattle.capture_summary.specs.Counting.{one_more, none_passed, count_of_reason};
ghost use Rattle.capture_summary.specs.Counting.{with_passed};
ghost use Rattle.capture_summary.specs.Words.{reason_text};

use capture::Passed;

/// All reasons, in the order of their words, capital letters before small ones.
pub(crate) const ALL_REASONS: [PassedReason; 8] = [
    PassedReason::Packet(Passed::CutShort),
    PassedReason::Packet(Passed::Malformed),
    PassedReason::Packet(Passed::NoChannelOrSid),
    PassedReason::Packet(Passed::NoSegmentHeader),
    PassedReason::OtherLinkType,
    PassedReason::Packet(Passed::OtherType),
    PassedReason::UnknownSid,
    PassedReason::UnknownChannel,
];

/// Why a record of a capture is passed over.
#[derive(Clone, Copy, Debug, PartialEq, Eq)]
pub enum PassedReason {
    /// It is of another link type than 273.
    OtherLinkType,
    /// Its packet has no burst with a segment header.
    Packet(Passed),
    /// The map has no channel with the upstream channel id of the burst.
    UnknownChannel,
    /// The map has no flow of the SID of the burst on its channel.
    UnknownSid,
}

impl PassedReason {
    /// The words for it.
    pub fn text(self) -> &'static str
        ensures { result.now ≡ reason_text self }
    {
        match self {
            PassedReason::OtherLinkType => "other link type",
            PassedReason::Packet(Passed::CutShort) => "cut short",
            PassedReason::Packet(Passed::OtherType) => "other type",
            PassedReason::Packet(Passed::Malformed) => "malformed",
            PassedReason::Packet(Passed::NoSegmentHeader) => "no segment header",
            PassedReason::Packet(Passed::NoChannelOrSid) => "no channel or SID",
            PassedReason::UnknownChannel => "unknown channel",
            PassedReason::UnknownSid => "unknown SID",
        }
    }
}

/// How many records were passed over, by reason. Each count stays at its greatest value, 2^64 − 1.
#[derive(Clone, Copy, Debug, PartialEq, Eq)]
pub struct PassedCounts {
    pub other_link_type: u64,
    pub cut_short: u64,
    pub other_type: u64,
    pub malformed: u64,
    pub no_segment_header: u64,
    pub no_channel_or_sid: u64,
    pub unknown_channel: u64,
    pub unknown_sid: u64,
}

/// Counts one more.
fn count_one(count: &mut u64)
    ensures { count.new ≡ one_more count.old }
{
    *count = count.saturating_add(1);
}

impl PassedCounts {
    /// None was passed over yet.
    pub fn none() -> PassedCounts
        ensures { result ≡ none_passed }
    {
        PassedCounts {
            other_link_type: 0,
            cut_short: 0,
            other_type: 0,
            malformed: 0,
            no_segment_header: 0,
            no_channel_or_sid: 0,
            unknown_channel: 0,
            unknown_sid: 0,
        }
    }

    /// How many were passed over for a reason.
    pub fn of(&self, reason: PassedReason) -> u64
        ensures { result ≡ count_of_reason self.now reason }
    {
        match reason {
            PassedReason::OtherLinkType => self.other_link_type,
            PassedReason::Packet(Passed::CutShort) => self.cut_short,
            PassedReason::Packet(Passed::OtherType) => self.other_type,
            PassedReason::Packet(Passed::Malformed) => self.malformed,
            PassedReason::Packet(Passed::NoSegmentHeader) => self.no_segment_header,
            PassedReason::Packet(Passed::NoChannelOrSid) => self.no_channel_or_sid,
            PassedReason::UnknownChannel => self.unknown_channel,
            PassedReason::UnknownSid => self.unknown_sid,
        }
    }

    /// Counts one that is passed over.
    pub fn count(&mut self, reason: PassedReason)
        ensures { self.new ≡ with_passed reason self.old }
    {
        match reason {
            PassedReason::OtherLinkType => count_one(&mut self.other_link_type),
            PassedReason::Packet(Passed::CutShort) => count_one(&mut self.cut_short),
            PassedReason::Packet(Passed::OtherType) => count_one(&mut self.other_type),
            PassedReason::Packet(Passed::Malformed) => count_one(&mut self.malformed),
            PassedReason::Packet(Passed::NoSegmentHeader) => count_one(&mut self.no_segment_header),
            PassedReason::Packet(Passed::NoChannelOrSid) => count_one(&mut self.no_channel_or_sid),
            PassedReason::UnknownChannel => count_one(&mut self.unknown_channel),
            PassedReason::UnknownSid => count_one(&mut self.unknown_sid),
        }
    }
}

//! What is told of a segment that comes to a flow.
ghost use Rattle.std.specs.Prelude.{◌≡◌};
ghost use Rattle.bonded_flows.specs.Answers.{verdict_of};

use docsis_wire::Segment;
use reorder::Verdict;

/// What became of a segment.
#[derive(Clone, Copy, Debug, PartialEq, Eq)]
pub enum SegmentVerdict {
    /// It is kept.
    Kept,
    /// It came when its number had passed.
    Late,
    /// Its number is held already.
    Repeat,
    /// Its number is beyond the window.
    Beyond,
}

impl SegmentVerdict {
    /// The verdict without the segment that it hands back.
    pub fn of(verdict: &Verdict<Segment>) -> SegmentVerdict
        ensures { result ≡ verdict_of verdict.now }
    {
        match verdict {
            Verdict::Kept => SegmentVerdict::Kept,
            Verdict::Late(_) => SegmentVerdict::Late,
            Verdict::Repeat(_) => SegmentVerdict::Repeat,
            Verdict::Beyond(_) => SegmentVerdict::Beyond,
        }
    }
}

/// What is told of a segment that came.
#[derive(Clone, Copy, Debug, PartialEq, Eq)]
pub struct Told {
    /// The number, 0 to 8191, up to which the rule skipped before it, if it skipped. Where it did
    /// so twice this is the later skip, by which the window slid.
    pub skipped_to: Option<u16>,
    /// What became of the segment.
    pub verdict: SegmentVerdict,
}

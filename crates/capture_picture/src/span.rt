//! Which segments a channel brought.
ghost use Rattle.std.specs.Prelude.{◌≡◌};
ghost use Rattle.capture_picture.specs.Spans.{joined_spans, both_spans};

/// Which segments of a flow a channel brought in some time.
#[derive(Clone, Copy, Debug, PartialEq, Eq)]
pub struct Span {
    /// The least index.
    pub low: u64,
    /// The greatest index.
    pub high: u64,
    /// By how many segments one lay behind the flow's newest one when it came, at most.
    pub behind: u64,
}

impl Span {
    /// What both have, together.
    pub(crate) fn joined(self, other: Span) -> Span
        ensures { result ≡ joined_spans self other }
    {
        Span {
            low: self.low.min(other.low),
            high: self.high.max(other.high),
            behind: self.behind.max(other.behind),
        }
    }
}

/// What both have, together, where either may have none.
pub(crate) fn both_spans(one: Option<Span>, other: Option<Span>) -> Option<Span>
    ensures { result ≡ both_spans one other }
{
    match (one, other) {
        (Some(one), Some(other)) => Some(one.joined(other)),
        (Some(one), None) => Some(one),
        (None, other) => other,
    }
}

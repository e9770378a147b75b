//! Where a running receiver's inputs and decisions come from.
ghost use Rattle.std.specs.Prelude.{◌≡◌, ◌∷◌, [], List, MatchOption};
ghost use Rattle.std.specs.Vec.Iter.{into_iter_items};
ghost use Rattle.lane.specs.declared.input.Input.{Input};
ghost use Rattle.flow_records.specs.declared.decision.Decision.{Decision};

use crate::live_source::OnChannel;
use flow_records::Decision;
use lane::Input;
use std::vec::IntoIter;

/// The inputs of one channel. A source is finite: once it has answered `None` it has nothing more
/// to give.
pub trait Source {
    // All inputs that it still gives, in order.
    ghost gives: { Self → List Input };

    /// The next input.
    fn next(&mut self) -> Option<Input>
        ensures { MatchOption result
            ((gives self.old ≡ []) × (gives self.new ≡ []))
            (λ input. gives self.old ≡ input ∷ gives self.new) };
}

/// Decisions that segments are lost. It is finite as a [`Source`] is.
pub trait Decisions {
    // All decisions that it still gives, in order.
    ghost decides: { Self → List Decision };

    /// The next decision.
    fn next(&mut self) -> Option<Decision>
        ensures { MatchOption result
            ((decides self.old ≡ []) × (decides self.new ≡ []))
            (λ decision. decides self.old ≡ decision ∷ decides self.new) };
}

/// Four sources. To each belong the channels whose number leaves its own when divided by four.
#[derive(Drop)]
pub struct Sources<S0, S1, S2, S3> {
    pub s0: S0,
    pub s1: S1,
    pub s2: S2,
    pub s3: S3,
}

impl<S0, S1, S2, S3> Sources<S0, S1, S2, S3> {
    /// Each as a source of the channel that has its number.
    pub fn on_four_channels(
        self,
    ) -> Sources<OnChannel<S0>, OnChannel<S1>, OnChannel<S2>, OnChannel<S3>>
        ensures s0 { result.s0 ≡ record { channel = 0; source = self.s0 } }
        ensures s1 { result.s1 ≡ record { channel = 1; source = self.s1 } }
        ensures s2 { result.s2 ≡ record { channel = 2; source = self.s2 } }
        ensures s3 { result.s3 ≡ record { channel = 3; source = self.s3 } }
    {
        Sources {
            s0: OnChannel {
                channel: 0,
                source: self.s0,
            },
            s1: OnChannel {
                channel: 1,
                source: self.s1,
            },
            s2: OnChannel {
                channel: 2,
                source: self.s2,
            },
            s3: OnChannel {
                channel: 3,
                source: self.s3,
            },
        }
    }
}

/// A source that gives a list of inputs.
#[derive(Drop)]
pub struct ListSource {
    rest: IntoIter<Input>,
}

impl ListSource {
    /// Gives these inputs, in order.
    pub fn new(inputs: Vec<Input>) -> ListSource
        ensures { ⟦<ListSource as Source>⟧.gives result ≡ inputs.items }
    {
        ListSource {
            rest: inputs.into_iter(),
        }
    }
}

impl Source for ListSource {
    ghost gives = { λ source. into_iter_items source.rest };

    fn next(&mut self) -> Option<Input> {
        self.rest.next()
    }
}

/// A list of decisions.
#[derive(Drop)]
pub struct ListDecisions {
    rest: IntoIter<Decision>,
}

impl ListDecisions {
    /// Gives these decisions, in order.
    pub fn new(decisions: Vec<Decision>) -> ListDecisions
        ensures { ⟦<ListDecisions as Decisions>⟧.decides result ≡ decisions.items }
    {
        ListDecisions {
            rest: decisions.into_iter(),
        }
    }
}

impl Decisions for ListDecisions {
    ghost decides = { λ decisions. into_iter_items decisions.rest };

    fn next(&mut self) -> Option<Decision> {
        self.rest.next()
    }
}

//! Where inputs and decisions come from of which nothing is known before.
ghost use Rattle.std.specs.Prelude.{◌≡◌, ◌++◌, ◌∷◌, [], List, None, MatchOption};
ghost use Rattle.flow_records.specs.declared.decision.Decision.{Decision};
ghost use Rattle.workers.specs.declared.channel_input.ChannelInput.{ChannelInput};

use crate::channel_input::ChannelInput;
use crate::source::{Decisions, Source};
use flow_records::Decision;

/// The inputs of some channels, of which nothing need be known before they are given: what a file,
/// a pipe or a socket has. Once it has answered `None` it isn't asked again. For what is said of a
/// receiver to say something of it, `gave` has to hold of a source as it is and of no inputs.
pub trait LiveSource {
    // The first became the second by giving these inputs, in order.
    ghost gave: { Self → List ChannelInput → Self → Type 0 };
    // It has answered that it gives nothing more.
    ghost is_over: { Self → Type 0 };

    /// The next input, with its channel. A burst's bytes stay in the memory in which they are
    /// given, with whatever room that has, as long as its segment is held.
    fn next(&mut self) -> Option<ChannelInput>
        ensures given { (start : Self) (inputs : List ChannelInput) → gave start inputs self.old
            → MatchOption result (gave start inputs self.new)
            (λ input. gave start (inputs ++ input ∷ []) self.new) }
        ensures over { result ≡ None → is_over self.new };
}

/// Decisions that segments are lost, of which nothing need be known before they are given, as of a
/// [`LiveSource`].
pub trait LiveDecisions {
    // The first became the second by giving these decisions, in order.
    ghost gave: { Self → List Decision → Self → Type 0 };
    // It has answered that it gives nothing more.
    ghost is_over: { Self → Type 0 };

    /// The next decision.
    fn next(&mut self) -> Option<Decision>
        ensures given { (start : Self) (decisions : List Decision) → gave start decisions self.old
            → MatchOption result (gave start decisions self.new)
            (λ decision. gave start (decisions ++ decision ∷ []) self.new) }
        ensures over { result ≡ None → is_over self.new };
}

/// A source that gives the inputs of one channel, of which it is known before what they are.
#[derive(Drop)]
pub struct OnChannel<S> {
    /// The channel on which they come.
    pub channel: u8,
    /// Where they come from.
    pub source: S,
}

impl<S: Source> LiveSource for OnChannel<S> {
    ghost use Rattle.workers.specs.Channels.{all_on};

    ghost gave = { λ start inputs now. all_on start.channel (S.gives start.source)
        ≡ inputs ++ all_on now.channel (S.gives now.source) };

    ghost is_over = { λ now. S.gives now.source ≡ [] };

    fn next(&mut self) -> Option<ChannelInput> {
        let input = self.source.next()?;
        Some(ChannelInput {
            channel: self.channel,
            input,
        })
    }
}

/// Decisions of which it is known before what they are.
#[derive(Drop)]
pub struct Foreknown<D>(pub D);

impl<D: Decisions> LiveDecisions for Foreknown<D> {
    ghost gave = { λ start decisions now. D.decides start.0 ≡ decisions ++ D.decides now.0 };

    ghost is_over = { λ now. D.decides now.0 ≡ [] };

    fn next(&mut self) -> Option<Decision> {
        self.0.next()
    }
}

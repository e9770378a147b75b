//! Who takes what the lines of a trace say came in.
ghost use Rattle.std.specs.Prelude.{◌≡◌, ◌<◌, [], ◌∷◌, ◌++◌, ℕ, Bool, true, List, Option, IfOk};
ghost use Rattle.lane.specs.declared.input.Input.{Input};
ghost use Rattle.loss_rule.specs.declared.rule.LossRule.{LossRule};
ghost use Rattle.receiver.specs.Entries.{Entry, came, decided};
ghost use Rattle.receiver.specs.Widths.{CanReceiveWithin};
ghost use Rattle.receiver.specs.declared.setup.Setup.{Setup};
ghost use Rattle.receiver.specs.declared.width.Width.{Width};

use lane::Input;
use loss_rule::LossRule;
use receiver::{Decision, Setup, Width};
use std::alloc::{AllocError, Global};

/// Takes the inputs and the decisions of a trace, one after another, as its lines are read. Where
/// an allocation fails it is freed.
pub trait TakeEntries: Sized {
    // What is known of it besides what was handed in.
    ghost State: { Type 0 };
    // That this may be known of one to which nothing was handed in.
    ghost starts: { State → Type 0 };
    // Whether it is for a receiver of this width.
    ghost fits: { Width → Bool };
    // By this rule, for a receiver of this width with this setup, these entries were handed in, in
    // this order, and nothing else; or what may stand in for them was.
    ghost has_taken: { State → LossRule → Width → Setup → List Entry → Self → Type 0 };
    // A segment of this input, if it came on this channel now, would be admitted to this flow; or
    // none would be.
    ghost would_come: { Self → ℕ → Input → Option ℕ → Type 0 };

    /// One to which nothing was handed in.
    fn begin(alloc: Global, width: Width, rule: LossRule, setup: &Setup) -> Result<Self, AllocError>
        requires fits { fits width ≡ true }
        requires can_receive { CanReceiveWithin width.channels width.flows setup.now }
        ensures { (state : State) → starts state
            → IfOk result (has_taken state rule width setup.now []) };

    /// The flow of which a segment would be admitted of this input, if it came on this channel now;
    /// none if nothing would be. Of a burst's bytes it looks at the header, and at how many there
    /// are. It takes no memory.
    fn look(&self, width: Width, channel: u8, input: &Input) -> Option<usize>
        requires fits { fits width ≡ true }
        requires channel { channel < width.channels }
        ensures { would_come self.now channel input.now result };

    /// Hands in an input that came on a channel.
    fn take(
        self,
        alloc: Global,
        width: Width,
        channel: u8,
        input: Input,
    ) -> Result<Self, AllocError>
        requires fits { fits width ≡ true }
        requires channel { channel < width.channels }
        ensures { (state : State) (rule : LossRule) (setup : Setup) (entries : List Entry)
            → has_taken state rule width setup entries self
            → IfOk result (has_taken state rule width setup
            (entries ++ came channel input ∷ [])) };

    /// Hands in a decision.
    fn decide(self, alloc: Global, width: Width, decision: Decision) -> Result<Self, AllocError>
        ensures { (state : State) (rule : LossRule) (setup : Setup) (entries : List Entry)
            → has_taken state rule width setup entries self
            → IfOk result (has_taken state rule width setup
            (entries ++ decided decision ∷ [])) };
}

//! A replay to which what was recorded is handed in as it is read.
ghost use Rattle.std.specs.Prelude.{◌≡◌, ◌<◌, ◌++◌, ◌∷◌, [], ℕ, Bool, List, IfOk, map};
ghost use Rattle.lane.specs.Limits.{channel_limit};
ghost use Rattle.loss_rule.specs.declared.rule.LossRule.{LossRule};
ghost use Rattle.receiver.specs.AdmittedOrder.{IsAdmittedOrder};
ghost use Rattle.receiver.specs.Entries.{Entry, came, decided, tag_of, incoming_in};
ghost use Rattle.receiver.specs.Faults.{CanReceive};
ghost use Rattle.receiver.specs.Replaying.{HasReplayed, IsReplaying, ReplaysMore, IsBoundFor};
ghost use Rattle.receiver.specs.declared.setup.Setup.{Setup};
ghost use Rattle.receiver.specs.Ruled.{IsOutcomeBy};

use crate::outcome::Outcome;
use crate::playing::{DECISIONS, Playing, append_if};
use crate::setup::Setup;
use docsis_wire::HeaderCheck;
use flow_records::Decision;
use lane::Input;
use loss_rule::LossRule;
use std::alloc::{AllocError, Global};

/// A replay to which inputs and decisions are handed in one after another, in the order in which
/// they came. What it gives at its end is what [`replay_by`](crate::replay_by) gives of all of them
/// in the admitted order of their senders. It holds none of the inputs.
#[derive(Drop)]
pub struct Replaying<C> {
    playing: Playing<C>,
    /// The sender of each item so far.
    order: Vec<u8>,
}

impl<C: HeaderCheck + Drop> Replaying<C> {
    /// A replay to which nothing was handed in yet.
    pub fn new(
        alloc: Global,
        rule: LossRule,
        setup: &Setup,
        check: C,
    ) -> Result<Replaying<C>, AllocError>
        requires { CanReceive setup.now }
        ensures replays { IfOk result (λ replaying.
            HasReplayed C.accepts rule (C.accepts check) setup.now replaying []) }
        ensures replaying { IfOk result (λ replaying. IsReplaying C.accepts replaying) }
    {
        Ok(Replaying {
            playing: Playing::new(alloc, rule, setup, check)?,
            order: Vec::new(alloc),
        })
    }

    /// Hands in an input that came on a channel, 0 to 3. Where an allocation failed nothing is
    /// promised of what is handed in or given afterwards.
    #[inline(always)]
    pub fn take(&mut self, alloc: Global, channel: u8, input: Input) -> Result<(), AllocError>
        requires replaying { IsReplaying C.accepts self.old }
        requires channel { channel < channel_limit }
        ensures replays { IfOk result (λ _.
            ReplaysMore C.accepts self.old (came channel input) self.new) }
        ensures replaying { IfOk result (λ _. IsReplaying C.accepts self.new) }
    {
        let is_item = (self.playing).take_input(alloc, usize::from(channel), input)?;
        append_if(&mut self.order, is_item, channel)
    }

    /// The flow of which a segment would be admitted of this input, if it came on this channel, 0
    /// to 3, now; none if nothing would be. Of a burst's bytes it looks at the header, and at how
    /// many there are. It takes no memory.
    pub fn look(&self, channel: u8, input: &Input) -> Option<usize>
        requires channel { channel < channel_limit }
        ensures { (rule : LossRule) (check : List ℕ → Bool) (setup : Setup) (entries : List Entry)
            → HasReplayed C.accepts rule check setup self.now entries
            → IsBoundFor setup entries channel input.now result }
    {
        (self.playing).look(usize::from(channel), input)
    }

    /// Hands in a decision. Where an allocation failed nothing is promised of what is handed in or
    /// given afterwards.
    pub fn decide(&mut self, alloc: Global, decision: Decision) -> Result<(), AllocError>
        requires replaying { IsReplaying C.accepts self.old }
        ensures replays { IfOk result (λ _.
            ReplaysMore C.accepts self.old (decided decision) self.new) }
        ensures replaying { IfOk result (λ _. IsReplaying C.accepts self.new) }
    {
        let is_item = self.playing.take_decision(alloc, decision)?;
        append_if(&mut self.order, is_item, DECISIONS)
    }

    /// Closes the receiver: what it gave.
    pub fn finish(self, alloc: Global, setup: &Setup) -> Result<Outcome, AllocError>
        requires { (rule : LossRule) × (check : List ℕ → Bool) × (entries : List Entry)
            × HasReplayed C.accepts rule check setup.now self entries }
        ensures order { IfOk result (λ outcome. (rule : LossRule) (check : List ℕ → Bool)
            (entries : List Entry) → HasReplayed C.accepts rule check setup.now self entries
            → IsAdmittedOrder setup.now (incoming_in entries) (map tag_of entries)
            outcome.order.items) }
        ensures outcome { IfOk result (λ outcome. (rule : LossRule) (check : List ℕ → Bool)
            (entries : List Entry) → HasReplayed C.accepts rule check setup.now self entries
            → IsOutcomeBy rule check setup.now (incoming_in entries) outcome.order.items outcome) }
    {
        self.playing.finish(alloc, setup, self.order)
    }
}

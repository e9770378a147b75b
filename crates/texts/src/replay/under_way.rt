//! A replay under way of what the lines of a trace say.
ghost use Rattle.std.specs.Prelude.{List, IfOk, map};
ghost use Rattle.loss_rule.specs.declared.rule.LossRule.{LossRule};
ghost use Rattle.receiver.specs.AdmittedOrder.{IsAdmittedOrder};
ghost use Rattle.receiver.specs.Entries.{Entry, tag_of, incoming_in};
ghost use Rattle.receiver.specs.Replaying.{HasReplayed};
ghost use Rattle.receiver.specs.declared.setup.Setup.{Setup};
ghost use Rattle.receiver.specs.Ruled.{IsOutcomeBy};
ghost use Rattle.texts.specs.AnyHeader.{any_header};
ghost use Rattle.texts.specs.AnyHeader.{no_check};

use crate::trace::TakeEntries;
use docsis_wire::NoCheck;
use lane::Input;
use loss_rule::LossRule;
use receiver::{Decision, Outcome, Replaying, Setup, Width};
use std::alloc::{AllocError, Global};
use std::marker::Model;

/// A replay to which something may be handed in at any time. It is for the profile's width.
/// Contracts see the replay.
#[derive(Drop)]
pub struct UnderWay {
    /// In a box, since each line of a trace moves it.
    replaying: Box<Replaying<NoCheck>>,
}

impl Model for UnderWay {
    ghost use Rattle.std.specs.Box.{box_value};
    ghost use Rattle.docsis_wire.specs.contracts.header_check.NoCheck as no_check_type;
    ghost use Rattle.docsis_wire.specs.declared.header_check.NoCheck.{NoCheck};
    ghost use Rattle.receiver.specs.contracts.replaying.Replaying as replaying_type;
    ghost use Rattle.receiver.specs.declared.replaying.Replaying.{Replaying};
    ghost use Rattle.receiver.specs.Replaying.{IsReplaying};
    ghost use Rattle.texts.specs.AnyHeader.{no_check};

    ghost Value = { Replaying NoCheck };

    ghost coded = { (replaying_type.the_row no_check_type.the_row).coded };

    ghost view = { λ under_way. box_value under_way.replaying };

    ghost invariant = { λ under_way. IsReplaying no_check (box_value under_way.replaying) };
}

impl UnderWay {
    /// Closes the receiver: what it gave.
    pub fn finish(self, alloc: Global, setup: &Setup) -> Result<Outcome, AllocError>
        requires { (rule : LossRule) × (entries : List Entry)
            × HasReplayed no_check rule any_header setup.now self entries }
        ensures order { IfOk result (λ outcome. (rule : LossRule) (entries : List Entry)
            → HasReplayed no_check rule any_header setup.now self entries
            → IsAdmittedOrder setup.now (incoming_in entries) (map tag_of entries)
            outcome.order.items) }
        ensures outcome { IfOk result (λ outcome. (rule : LossRule) (entries : List Entry)
            → HasReplayed no_check rule any_header setup.now self entries
            → IsOutcomeBy rule any_header setup.now (incoming_in entries) outcome.order.items
            outcome) }
    {
        Box::into_inner(self.replaying).finish(alloc, setup)
    }
}

impl TakeEntries for UnderWay {
    ghost use Rattle.texts.specs.Inside.Replayed.{is_profile, WasReplayed};
    ghost use Rattle.texts.specs.Inside.Replayed.{starts_replay, would_be_replayed};

    ghost State = { Unit {0} };

    ghost starts = { starts_replay };

    ghost fits = { is_profile };

    ghost has_taken = { WasReplayed };

    ghost would_come = { would_be_replayed };

    fn begin(
        alloc: Global,
        _width: Width,
        rule: LossRule,
        setup: &Setup,
    ) -> Result<UnderWay, AllocError> {
        let replaying = Replaying::new(alloc, rule, setup, NoCheck)?;
        Ok(UnderWay {
            replaying: Box::new(alloc, replaying)?,
        })
    }

    #[inline(always)]
    fn take(
        self,
        alloc: Global,
        _width: Width,
        channel: u8,
        input: Input,
    ) -> Result<UnderWay, AllocError> {
        let UnderWay { mut replaying } = self;
        replaying.take(alloc, channel, input)?;
        Ok(UnderWay { replaying })
    }

    fn look(&self, _width: Width, channel: u8, input: &Input) -> Option<usize> {
        self.replaying.look(channel, input)
    }

    fn decide(
        self,
        alloc: Global,
        _width: Width,
        decision: Decision,
    ) -> Result<UnderWay, AllocError> {
        let UnderWay { mut replaying } = self;
        replaying.decide(alloc, decision)?;
        Ok(UnderWay { replaying })
    }
}

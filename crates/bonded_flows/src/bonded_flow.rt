//! One flow by itself, with what the loss rule has to know of it.
ghost use Rattle.std.specs.FinMap as map;
ghost use Rattle.std.specs.Prelude.{◌≡◌, ◌<◌, ◌≢◌, ℕ, Bool, List, [], IfOk, IsTrue, ◌↔◌};
ghost use Rattle.docsis_wire.specs.Limits.{sequence_modulus};
ghost use Rattle.flow_records.specs.Setup.{IsInRange};
ghost use Rattle.flow_core.specs.Fates.{Fates, number_of, IsExpected};
ghost use Rattle.flow_core.specs.Events.{FlowEvent};
ghost use Rattle.loss_rule.specs.Rule.{Coming, Lasts, AreRuled};
ghost use Rattle.bonded_flows.specs.FlowSetup.{FlowSetup, ruled_flow};
ghost use Rattle.bonded_flows.specs.ByRule.{HasGivenByRule};
ghost use Rattle.bonded_flows.specs.Stands.{HasCome, IsUnderWay, IsSettled};

use crate::pending::Pending;
use flow_core::{Flow, FlowCounts, FlowRecord};
use loss_rule::{LastNumbers, LossRule};
use std::alloc::{AllocError, Global};

mod closing;
mod draining;
mod taking;

/// One service flow, which decides by a rule which segments are lost, and gives whole frames to a
/// consumer.
///
/// It stands for all that came to it. A call whose allocation failed can be followed by any other:
/// what it had still to do is remembered, and [`BondedFlow::go_on`] does it.
#[derive(Drop)]
pub struct BondedFlow {
    /// The index under which its frames are given.
    index: usize,
    rule: LossRule,
    /// The width of the flow's window.
    width: u16,
    flow: Flow,
    /// Of each channel how far ahead the last segment lies that came there.
    lasts: LastNumbers,
    pending: Pending,
}

impl BondedFlow {
    /// A flow to which nothing came yet, of a record that is in range. Its frames are given under
    /// this index. Of each channel it is told whether the flow has a service identifier there. It
    /// asks for the memory of its window, all at once, and of what it knows of its channels.
    pub fn new(
        alloc: Global,
        index: usize,
        rule: LossRule,
        flow_record: &FlowRecord,
        channels: &[bool],
    ) -> Result<BondedFlow, AllocError>
        requires { IsInRange flow_record.now }
        ensures stands { IfOk result (λ bonded. (check : List ℕ → Bool)
            → HasCome check (record {
              index = index;
              rule = rule;
              flow_record = flow_record.now;
              channels = channels.now;
            }) bonded [] []) }
        ensures under_way { IfOk result (λ bonded. (check : List ℕ → Bool) → IsUnderWay check bonded) }
        ensures settled { IfOk result (λ bonded. IsSettled bonded) }
    {
        Ok(BondedFlow {
            index,
            rule,
            width: flow_record.window,
            flow: Flow::new(alloc, flow_record)?,
            lasts: LastNumbers::new(alloc, channels, flow_record.first)?,
            pending: Pending::Nothing,
        })
    }

    /// The number that the flow expects, 0 to 8191. Once it is settled it is that of its expected
    /// index.
    pub fn expected(&self) -> u16
        ensures in_range { result < sequence_modulus }
        ensures number { (check : List ℕ → Bool) (setup : FlowSetup) (comings : List Coming)
            (given : List (List ℕ)) (events : List FlowEvent) (lasts : Lasts) (fates : Fates)
            (x : ℕ)
            → HasCome check setup self.now comings given → IsSettled self.now
            → AreRuled setup.rule (ruled_flow setup) comings events lasts fates
            → IsExpected fates x → result ≡ number_of setup.flow_record.first x }
    {
        self.flow.expected()
    }

    /// How many segments are held, 0 to the window's width: they were kept and are not joined yet.
    pub fn held(&self) -> usize
        ensures { result ≡ map.len self.now.flow.window.held }
    {
        self.flow.held()
    }

    /// What was counted so far.
    pub fn counts(&self) -> FlowCounts
        ensures { (check : List ℕ → Bool) (setup : FlowSetup) (comings : List Coming)
            (given : List (List ℕ))
            → HasCome check setup self.now comings given → IsSettled self.now
            → HasGivenByRule check setup comings given result }
    {
        self.flow.counts()
    }

    /// Whether the flow is being closed.
    pub fn is_being_closed(&self) -> bool
        ensures { IsTrue result ↔ (self.now.pending ≡ Pending.Close) }
    {
        matches!(self.pending, Pending::Close)
    }
}

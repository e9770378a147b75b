//! The close of a flow.
ghost use Rattle.std.specs.Prelude.{◌≡◌, ◌↔◌, ◌++◌, ◌∷◌, [], ℕ, Bool, List, IfOk, IsTrue};
ghost use Rattle.flow_core.specs.Events.{gap};
ghost use Rattle.loss_rule.specs.Rule.{Coming};
ghost use Rattle.bonded_flows.specs.FlowSetup.{FlowSetup};
ghost use Rattle.bonded_flows.specs.Stands.{HasCome, IsUnderWay, IsSettled, IsUpToDate};
ghost use Rattle.bonded_flows.specs.Taking.{TakesGap, Takes, Closes};

use super::BondedFlow;
use crate::pending::Pending;
use consumer::Consumer;
use docsis_wire::HeaderCheck;
use flow_core::{FlowCounts, WINDOW_MAX};
use reorder::Declared;
use std::alloc::{AllocError, Global};

impl BondedFlow {
    /// Begins to close a flow that is settled: from now on it takes nothing. It takes no memory.
    pub fn begin_close(&mut self)
        requires { IsSettled self.old }
        ensures has_come { (check : List ℕ → Bool) (setup : FlowSetup) (comings : List Coming)
            (given : List (List ℕ))
            → HasCome check setup self.old comings given
            → HasCome check setup self.new comings given }
        ensures under_way { (check : List ℕ → Bool)
            → IsUnderWay check self.old → IsUnderWay check self.new }
        ensures closing { self.new.pending ≡ Pending.Close }
    {
        self.pending = Pending::Close;
    }

    /// Closes a flow of which the close has begun: declares losses until one changes nothing, gives
    /// the frames that are whole after each, and answers what was counted of the flow. Where an
    /// allocation failed the call can be made again.
    pub fn close<C: HeaderCheck, O: Consumer>(
        &mut self,
        alloc: Global,
        check: &C,
        out: &mut O,
    ) -> Result<FlowCounts, AllocError>
        requires under_way { IsUnderWay (C.accepts check.now) self.old }
        requires closing { self.old.pending ≡ Pending.Close }
        ensures closes { IfOk result
            (λ counts. Closes O.after (C.accepts check.now) self.old out.old counts out.new) }
        ensures takes { Takes O.after (C.accepts check.now) self.old out.old [] self.new out.new }
        ensures under_way { IsUnderWay (C.accepts check.now) self.new }
        ensures closing { self.new.pending ≡ Pending.Close }
    {
        self.drain(alloc, check, out)?;
        for _closed in 0..WINDOW_MAX {
            if !self.close_gap() {
                return Ok(self.flow.counts());
            }
            self.drain(alloc, check, out)?;
        }
        Ok(self.flow.counts())
    }

    /// Declares the expected segment lost if a later one was kept, and answers whether it did.
    fn close_gap(&mut self) -> bool
        requires { IsUpToDate self.old }
        ensures takes { TakesGap self.old result self.new }
        ensures pending { self.new.pending ≡ self.old.pending }
        ensures index { self.new.index ≡ self.old.index }
    {
        matches!(self.flow.gap(), Declared::Lost(_))
    }
}

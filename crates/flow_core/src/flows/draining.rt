//! Draining and closing a flow.
ghost use Rattle.std.specs.Prelude.{◌<◌, IfOk};
ghost use Rattle.flow_core.specs.Flows.{IsDrainedAt, OthersStay};
ghost use Rattle.flow_core.specs.Giving.{IsRunning, Drains, ClosesFlow};

use super::Core;
use crate::event::Step;
use crate::laws;
use docsis_wire::{Bytes, HeaderCheck};
use flow_records::WINDOW_MAX;
use std::alloc::{AllocError, Global};

impl<C: HeaderCheck + Drop> Core<C> {
    /// Advances a flow until nothing is next, and appends the frames that it gives. Where an
    /// allocation failed nothing is promised of this flow and of the list.
    pub fn drain(
        &mut self,
        alloc: Global,
        flow: usize,
        frames: &mut Vec<Bytes>,
    ) -> Result<(), AllocError>
        requires running { IsRunning C.accepts self.old flow }
        ensures drained { IfOk result (λ _.
            Drains C.accepts self.old flow frames.old.items self.new frames.new.items) }
        ensures others { OthersStay self.old self.new flow }
    {
        laws::draining_ends();
        laws::events_have_one_outcome();
        for _joined in 0..=WINDOW_MAX {
            match self.advance(alloc, flow)? {
                Step::Frames(given) => {
                    let mut given = given;
                    frames.append(&mut given)?;
                }
                Step::Nothing => return Ok(()),
            }
        }
        Ok(())
    }

    /// Closes a drained flow: declares losses until one changes nothing, drains it after each, and
    /// appends the frames that it gives. Where an allocation failed nothing is promised of this
    /// flow and of the list.
    pub fn close(
        &mut self,
        alloc: Global,
        flow: usize,
        frames: &mut Vec<Bytes>,
    ) -> Result<(), AllocError>
        requires running { IsRunning C.accepts self.old flow }
        requires drained { IsDrainedAt self.old flow }
        ensures closed { IfOk result (λ _.
            ClosesFlow C.accepts self.old flow frames.old.items self.new frames.new.items) }
        ensures others { OthersStay self.old self.new flow }
    {
        laws::flow_has_one_close();
        laws::events_have_one_outcome();
        laws::events_lead_on_in_turn();
        for _closed in 0..WINDOW_MAX {
            if !self.close_gap(flow) {
                return Ok(());
            }
            self.drain(alloc, flow, frames)?;
        }
        Ok(())
    }
}

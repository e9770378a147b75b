//! What is told, and what is listed.
ghost use Rattle.std.specs.Prelude.{◌≡◌, ◌≤◌, vec_capacity};
ghost use Rattle.frame_comparison.specs.Seen.{listed_most};

use crate::fates::{fate_of_reply, fate_of_taken};
use burst_fates::{BurstFate, BurstFates, MissingReason};
use captured_flows::BurstTaken;
use frame_comparison::{LonelyFrame, MOST_LISTED};
use std::alloc::{AllocError, Global};
use timed_frames::TimedStep;

/// What became of bursts, and why each frame is missing that is listed as only the analyser's.
#[derive(Drop)]
pub struct Reasons {
    fates: BurstFates,
    /// The reasons, in the order of the list.
    listed: Vec<MissingReason>,
    ghost room: { listed_most ≤ vec_capacity listed },
}

impl Reasons {
    ghost use Rattle.std.specs.Prelude.{[], IfOk};
    ghost use Rattle.frame_reasons.specs.Told.{fate_of_taken, told_if, told_in_step, told_in_steps};
    ghost use Rattle.frame_reasons.specs.Told.{TellsAll, explained};

    /// Nothing was told, and none is listed.
    pub fn new(alloc: Global) -> Result<Reasons, AllocError>
        ensures fates { IfOk result (λ reasons. reasons.fates.told.items ≡ []) }
        ensures listed { IfOk result (λ reasons. reasons.listed.items ≡ []) }
    {
        Ok(Reasons {
            fates: BurstFates::new(alloc)?,
            listed: Vec::with_capacity(alloc, MOST_LISTED)?,
        })
    }

    /// The reasons, in the order of the list.
    pub fn listed(&self) -> &[MissingReason]
        ensures { result.now ≡ self.now.listed.items }
    {
        self.listed.as_slice()
    }

    /// It is told what became of a burst with this number, if it has one and something did.
    fn tell_if(&mut self, burst_id: Option<u64>, fate: Option<BurstFate>)
        ensures tells { TellsAll (told_if burst_id fate) self.old.fates self.new.fates }
        ensures listed { self.new.listed ≡ self.old.listed }
    {
        let Some(id) = burst_id else {
            return;
        };
        let Some(fate) = fate else {
            return;
        };
        self.fates.tell(id, fate);
    }

    /// It is told what became of a burst that came.
    pub fn tell_taken(&mut self, burst_id: Option<u64>, told: BurstTaken)
        ensures tells { TellsAll (told_if burst_id (fate_of_taken told))
            self.old.fates self.new.fates }
        ensures listed { self.new.listed ≡ self.old.listed }
    {
        self.tell_if(burst_id, fate_of_taken(told));
    }

    /// It is told what a step says of a burst.
    fn tell_step(&mut self, step: &TimedStep)
        ensures tells { TellsAll (told_in_step step.now) self.old.fates self.new.fates }
        ensures listed { self.new.listed ≡ self.old.listed }
    {
        if let TimedStep::Replied {
            burst_id,
            reply,
            ..
        } = step
        {
            self.tell_if(*burst_id, fate_of_reply(*reply));
        }
    }

    /// It is told what these steps say of bursts.
    pub fn tell_steps(&mut self, steps: &[TimedStep])
        ensures tells { TellsAll (told_in_steps steps.now) self.old.fates self.new.fates }
        ensures listed { self.new.listed ≡ self.old.listed }
    {
        for step in steps {
            self.tell_step(step);
        }
    }

    /// Lists why those of these frames are missing that are listed and have no reason yet.
    pub fn explain(&mut self, frames: &[LonelyFrame])
        ensures fates { self.new.fates ≡ self.old.fates }
        ensures listed { self.new.listed.items
            ≡ explained self.old.fates.told.items self.old.listed.items frames.now }
    {
        let most = frames.len().min(MOST_LISTED);
        if self.listed.len() >= most {
            return;
        }
        for place in self.listed.len()..most {
            let frame = &frames[place];
            let reason = self.fates.reason(&frame.bursts);
            self.listed.push_reserved(reason);
        }
    }
}

//! A channel's lane, and how many of its inputs were admitted and refused.
ghost use Rattle.std.specs.Prelude.{◌≡◌, IfOk, IfErr, OnErr, length};
ghost use Rattle.lane.specs.Rows.{CanBeOpenedWithin};
ghost use Rattle.receiver.specs.Receiving.{AreOpened, AnswersMore, AnswersTheSame};

use crate::setup::Setup;
use crate::tally::LaneTally;
use lane::{Answer, Input, Lane};
use std::alloc::{AllocError, Global};

/// A channel's lane, which counts what it answers.
#[derive(Drop)]
pub(crate) struct TalliedLane {
    pub(crate) lane: Lane,
    pub(crate) tally: LaneTally,
}

impl TalliedLane {
    /// Takes a grant or a burst, as [`Lane::take_owned`] does, and counts the answer.
    #[inline(always)]
    pub(crate) fn take(&mut self, input: Input) -> Result<Answer, Input>
        ensures answers { IfOk result (λ answer. AnswersMore self.old input answer self.new) }
        ensures given_back { IfErr result (λ back. back ≡ input) }
        ensures the_same { OnErr result (AnswersTheSame self.old self.new) }
    {
        let answer = self.lane.take_owned(input)?;
        self.tally.count(&answer);
        Ok(answer)
    }
}

/// The lanes of so many channels, for rows that have no fault.
pub(crate) fn open_lanes(
    alloc: Global,
    channels: u8,
    setup: &Setup,
) -> Result<Vec<TalliedLane>, AllocError>
    requires { CanBeOpenedWithin channels setup.now.sids.items (length setup.now.flows.items) }
    ensures count { IfOk result (λ lanes. length lanes.items ≡ channels) }
    ensures each { IfOk result (λ lanes. AreOpened setup.now lanes.items) }
{
    let mut lanes = Vec::with_capacity(alloc, usize::from(channels))?;
    for channel in 0..channels {
        let lane = Lane::open_within(alloc, channels, channel, &setup.sids, &setup.flows)?;
        lanes.push(TalliedLane {
            lane,
            tally: LaneTally::none(),
        })?;
    }
    Ok(lanes)
}

//! Settling all rings, once the threads have returned.
ghost use Rattle.std.specs.Prelude.{◌≡◌, true, All, IfSome};
ghost use Rattle.delivery.specs.Frames.{frames_in};
ghost use Rattle.delivery.specs.Feeders.{closed_ring, closed_offered};
ghost use Rattle.delivery.specs.Takers.{taker_ring, is_closed};
ghost use Rattle.uses.specs.DeliveryFlows.{closed_rings, served_rings, all_offered, frames_of_all};

use crate::delivery_flows::consumed::Consumed;
use delivery::{ClosedFeeder, settle};
use std::alloc::Global;

/// What each taker gave: the frames that the feeder of its ring offered. Nothing where memory ran
/// out, here or for the taker.
pub fn settle_all(
    alloc: Global,
    feeders: Vec<ClosedFeeder>,
    all: Vec<Consumed>,
) -> Option<Vec<Vec<Vec<u8>>>>
    requires rings { closed_rings feeders.items ≡ served_rings all.items }
    requires closed { All (λ consumed. is_closed consumed.taker ≡ true) all.items }
    ensures { IfSome result (λ taken. frames_of_all taken.items ≡ all_offered feeders.items) }
{
    let mut taken = Vec::new(alloc);
    let mut rest = all.into_iter();
    for feeder in feeders {
        let Some(consumed) = rest.next() else {
            unreachable!()
        };
        let frames = settle_one(feeder, consumed)?;
        taken.push(frames).ok()?;
    }
    Some(taken)
}

/// What the taker of one ring gave.
fn settle_one(feeder: ClosedFeeder, consumed: Consumed) -> Option<Vec<Vec<u8>>>
    requires ring { closed_ring feeder ≡ taker_ring consumed.taker }
    requires closed { is_closed consumed.taker ≡ true }
    ensures { IfSome result (λ frames. frames_in frames.items ≡ closed_offered feeder) }
{
    let mut feeder = feeder;
    let Consumed { mut taker, frames } = consumed;
    settle(&mut feeder, &mut taker);
    frames
}

//! The rings of all flows: they are opened before a receiver runs, and settled after it.
ghost use Rattle.std.specs.Prelude.{◌≡◌, [], ℕ, true, Some, All, IfOk, map, slice_get};
ghost use Rattle.delivery.specs.Feeders.{feeder_ring, offered, room, closed_ring, closed_offered};
ghost use Rattle.delivery.specs.Takers.{taker_ring, taken, is_closed};
ghost use Rattle.delivery.specs.declared.feeder.ClosedFeeder.{ClosedFeeder};
ghost use Rattle.delivery.specs.declared.taker.Taker.{Taker};
ghost use Rattle.workers.specs.Inside.Opening.{AreOpenRings, ring_of};

use delivery::{ClosedFeeder, Feeder, Taker, ring, settle};
use flow_records::FlowRecord;
use std::alloc::{AllocError, Global};

/// The two ends of the ring of each flow, in their order.
#[derive(Drop)]
pub struct Rings {
    pub feeders: Vec<Feeder>,
    pub takers: Vec<Taker>,
}

/// A ring for each flow.
pub fn open_rings(alloc: Global, flows: &[FlowRecord]) -> Result<Rings, AllocError>
    ensures { IfOk result (AreOpenRings flows.now) }
{
    let mut feeders = Vec::with_capacity(alloc, flows.len())?;
    let mut takers = Vec::with_capacity(alloc, flows.len())?;
    for flow in flows {
        let (feeder, taker) = open_ring(alloc, flow)?;
        feeders.push_reserved(feeder);
        takers.push_reserved(taker);
    }
    Ok(Rings { feeders, takers })
}

/// The two ends of the ring of a flow, with the room that its record says.
fn open_ring(alloc: Global, flow: &FlowRecord) -> Result<(Feeder, Taker), AllocError>
    ensures ring { IfOk result (λ ends. feeder_ring ends.0 ≡ taker_ring ends.1) }
    ensures room { IfOk result (λ ends. room ends.0 ≡ ring_of flow.now) }
    ensures offered { IfOk result (λ ends. offered ends.0 ≡ []) }
    ensures taken { IfOk result (λ ends. taken ends.1 ≡ []) }
{
    let Ok(ends) = ring(alloc, flow.ring) else {
        return Err(AllocError);
    };
    Ok(ends)
}

/// Settles the ring of each flow.
pub fn settle_rings(feeders: &mut [ClosedFeeder], takers: &mut [Taker])
    requires rings { map closed_ring feeders.old ≡ map taker_ring takers.old }
    requires closed { All (λ taker. is_closed taker ≡ true) takers.old }
    ensures taken { (k : ℕ) (feeder : ClosedFeeder) (taker : Taker)
        → slice_get feeders.old k ≡ Some feeder → slice_get takers.old k ≡ Some taker
        → taken taker ≡ closed_offered feeder }
{
    for k in 0..feeders.len() {
        settle(&mut feeders[k], &mut takers[k]);
    }
}

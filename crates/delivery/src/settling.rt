//! What is left once the threads of both ends have returned.
ghost use Rattle.std.specs.Prelude.{◌≡◌, ◌≤◌, IsTrue};
ghost use Rattle.delivery.specs.Takers.{taker_ring, taken, is_closed, known};
ghost use Rattle.delivery.specs.Feeders.{closed_ring, closed_offered};
ghost use Rattle.delivery.specs.Left.{IsLeft};

use crate::feeder::ClosedFeeder;
use crate::taker::Taker;

/// How many frames were offered and not taken. The condition is that both ends are of one ring;
/// what was offered and taken stays.
#[tactic(auto, using(crate::proofs::Ends::ends))]
pub fn settle(feeder: &mut ClosedFeeder, taker: &mut Taker) -> usize
    requires { closed_ring feeder.old ≡ taker_ring taker.old }
    ensures left { IsLeft (closed_offered feeder.old) (taken taker.old) result }
    ensures none_left { IsTrue (is_closed taker.old) → result ≡ 0 }
    ensures all_taken { IsTrue (is_closed taker.old)
        → taken taker.old ≡ closed_offered feeder.old }
    ensures seen { result ≤ known taker.new }
    ensures feeder_ring { closed_ring feeder.new ≡ closed_ring feeder.old }
    ensures offered { closed_offered feeder.new ≡ closed_offered feeder.old }
    ensures taker_ring { taker_ring taker.new ≡ taker_ring taker.old }
    ensures taken { taken taker.new ≡ taken taker.old }
    ensures closed { is_closed taker.new ≡ is_closed taker.old }
{
    let parcels = taker.ring.slots_beside(&mut feeder.producer);
    if taker.closed { 0 } else { parcels - 1 }
}

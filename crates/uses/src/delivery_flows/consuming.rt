//! The thread that serves all takers in turn.
ghost use Rattle.std.specs.Prelude.{◌≡◌, [], true, All, IfOk};
ghost use Rattle.delivery.specs.Takers.{taken, is_closed};
ghost use Rattle.uses.specs.DeliveryFlows.{rings, served_rings};

use crate::delivery_flows::consumed::{Consumed, Look};
use delivery::Taker;
use std::alloc::{AllocError, Global};
use std::sync::Wait;
use std::thread;

/// Makes each taker, from which nothing was taken yet, ready to be served.
pub fn begin(alloc: Global, takers: Vec<Taker>) -> Result<Vec<Consumed>, AllocError>
    requires { All (λ taker. taken taker ≡ []) takers.items }
    ensures { IfOk result (λ all. served_rings all.items ≡ rings takers.items) }
{
    let mut all = Vec::new(alloc);
    for taker in takers {
        let Ok(()) = all.push(Consumed::new(alloc, taker)) else {
            return Err(AllocError);
        };
    }
    Ok(all)
}

/// Takes until each taker has answered `Closed`.
pub fn take_all<R: Wait>(rt: &R, all: Vec<Consumed>) -> Vec<Consumed>
    ensures rings { served_rings result.items ≡ served_rings all.items }
    ensures closed { All (λ consumed. is_closed consumed.taker ≡ true) result.items }
{
    let mut all = all;
    for _ in rt.forever() {
        match look_at_all(all.as_mut_slice()) {
            Look::Closed => return all,
            Look::NothingYet => thread::yield_now(),
            Look::Took => {}
        }
    }
    unreachable!()
}

/// One look at each taker. `Closed` if that is what all of them answered.
fn look_at_all(all: &mut [Consumed]) -> Look
    ensures rings { served_rings all.new ≡ served_rings all.old }
    ensures closed { result ≡ Look.Closed
        → All (λ consumed. is_closed consumed.taker ≡ true) all.new }
{
    let mut found = Look::Closed;
    for consumed in all.iter_mut() {
        let look = consumed.look();
        found = found.and(look);
    }
    found
}

//! Making a ring.
ghost use Rattle.std.specs.Prelude.{◌≡◌, ◌↔◌, [], false, IfOk};
ghost use Rattle.delivery.specs.Feeders.{feeder_ring, offered, backlog, room};
ghost use Rattle.delivery.specs.Takers.{taker_ring, taken, is_closed};

use crate::feeder::Feeder;
use crate::taker::Taker;
use rtrb::RingBuffer;
use std::alloc::{AllocError, Global};
use std::collections::VecDeque;
use thiserror::Error;

/// Why no ring was made.
#[derive(Clone, Copy, Debug, PartialEq, Eq, Error)]
pub enum OpenFault {
    /// The capacity is 0.
    #[error("no capacity")]
    NoCapacity,
    /// There is no memory for the ring.
    #[error("out of memory")]
    OutOfMemory,
}

/// Makes a ring with room for `capacity` frames and end marks, and gives its two ends. The ring's
/// memory is taken here; later only a backlog grows. `OutOfMemory` comes only where that memory
/// was refused.
pub fn ring(alloc: Global, capacity: u16) -> Result<(Feeder, Taker), OpenFault>
    ensures no_capacity { (result ≡ Err OpenFault.NoCapacity) ↔ (capacity ≡ 0) }
    ensures ring { IfOk result (λ ends. feeder_ring ends.0 ≡ taker_ring ends.1) }
    ensures offered { IfOk result (λ ends. offered ends.0 ≡ []) }
    ensures backlog { IfOk result (λ ends. backlog ends.0 ≡ []) }
    ensures room { IfOk result (λ ends. room ends.0 ≡ capacity) }
    ensures taken { IfOk result (λ ends. taken ends.1 ≡ []) }
    ensures open { IfOk result (λ ends. is_closed ends.1 ≡ false) }
{
    if capacity == 0 {
        return Err(OpenFault::NoCapacity);
    }
    let Ok((producer, ring)) = RingBuffer::new(alloc, usize::from(capacity)) else {
        return Err(OpenFault::OutOfMemory);
    };
    let feeder = Feeder {
        producer,
        backlog: VecDeque::new(alloc),
    };
    let taker = Taker {
        ring,
        closed: false,
    };
    Ok((feeder, taker))
}

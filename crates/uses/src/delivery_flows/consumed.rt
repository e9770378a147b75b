//! One taker among many, and what it gave.
ghost use Rattle.std.specs.Prelude.{◌≡◌};
ghost use Rattle.std.specs.Option.{ForSome};
ghost use Rattle.delivery.specs.Frames.{frames_in};
ghost use Rattle.delivery.specs.Takers.{taken};

use crate::delivery_run::append;
use delivery::{Taker, Took};
use std::alloc::Global;

/// A taker, and the frames that it gave, unless memory ran out for one of them.
#[derive(Drop)]
pub struct Consumed {
    pub taker: Taker,
    pub frames: Option<Vec<Vec<u8>>>,
    pub ghost whole: { ForSome frames (λ kept. taken taker ≡ frames_in kept.items) },
}

/// What one look at a taker found.
#[derive(Clone, Copy, Drop)]
pub enum Look {
    Took,
    NothingYet,
    Closed,
}

impl Consumed {
    ghost use Rattle.std.specs.Prelude.{◌≡◌, [], IfSome};
    ghost use Rattle.delivery.specs.Takers.{taker_ring, taken};
    ghost use Rattle.uses.specs.DeliveryFlows.{Sees};

    /// A taker that has given nothing.
    pub fn new(alloc: Global, taker: Taker) -> Consumed
        requires { taken taker ≡ [] }
        ensures { result.taker ≡ taker }
    {
        Consumed {
            taker,
            frames: Some(Vec::new(alloc)),
        }
    }

    /// Takes a frame, if one is there.
    pub fn look(&mut self) -> Look
        ensures ring { taker_ring self.new.taker ≡ taker_ring self.old.taker }
        ensures sees { Sees result self.new }
    {
        let Consumed { taker, frames } = self;
        match taker.take() {
            Took::Frame(frame) => {
                *frames = append(frames.take(), frame);
                Look::Took
            }
            Took::NothingYet => Look::NothingYet,
            Took::Closed => Look::Closed,
        }
    }
}

impl Look {
    /// What two looks found together. It is `Closed` only where both are.
    pub fn and(self, other: Look) -> Look
        ensures { result ≡ Look.Closed → (self ≡ Look.Closed) × (other ≡ Look.Closed) }
    {
        match (self, other) {
            (Look::Closed, Look::Closed) => Look::Closed,
            (Look::Took, _) | (_, Look::Took) => Look::Took,
            _ => Look::NothingYet,
        }
    }
}

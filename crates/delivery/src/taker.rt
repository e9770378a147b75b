//! The end of a ring that takes frames.
ghost use Rattle.std.specs.Prelude.{◌≡◌};
ghost use Rattle.rtrb.specs.Ring.{received};
ghost use Rattle.delivery.specs.Inside.Ends.{has_end};

use crate::parcel::Parcel;
use rtrb::Consumer;

/// Takes the frames that the feeder of its ring offers. It can move to another thread.
#[derive(Drop)]
pub struct Taker {
    pub(crate) ring: Consumer<Parcel>,
    pub(crate) closed: bool,
    ghost marks: { has_end (received ring) ≡ closed },
}

/// What a taker found.
#[derive(PartialEq, Eq, Debug, Drop)]
pub enum Took {
    /// The next frame.
    Frame(Vec<u8>),
    /// Nothing was in the ring at one moment of the call.
    NothingYet,
    /// All frames were taken, and the feeder is closed.
    Closed,
}

impl Taker {
    ghost use Rattle.std.specs.Prelude.{◌≡◌, ◌↔◌, ◌++◌, IsTrue};
    ghost use Rattle.delivery.specs.Takers.{taker_ring, taken, is_closed, known, frames_given};

    /// Takes the next frame, if one is there. After `Closed` the answer is `Closed` again.
    #[tactic(auto, using(crate::proofs::Sending::sending))]
    pub fn take(&mut self) -> Took
        ensures ring { taker_ring self.new ≡ taker_ring self.old }
        ensures taken { taken self.new ≡ taken self.old ++ frames_given result }
        ensures closed { IsTrue (is_closed self.new) ↔ (result ≡ Took.Closed) }
        ensures ever_after { IsTrue (is_closed self.old) → result ≡ Took.Closed }
        ensures nothing_yet { result ≡ Took.NothingYet
            → (known self.old ≡ 0) × (known self.new ≡ 0) }
    {
        if self.closed {
            return Took::Closed;
        }
        match self.ring.pop() {
            Ok(Parcel::Frame(frame)) => Took::Frame(frame),
            Ok(Parcel::End) => {
                self.closed = true;
                Took::Closed
            }
            Err(_) => Took::NothingYet,
        }
    }
}

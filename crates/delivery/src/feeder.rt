//! The end of a ring that offers frames.
ghost use Rattle.std.specs.Prelude.{◌≡◌, true, false};
ghost use Rattle.rtrb.specs.Ring.{sent};
ghost use Rattle.delivery.specs.Inside.Ends.{has_end, ends_once};

use crate::parcel::Parcel;
use rtrb::Producer;
use std::alloc::Global;
use std::collections::VecDeque;

/// Offers frames to the taker of its ring, and keeps a backlog of those for which the ring had no
/// room. It can move to another thread.
#[derive(Drop)]
pub struct Feeder {
    pub(crate) producer: Producer<Parcel>,
    pub(crate) backlog: VecDeque<Vec<u8>, Global>,
    ghost unended: { has_end (sent producer) ≡ false },
}

/// A feeder whose end mark was put into the ring, after all its frames. It offers nothing more.
#[derive(Drop)]
pub struct ClosedFeeder {
    pub(crate) producer: Producer<Parcel>,
    ghost ended: { ends_once (sent producer) ≡ true },
}

/// The backlog could not grow. The frame that was offered comes back.
#[derive(Debug, Drop)]
pub struct Refused(pub Vec<u8>);

#[tactic(auto, using(crate::proofs::Sending::sending))]
impl Feeder {
    ghost use Rattle.std.specs.Prelude.{◌≡◌, ◌<◌, ◌↔◌, [], ◌∷◌, ◌++◌, length, IsTrue, IsOk, OnOk};
    ghost use Rattle.std.specs.Prelude.{OnErr, IfOk, IfErr};
    ghost use Rattle.delivery.specs.Frames.{frames_in};
    ghost use Rattle.delivery.specs.Feeders.{feeder_ring, offered, backlog, room};
    ghost use Rattle.delivery.specs.Feeders.{closed_ring, closed_offered, IsPlaced, IsUnchanged};
    ghost use Rattle.delivery.specs.Feeders.{IsFlushed};

    /// Offers a frame, after all that were offered before. It goes into the ring where the backlog
    /// is empty and the ring has room, and to the end of the backlog otherwise.
    // Without the hint LLVM leaves it a call, and a frame takes longer in `bench/ring`.
    #[inline(always)]
    pub fn offer(&mut self, frame: Vec<u8>) -> Result<(), Refused>
        ensures ring { feeder_ring self.new ≡ feeder_ring self.old }
        ensures ok { OnOk result (offered self.new ≡ offered self.old ++ frame.items ∷ []) }
        ensures placed { OnOk result (IsPlaced self.old self.new frame.items) }
        ensures succeeds { backlog self.old ≡ [] → 0 < room self.old → IsOk result }
        ensures refused { IfErr result (λ e. e.0 ≡ frame) }
        ensures unchanged { OnErr result (IsUnchanged self.old self.new) }
    {
        if self.backlog.is_empty() && !self.producer.is_full() {
            self.producer.push_reserved(Parcel::Frame(frame));
            return Ok(());
        }
        match self.backlog.push_back(frame) {
            Ok(()) => Ok(()),
            Err(failed) => Err(Refused(failed.value)),
        }
    }

    /// Whether frames wait in the backlog.
    pub fn has_backlog(&self) -> bool
        ensures { IsTrue result ↔ (0 < length (backlog self.now)) }
    {
        !self.backlog.is_empty()
    }

    /// Moves frames from the front of the backlog into the ring for as long as the ring has room.
    /// Answers how many frames are left in the backlog.
    pub fn flush(&mut self) -> usize
        ensures ring { feeder_ring self.new ≡ feeder_ring self.old }
        ensures offered { offered self.new ≡ offered self.old }
        ensures moved { IsFlushed self.old self.new }
        ensures left { result ≡ length (backlog self.new) }
    {
        while !self.producer.is_full() {
            let Some(frame) = self.backlog.pop_front() else {
                break;
            };
            self.producer.push_reserved(Parcel::Frame(frame));
        }
        self.backlog.len()
    }

    /// Flushes, and puts the end mark into the ring, where it takes one place. The feeder comes
    /// back where the ring had no room for the backlog and the end mark.
    pub fn close(self) -> Result<ClosedFeeder, Feeder>
        ensures ring { IfOk result (λ closed. closed_ring closed ≡ feeder_ring self) }
        ensures offered { IfOk result (λ closed. closed_offered closed ≡ offered self) }
        ensures back_ring { IfErr result (λ back. feeder_ring back ≡ feeder_ring self) }
        ensures back_offered { IfErr result (λ back. offered back ≡ offered self) }
        ensures flushed { IfErr result (λ back. IsFlushed self back) }
        ensures no_room { IfErr result (λ back. room back ≡ 0) }
        ensures succeeds { length (backlog self) < room self → IsOk result }
    {
        let mut feeder = self;
        if feeder.flush() > 0 || feeder.producer.is_full() {
            return Err(feeder);
        }
        let Feeder {
            mut producer,
            backlog: _,
        } = feeder;
        producer.push_reserved(Parcel::End);
        Ok(ClosedFeeder { producer })
    }

    /// Gives the backlog. The taker still gets what is in the ring, but no end mark will come.
    pub fn abandon(self) -> VecDeque<Vec<u8>>
        ensures { frames_in result.items ≡ backlog self }
    {
        let Feeder {
            producer: _,
            backlog,
        } = self;
        backlog
    }
}

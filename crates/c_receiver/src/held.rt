//! A receiver with the queue of what it gave.
ghost use Rattle.std.specs.Prelude.{◌≡◌, ◌<◌, IfOk, IfErr, IfSome, IfNone, None};
ghost use Rattle.receiver.specs.Receiving.{IsReceiving};
ghost use Rattle.receiver.specs.Received.{IsBeingClosed};
ghost use Rattle.c_receiver.specs.Held.{no_check, IsInUse, StateInUse};
ghost use Rattle.c_receiver.specs.Held.{Takes, TakesGrant, TakesBurst, Decides, DecidesSo};
ghost use Rattle.c_receiver.specs.Held.{IsDecision};
ghost use Rattle.c_receiver.specs.Held.{GoesOn, Restarts, Counts, AnswersCounts};
ghost use Rattle.c_receiver.specs.Held.{GivesFrame, LendsFrame, bytes_lent, GivesRequest};
ghost use Rattle.c_receiver.specs.Held.{waiting_in};
ghost use Rattle.c_receiver.specs.Held.{Closes, ClosesState, state_after, of_close};
ghost use Rattle.c_receiver.specs.Made.{IsMade, IsNotMade};

use crate::open;
use crate::plain::{PlainCounts, PlainFlow, PlainFrame, PlainRequest, PlainRow, PlainWaiting};
use crate::queue::{Queue, QueuedFrame};
use crate::room::copied;
use crate::setup::{rule_of, setup_of, width_of};
use crate::status::{MakeFault, Status};
use docsis_wire::{Bytes, NoCheck};
use flow_core::FlowCounts;
use lane::Input;
use receiver::{Closed, Closing, FlowDecision, Receiver};
use std::alloc::Global;
use std::mem;

/// How far a receiver has come.
#[derive(Drop)]
pub enum State {
    /// It takes what is handed in.
    Open(Receiver<NoCheck>),
    /// Its close was begun, and is to be called again.
    Closing(Closing<NoCheck>),
    /// It is closed.
    Closed(Closed),
}

/// A receiver with what it gave and nobody took yet.
#[derive(Drop)]
pub struct HeldReceiver {
    /// The receiver itself.
    pub state: State,
    /// What waits.
    pub queue: Queue,
    /// The frame that was given last, lent or copied, if it is still kept. It waits no more.
    pub lent: Option<QueuedFrame>,
    alloc: Global,
}

impl HeldReceiver {
    /// A receiver of so many channels, 1 to 16, for these flows, 1 to 16,384, and rows, by the loss
    /// rule of this number: 0 to 2 for that of decisions alone, what all channels passed, or that
    /// and what a sliding window passes.
    pub fn new(
        alloc: Global,
        channels: u32,
        flows: &[PlainFlow],
        rows: &[PlainRow],
        rule: u32,
    ) -> Result<HeldReceiver, MakeFault>
        ensures made { IfOk result (IsMade channels flows.now rows.now rule) }
        ensures fault { IfErr result (IsNotMade channels flows.now rows.now rule) }
        ensures in_use { IfOk result IsInUse }
    {
        let Some(rule) = rule_of(rule) else {
            return Err(MakeFault::UnknownRule);
        };
        let width = width_of(channels, flows.len())?;
        let Ok(setup) = setup_of(alloc, flows, rows) else {
            return Err(MakeFault::OutOfMemory);
        };
        match Receiver::new(alloc, width, &setup, rule, NoCheck) {
            Ok(receiver) => Ok(HeldReceiver {
                state: State::Open(receiver),
                queue: Queue::new(alloc),
                lent: None,
                alloc,
            }),
            Err(error) => Err(MakeFault::Setup(error)),
        }
    }

    /// Takes a grant that was sent on this channel.
    pub fn grant(&mut self, channel: usize, number: u32, sid: u16, bytes: u32) -> Status
        requires in_use { IsInUse self.old }
        ensures takes { TakesGrant self.old channel number sid bytes result self.new }
        ensures lent { self.new.lent ≡ self.old.lent }
        ensures in_use { IsInUse self.new }
    {
        self.take(channel, Input::Grant { number, sid, bytes })
    }

    /// Takes a burst that came on this channel. The frame that was given last, lent or copied, is
    /// let go before, and its memory serves the copy of the burst's bytes, if they fit there and
    /// fill half of it.
    pub fn burst(&mut self, channel: usize, grant: u32, hcs_ok: bool, bytes: &[u8]) -> Status
        requires in_use { IsInUse self.old }
        ensures takes { TakesBurst self.old channel grant hcs_ok bytes.now result self.new }
        ensures lent { self.new.lent ≡ None }
        ensures in_use { IsInUse self.new }
    {
        let let_go = self.lent.take();
        let Ok(copy) = copied(self.alloc, let_go, bytes) else {
            return self.queue.told(Status::OutOfMemory);
        };
        let bytes = Bytes::from(copy);
        self.take(
            channel,
            Input::Burst {
                grant,
                hcs_ok,
                bytes,
            },
        )
    }

    /// Takes an input that came on this channel.
    fn take(&mut self, channel: usize, input: Input) -> Status
        requires in_use { IsInUse self.old }
        ensures takes { Takes self.old channel input result self.new }
        ensures lent { self.new.lent ≡ self.old.lent }
        ensures in_use { IsInUse self.new }
    {
        let State::Open(receiver) = &mut self.state else {
            return Status::Closed;
        };
        open::take(receiver, self.alloc, channel, input, &mut self.queue)
    }

    /// Takes the decision that segments of a flow are lost. Kind 0 is the expected segment, if a
    /// later one was kept, 1 those before this number of which that can be said, and 2 all before
    /// this number.
    pub fn decide(&mut self, flow: usize, kind: u32, number: u16) -> Status
        requires in_use { IsInUse self.old }
        ensures decides { Decides self.old flow kind number result self.new }
        ensures lent { self.new.lent ≡ self.old.lent }
        ensures in_use { IsInUse self.new }
    {
        let Some(decision) = decision_of(kind, number) else {
            return Status::UnknownDecision;
        };
        self.decide_so(flow, decision)
    }

    /// Takes a decision.
    fn decide_so(&mut self, flow: usize, decision: FlowDecision) -> Status
        requires in_use { IsInUse self.old }
        ensures decides { DecidesSo self.old flow decision result self.new }
        ensures lent { self.new.lent ≡ self.old.lent }
        ensures in_use { IsInUse self.new }
    {
        let State::Open(receiver) = &mut self.state else {
            return Status::Closed;
        };
        open::decide(receiver, self.alloc, flow, decision, &mut self.queue)
    }

    /// Does what an earlier call left to be done of a flow. Of one that doesn't exist nothing is.
    pub fn go_on(&mut self, flow: usize) -> Status
        requires in_use { IsInUse self.old }
        ensures goes_on { GoesOn self.old flow result self.new }
        ensures lent { self.new.lent ≡ self.old.lent }
        ensures in_use { IsInUse self.new }
    {
        let State::Open(receiver) = &mut self.state else {
            return Status::Closed;
        };
        open::go_on(receiver, self.alloc, flow, &mut self.queue)
    }

    /// Closes a flow, which then begins anew at this number, and tells what was counted of it.
    pub fn restart(&mut self, flow: usize, first: u16, counts: &mut PlainCounts) -> Status
        requires in_use { IsInUse self.old }
        ensures restarts { Restarts self.old flow first counts.old result self.new counts.new }
        ensures lent { self.new.lent ≡ self.old.lent }
        ensures in_use { IsInUse self.new }
    {
        let State::Open(receiver) = &mut self.state else {
            return Status::Closed;
        };
        open::restart(receiver, self.alloc, flow, first, &mut self.queue, counts)
    }

    /// Tells what was counted of a flow since it was begun or began anew; once the receiver is
    /// closed, up to its close.
    pub fn counts(&self, flow: usize, counts: &mut PlainCounts) -> Status
        ensures { Counts self.now flow counts.old result counts.new }
    {
        match self.state.counts(flow) {
            Ok(counted) => {
                *counts = PlainCounts::of(&counted);
                Status::Done
            }
            Err(status) => status,
        }
    }

    /// Tells the first frame that waits, and gives its bytes at the front of this room, if it is
    /// large enough: then the frame waits no more, and is kept until the next burst or frame, as
    /// one that is lent is.
    pub fn next_frame(&mut self, room: &mut [u8], frame: &mut PlainFrame) -> Status
        requires in_use { IsInUse self.old }
        ensures gives { GivesFrame self.old room.old frame.old result self.new room.new frame.new }
        ensures in_use { IsInUse self.new }
    {
        let Some(first) = self.queue.frames.front() else {
            return Status::Nothing;
        };
        let length = first.frame.len();
        if room.len() < length {
            *frame = PlainFrame::of(first);
            return Status::RoomTooSmall;
        }
        room[..length].copy_from_slice(first.frame.as_slice());
        self.lend_frame(frame)
    }

    /// Lets the frame go that was given last, if it is still kept, and lends the first one that
    /// waits, if one does: it is told, waits no more, and is kept, with its bytes where they are,
    /// until the next burst or frame.
    pub fn lend_frame(&mut self, frame: &mut PlainFrame) -> Status
        requires in_use { IsInUse self.old }
        ensures lends { LendsFrame self.old frame.old result self.new frame.new }
        ensures in_use { IsInUse self.new }
    {
        self.lent = self.queue.frames.pop_front();
        match &self.lent {
            Some(first) => {
                *frame = PlainFrame::of(first);
                Status::Done
            }
            None => Status::Nothing,
        }
    }

    /// The bytes of the frame that is kept, lent or copied; none where none is.
    pub fn lent_bytes(&self) -> &[u8]
        ensures { result.now ≡ bytes_lent self.now.lent }
    {
        match &self.lent {
            Some(lent) => lent.frame.as_slice(),
            None => &[],
        }
    }

    /// How many frames and how many requests wait.
    pub fn waiting(&self) -> PlainWaiting
        ensures { result ≡ waiting_in self.now.queue }
    {
        PlainWaiting {
            frames: self.queue.frames.len(),
            requests: self.queue.requests.len(),
        }
    }

    /// Tells the first request that waits, and it waits no more.
    pub fn next_request(&mut self, request: &mut PlainRequest) -> Status
        requires in_use { IsInUse self.old }
        ensures gives { GivesRequest self.old request.old result self.new request.new }
        ensures in_use { IsInUse self.new }
    {
        match self.queue.requests.pop_front() {
            Some(first) => {
                *request = first;
                Status::Done
            }
            None => Status::Nothing,
        }
    }

    /// Closes all flows, and gives what each has left to give. Where an allocation failed it is to
    /// be called again. What waits can still be taken.
    pub fn close(&mut self) -> Status
        requires in_use { IsInUse self.old }
        ensures closes { Closes self.old result self.new }
        ensures lent { self.new.lent ≡ self.old.lent }
        ensures in_use { IsInUse self.new }
    {
        let nothing = State::Closed(Closed {
            flows: Vec::new(self.alloc),
            lanes: Vec::new(self.alloc),
        });
        let state = mem::replace(&mut self.state, nothing);
        let ended = state.close(self.alloc, &mut self.queue);
        let status = closed_status(&ended);
        self.state = State::after(ended);
        self.queue.told(status)
    }
}

impl State {
    /// What was counted of a flow.
    fn counts(&self, flow: usize) -> Result<FlowCounts, Status>
        ensures { AnswersCounts self.now flow result }
    {
        let found = match self {
            State::Open(receiver) => receiver.counts(flow),
            State::Closing(_) => return Err(Status::Closed),
            State::Closed(closed) => closed.flows.get(flow).copied(),
        };
        found.ok_or(Status::NoFlow)
    }

    /// Begins the close, or goes on with it.
    fn close(self, alloc: Global, queue: &mut Queue) -> Result<Closed, Closing<NoCheck>>
        requires in_use { StateInUse self }
        ensures closes { ClosesState self queue.old result queue.new }
        ensures in_use { StateInUse (state_after result) }
    {
        match self {
            State::Open(receiver) => receiver.close(alloc, queue),
            State::Closing(closing) => closing.go_on(alloc, queue),
            State::Closed(closed) => Ok(closed),
        }
    }

    /// How far a receiver has come whose close was begun or gone on with.
    fn after(ended: Result<Closed, Closing<NoCheck>>) -> State
        ensures { result ≡ state_after ended }
    {
        match ended {
            Ok(closed) => State::Closed(closed),
            Err(closing) => State::Closing(closing),
        }
    }
}

/// The status for a close.
fn closed_status(ended: &Result<Closed, Closing<NoCheck>>) -> Status
    ensures { result ≡ of_close ended.now }
{
    match ended {
        Ok(_) => Status::Done,
        Err(_) => Status::OutOfMemory,
    }
}

/// The decision of this kind and number.
fn decision_of(kind: u32, number: u16) -> Option<FlowDecision>
    ensures some { IfSome result (IsDecision kind number) }
    ensures none { IfNone result (2 < kind) }
{
    match kind {
        0 => Some(FlowDecision::Gap),
        1 => Some(FlowDecision::GapTo(number)),
        2 => Some(FlowDecision::SkipTo(number)),
        _ => None,
    }
}

/// Lets a receiver go, with all that waits. Nothing of it is left for a clause to speak of: that
/// its memory is given back is seen by valgrind (`scripts/c-library`, `scripts/hostile-c`).
pub fn discard(_held: Box<HeldReceiver>) {}

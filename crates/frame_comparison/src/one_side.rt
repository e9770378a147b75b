//! What is kept of one side: of each flow the frames that wait, and the first that only it has.
ghost use Rattle.std.specs.Prelude.{◌≡◌, ◌<◌, ◌≤◌, ◌++◌, ℕ, Some, None, IfOk, OnOk, OnErr, []};
ghost use Rattle.std.specs.Prelude.{drop, take, map, length, get_or, replicate};
ghost use Rattle.frame_comparison.specs.Frames.{shown_of, frames_given_up};
ghost use Rattle.frame_comparison.specs.Compared.{place_of_equal, own_moved, other_moved};
ghost use Rattle.frame_comparison.specs.Compared.{all_given_up};
ghost use Rattle.frame_comparison.specs.Seen.{SideSeen, listed, listed_most, side_seen_after};
ghost use Rattle.frame_comparison.specs.Seen.{none_waits};

use crate::coming_frame::ComingFrame;
use crate::lonely_frame::{ListedFrames, LonelyFrame};
use crate::waiting_frame::{WaitingFrame, place_of_equal};
use std::alloc::{AllocError, Global};
use std::collections::VecDeque;
use std::marker::Model;
use std::mem;

/// So many frames of a side of a flow wait at most.
pub const LONGEST_WAIT: usize = 1024;

/// What is kept of one side. Contracts see a `SideSeen`.
#[derive(Debug, Drop)]
pub(crate) struct OneSide {
    waiting: Vec<VecDeque<WaitingFrame>>,
    only: ListedFrames,
}

impl Model for OneSide {
    ghost use Rattle.std.specs.Prelude.{map};
    ghost use Rattle.frame_comparison.specs.Seen.{SideSeen};

    ghost Value = { SideSeen };

    ghost view = { λ side. record {
      waiting = map (λ queue. queue.items) side.waiting.items;
      only = side.only.frames.items;
    } };
}

impl OneSide {
    /// Nothing came of so many flows.
    pub(crate) fn new(alloc: Global, flows: usize) -> Result<OneSide, AllocError>
        ensures waiting { IfOk result (λ side. side.waiting ≡ replicate flows []) }
        ensures only { IfOk result (λ side. side.only ≡ []) }
    {
        let mut waiting = Vec::with_capacity(alloc, flows)?;
        for _ in 0..flows {
            waiting.push(VecDeque::new(alloc))?;
        }
        let only = ListedFrames::new(alloc)?;
        Ok(OneSide { waiting, only })
    }

    /// The frames that only this side has, in the order in which they were given up.
    pub(crate) fn only(&self) -> &[LonelyFrame]
        ensures { result.now ≡ self.now.only }
    {
        self.only.as_slice()
    }

    /// The place of the first frame of a flow that waits and equals this one.
    pub(crate) fn place_of(&self, flow: usize, frame: &ComingFrame<'_>) -> Option<usize>
        requires { flow < length self.now.waiting }
        ensures place { result ≡ place_of_equal frame.now (get_or self.now.waiting flow []) }
        ensures few { length self.now.only ≤ listed_most }
    {
        place_of_equal(&self.waiting[flow], frame)
    }

    /// Gives up all frames of a flow that wait, and answers how many.
    pub(crate) fn give_up_all(&mut self, flow: usize) -> usize
        requires { flow < length self.old.waiting }
        ensures kept { let more = all_given_up (get_or self.old.waiting flow []) in
            self.new ≡ side_seen_after flow more self.old }
        ensures count { result ≡ length (get_or self.old.waiting flow []) }
    {
        let waiting = &mut self.waiting[flow];
        let count = waiting.len();
        give_up(waiting, count, flow, &mut self.only);
        count
    }

    /// Gives up all frames of a flow that wait, frees what they took, and answers how many.
    pub(crate) fn end(&mut self, alloc: Global, flow: usize) -> usize
        requires { flow < length self.old.waiting }
        ensures kept { let more = all_given_up (get_or self.old.waiting flow []) in
            self.new ≡ side_seen_after flow more self.old }
        ensures count { result ≡ length (get_or self.old.waiting flow []) }
    {
        let mut waiting = mem::replace(&mut self.waiting[flow], VecDeque::new(alloc));
        let count = waiting.len();
        give_up(&mut waiting, count, flow, &mut self.only);
        count
    }

    /// Lets all frames go that wait, of all flows.
    pub(crate) fn let_go(&mut self)
        ensures { self.new ≡ none_waits self.old }
    {
        self.waiting.clear();
    }

    /// Takes out the frame at this place, and gives up those before it.
    pub(crate) fn settle_to(&mut self, flow: usize, place: usize)
        requires flow { flow < length self.old.waiting }
        requires place { place < length (get_or self.old.waiting flow []) }
        ensures { let more = other_moved (Some place) (get_or self.old.waiting flow []) in
            self.new ≡ side_seen_after flow more self.old }
    {
        let waiting = &mut self.waiting[flow];
        give_up(waiting, place, flow, &mut self.only);
        let _ = waiting.pop_front();
    }

    /// Lets a frame that has no equal wait, and gives up the first that waits where too many do. It
    /// answers how many it gave up, one or none.
    pub(crate) fn wait(
        &mut self,
        alloc: Global,
        flow: usize,
        frame: &ComingFrame<'_>,
    ) -> Result<usize, AllocError>
        requires { flow < length self.old.waiting }
        ensures kept { let more = own_moved None frame.now (get_or self.old.waiting flow []) in
            OnOk result (self.new ≡ side_seen_after flow more self.old) }
        ensures count { let more = own_moved None frame.now (get_or self.old.waiting flow []) in
            IfOk result (λ count. count ≡ length (frames_given_up more.settled)) }
        ensures refused { OnErr result (self.new ≡ self.old) }
    {
        let waits = WaitingFrame::new(alloc, frame)?;
        let waiting = &mut self.waiting[flow];
        waiting.push_back(waits)?;
        let excess = waiting.len().saturating_sub(LONGEST_WAIT);
        give_up(waiting, excess, flow, &mut self.only);
        Ok(excess)
    }
}

/// Gives up the first so many frames of a flow that wait, or all where there are fewer.
fn give_up(waiting: &mut VecDeque<WaitingFrame>, count: usize, flow: usize, only: &mut ListedFrames)
    ensures waiting { waiting.new.items ≡ drop count waiting.old.items }
    ensures listed { only.new.frames.items
        ≡ listed (only.old.frames.items ++ map (shown_of flow) (take count waiting.old.items)) }
{
    for _ in 0..count {
        let Some(frame) = waiting.pop_front() else {
            return;
        };
        only.list(frame.into_lonely(flow));
    }
}

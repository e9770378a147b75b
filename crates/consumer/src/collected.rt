//! A consumer that keeps everything.
ghost use Rattle.std.specs.Prelude.{◌≡◌, ℕ, IsTrue, IfOk};
ghost use Rattle.consumer.specs.Collecting.{HasNothing, AreEmpty, Appends};

use crate::consumer::Consumer;
use crate::frame_list::FrameList;
use docsis_wire::Bytes;
use lane::Request;
use std::alloc::{AllocError, Global};

/// Keeps what it is given: the frames of each flow and the requests of each channel, in order.
///
/// It is whole as long as everything was kept. What a failed allocation left out it doesn't have,
/// nor a frame of a flow or a request of a channel for which it has no list; from then on it isn't
/// whole.
#[derive(Debug, Drop)]
pub struct Collected {
    /// The frames of each flow, by the index of its record.
    pub frames: Vec<FrameList>,
    /// The requests of each channel.
    pub requests: Vec<Vec<Request>>,
    /// Whether everything was kept.
    pub whole: bool,
}

impl Collected {
    /// Nothing yet, with a list for each of so many flows and of so many channels.
    pub fn new(
        alloc: Global,
        flow_count: usize,
        channel_count: usize,
    ) -> Result<Collected, AllocError>
        ensures { IfOk result (HasNothing flow_count channel_count) }
    {
        Ok(Collected {
            frames: no_frames(alloc, flow_count)?,
            requests: empty_lists(alloc, channel_count)?,
            whole: true,
        })
    }
}

impl Consumer for Collected {
    ghost use Rattle.consumer.specs.Collecting.{HasCollected};

    ghost after = { HasCollected };

    fn frame(&mut self, flow: usize, frame: Bytes) {
        if !append_frame(&mut self.frames, flow, frame) {
            self.whole = false;
        }
    }

    fn request(&mut self, request: Request) {
        if !append(&mut self.requests, usize::from(request.channel), request) {
            self.whole = false;
        }
    }
}

/// So many lists with no frame in them.
fn no_frames(alloc: Global, count: usize) -> Result<Vec<FrameList>, AllocError>
    ensures { IfOk result (λ lists. AreEmpty count lists.items) }
{
    let mut lists = Vec::with_capacity(alloc, count)?;
    for _ in 0..count {
        lists.push(FrameList::new(alloc))?;
    }
    Ok(lists)
}

/// So many lists with nothing in them.
fn empty_lists<T: Drop>(alloc: Global, count: usize) -> Result<Vec<Vec<T>>, AllocError>
    ensures { IfOk result (λ lists. AreEmpty count lists.items) }
{
    let mut lists = Vec::with_capacity(alloc, count)?;
    for _ in 0..count {
        lists.push(Vec::new(alloc))?;
    }
    Ok(lists)
}

/// Appends a frame to the list of this index, and says whether it did: there may be no such list,
/// or no memory.
fn append_frame(lists: &mut Vec<FrameList>, index: usize, frame: Bytes) -> bool
    ensures { IsTrue result → Appends lists.old.items index frame lists.new.items }
{
    if lists.len() <= index {
        return false;
    }
    lists[index].push(frame).is_ok()
}

/// Appends an item to the list of this index, and says whether it did: there may be no such list,
/// or no memory.
fn append<T: Drop>(lists: &mut Vec<Vec<T>>, index: usize, item: T) -> bool
    ensures { IsTrue result → Appends lists.old.items index item lists.new.items }
{
    if index >= lists.len() {
        return false;
    }
    lists[index].push(item).is_ok()
}

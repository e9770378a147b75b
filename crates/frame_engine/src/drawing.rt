//! What is drawn of a capture, where a picture is asked for.
ghost use Rattle.std.specs.Prelude.{◌≡◌, true, IfOk};

use capture_map::CaptureMap;
use capture_picture::{CapturePicture, Mark, PictureBurst, PictureChannel};
use flow_core::FlowCounts;
use std::alloc::{AllocError, Global};
use timed_frames::LastBurst;

/// A picture, and what was marked in it.
#[derive(Drop)]
pub(crate) struct Drawing {
    pub(crate) picture: CapturePicture,
    /// What was counted of each flow, since it was begun or began anew, when it was last marked.
    marked: Vec<FlowCounts>,
    /// The time of the burst that was handed in last.
    last_time: u64,
    /// Whether all bursts are drawn. Those are not for which memory ran out.
    is_whole: bool,
}

impl Drawing {
    /// Nothing is drawn yet, of a capture with this map.
    pub(crate) fn new(alloc: Global, capture_map: &CaptureMap) -> Result<Drawing, AllocError>
        ensures { IfOk result (λ drawing. drawing.is_whole ≡ true) }
    {
        let mut channels = Vec::with_capacity(alloc, capture_map.channels.len())?;
        for one in &capture_map.channels {
            channels.push(PictureChannel {
                channel: one.channel,
                id: one.id,
            })?;
        }
        Ok(Drawing {
            picture: CapturePicture::new(alloc, channels),
            marked: vec![in alloc; FlowCounts::none(); capture_map.flows.len()]?,
            last_time: 0,
            is_whole: true,
        })
    }

    /// Whether all bursts are drawn.
    pub(crate) fn is_whole(&self) -> bool
        ensures { result ≡ self.now.is_whole }
    {
        self.is_whole
    }

    /// Draws a burst that was handed in, of a flow with this service flow identifier.
    pub(crate) fn hand_in(&mut self, alloc: Global, flow: usize, sfid: u32, burst: LastBurst) {
        let drawn = self.picture.take_burst(
            alloc,
            PictureBurst {
                flow,
                sfid,
                time: burst.time,
                channel: burst.channel,
                number: burst.number,
            },
        );
        self.is_whole = drawn.is_ok() && self.is_whole;
        self.last_time = burst.time;
    }

    /// Marks something that came so often, if it did.
    fn mark(&mut self, flow: usize, mark: Mark, count: u64) {
        if count > 0 {
            self.picture.mark(flow, self.last_time, mark, count);
        }
    }

    /// Marks what is lost and late by these counts of a flow, and wasn't by those before.
    pub(crate) fn mark_counts(&mut self, flow: usize, counts: FlowCounts) {
        let Some(marked) = self.marked.get_mut(flow) else {
            return;
        };
        let lost = counts.lost.saturating_sub(marked.lost);
        let late = counts.late.saturating_sub(marked.late);
        *marked = counts;
        self.mark(flow, Mark::Lost, lost);
        self.mark(flow, Mark::Late, late);
    }

    /// Marks that a flow begins anew, of which these were the last counts.
    pub(crate) fn begin_anew(&mut self, flow: usize, counts: FlowCounts) {
        self.mark_counts(flow, counts);
        if let Some(marked) = self.marked.get_mut(flow) {
            *marked = FlowCounts::none();
        }
        self.mark(flow, Mark::Restart, 1);
    }

    /// Marks a burst of a flow whose segment header has a wrong check sequence.
    pub(crate) fn mark_bad_check(&mut self, flow: usize, time: u64) {
        self.picture.mark(flow, time, Mark::BadCheck, 1);
    }
}

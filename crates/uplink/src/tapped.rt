//! A consumer that keeps everything, and shows it to taps.
ghost use Rattle.std.specs.Prelude.{IfOk};
ghost use Rattle.consumer.specs.Collecting.{HasNothing};
ghost use Rattle.lane.specs.Limits.{channel_limit};

use crate::tap::{NoTap, Tap, Taps};
use consumer::{Collected, Consumer};
use docsis_wire::Bytes;
use lane::{CHANNELS, Request};
use std::alloc::{AllocError, Global};
use workers::Consumers;

/// Shows each frame and each request to a tap, and then keeps it.
#[derive(Drop)]
pub struct Tapped<F, Q> {
    pub taps: Taps<F, Q>,
    pub collected: Collected,
}

impl<F: Tap<Bytes>, Q: Tap<Request>> Consumer for Tapped<F, Q> {
    ghost use Rattle.consumer.specs.Collecting.{HasCollected};

    ghost after = { λ start given now. HasCollected start.collected given now.collected };

    fn frame(&mut self, flow: usize, frame: Bytes) {
        self.taps.frames.took(flow, &frame);
        self.collected.frame(flow, frame);
    }

    fn request(&mut self, request: Request) {
        self.taps.requests.took(request.flow, &request);
        self.collected.request(request);
    }
}

/// Who keeps the frames of each flow, and who keeps the requests of each channel, each with its
/// tap.
pub type Tapping<F, Q> = Consumers<Tapped<F, NoTap>, Tapped<NoTap, Q>>;

/// Keeps nothing yet, for so many flows.
pub fn tapping<F: Drop, Q: Drop>(
    alloc: Global,
    flow_count: usize,
    taps: Taps<F, Q>,
) -> Result<Tapping<F, Q>, AllocError>
    ensures frames { IfOk result (λ both. HasNothing flow_count 0 both.consumer.collected) }
    ensures requests { IfOk result (λ both. HasNothing 0 channel_limit both.scheduler.collected) }
{
    let frames = Collected::new(alloc, flow_count, 0)?;
    let requests = Collected::new(alloc, 0, CHANNELS)?;
    Ok(Consumers {
        consumer: Tapped {
            taps: Taps {
                frames: taps.frames,
                requests: NoTap,
            },
            collected: frames,
        },
        scheduler: Tapped {
            taps: Taps {
                frames: NoTap,
                requests: taps.requests,
            },
            collected: requests,
        },
    })
}

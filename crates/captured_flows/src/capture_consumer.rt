//! Who takes what is given of a capture.
ghost use Rattle.std.specs.Prelude.{◌++◌, ◌∷◌, [], List, map};
ghost use Rattle.consumer.specs.declared.given.Given.{Given};
ghost use Rattle.captured_flows.specs.Steps.{CaptureStep, handed_in, gave, replied, began_anew};

use crate::sound_burst::SoundBurst;
use capture_rules::Arrival;
use consumer::Consumer;
use flow_core::FlowCounts;
use receiver::Reply;

/// Takes what is given of a capture, and is told of each burst when it is handed in: so it knows
/// when what it is given came. It is told, too, what was replied to the burst, and when a flow was
/// closed and begins anew. Its relation `after` speaks of what is given while it is told of
/// nothing, and `saw` of all of it.
pub trait CaptureConsumer: Consumer {
    // The first became the second by these steps, in order.
    ghost saw: { Self → List CaptureStep → Self → Type 0 };

    /// This burst of the flow with this index is handed in now. A request that is given next is its
    /// own, and the frames of the flow that are given from now on, until another burst of the flow
    /// is handed in, are whole since it was.
    fn hand_in(&mut self, flow: usize, burst: &Arrival<SoundBurst>)
        ensures { (start : Self) (steps : List CaptureStep) → saw start steps self.old
            → saw start (steps ++ handed_in flow burst.now ∷ []) self.new };

    /// The burst of this flow that was handed in last, with this number if it has one, has given
    /// all that it gives now, and this was replied to it.
    fn replied(&mut self, flow: usize, burst_id: Option<u64>, reply: Reply)
        ensures { (start : Self) (steps : List CaptureStep) → saw start steps self.old
            → saw start (steps ++ replied flow burst_id reply ∷ []) self.new };

    /// The flow with this index was closed, and has given all that there was left to give. It
    /// begins anew now, and this was counted of it since it was begun or began anew.
    fn begin_anew(&mut self, flow: usize, counts: FlowCounts)
        ensures { (start : Self) (steps : List CaptureStep) → saw start steps self.old
            → saw start (steps ++ began_anew flow counts ∷ []) self.new };

    // One to which nothing was given is as it was.
    ghost begins: { (start : Self) → Self.after start [] start };

    // What is given is seen.
    ghost sees: { (start now later : Self) (steps : List CaptureStep) (given : List Given)
        → saw start steps now → Self.after now given later
        → saw start (steps ++ map gave given) later };
}

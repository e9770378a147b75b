//! What a receiver gives of a capture, with the times of its bursts.
//!
//! [`TimedFrames`] is the consumer of `captured_flows`. It keeps of each flow which burst was
//! handed in last, and so knows of each frame the burst that completed it, and of each request the
//! burst whose header it stood in. What it was given waits in it, in order, until it is let go by
//! [`TimedFrames::let_go`].
//!
//! What matters most: what waits is what the definition `timed` makes of the bursts that were
//! handed in and of what was given, in their order: nothing is lost, doubled, put in another order
//! or given the time of another burst, as long as it is whole ([`TimedFrames::is_whole`]).
#![tactic(auto)]

mod timed_frames;
mod timed_step;

pub use timed_frames::TimedFrames;
pub use timed_step::{LastBurst, TimedStep};

//! Hands the frames of a service flow to its consumer, from one thread to another, in order.
//!
//! A ring has room for so many frames. What it has no room for waits in a backlog on the side that
//! offers, so that an offer never waits for the consumer. No call waits.
//!
//! The calls, in the order of use:
//!
//! 1. [`ring`] makes the two ends of a ring, a [`Feeder`] and a [`Taker`], each for a thread of its
//!    own.
//! 2. [`Feeder::offer`] puts a frame into the ring, or to the end of the backlog; it is refused
//!    only where the backlog can't grow.
//! 3. [`Feeder::flush`] moves frames from the backlog into the ring for as long as there is room.
//! 4. [`Feeder::close`] puts an end mark after the last frame, or gives the feeder back where there
//!    is no room yet. [`Feeder::abandon`] gives the backlog, and no end mark will come.
//! 5. [`Taker::take`] takes the next frame, or answers `NothingYet`, or, once it has taken the end
//!    mark, `Closed` ever after.
//! 6. [`settle`] counts, once both threads have returned, what was offered and not taken.
//!
//! Contracts see which ring an end belongs to, the frames that were offered and those that were
//! taken, each as the list of its bytes. The contract that matters most is that of [`settle`]: the
//! frames taken, followed by as many as it answers, are the frames offered, and none is left once
//! the taker has answered `Closed`.
//!
//! Callers that are proved: `crates/uses/src/delivery_run.rt` hands a list of frames to a thread,
//! and `crates/uses/src/delivery_flows.rt` serves many takers by one thread.
#![tactic(auto)]

mod feeder;
mod opening;
mod parcel;
mod settling;
mod taker;

pub use feeder::{ClosedFeeder, Feeder, Refused};
pub use opening::{OpenFault, ring};
pub use settling::settle;
pub use taker::{Taker, Took};

//! What becomes of the bursts of one flow in a capture, as far as times say it.
//!
//! A capture says when each burst came, but a receiver knows no time. So three rules of time stand
//! before it, each for one flow. All times are nanoseconds of the packets' clock, which may stand
//! still, or go back.
//!
//! 1. [`ChannelOrder`]: an analyser may write two bursts of one channel the other way round. So
//!    each [`Arrival`] waits for `reorder`, by a clock of the flow, and of those on one channel the
//!    one of the least number is [`HandedOn`] first. No more than [`MOST_WAITING`] wait.
//! 2. [`Beginning`]: where the first number isn't known, and where after a silence a number comes
//!    that doesn't lie ahead within the window, what is handed on is kept for 10 ms, and the flow
//!    begins, or begins anew, at the least number of these ([`Begun`]).
//! 3. [`HeldTimes`]: what was held for longer than `wait` says up to which number the flow skips.
//!
//! A flow's number that is expected, and the width of its window, are handed in. Nothing is said
//! here of what a burst brings: it is a type parameter.
//!
//! What matters most: what is handed on as a burst comes is what the definition `BurstComes` says.
//! Of bursts that come one after another so, which is `Orders`, laws say that one list is handed
//! on, that nothing is lost and nothing doubled, that only what came within `reorder` goes on
//! waiting, and that what came nearly in order leaves in order ([`laws`]).
#![tactic(auto)]

mod arrival;
mod beginning;
mod channel_order;
mod clock_counts;
mod held_time;
mod held_times;
pub mod laws;
mod numbers;
mod queue;
mod waiting_numbers;

pub use arrival::{Arrival, HandedOn};
pub use beginning::{BEGINNING, Beginning, Begun};
pub use channel_order::{ChannelOrder, MOST_WAITING};
pub use clock_counts::ClockCounts;
pub use held_time::HeldTime;
pub use held_times::HeldTimes;

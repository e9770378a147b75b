//! A receiver as a C program uses it: what it gives is held until it is asked for, and each call
//! answers a [`Status`].
//!
//! A [`HeldReceiver`] has a [`Receiver`](receiver::Receiver) on which no header is checked, as in
//! `segrx replay`, and a [`Queue`] of the frames and requests that it gave. The calls, in the order
//! of use:
//!
//! 1. [`HeldReceiver::new`] makes one of the [`PlainFlow`]s and [`PlainRow`]s of a setup.
//! 2. [`HeldReceiver::grant`], `burst` and `decide` hand something in; `go_on` does what a failed
//!    allocation left to be done of a flow, and `restart` has one begin anew.
//! 3. [`HeldReceiver::next_frame`] and `next_request` give what waits, each once, in order; in the
//!    place of the first, `lend_frame` gives a frame without a copy, by `lent_bytes`. `waiting`
//!    says how much waits, and [`HeldReceiver::counts`] what was counted of a flow.
//! 4. [`HeldReceiver::close`] closes it. What waits then can still be taken.
//!
//! `segrx_c` exports these calls to C.
#![tactic(auto)]

mod held;
mod open;
mod plain;
mod queue;
mod room;
mod setup;
mod status;

pub use held::{HeldReceiver, State, discard};
pub use plain::{PlainCounts, PlainFlow, PlainFrame, PlainRequest, PlainRow, PlainWaiting};
pub use queue::{Queue, QueuedFrame};
pub use status::{MakeFault, Status};

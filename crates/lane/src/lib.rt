//! One upstream channel: its grants, its bursts, and the requests in their headers.
//!
//! A [`Lane`] is opened for a channel with the rows that say which flow each service identifier
//! belongs to ([`SidRow`]), and then takes the channel's [`Input`]s one after another. A grant is
//! outstanding once it is accepted. A burst is received in a grant, and is admitted if it fits it:
//! [`Admitted`] has the segment, its flow and the [`Request`] in its header. Anything else is a
//! [`Refusal`].
//!
//! The calls, in the order of use:
//!
//! 1. [`check_rows`] finds the first fault of the rows ([`LaneFault`]); [`Lane::new`] does so
//!    itself, and [`Lane::open`] is for rows that have none. They are of four channels;
//!    [`check_rows_within`] and [`Lane::open_within`] are of as many as are named, at most 16.
//! 2. [`Lane::take`], or [`Lane::answer`] where a failed allocation is an error of its own.
//! 3. [`LaneReport::note`] counts what was answered.
//!
//! The contract of [`Lane::take`] says which whole list of inputs and answers a lane stands for;
//! [`laws`] says what follows, such as that each input has one answer.
#![tactic(auto)]

mod admitted;
mod grant;
mod input;
mod lane;
pub mod laws;
mod refusal;
mod report;
mod sids;

pub use admitted::{Admitted, Request};
pub use input::Input;
pub use lane::{GRANT_MAX, GRANT_MIN, Lane};
pub use refusal::Refusal;
pub use report::{Answer, LaneReport, admitted_segment};
pub use sids::{
    CHANNELS, LaneFault, MOST_CHANNELS, SIDS, SidRow, SidTable, check_rows, check_rows_within,
};

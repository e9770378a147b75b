//! What became of the bursts of a capture, by the analyser's numbers of them, in bounded memory.
//!
//! 1. [`BurstFates::tell`] is told what became of a burst, as often as that changes.
//! 2. [`BurstFates::reason`] says why a frame that came of some bursts wasn't joined: the first of
//!    them that isn't kept, and what became of it.
//!
//! [`put_reason`] puts a reason for people, and [`MissingReason::word`] gives its word for
//! programs.
//!
//! The last 32,768 things that were told are kept, in memory that is asked for once.
//!
//! What matters most: a burst that was kept once is known to be kept, and of another what was told
//! last is known, if fewer than 32,768 things were told since; of one of which none of the
//! last 32,768 things was told, nothing is known ([`laws`]).
#![tactic(auto)]

mod burst_fate;
mod burst_fates;
pub mod laws;
mod missing_reason;
mod words;

pub use burst_fate::{BurstFate, ToldFate};
pub use burst_fates::{BurstFates, MOST_TOLD};
pub use missing_reason::MissingReason;
pub use words::put_reason;

//! Traces that were worked out by hand, replayed: the tests of a replay in `receiver`.
//!
//! They stand apart from that crate, so that it is proved once and not a second time with its
//! tests. There is nothing here for a caller, but [`traces`], [`outcomes`] and [`cases`] are for
//! the tests of other parts too.
#![tactic(auto)]

pub mod cases;
#[cfg(test)]
mod orders;
pub mod outcomes;
#[cfg(test)]
mod replayed;
#[cfg(test)]
mod ruled_replays;
pub mod traces;

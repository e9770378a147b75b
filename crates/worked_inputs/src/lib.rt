//! Traces that were worked out by hand, taken one input at a time: the tests of the `Receiver` of
//! `receiver`.
//!
//! They stand apart from that crate, so that it is proved once and not a second time with its
//! tests. There is nothing here for a caller.
#![tactic(auto)]

#[cfg(test)]
mod answers;
#[cfg(test)]
mod failed_allocations;
#[cfg(test)]
mod handing_in;
#[cfg(test)]
mod replayed;
#[cfg(test)]
mod restarts;
#[cfg(test)]
mod taking_turns;

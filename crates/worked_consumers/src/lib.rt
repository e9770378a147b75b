//! What consumers are given, worked out by hand: the tests of `consumer`.
//!
//! They stand apart from that crate, so that it is proved once and not a second time with its
//! tests. There is nothing here for a caller.
#![tactic(auto)]

#[cfg(test)]
mod frame_lists;
#[cfg(test)]
mod given_in_order;

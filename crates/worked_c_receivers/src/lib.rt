//! A receiver as C uses it, worked out by hand: the tests of `c_receiver`.
//!
//! They stand apart from that crate, so that it is proved once and not a second time with its
//! tests. There is nothing here for a caller.
#![tactic(auto)]

#[cfg(test)]
mod held_receivers;

//! Frames cut into segments, worked out by hand: the tests of the sender's cut in `docsis_wire`.
//!
//! They stand apart from that crate, so that it is proved once and not a second time with its
//! tests, and apart from `worked_frames`, so that the two are proved side by side. There is nothing
//! here for a caller.
#![tactic(auto)]

#[cfg(test)]
mod cuts;

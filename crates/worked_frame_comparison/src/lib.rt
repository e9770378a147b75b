//! Comparisons of frames, worked out by hand: the tests of `frame_comparison` and
//! `burst_fates`.
//!
//! They stand apart from those crates, so that these are proved once and not a second time with
//! them. There is nothing here for a caller.
#![tactic(auto)]

#[cfg(test)]
mod compared_frames;
#[cfg(test)]
mod failed_allocations;
#[cfg(test)]
mod fates;
#[cfg(test)]
mod texts;

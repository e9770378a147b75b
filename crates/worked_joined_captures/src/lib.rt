//! Captures that are joined with a map, worked out by hand: the tests of `frame_engine`,
//! `timed_frames` and of the words of `capture_command`.
//!
//! They stand apart from these crates, so that each is proved once and not a second time with them.
//! There is nothing here for a caller.
#![tactic(auto)]

#[cfg(test)]
mod capture_samples;
#[cfg(test)]
mod capture_words;
#[cfg(test)]
mod compared_captures;
#[cfg(test)]
mod failed_allocations;
#[cfg(test)]
mod joined;
#[cfg(test)]
mod one_map;
#[cfg(test)]
mod progress;
#[cfg(test)]
mod shards;

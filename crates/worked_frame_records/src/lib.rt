//! Files of frames, worked out byte by byte: the tests of `frame_records`.
//!
//! They stand apart from that crate, so that it is proved once and not a second time with them.
//! There is nothing here for a caller.
#![tactic(auto)]

#[cfg(test)]
mod failed_allocations;
#[cfg(test)]
mod frame_files;
#[cfg(test)]
mod named_bursts;
#[cfg(test)]
mod recorded;

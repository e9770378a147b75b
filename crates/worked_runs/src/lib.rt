//! Traces that were worked out by hand, run on eight threads: the tests of `uplink`, and of the
//! sources and taps that it exports.
//!
//! They stand apart from the crates `uplink` and `workers`, so that those are proved once and not a
//! second time with their tests. There is nothing here for a caller.
#![tactic(auto)]

#[cfg(test)]
mod run;
#[cfg(test)]
mod sources;
#[cfg(test)]
mod taps;

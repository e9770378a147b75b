//! Frames, segments, windows and joiners that were worked out by hand: the tests of `docsis_wire`
//! but for its cut, of `reorder` and of `ccf`.
//!
//! They stand apart from these crates, so that those are proved once and not a second time with
//! their tests. There is nothing here for a caller, but [`samples`] and [`refused`] are for the
//! tests of other parts too.
#![tactic(auto)]

#[cfg(test)]
mod bytes;
#[cfg(test)]
mod checks;
#[cfg(test)]
mod expect;
#[cfg(test)]
mod frames;
#[cfg(test)]
mod joiners;
pub mod refused;
pub mod samples;
#[cfg(test)]
mod segments;
#[cfg(test)]
mod windows;

//! What is drawn of captures, worked out by hand: the tests of `capture_picture`.
//!
//! They stand apart from it, so that it is proved once and not a second time with them. There is
//! nothing here for a caller.
#![tactic(auto)]

#[cfg(test)]
mod charts;
#[cfg(test)]
mod drawing;
#[cfg(test)]
mod failed_allocations;
#[cfg(test)]
mod sizes;
#[cfg(test)]
mod whole;

//! Bursts of a flow in a capture, worked out by hand and by a model: the tests of `capture_rules`.
//!
//! They stand apart from it, so that it is proved once and not a second time with them. There is
//! nothing here for a caller.
#![tactic(auto)]

#[cfg(test)]
mod beginnings;
#[cfg(test)]
mod burst_order;
#[cfg(test)]
mod failed_allocations;
#[cfg(test)]
mod handed;
#[cfg(test)]
mod held_segments;
#[cfg(test)]
mod many;
#[cfg(test)]
mod model;
#[cfg(test)]
mod model_cases;

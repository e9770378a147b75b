//! Flows, lanes and the loss rule, worked out by hand: the tests of `flow_core`, `lane` and
//! `loss_rule`.
//!
//! They stand apart from these crates, so that those are proved once and not a second time with
//! their tests. There is nothing here for a caller.
#![tactic(auto)]

#[cfg(test)]
mod core_events;
#[cfg(test)]
mod lanes;
#[cfg(test)]
mod passed_numbers;

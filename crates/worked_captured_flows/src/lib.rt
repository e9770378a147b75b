//! Bursts of captures with a map, worked out by hand and by a model: the tests of `captured_flows`.
//!
//! They stand apart from it, so that it is proved once and not a second time with them. There is
//! nothing here for a caller.
#![tactic(auto)]

#[cfg(test)]
mod failed_allocations;
#[cfg(test)]
mod flows_of_captures;
#[cfg(test)]
mod model;
#[cfg(test)]
mod model_cases;
#[cfg(test)]
mod some_flows;

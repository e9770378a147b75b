//! Flows, tables of flows, how wide a receiver is, and what it says at any time, worked out by
//! hand: tests of `bonded_flows` and of `receiver`.
//!
//! They stand apart from these crates, so that those are proved once and not a second time with
//! their tests. There is nothing here for a caller.
#![tactic(auto)]

#[cfg(test)]
mod looks;
#[cfg(test)]
mod one_flow;
#[cfg(test)]
mod plain_count;
#[cfg(test)]
mod setups;
#[cfg(test)]
mod tables;
#[cfg(test)]
mod wide;
#[cfg(test)]
mod widths;

//! What the small programs of `uses` do, on cases that were worked out by hand: their tests.
//!
//! They stand apart from that crate, so that it is proved once and not a second time with its
//! tests. There is nothing here for a caller. A file has the name of the program that it calls,
//! but for `ordered_items` (`window`), `backward_flow` (`flow`), `fed_bursts` (`burst`),
//! `checked_bursts` (`header_check`) and `closed_flow` (`one_flow`).
#![tactic(auto)]

#[cfg(test)]
mod backward_flow;
#[cfg(test)]
mod byte_source;
#[cfg(test)]
mod checked_bursts;
#[cfg(test)]
mod closed_flow;
#[cfg(test)]
mod cut_joined_again;
#[cfg(test)]
mod delivery_flows;
#[cfg(test)]
mod delivery_run;
#[cfg(test)]
mod fed_bursts;
#[cfg(test)]
mod five_senders;
#[cfg(test)]
mod handed_on;
#[cfg(test)]
mod losses_by_rule;
#[cfg(test)]
mod midstream;
#[cfg(test)]
mod ordered_items;
#[cfg(test)]
mod run_caller;

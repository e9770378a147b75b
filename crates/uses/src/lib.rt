//! Small programs over the other crates, as a stranger or the layer above would write them, each
//! proved from the public contracts of those crates alone.
#![tactic(auto)]

pub mod burst;
pub mod byte_source;
pub mod counted_run;
pub mod cut_joined_again;
pub mod delivery_flows;
pub mod delivery_run;
pub mod five_senders;
pub mod flow;
pub mod handed_on;
pub mod header_check;
pub mod losses_by_rule;
pub mod midstream;
pub mod one_at_a_time;
pub mod one_flow;
pub mod run_caller;
pub mod two_receivers;
pub mod window;

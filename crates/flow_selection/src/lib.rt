//! Which flows of a receiver are selected, each by its index.
//!
//! A flow's frames depend on its own segments alone, so that work is divided by flows. A
//! [`Selection`] names some of them: all, those of a shard, or those of a list. What doesn't belong
//! to a flow, as requests and lanes, belongs to each part.
//!
//! What matters most: a selection has just the flows of its definition ([`Selection::has`]), and
//! each flow is of exactly one of so many shards ([`laws::flow_is_of_one_shard`]).
#![tactic(auto)]

pub mod laws;
mod list;
mod range;
mod selection;
mod shard;

pub use list::FlowList;
pub use range::FlowRange;
pub use selection::Selection;
pub use shard::Shard;

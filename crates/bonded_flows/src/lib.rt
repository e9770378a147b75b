//! Bonded flows: what comes to them, on which channel, becomes whole frames.
//!
//! A [`BondedFlow`] takes the segments of one service flow, each with the channel on which it came,
//! and decisions that segments are lost. It decides besides by a [`LossRule`](loss_rule::LossRule)
//! what is lost, and gives each frame to a [`Consumer`](consumer::Consumer) as soon as it is whole.
//!
//! The calls, in the order of use:
//!
//! 1. [`BondedFlow::new`] makes a flow of a record that is in range.
//! 2. [`BondedFlow::take_segment`] takes a segment, and [`BondedFlow::decide`] a decision. Each
//!    tells what became of it ([`Told`]).
//! 3. Where an allocation failed what was left to do is remembered; [`BondedFlow::go_on`] does it.
//! 4. [`BondedFlow::begin_close`] and then [`BondedFlow::close`] give what there is left to give.
//!
//! [`BondedFlow::expected`], [`BondedFlow::held`] and [`BondedFlow::counts`] say how a flow stands,
//! and take no memory.
//!
//! A [`FlowTable`] has all flows of a receiver, up to 16,384 on up to 16 channels, of which each
//! takes memory of its own once its first segment comes. [`FlowTable::prepare`] makes a flow ready
//! before a segment is taken; [`FlowTable::restart`] closes one and begins it anew at another
//! number.
//!
//! Contracts say what came to a flow, whatever came to it before, and which frames its consumer was
//! given. They hold after each call, whatever it answered. [`laws`] says what follows: where the
//! channels keep the modem's order and each segment falls into the window, a flow that was closed
//! gave exactly the modem's frames of which each segment came.
#![tactic(auto)]

mod bonded_flow;
mod channel_sets;
mod decision;
mod flow_slot;
mod flow_table;
pub mod laws;
mod pending;
mod told;

pub use bonded_flow::BondedFlow;
pub use decision::FlowDecision;
pub use flow_slot::{DecideFault, NotReady};
pub use flow_table::FlowTable;
pub use told::{SegmentVerdict, Told};

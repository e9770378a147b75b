//! A receiver that joins the selected flows alone.
//!
//! A flow's frames depend on its own segments alone. Who wants the frames of some flows hands in
//! all that comes, since requests, answers and numbers are a channel's and a flow's; but in the
//! place of what bursts of other flows carry a [`SelectedReceiver`] hands its receiver zeros behind
//! the same header, which are no frame, so that nothing of them is joined. It takes no memory for
//! that, and moves no byte.
//!
//! 1. [`SelectedReceiver::new`] takes a receiver to which nothing was handed in, and a selection.
//! 2. [`SelectedReceiver::take`], [`SelectedReceiver::skip`] and [`SelectedReceiver::restart`] hand
//!    in what comes; [`SelectedReceiver::expected`] and [`SelectedReceiver::counts`] say how a flow
//!    stands.
//! 3. [`SelectedReceiver::close`] closes all flows.
//!
//! What matters most: it stands for the whole (`StandsForWhole`), which nobody need have handed in.
//! The consumer is given just what is given of the whole and is of a selected flow, or of none, in
//! the same order; and all that is answered is answered of the whole.
#![tactic(auto)]

mod flow_fault;
pub mod laws;
mod of_selected;
mod selected_receiver;

pub use flow_fault::FlowFault;
pub use selected_receiver::SelectedReceiver;

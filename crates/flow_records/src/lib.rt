//! What is known of each service flow before it runs, and what happens to it.
//!
//! A flow's record is a [`FlowRecord`], and [`check_records`] looks for the first fault of several,
//! of which there may be 64, or by [`check_records_within`] as many as one says, and
//! [`check_many_records`] does so in less time where they are many.
//! An [`Event`] happens to a flow; a [`Decision`] that segments are lost is one where it names a
//! flow. `flow_core` passes records and events on; they stand below it since lanes look at records
//! too, and the workers of `workers` hand on events without a flow.
#![tactic(auto)]

mod decision;
mod event;
mod record;

pub use decision::Decision;
pub use event::Event;
pub use record::{
    CLUSTERS_MAX, FLOWS_MAX, FlowRecord, MOST_FLOWS, SetupFault, WINDOW_MAX, check_many_records,
    check_records, check_records_within,
};

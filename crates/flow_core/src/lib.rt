//! The core of many bonded service flows: events in, frames out.
//!
//! [`Core`] holds for each flow a resequencing window, a joiner and counts. An event is a segment
//! that arrives, or the decision that segments are lost. It has no threads, no clock and no input
//! of its own: whoever drives it decides what comes when.
//!
//! The calls, in the order of use:
//!
//! 1. [`check_records`] looks for the first fault of the flows' records, and [`Core::new`] makes a
//!    core of them, with a check of frames' headers.
//! 2. [`Core::apply`] takes an event of a drained flow, and answers its verdict, or what was
//!    declared lost or skipped.
//! 3. [`Core::drain`] joins all segments that are next and appends the frames that they complete.
//!    [`Core::advance`] joins one of them, for a caller that wants a step at a time, and
//!    [`Core::is_drained`] asks whether one is left.
//! 4. [`Core::close`] declares lost what is missing before a held segment, until nothing is held,
//!    and appends the frames that come then; [`Core::close_gap`] is one such loss.
//! 5. [`Core::counts`] says how many segments were kept, late, repeated, beyond the window and
//!    lost, how many frames were given and how many bytes skipped; [`Core::flow_count`] how many
//!    flows there are; [`Core::expected`] which number a flow expects.
//!
//! [`Flow`] is one flow by itself, for a caller that keeps its flows in a table of its own and
//! makes each when it is needed; [`Flow::held`] also says how many segments wait, and
//! [`Flow::advance_as_it_is`] gives a segment that is one whole frame as it is. A gap that is
//! declared of a flow to which no segment came changes nothing, so it needn't be made for that
//! ([`laws::decisions_about_an_empty_flow_change_nothing`]); a skip does change it.
//!
//! Contracts say which list of events a flow stands for, whatever it stood for before, and [`laws`]
//! says what follows: over a modem's lawful cut and near events, what a drained flow gave is
//! exactly the modem's frames whose segments were all kept and lie before the expected one, in the
//! modem's order ([`laws::flow_gives_the_delivery_sequence`]). After the close it is all whose
//! segments were kept ([`laws::closed_flow_gives_the_frames_that_were_all_kept`]).
//!
//! A caller that is proved: `crates/uses/src/one_flow.rt` plays one flow to its close.
#![tactic(auto)]

mod counts;
mod event;
mod flow;
mod flows;
pub mod laws;
mod sequence;
mod up_to;

pub use counts::FlowCounts;
pub use event::{Applied, Step, StepAsItIs};
pub use flow::Flow;
pub use flow_records::{
    CLUSTERS_MAX, Event, FLOWS_MAX, FlowRecord, SetupFault, WINDOW_MAX, check_records,
};
pub use flows::Core;

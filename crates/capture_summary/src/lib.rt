//! What is counted of a capture, and the texts of it.
//!
//! A [`CaptureSummary`] has the counts of a capture's flows ([`FlowSummary`]) and channels
//! ([`ChannelSummary`]), how many records were passed over and why ([`PassedCounts`]), and how
//! many there were. Who goes over the records fills it: [`sequence_of`] says of each frame that was
//! joined what is known of its frame check sequence, and [`both_counts`] adds what was counted of a
//! flow before it began anew. All counts stay at their greatest value.
//!
//! In the end [`put_report`] puts the lines of the report, and [`put_summary`] what people read. As
//! the capture goes on, [`RequestLines`] takes what was requested and makes lines of CSV of it, by
//! the crate `csv`.
//!
//! What matters most: a sequence, a count and a text are those of the definitions `sequence_of`,
//! `with_frame`, `with_refusal`, `with_passed`, `report_text`, `summary_text` and `request_line`.
//! [`laws`] says of the first what it looks at in a frame.
#![tactic(auto)]

mod channel_summary;
mod flow_summary;
pub mod laws;
mod named_numbers;
mod passed;
mod refusals;
mod report;
mod requests;
mod sequence;
mod summary;
mod summary_text;
mod summed_counts;

pub use channel_summary::ChannelSummary;
pub use flow_summary::FlowSummary;
pub use passed::{PassedCounts, PassedReason};
pub use refusals::RefusalCounts;
pub use report::put_report;
pub use requests::RequestLines;
pub use sequence::{FrameSequence, sequence_of};
pub use summary::CaptureSummary;
pub use summary_text::put_summary;
pub use summed_counts::both_counts;

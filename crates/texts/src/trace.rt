//! A trace: what was recorded of a receiver's channels, and its setup.

use receiver::{Lists, Setup};

mod input;
mod reading;
mod setup_lines;
mod taking;
mod trace_line;

pub use input::TraceInput;
pub use reading::{Reading, parse_trace};
pub use taking::TakeEntries;

/// What a trace gives.
#[derive(Debug, Drop)]
pub struct Trace {
    /// The setup of the receiver.
    pub setup: Setup,
    /// What came in on each channel, and the decisions.
    pub lists: Lists,
    /// The sender of each input and decision, in the order of their lines: the channel, 0 to 3, or
    /// 4 for a decision.
    pub tags: Vec<u8>,
}

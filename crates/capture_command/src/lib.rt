//! The command `capture` as a whole: its words, its files, its engine and its summary.
#![tactic(auto)]

mod arguments;
mod asked;
mod command_fault;
mod files;
mod progress_lines;
mod whole_command;

pub use asked::{CaptureAsked, CaptureWords, asks_to_capture, read_capture_words};
pub use command_fault::CaptureCommandFault;
pub use whole_command::{capture_program, obey_words};

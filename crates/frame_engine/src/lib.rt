//! The engine of the command `capture`: the frames of a capture with a map are written as they are
//! joined.
//!
//! 1. [`FrameReading::new`] sets a receiver up with a `capture_map::CaptureMap` and
//!    [`CaptureSettings`].
//! 2. [`join_capture`] reads a capture of any length to its end, piece by piece, and writes a pcap
//!    file of the frames that its bursts hold. What a piece brings is written and flushed before
//!    the next is read. Of the capture it holds a piece, one record or block, and what the receiver
//!    and the bursts that wait take. How far it is [`TakeProgress`] takes behind each piece, if it
//!    wants to; [`NoProgress`] doesn't.
//!
//! Where frames are compared with those that the analyser joined itself, [`Comparing::reasons`]
//! says why each frame is missing that is listed as only the analyser's.
//!
//! What matters most: the frames that are written are those which the receiver's definitions give
//! for the bursts of the records, each with the time and the origin of the burst that completed it
//! (`IsJoinedFile`); whatever ends it, it has written those of the records before. Where some flows
//! are selected, the frames of the others are left out, and nothing else ([`laws`]).
#![tactic(auto)]

mod capturing;
mod comparing;
mod drawing;
mod frame_file;
mod frame_reading;
mod inner_check;
mod joining;
pub mod laws;
mod progress;
mod record_burst;
mod settings;
mod tally;

pub use capturing::join_capture;
pub use comparing::Comparing;
pub use frame_reading::FrameReading;
pub use inner_check::InnerCheck;
pub use progress::{CaptureProgress, NoProgress, TakeProgress};
pub use settings::CaptureSettings;
pub use tally::CaptureTally;

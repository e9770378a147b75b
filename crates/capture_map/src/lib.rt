//! The map of a capture: which service identifiers are of which flow, and which upstream channels
//! are the channels of a receiver. No upstream burst says so.
//!
//! A map is a text. Its lines and words are those of `text_lines`:
//!
//! - `flow <sfid> <first>|auto <window> <clusters>` gives a flow; flows are counted from 0;
//! - `channel <channel> <id>` says which channel the upstream channel of this id is;
//! - `sid <channel> <sid> <flow>` gives a service identifier of a channel to a flow;
//! - a comment begins with `#`.
//!
//! [`read_map`] reads a [`CaptureMap`], or reports the first faulty line by its number, and why by
//! a [`MapKind`]. A map has at most 16 channels and 16,384 flows, as many as a receiver.
//!
//! What matters most: a map is read exactly as its lines say one after another by the definition
//! `Reads`, and a fault is one that the first faulty line has after the lines above it; a text
//! comes to only one of these ([`laws::lines_come_to_one_thing`]).
#![tactic(auto)]

mod fields;
pub mod laws;
mod map;
mod map_fault;
mod map_line;
mod reading;

pub use lane::MOST_CHANNELS;
pub use map::{CaptureMap, MOST_FLOWS, MapChannel, MapFlow, MapSid, SID_MAX};
pub use map_fault::{MapFault, MapKind};
pub use reading::read_map;

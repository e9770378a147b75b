//! The engines of the program `segrx` that read captures.
//!
//! [`map_capture`] reads a capture of any length to its end, piece by piece, and then writes the
//! map that the registrations in it give or, where they add no SID, what was seen of SIDs as
//! comments. Of the capture it holds a piece, one record or block, the messages that are under way,
//! the map, and what was seen.
//!
//! What matters most: what is written is the text of the map of the messages that the records of
//! the bytes read tell, by the definition `IsMapText`; or a fault is reported with how many records
//! came before it, and then nothing was written.
#![tactic(auto)]

mod map_reading;
mod mapping;

pub use mapping::map_capture;

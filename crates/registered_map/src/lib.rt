//! The map that registrations give: which SIDs are of which flow, and which upstream channels are
//! the channels of a receiver.
//!
//! A recording of the downstream has the messages that tell modems their SIDs. [`RegisteredMap`]
//! takes the whole ones, each with the time and the number of its last record, one after another
//! ([`RegisteredMap::take`]), and [`put_map`] puts the map as a text with comments. It holds at
//! most 16 channels, 16,384 flows, as many SIDs as these channels have, 262,144, and 1,024 remarks,
//! whatever comes.
//!
//! A flow and a channel have a line once a SID of the flow was added on the channel, in the order
//! in which that was told first. What was added stays, also where it is deleted later, since the
//! map is one for the whole capture. Of a SID of a channel that is added to a second flow the first
//! one keeps it. A registration that is refused, and a message with a malformed TLV, tell nothing.
//! What a map can't say is left out: a seventeenth channel, a flow beyond the most, a cluster above
//! 7 and a SID above 16,383. What was deleted, kept by another flow or left out is remarked.
//!
//! What matters most: after any messages a map has what the definition `registered` makes of them,
//! whatever was refused for want of memory between them ([`RegisteredMap::take`]); and the text
//! that is put is that of the definition `map_text`.
#![tactic(auto)]

mod map_text;
mod named_flows;
mod registered_map;
mod remarks;
mod sid_owners;
mod telling;
mod telling_text;
mod told_message;

pub use map_text::put_map;
pub use registered_map::RegisteredMap;
pub use remarks::MOST_REMARKS;
pub use telling::{RegisteredChannel, RegisteredFlow, RegisteredSid, Remark, RemarkKind, Telling};

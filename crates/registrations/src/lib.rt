//! What modems are told of their service flows: the MAC management messages REG-RSP-MP and DBC-REQ
//! in a recording of the downstream.
//!
//! An analyser records the downstream too. Its packets of types 1, 8 and 11 are MAC frames, and
//! some of them hold parts of a message that tells a modem its service flows, their SID clusters,
//! and of each channel of a cluster its SID. This crate reads them. It knows no flows of a
//! receiver.
//!
//! The calls, in the order of use:
//!
//! 1. [`part_in_capture`] finds a [`Part`] of a message in a record of link type 273, or says by
//!    [`NoPart`] why there is none. [`read_part`] does so for the bytes of a packet.
//! 2. [`Unfinished`] takes parts one after another, and gives a [`WholeMessage`] with its last
//!    part, or says by [`JoinFault`] why a part is refused. It holds at most 256 messages of at
//!    most 64 KiB each, whatever comes; [`Unfinished::forget`] gives them up.
//! 3. [`told_by`] reads of the TLVs of a whole message what they tell: each a [`Told`], an upstream
//!    flow or the SID that a flow has on a channel.
//!
//! What matters most: a part is found exactly if the bytes of its packet spell one by the
//! definition `part_of`, which is the grammar of a frame with both check sequences right and of its
//! message ([`laws::frames_spell_their_message`], [`laws::messages_spell_their_parts`]). With each
//! part the message that is under way for its modem grows as the definition `joined` says, and no
//! other, so that a message whose parts come in turn is given with the last one
//! ([`laws::parts_in_turn_are_joined`]). What is told is what the definition `told_by` reads in all
//! TLVs, in their order, or nothing where one is malformed.
#![tactic(auto)]

mod joining;
pub mod laws;
mod message;
mod part;
mod record_part;
mod tell;
mod told;
mod unfinished;
mod values;

pub use joining::{JoinFault, LONGEST_MESSAGE, MOST_UNDER_WAY, WholeMessage};
pub use message::NoPart;
pub use part::{MessageName, Part, read_part};
pub use record_part::part_in_capture;
pub use told::{Action, ChannelSid, Told, ToldFault, UpstreamFlow, told_by};
pub use unfinished::Unfinished;

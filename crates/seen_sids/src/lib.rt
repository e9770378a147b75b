//! Which SIDs carry segments in a capture: what can be said of its flows where it has no
//! registrations.
//!
//! [`SeenSids`] takes the bursts with a segment header one after another ([`SeenSids::take`]) and
//! counts them by upstream channel and SID: how many, how many of them with a wrong header check,
//! and of those with a right one the first 32 numbers and the last. It holds at most 1,024 pairs of
//! a channel and a SID; bursts of others are counted together. [`put_seen`] puts all that as a
//! table of comments, for a person who writes the map.
//!
//! With a row stands the first row above it with which it looks like one flow: a guess. Two SIDs
//! look so where, of the first 32 numbers of each, none is of both, and one of one of them lies
//! from the first to the last of the other. A flow that is sent on one SID alone leaves no number
//! in between for another, and the numbers of two flows mostly lie apart or have some in common.
//!
//! What matters most: after any bursts the rows are those that the definition `with_burst` counts,
//! one burst after another ([`SeenSids::take`]), and the text that is put is that of the definition
//! `seen_text`.
#![tactic(auto)]

mod guess;
mod seen;
mod seen_sid;
mod seen_text;

pub use seen::{MOST_PAIRS, SeenSids};
pub use seen_sid::{KEPT_NUMBERS, SeenSid};
pub use seen_text::put_seen;

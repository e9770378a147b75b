//! A trace that is followed: a receiver to which what its lines say is handed in as they are read,
//! and what happens.
//!
//! [`FollowInput`] takes the lines of a trace of up to 16 channels and 16,384 flows, and puts the
//! lines of what happens by them, of all flows or of some, as the caller asks for them;
//! [`finish_follow`] closes its receiver, and [`put_end`] puts what is left.
//!
//! **Where some flows alone are selected**, a burst that would come to none of them is handed to
//! the receiver with zeros behind its header: the digits behind it are looked at and not decoded,
//! and nothing of it is joined. What is put is still a part of what happens for the whole trace,
//! which nobody made: beside all that was handed in the contracts keep what is given and told of
//! the whole, by the laws of `answers`.
//!
//! The lines and their texts are those of `texts`.
#![tactic(auto)]

mod follow_input;
mod following;

pub use follow_input::{FollowInput, Followed, finish_follow, put_end};
pub use following::Following;

//! What a receiver gives, and what takes it.
//!
//! A receiver gives whole frames of its flows and requests of its channels, one after another: each
//! is a [`Given`]. A [`Consumer`] is given them by its methods, [`Consumer::frame`] and
//! [`Consumer::request`]. It never refuses, and is asked for nothing.
//!
//! What a consumer makes of what it is given is its own: its relation `after` says which list led
//! from one of its states to another. Three are here:
//!
//! - [`Collected`] keeps everything, as long as it has memory, the frames of each flow in a
//!   [`FrameList`], in which short ones stand end to end;
//! - [`Counts`] counts frames, their bytes and requests;
//! - [`Forgets`] keeps nothing.
//!
//! [`give_frames`] and [`give_request`] give a consumer several frames, or a request if there is
//! one; [`laws`] has what holds of these consumers before and after they are given something.
#![tactic(auto)]

mod collected;
mod consumer;
mod counts;
mod forgets;
mod frame_list;
mod given;
mod giving;
pub mod laws;

pub use collected::Collected;
pub use consumer::Consumer;
pub use counts::Counts;
pub use forgets::Forgets;
pub use frame_list::{FrameList, Frames};
pub use given::Given;
pub use giving::{give_frames, give_request};

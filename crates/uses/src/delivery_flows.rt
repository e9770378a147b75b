//! Many flows with a ring each, whose takers one thread serves in turn: of each flow, all that was
//! offered is taken.

mod consumed;
mod consuming;
mod settled_rings;

pub use consumed::{Consumed, Look};
pub use consuming::{begin, take_all};
pub use settled_rings::settle_all;

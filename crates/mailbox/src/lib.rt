//! Five senders post into one mailbox, and one taker takes what they posted.
//!
//! A mailbox is one queue with room for so many entries of all senders together. It is generic in
//! the item.
//!
//! The calls, in the order of use:
//!
//! 1. [`open`] makes a mailbox with room for a number of entries: five ports, each to be used by a
//!    thread of its own, and one mouth. It alone takes memory.
//! 2. [`Port::post`] posts an item, or gives it back where the mailbox is full; who posts decides
//!    whether to try again.
//! 3. [`Port::close`] posts the end mark, after which a port has no post.
//! 4. [`Mouth::next`] takes an item or an end mark with the number of its sender, 0 to 4, or
//!    answers `Empty`. Those of one sender come in the order in which they were posted; between two
//!    senders there is no order.
//! 5. [`Mouth::all_ended`] asks whether the end marks of all five were taken.
//! 6. [`settle`] counts, once the threads have returned, what was posted and not taken.
//!
//! The contract that matters most is that of [`settle`]: what each port posted is what the mouth
//! took of it, followed by what is left, and nothing is left of a sender whose end mark was taken.
//! Before it nothing is known of what other threads did. Nothing is promised of progress or of
//! fairness.
//!
//! A caller that is proved: `crates/uses/src/five_senders.rt` posts five lists from five threads
//! and takes them in one order.
#![tactic(auto)]

mod counting;
mod entry;
mod mouth;
mod opening;
mod port;
mod rule;
mod settling;
mod taken;
mod view;

pub use mouth::Mouth;
pub use opening::{OpenFault, Ports, open};
pub use port::{ClosedPort, Full, Port};
pub use settling::{ClosedPorts, Settled, settle};
pub use taken::Taken;

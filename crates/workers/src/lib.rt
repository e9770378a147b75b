//! The workers of a running receiver, and what they and its caller work with.
//!
//! Seven workers run beside the caller: one for each source, one that passes the decisions on, one
//! that takes the requests and gives them to the scheduler, and one that takes the frames and gives
//! them to the consumer. They stand below `uplink`, whose receiver they serve; nothing here looks
//! into a flow.
//!
//! The calls, in the order of use:
//!
//! 1. [`open_mailbox`] opens a mailbox, and [`open_rings`] the ring of each flow; [`Signals::new`]
//!    makes what threads tell each other by: when to begin, and when to wake.
//! 2. [`Work::new`] gives each worker its part of what was opened. [`Sources`], [`LiveDecisions`]
//!    and [`Consumers`] are what the caller brings.
//! 3. [`start_team`] starts all workers, and hands each its part once all are there; where one
//! can't
//!    be started, everything comes back as it was. [`Team::join`] waits for them and hands on what
//!    they have [`Done`]. The consumers come back from both, whatever failed.
//! 4. Meanwhile the caller takes [`Item`]s and drives the feeders: [`flush_all`] and
//!    [`close_feeders`]. It waits by [`MouthWait`].
//! 5. [`settle_rings`] settles the rings.
#![tactic(auto)]

mod both;
mod channel_input;
mod consumers;
mod decision_worker;
mod feeders;
mod frame_worker;
mod item;
mod lane_notes;
mod lane_worker;
mod live_source;
mod mailboxes;
mod mouth_wait;
mod request_worker;
mod retry;
mod rings;
mod signals;
mod source;
mod stopping;
mod strays;
mod team;
mod waiting;
mod work;
mod worker;

pub use both::{both_done, both_made};
pub use channel_input::ChannelInput;
pub use consumers::Consumers;
pub use feeders::{close_feeders, flush_all, wait_for_room};
pub use item::Item;
pub use lane_notes::{LaneNotes, SourceNotes};
pub use lane_worker::LaneDone;
pub use live_source::{Foreknown, LiveDecisions, LiveSource, OnChannel};
pub use mailboxes::{OpenMailbox, open_mailbox};
pub use mouth_wait::MouthWait;
pub use rings::{Rings, open_rings, settle_rings};
pub use signals::{MailboxSignals, Signals};
pub use source::{Decisions, ListDecisions, ListSource, Source, Sources};
pub use stopping::{Stoppable, Stopper};
pub use strays::Strays;
pub use team::{Done, Joined, Team, start_team};
pub use work::{Lanes, Share, Work};

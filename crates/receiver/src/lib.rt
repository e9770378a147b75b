//! A receiver on one thread: grants and bursts of up to 16 channels, and decisions, become what
//! each of up to 16,384 flows gave.
//!
//! What a receiver is set up with is a [`Setup`]: the flows' records and the rows of service
//! identifiers. How wide it is says a [`Width`].
//!
//! **One input at a time**, for days. The calls, in the order of use:
//!
//! 1. [`Receiver::new`] checks the setup and makes the lanes. A flow's own memory is asked for when
//!    its first segment comes.
//! 2. [`Receiver::take`] takes a grant or a burst of a channel, and gives each frame and each
//!    request that comes of it to a consumer; its [`Reply`] says what became of the input.
//!    [`Receiver::look`] says before to which flow it would come. [`Receiver::decide`] takes a
//!    decision that segments are lost, [`Receiver::restart`] has a flow begin anew.
//!    [`Receiver::go_on`] does what a failed allocation left to be done of a flow.
//! 3. [`Receiver::expected`], `held`, `counts`, `outstanding` and `tally` say at any time how far
//!    it has come.
//! 4. [`Receiver::close`] closes each flow; [`Closing`] goes on where memory was refused.
//!
//! `uses::one_at_a_time` of this repository is a caller that is proved.
//!
//! **Recorded inputs** of four channels and 64 flows, the loops over such a receiver:
//!
//! 1. What was recorded are [`Lists`]: the inputs of each channel, and [`Decision`]s.
//!    [`admitted_order`] makes the order of the items from the senders of all inputs and decisions;
//!    [`check_order`] checks one.
//! 2. [`replay`] plays the lists in such an order, and gives an [`Outcome`]. Its contract is the
//!    one-thread answer of the definitions. [`replay_by`] decides besides by a rule which segments
//!    are lost; [`replay_tags_by`] goes by the senders of all inputs, in one pass.
//! 3. [`Replaying`] takes what was recorded one entry after another, and holds none of it.
//!
//! [`laws`] says what follows from the definitions: a replay has one outcome; by a loss rule a flow
//! gives exactly the modem's frames all of whose segments came in; and a flow that begins anew
//! gives what its parts give, one after another.
#![tactic(auto)]

mod closing;
pub mod laws;
mod one_thread;
mod order;
mod outcome;
mod playing;
mod receiver;
mod replaying;
mod reply;
mod setup;
mod tallied_lane;
mod tally;
mod width;

pub use bonded_flows::{DecideFault, FlowDecision, NotReady, SegmentVerdict, Told};
pub use closing::{Closed, Closing};
pub use consumer::{FrameList, Frames};
pub use flow_records::{Decision, MOST_FLOWS};
pub use one_thread::{ReplayFault, admitted_order, replay, replay_by, replay_tags_by};
pub use order::check_order;
pub use outcome::{FlowOutcome, Outcome};
pub use receiver::Receiver;
pub use replaying::Replaying;
pub use reply::{DecisionReply, Reply, RestartError, TakeError};
pub use setup::{BadSetup, Lists, Setup, SetupError};
pub use tally::LaneTally;
pub use width::{Width, WidthFault};

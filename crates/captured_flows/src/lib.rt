//! The bursts of a capture, turned into what is handed in to a receiver.
//!
//! A capture has bursts with times; a [`receiver`] takes grants, bursts and decisions, and knows no
//! time. [`CapturedFlows`] stands between them, for a [`capture_map::CaptureMap`], and joins the
//! selected flows alone:
//!
//! 1. [`CapturedFlows::new`] makes the receiver of 16 channels, with the map's flows and rows, of
//!    which the selected flows are joined.
//! 2. [`CapturedFlows::take`] takes a [`CapturedBurst`]. One whose channel or service identifier
//!    the map doesn't have is passed over. One that its lane refuses is handed in at once, its
//!    grant and itself. Any other comes to its flow by the rules of `capture_rules`: it waits for
//!    its turn on its channel; it is kept while its flow begins, or begins anew after a silence;
//!    and then it is handed in, after a skip to the last segment that was held for longer than
//!    [`Waits::wait`].
//! 3. [`CapturedFlows::end_waiting`] hands on what waits, of one flow after another, and
//!    [`CapturedFlows::into_receiver`] gives the receiver, to be closed.
//!
//! What is given goes to a [`CaptureConsumer`], which is told of each burst before it is handed in:
//! so it knows which burst completed a frame. It is told, too, of each flow that begins anew, with
//! what was counted of it.
//!
//! What matters most: what is handed in is what the definitions `SpellsBurst`, `SpellsBursts` and
//! `EndsAll` say of the bursts, their times and the numbers that the receiver expects, and the
//! receiver stands for it: so what is given is what the receiver's definitions give for it. What
//! happens stands beside it, move by move, by the definition `Plays`: what a burst gives stands
//! behind that burst and before the next. And the consumer saw what is seen of that where those
//! flows are selected (`AreSeenOf`), though nobody joined the others' frames.
#![tactic(auto)]

mod burst_taken;
mod capture_consumer;
mod captured_burst;
mod captured_flows;
mod flow_bursts;
mod map_setup;
mod sids;
mod sound_burst;
mod taken_inputs;
mod waits;

pub use burst_taken::BurstTaken;
pub use capture_consumer::CaptureConsumer;
pub use captured_burst::CapturedBurst;
pub use captured_flows::CapturedFlows;
pub use selected_receiver::FlowFault;
pub use sound_burst::SoundBurst;
pub use waits::Waits;

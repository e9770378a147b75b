//! The receiver on threads, and all that it stands on: an upstream of up to 16 channels.
//!
//! [`receive`] receives what four [`LiveSource`]s and [`LiveDecisions`] give, on as many channels
//! as its [`Width`] says, and gives each frame to one [`Consumer`] and each request to another as
//! they come: four lane workers, one for the decisions, one that takes requests and one that takes
//! frames, beside the caller, which is the assembler. Its clause `received` is the sentence that
//! the whole project serves, of what the two were given; what was taken earlier is a law,
//! [`consumers_take_the_delivery_sequence`](laws::consumers_take_the_delivery_sequence). [`run`]
//! does the same for four channels, with consumers that keep everything.
//!
//! The calls, in the order of use:
//!
//! 1. A [`Setup`] says which flows and service identifiers there are, and a [`Width`] how many
//!    there may be; [`Sources`] are what comes in.
//! 2. [`receive`] gives back the two consumers with what was counted ([`Received`]), or with the
//!    fault ([`ReceiveError`]).
//! 3. [`run`] gives the [`Outcome`], or says why there is none ([`RunFault`]); its [`Taps`] look
//!    on.
//!
//! `count_received` in the crate `uses` is a caller that is proved from the contract of [`receive`]
//! alone, and `run_caller` one of [`run`]. The lanes of the crate `lane` and the receiver on one
//! thread of the crate `receiver` are re-exported: [`Lane`], [`replay`], [`admitted_order`] and
//! their types.
#![tactic(auto)]

mod assembler;
mod eight_threads;
mod faults;
mod feeding;
mod finish;
pub mod laws;
mod open;
mod receiving;
mod tap;
mod tapped;

pub use consumer::{Collected, Consumer, Counts, Forgets, FrameList, Frames, Given};
pub use eight_threads::{run, run_by};
pub use faults::RunFault;
pub use lane::{
    Admitted, Answer, CHANNELS, Input, Lane, LaneFault, LaneReport, Refusal, Request, SidRow,
    SidTable,
};
pub use loss_rule::LossRule;
pub use receiver::{
    BadSetup, Decision, FlowOutcome, LaneTally, Lists, Outcome, ReplayFault, Setup, Width,
    WidthFault, admitted_order, check_order, replay, replay_by,
};
pub use receiving::{ReceiveError, Received, receive};
pub use tap::{NoTap, Tap, Taps};
pub use workers::{
    ChannelInput, Decisions, Foreknown, ListDecisions, ListSource, LiveDecisions, LiveSource,
    OnChannel, Source, Sources, Stoppable, Stopper, Strays,
};

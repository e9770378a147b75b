//! Continuous concatenation and fragmentation, the receiving side: segments of one service flow, in
//! order, are joined into the frames that the modem cut up.
//!
//! A [`Joiner`] keeps the unfinished bytes of one frame, and nothing else. It takes segments that
//! are in order already, as the window of `reorder` gives them.
//!
//! The calls, in the order of use:
//!
//! 1. [`Joiner::new`] begins with nothing unfinished.
//! 2. [`Joiner::feed`] takes the next segment, which is ready, and answers the frames that it
//!    completes and how many bytes were skipped: fill, malformed bytes, and what can't be joined.
//!    The caller hands in the check of frames' headers, or `NoCheck`.
//! 3. [`Joiner::gap`] says that the next segment is lost: what is unfinished is dropped, and
//!    joining resumes at the next segment's pointer.
//! 4. [`Joiner::is_idle`] asks whether nothing is unfinished.
//!
//! [`Joiner::feed_unless_whole`] in place of `feed` leaves a segment that is one whole frame by
//! itself to the caller, who can keep its payload as it is.
//!
//! What matters most: the clause `fed` on [`Joiner::feed`]. It names the frames that a segment
//! completes and what is unfinished after it, by a split of the bytes, and does not say how the
//! bytes are gone through. [`laws`] says that the answer is the only one, and that over a modem's
//! lawful cut it is exactly the frames that end in each segment, without those of which an earlier
//! segment was lost.
//!
//! Callers that are proved: `crates/uses/src/burst.rt` feeds one burst, and
//! `crates/uses/src/flow.rt` joins the segments of a flow that came in any order.
#![tactic(auto)]

mod front;
mod joiner;
pub mod laws;
mod unfinished;

pub use joiner::{Fed, FedUnlessWhole, Joiner};

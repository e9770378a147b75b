//! The frames that an analyser joined itself, set beside those that are joined here.
//!
//! A [`FrameComparison`] takes the frames of two sides, flow by flow and in order, as they come,
//! and tells how many are in both, and which only one side has. Frames are equal where each byte
//! is. It does so in bounded memory: of each flow and side at most [`LONGEST_WAIT`] frames wait for
//! their equals, and of each side the first [`MOST_LISTED`] that only it has are listed. Of a frame
//! of more than 65,541 bytes, the most that a MAC frame has, only the first 16 are kept: it equals
//! none.
//!
//! A frame's equal is the first waiting frame of the other side with the same bytes. It is in both
//! then, and what waits before it on the other side, and all that waits on its own, is given up:
//! only that side has it. A frame without an equal waits, and where too many wait the first is
//! given up.
//!
//! The calls, in the order of use: [`FrameComparison::new`], [`FrameComparison::take`] for each
//! frame of either [`Side`], [`FrameComparison::finish`] once, and then
//! [`FrameComparison::counts`], [`FrameComparison::lonely`] and [`FrameComparison::is_equal`], or
//! [`put_comparison`], which puts them as lines for people. Who makes another text of them leaves
//! out the flows of which nothing was counted ([`ComparedCounts::is_quiet`]), and finds the reason
//! of a listed frame by its place ([`reason_at`]).
//!
//! What matters most: what is counted and listed is what the definitions `with_frame` and
//! `finished` make of all that was taken, as long as no allocation failed
//! ([`FrameComparison::is_whole`]). [`laws`] says of them that the frames in both are the same
//! frames of both sides in one order, and that both sides gave the same where no frame is only one
//! side's.
#![tactic(auto)]

mod coming_frame;
mod compared_counts;
mod comparison;
mod comparison_lines;
pub mod laws;
mod lonely_frame;
mod one_side;
mod reasons;
mod settle;
mod side;
mod waiting_frame;

pub use compared_counts::ComparedCounts;
pub use comparison::FrameComparison;
pub use comparison_lines::put_comparison;
pub use lonely_frame::{LonelyFrame, MOST_LISTED, SHOWN_BYTES};
pub use one_side::LONGEST_WAIT;
pub use reasons::reason_at;
pub use side::Side;

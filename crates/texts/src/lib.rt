//! The texts of segrx: bytes into values and back, without a device and without a command line.
//!
//! A text is a list of lines. A call takes a whole input and answers the whole text that stands for
//! it; otherwise it reports the first faulty line with the least kind of its faults, or that an
//! allocation failed. In the order of use:
//!
//! - [`cut_lines`] cuts the frames of an input into the pieces that it names, and answers their
//!   segments; it may also report the first fault of the cut. [`join_lines`] joins segments, one a
//!   line, and answers their frames.
//! - [`replay_lines`] plays a trace in the order of its lines on the caller's thread, and answers
//!   the report of what each flow gave. [`replay_lines_by`] decides besides by a rule which
//!   segments are lost.
//! - For a receiver of one's own, [`parse_trace`] reads a trace into the setup, the lists and the
//!   tags that `receiver` and `uplink` take, and [`report`] prints its outcome.
//!
//! - Where an input comes in pieces, [`CutInput`], [`JoinInput`] and [`Reading`] are what its lines
//!   are to be taken by, of a cut, of a join and of a trace; so the crate `commands` receives a
//!   trace on threads. [`ReplayInput`] replays a trace as its lines are taken, and
//!   [`SelectedReplay`] for some flows, whose other bursts it doesn't decode. [`put_cut`] puts the
//!   lines of a cut, [`put_report`] a report, and [`put_report_of`] that of some flows alone.
//! - A trace that is followed has the lines of what happens ([`Happening`]) as its lines are taken,
//!   and with events also what became of each input and each decision, of all flows or of some
//!   ([`FollowSettings`]): [`put_happened`] puts them, and [`put_closed`] what was counted at the
//!   end. The crate `followed_traces` has the receiver of which they are told. What takes its
//!   entries, and what replays them, is handed them by a [`TraceInput`].
//!
//! The lines and fields of all these formats, and the faults of a line, are those of `text_lines`;
//! those of its names that a caller needs are exported here too.
//!
//! [`laws`] states that an input has at most one text, but for `run`, or at most one fault, and
//! never both.
//!
//! The same without texts: `crates/uses/src/cut_joined_again.rt` cuts frames and joins their
//! segments again.
#![tactic(auto)]

mod cut;
mod follow;
mod join;
pub mod laws;
mod replay;
mod report_lines;
mod report_text;
mod trace;

pub use cut::{CutInput, cut_lines, put_cut};
pub use follow::{
    FollowSettings, Happening, HappeningList, InputKind, InputName, flow_admitted, put_closed,
    put_happened,
};
pub use join::{JoinInput, join_lines};
pub use replay::{
    ReplayInput, SelectedReplay, UnderWay, finish_replay, leaves_none_out, replay_lines,
    replay_lines_by,
};
pub use report_lines::{put_flow_line, put_frame_line, put_lane_line, put_request_line};
pub use report_text::{put_report, put_report_of, report};
pub use text_lines::{
    Capacities, DEFAULT_CAPACITY, ParseFault, TextFault, TraceFault, TraceKind, read_number,
};
pub use trace::{Reading, TakeEntries, Trace, TraceInput, parse_trace};

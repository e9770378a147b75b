//! The engines of the program `segrx` between a reader and a writer, but that of `run`, which
//! stands in `commands`.
//!
//! A [`Device`] is put round a reader or a writer and remembers whether a call of it failed. In the
//! order of use:
//!
//! - [`read_words`] reads what the arguments of the program ask for.
//! - [`join_text`], [`cut_text`] and [`replay_text`] are the engines. Each reads its input to the
//!   end, piece by piece, and only then writes its text, as its lines are made. [`replay_text_by`]
//!   decides besides by a rule which segments are lost, and [`replay_text_of`] reports some flows.
//! - [`follow_text`] is the engine of `follow`, which writes what a line brings before it reads on.
//!   Its reader is a [`ReadBehind`], which may be shown the output at each read, as
//!   [`read_behind`] makes one.
//! - [`read_lines`] reads an input piece by piece, and [`write_report`] writes a report in the room
//!   that [`held_room`] gives, for the engine of `run`; [`write_text`] writes a whole text.
//! - [`TextWriter`] writes a text as it is put, and [`read_some`] makes one read without a limit
//!   into the room that [`zeros`] gives, for the engines of other crates.
//! - [`write_fault`] writes the line of a fault, and [`status`] is its exit status.
//!
//! What matters most: they write exactly the text that stands for the lines they read; or they
//! report the first faulty line and its least kind of fault, and then write nothing, but for
//! `follow_text`, which has written the text of the lines above. Where no line is at fault,
//! `cut_text` reports the first fault of the frames and pieces.
//!
//! `crates/uses/src/run_caller.rt` calls the receiver of `run` without a program, and learns which
//! of a modem's frames the consumer of each flow took.
#![tactic(auto)]

mod cut;
mod device;
mod fault;
mod fault_line;
mod flushed_reads;
mod follow;
mod join;
mod lines_read;
mod replay;
mod text_writer;
mod transfer;

pub use command_line::{Command, UsageFault, read_words};
pub use cut::cut_text;
pub use device::Device;
pub use fault::{EngineFault, PlacedFault, WriteFault, exit_status, status};
pub use fault_line::write_fault;
pub use flushed_reads::ReadBehind;
pub use follow::follow_text;
pub use join::join_text;
pub use lines_read::read_lines;
pub use replay::{replay_text, replay_text_by, replay_text_of, write_report};
pub use text_writer::{TextWriter, held_room};
pub use transfer::{INPUT_MAX, PIECE_BYTES, read_behind, read_some, write_text, zeros};

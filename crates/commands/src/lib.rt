//! The command `run` between a reader and a writer, and the whole program over any two writers and
//! any reader that may be shown the output.
//!
//! [`run_text`] is the engine of `run`: it reads its input to the end, piece by piece, has the
//! receiver take it on threads, and writes the report; [`run_text_by`] decides besides by a rule
//! which segments are lost. [`program`] is the whole program: it reads what its words ask for and
//! runs that command's engine, of this crate or of `engines`; [`run_words`] is it between devices,
//! and [`report_outcome`] its end.
//!
//! `run_text` writes a text that may stand for the lines it reads, or it reports the first faulty
//! line and its least kind of fault, and then writes nothing.
#![tactic(auto)]

mod run;
mod run_trace;
mod whole_program;

pub use run::{run_text, run_text_by};
pub use whole_program::{program, report_outcome, run_words};

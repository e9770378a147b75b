//! The lines of segrx's texts and their fields, read and written, and the faults of a line.
//!
//! A text is a list of lines, and a line has fields, its words; a comment and an empty line have
//! none. Which fields a line may have is said by a format. The formats themselves stand in `texts`.
//! In the order of use:
//!
//! - [`TakeLine`] says what is made of the lines of one format. [`take_lines`] hands it the lines
//!   of an input that have fields, one after another, and reports the first faulty line by its
//!   number ([`ParseFault`]). A format with faults of its own walks over its lines itself, by
//!   [`split_line`] and [`split_field`].
//! - [`LineReader`] does so where the input comes in pieces: [`LineReader::take_piece`] takes the
//!   lines that end in a piece, [`LineReader::finish`] the last one. It holds the bytes of one
//!   line, and what was taken is what is taken of all pieces end to end. Who has to do something
//!   behind each line splits a piece by [`split_behind_line`], and each part of it is taken by
//!   [`LineReader::take_one_line`]. [`LineInput`] is one with what is made of its lines, for an
//!   input that is read to its end even where a line is faulty.
//! - [`no_word`], [`only_word`], [`only_two_words`], [`only_three_words`] and [`only_four_words`]
//!   split what follows the first field of a line, where it has just so many words, and
//!   [`three_words`] where there may be more.
//! - [`read_number`], [`read_number_in`] and [`read_hex`] read a field, [`read_if_hex`] one that
//!   needn't be hexadecimal, and [`read_only_hex`] what is to be the last one of a line. Of such a
//!   field [`likely_field`] says where it stands, [`read_hex_front`] decodes the first digits, and
//!   [`is_hex`] looks at all and decodes none. [`put_word`], [`put_number`], [`put_spaced`],
//!   [`put_seconds`] and [`put_hex`] write one to whatever takes a text, [`PutText`]:
//!   [`TextBuffer`] keeps it.
//! - What is wrong with a line is a [`LineFault`], its kind a [`TraceKind`]; a failed allocation,
//!   the fault of a segment and that of a cut become faults of lines and of texts by `?`.
//! - [`Capacities`] says how much room a receiver of a trace has, [`DEFAULT_CAPACITY`] where no
//!   other is asked for.
//!
//! It needs `docsis_wire` alone, for the faults of segments and cuts, so that it is proved long
//! before the receiver whose texts it reads.
#![tactic(auto)]

mod capacities;
mod digit_block;
mod digit_writer;
mod digits;
mod fault;
mod field;
mod line_input;
mod line_reader;
mod lines;
mod number;
mod put_text;
mod text_buffer;
mod words;

pub use capacities::{Capacities, DEFAULT_CAPACITY};
pub use fault::{LineFault, ParseFault, TextFault, TraceFault, TraceKind};
pub use field::{is_hex, likely_field, read_hex, read_hex_front, read_if_hex, read_only_hex};
pub use line_input::LineInput;
pub use line_reader::LineReader;
pub use lines::{TakeLine, split_behind_line, split_line, take_lines};
pub use number::{read_number, read_number_in};
pub use put_text::{
    NANOSECONDS_PER_SECOND, PutText, put_hex, put_number, put_seconds, put_spaced, put_word,
};
pub use text_buffer::TextBuffer;
pub use words::{
    no_word, only_four_words, only_three_words, only_two_words, only_word, split_field, three_words,
};

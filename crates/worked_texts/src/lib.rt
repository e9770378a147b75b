//! Texts that were worked out by hand: the tests of the crates `texts` and `text_lines`, and the
//! [`samples`] that `worked_engines` takes too.
//!
//! They show what no clause says, and no run of the program: that calls succeed, that a failed
//! allocation is reported, and what single calls answer. They stand apart from these, so that they
//! are proved once and not a second time with their tests. There is nothing here for a caller.
#![tactic(auto)]

#[cfg(test)]
mod cut_texts;
#[cfg(test)]
mod failed_allocations;
#[cfg(test)]
mod fault_texts;
#[cfg(test)]
mod faulty_lines;
#[cfg(test)]
mod faulty_traces;
#[cfg(test)]
mod flow_lines;
#[cfg(test)]
mod greatest_frame;
#[cfg(test)]
mod hex_blocks;
#[cfg(test)]
mod hex_fields;
#[cfg(test)]
mod join_texts;
#[cfg(test)]
mod line_fields;
#[cfg(test)]
mod line_words;
#[cfg(test)]
mod lines_in_pieces;
#[cfg(test)]
mod looked_at_fields;
#[cfg(test)]
mod number_fields;
#[cfg(test)]
mod ruled_texts;
#[cfg(test)]
mod selected_flows;
#[cfg(test)]
mod taken_lines;
pub mod text_samples;
#[cfg(test)]
mod trace_lines;
#[cfg(test)]
mod traces_read;

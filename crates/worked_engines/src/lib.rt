//! Runs of the engines and of the program on texts that were worked out by hand: the tests of the
//! crates `engines`, `commands` and `command_line`.
//!
//! They show what no clause says, and no run of the program: failing devices, out of memory, the
//! longest input, taps, and what single calls answer. They stand apart from these, so that they are
//! proved once and not a second time with their tests. There is nothing here for a caller.
#![tactic(auto)]

#[cfg(test)]
mod command_words;
#[cfg(test)]
mod devices;
#[cfg(test)]
mod engine_faults;
#[cfg(test)]
mod failed_allocations;
#[cfg(test)]
mod fitful;
#[cfg(test)]
mod followed;
#[cfg(test)]
mod inputs_in_pieces;
#[cfg(test)]
mod limits;
#[cfg(test)]
mod long_texts;
#[cfg(test)]
mod running;

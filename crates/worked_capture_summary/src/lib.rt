//! What is counted of captures and put of it, worked out by hand: the tests of `capture_summary`.
//!
//! They stand apart from it, so that it is proved once and not a second time with them. There is
//! nothing here for a caller.
#![tactic(auto)]

#[cfg(test)]
mod counting;
#[cfg(test)]
mod frames;
#[cfg(test)]
mod texts;

//! Mailboxes and rings that were worked out by hand: the tests of `mailbox` and `delivery`.
//!
//! They stand apart from these crates, so that those are proved once and not a second time with
//! their tests. There is nothing here for a caller.
#![tactic(auto)]

#[cfg(test)]
mod mailboxes;
#[cfg(test)]
mod rings;

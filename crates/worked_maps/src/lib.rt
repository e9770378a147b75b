//! Maps that registrations give, and what is seen where a capture has none, worked out by hand: the
//! tests of `registered_map`, `seen_sids` and `capture_engines`.
//!
//! They stand apart from these crates, so that each is proved once and not a second time with them.
//! There is nothing here for a caller.
#![tactic(auto)]

#[cfg(test)]
mod mapped_captures;
#[cfg(test)]
mod registered;
#[cfg(test)]
mod sids_seen;

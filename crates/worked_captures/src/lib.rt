//! Captures that are read and written, worked out byte by byte: the tests of `capture`, of
//! `registrations` and of `capture_map`.
//!
//! They stand apart from these crates, so that each is proved once and not a second time with them.
//! There is nothing here for a caller.
#![tactic(auto)]

#[cfg(test)]
mod bursts;
#[cfg(test)]
mod captures;
#[cfg(test)]
mod maps;
#[cfg(test)]
mod modem_messages;
#[cfg(test)]
mod pcap;
#[cfg(test)]
mod pcapng;
#[cfg(test)]
mod written;

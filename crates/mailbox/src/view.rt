//! What a pass of the queue knows. It exists in proofs alone: no value of these types is made.
use crate::entry::{Entry, Stamped};
use std::collections::LinkedList;

/// All entries that a sender posted.
pub struct PortLog<T> {
    pub from: u8,
    pub entries: LinkedList<Entry<T>>,
}

/// A port has its own log. The mouth has what it took, how many ports were made, and the logs of
/// the ports that were joined to it.
pub struct View<T> {
    pub logs: LinkedList<PortLog<T>>,
    pub takes: bool,
    pub made: u8,
    pub got: LinkedList<Stamped<T>>,
}

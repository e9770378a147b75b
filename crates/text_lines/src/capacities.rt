//! How much room a receiver of a trace has.

/// How many entries the mailboxes and rings have room for where nothing else is asked for.
pub const DEFAULT_CAPACITY: u16 = 1024;

/// How much room there is between a receiver's parts.
#[derive(Clone, Copy, Debug, PartialEq, Eq)]
pub struct Capacities {
    /// How many entries each of the two mailboxes has room for, end marks included.
    pub mailbox: u16,
    /// How many frames the ring of each flow has room for, its end mark included.
    pub ring: u16,
}

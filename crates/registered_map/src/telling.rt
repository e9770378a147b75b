//! What messages told, each with the message that told it.

use registrations::{ChannelSid, MessageName};

/// The message by which something was told.
#[derive(Clone, Copy, Debug, PartialEq, Eq)]
pub struct Telling {
    /// The address of the modem that it was sent to, of 48 bits.
    pub modem: u64,
    pub message: MessageName,
    /// When its last part was captured, in nanoseconds since the beginning of 1970.
    pub nanoseconds: u64,
    /// Which record of the capture that part is, counted from 1.
    pub place: u64,
}

/// A flow of which a SID was added.
#[derive(Clone, Copy, Debug, PartialEq, Eq)]
pub struct RegisteredFlow {
    /// The service flow identifier.
    pub sfid: u32,
    /// One more than the greatest cluster of which a SID was added, 1 to 8.
    pub clusters: u8,
    /// The message that told it first.
    pub telling: Telling,
}

/// A channel on which a SID was added.
#[derive(Clone, Copy, Debug, PartialEq, Eq)]
pub struct RegisteredChannel {
    /// The channel, 0 to 15.
    pub channel: u8,
    /// The upstream channel id.
    pub id: u8,
    /// The message that told it first.
    pub telling: Telling,
}

/// A SID that was added.
#[derive(Clone, Copy, Debug, PartialEq, Eq)]
pub struct RegisteredSid {
    /// The channel, 0 to 15.
    pub channel: u8,
    /// The SID, 0 to 16,383.
    pub sid: u16,
    /// The place of its flow among the flows.
    pub flow: u16,
    /// The message that told it first.
    pub telling: Telling,
}

/// Why something that was told is remarked.
#[derive(Clone, Copy, Debug, PartialEq, Eq)]
pub enum RemarkKind {
    /// The SID was deleted.
    Deleted,
    /// The SID of the channel was added to another flow before, which keeps it.
    OfAnotherFlow,
    /// A map can't say it.
    LeftOut,
}

/// Something that was told and is in no line of the map.
#[derive(Clone, Copy, Debug, PartialEq, Eq)]
pub struct Remark {
    pub kind: RemarkKind,
    pub told: ChannelSid,
    pub telling: Telling,
}

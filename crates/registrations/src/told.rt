//! What the TLVs of a message tell a modem.
ghost use Rattle.std.specs.Prelude.{◌≡◌, IfOk, IfErr};
ghost use Rattle.registrations.specs.Told.{told_by, Refuses};
ghost use Rattle.registrations.specs.declared.told.ToldFault.TheVariants as told_fault;

use crate::tell::{OfMessage, take_tlvs};
use std::alloc::{AllocFailed, Global};
use thiserror::Error;

/// Whether a SID is given or taken.
#[derive(Clone, Copy, Debug, PartialEq, Eq)]
pub enum Action {
    /// Action 1: from now on the flow has the SID on the channel.
    Add,
    /// Action 2: from now on it hasn't.
    Delete,
}

/// What a TLV 24 says of an upstream flow. Of a TLV in it that stands twice the last one counts;
/// what isn't there isn't said.
#[derive(Clone, Copy, Debug, PartialEq, Eq)]
pub struct UpstreamFlow {
    /// The reference by which the modem asked for the flow: TLV 24.1, of two bytes.
    pub reference: Option<u16>,
    /// The service flow identifier: TLV 24.2, of four bytes.
    pub sfid: Option<u32>,
    /// The SID of a flow that isn't bonded: TLV 24.3, of two bytes.
    pub sid: Option<u16>,
    /// The request and transmission policy: TLV 24.16, of four bytes.
    pub policy: Option<u32>,
}

/// What a TLV 47 says of one SID of a flow.
#[derive(Clone, Copy, Debug, PartialEq, Eq)]
pub struct ChannelSid {
    /// The service flow identifier: TLV 47.1, of four bytes.
    pub sfid: u32,
    /// The SID cluster: TLV 47.2.1, of one byte.
    pub cluster: u8,
    /// The upstream channel id: TLV 47.2.2.1, of one byte.
    pub channel: u8,
    /// The SID: TLV 47.2.2.2, of two bytes.
    pub sid: u16,
    /// TLV 47.2.2.3, of one byte.
    pub action: Action,
}

/// What a message tells a modem, one thing.
#[derive(Clone, Copy, Debug, PartialEq, Eq)]
pub enum Told {
    /// An upstream flow: TLV 24.
    Flow(UpstreamFlow),
    /// The SID that a flow has on a channel, or has no longer: TLV 47.
    Sid(ChannelSid),
}

/// Why it isn't known what a message tells.
#[derive(Clone, Copy, Debug, PartialEq, Eq, Error)]
pub enum ToldFault {
    /// A TLV overruns what it stands in, a number has another length than it has, one that has to
    /// be there isn't, or an action is neither 1 nor 2.
    #[error("a malformed TLV")]
    Malformed,
    /// An allocation failed.
    #[error("out of memory")]
    OutOfMemory,
}

impl<T: Drop> From<AllocFailed<T>> for ToldFault {
    ghost from_gives = { λ _ fault. fault ≡ told_fault.OutOfMemory };

    fn from(_: AllocFailed<T>) -> ToldFault {
        ToldFault::OutOfMemory
    }
}

/// What the TLVs of a whole message tell, in their order. TLVs of all other types are passed over,
/// and are whole.
pub fn told_by(alloc: Global, tlvs: &[u8]) -> Result<Vec<Told>, ToldFault>
    ensures told { IfOk result (λ told. told_by tlvs.now ≡ Some told.items) }
    ensures fault { IfErr result (Refuses (told_by tlvs.now)) }
{
    let mut told = Vec::new(alloc);
    take_tlvs(&OfMessage, &mut told, tlvs)?;
    Ok(told)
}

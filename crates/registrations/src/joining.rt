//! The parts of a message, one after another.
ghost use Rattle.std.specs.Prelude.{◌≡◌};
ghost use Rattle.registrations.specs.Part.{part_seen};
ghost use Rattle.registrations.specs.Joining.{same_message, precedes, open_seen};
ghost use Rattle.registrations.specs.declared.joining.JoinFault.TheVariants as join_fault;

use crate::part::{MessageName, Part};
use std::alloc::{AllocError, AllocFailed};
use thiserror::Error;

/// As many messages may be under way at once, each of another modem.
pub const MOST_UNDER_WAY: usize = 256;
/// The TLVs of a message may have so many bytes: 64 KiB.
pub const LONGEST_MESSAGE: usize = 65_536;

/// A message all of whose parts came.
#[derive(Debug, Drop)]
pub struct WholeMessage {
    /// The address of the modem that it was sent to, of 48 bits.
    pub modem: u64,
    pub message: MessageName,
    /// The TLVs of all parts, end to end: at most 64 KiB.
    pub tlvs: Vec<u8>,
}

/// Why a part is not taken.
#[derive(Clone, Copy, Debug, PartialEq, Eq, Error)]
pub enum JoinFault {
    /// It isn't the first part, and no message of its modem is under way.
    #[error("a part of a message whose first part didn't come")]
    NoBeginning,
    /// It isn't the next part of the message that is under way for its modem.
    #[error("a part that isn't the next one")]
    OutOfTurn,
    /// With it the message's TLVs have more than 64 KiB.
    #[error("a message of more than 64 KiB")]
    TooLong,
    /// It begins a message of several parts, and 256 of other modems are under way.
    #[error("more than 256 unfinished messages")]
    TooManyUnderWay,
    /// An allocation failed. The message that was under way for its modem is given up.
    #[error("out of memory")]
    OutOfMemory,
}

impl From<AllocError> for JoinFault {
    ghost from_gives = { λ _ fault. fault ≡ join_fault.OutOfMemory };

    fn from(_: AllocError) -> JoinFault {
        JoinFault::OutOfMemory
    }
}

impl<T: Drop> From<AllocFailed<T>> for JoinFault {
    ghost from_gives = { λ _ fault. fault ≡ join_fault.OutOfMemory };

    fn from(_: AllocFailed<T>) -> JoinFault {
        JoinFault::OutOfMemory
    }
}

/// A message of which the parts up to one came.
#[derive(Debug, Drop)]
pub(crate) struct UnderWay {
    pub(crate) message: MessageName,
    pub(crate) of: u8,
    /// Parts 1 to this one came.
    pub(crate) taken: u8,
    pub(crate) tlvs: Vec<u8>,
}

/// Whether two messages go by one name.
fn same_message(one: MessageName, other: MessageName) -> bool
    ensures { result ≡ same_message one other }
{
    match (one, other) {
        (
            MessageName::RegRspMp { sid, response },
            MessageName::RegRspMp {
                sid: other_sid,
                response: other_response,
            },
        ) => sid == other_sid && response == other_response,
        (
            MessageName::DbcReq { transaction },
            MessageName::DbcReq {
                transaction: other_transaction,
            },
        ) => transaction == other_transaction,
        _ => false,
    }
}

/// Whether a part is the next one of a message.
pub(crate) fn precedes(held: &UnderWay, part: Part<'_>) -> bool
    ensures { result ≡ precedes (open_seen held.now) (part_seen part.entry) }
{
    same_message(held.message, part.message)
        && held.of == part.of
        && u16::from(held.taken) + 1 == u16::from(part.number)
}

//! What a call answers.
ghost use Rattle.std.specs.Prelude.{◌≡◌};
ghost use Rattle.c_receiver.specs.Statuses.{status_number, fault_number};
ghost use Rattle.c_receiver.specs.Statuses.{number_of_width, number_of_setup};

use flow_records::SetupFault;
use lane::{LaneFault, Refusal};
use receiver::{SetupError, WidthFault};

/// What a call of a receiver answers. C sees its [`number`](Status::number).
#[derive(Clone, Copy, Debug, PartialEq, Eq)]
pub enum Status {
    /// The call is done. Of a burst: it was admitted, and its segment is kept.
    Done,
    /// A pointer is NULL that may not be. Nothing was done.
    Null,
    /// The receiver has no such channel. Nothing was done.
    NoChannel,
    /// The receiver has no such flow. Nothing was done.
    NoFlow,
    /// A sequence number is above 8191. Nothing was done.
    NumberRange,
    /// There is no such decision. Nothing was done.
    UnknownDecision,
    /// No frame, or no request, waits.
    Nothing,
    /// The room is smaller than the frame, which still waits.
    RoomTooSmall,
    /// The receiver's close was begun: nothing is taken any more.
    Closed,
    /// The flow is being closed: its restart is to be called again first. The input isn't taken.
    FlowClosing,
    /// An allocation failed, and the call is to be made again: what was handed in isn't taken.
    OutOfMemory,
    /// What was handed in is taken, and an allocation failed before its flow had given all. The
    /// rest is given when the flow is gone on with, or when the next comes to it.
    Unfinished,
    /// An allocation failed for the place of a frame or of a request in the queue: it is missing.
    /// From then on what hands something in to an open receiver, and each close, answers so in the
    /// place of what it else would.
    NotKept,
    /// A burst was admitted, and its segment came when its number had passed.
    Late,
    /// A burst was admitted, and the number of its segment is held already.
    Repeat,
    /// A burst was admitted, and the number of its segment is beyond the window.
    Beyond,
    /// More is passed than may be: of a burst more than 65,535 bytes, of the room for a frame more
    /// than 2^31 - 1, of a setup more than 16,384 flows or 262,144 rows. Nothing was done.
    LengthRange,
    /// A grant or a burst was refused.
    Refused(Refusal),
}

/// Why no receiver is made. The first of these is told, but that an allocation may fail before the
/// setup is looked at. C sees its [`number`](MakeFault::number), which is of one row with those of
/// the statuses.
#[derive(Clone, Copy, Debug, PartialEq, Eq)]
pub enum MakeFault {
    /// There is no such loss rule.
    UnknownRule,
    /// No receiver can be made so wide.
    Width(WidthFault),
    /// No receiver can be made of such a setup.
    Setup(SetupError),
    /// An allocation failed.
    OutOfMemory,
}

impl Status {
    /// The number by which C knows it: refusals from 33 on.
    pub fn number(self) -> u32
        ensures { result ≡ status_number self }
    {
        match self {
            Status::Done => 0,
            Status::Null => 1,
            Status::NoChannel => 2,
            Status::NoFlow => 3,
            Status::NumberRange => 4,
            Status::UnknownDecision => 6,
            Status::Nothing => 7,
            Status::RoomTooSmall => 8,
            Status::Closed => 9,
            Status::FlowClosing => 10,
            Status::OutOfMemory => 11,
            Status::Unfinished => 12,
            Status::NotKept => 13,
            Status::Late => 14,
            Status::Repeat => 15,
            Status::Beyond => 16,
            Status::LengthRange => 17,
            Status::Refused(refusal) => 32 + u32::from(refusal.number()),
        }
    }
}

impl MakeFault {
    /// The number by which C knows it: faults of the width and the setup from 20 on.
    pub fn number(self) -> u32
        ensures { result ≡ fault_number self }
    {
        match self {
            MakeFault::UnknownRule => 5,
            MakeFault::Width(fault) => width_number(fault),
            MakeFault::Setup(error) => setup_number(error),
            MakeFault::OutOfMemory => 11,
        }
    }
}

/// The number of a fault of the width.
fn width_number(fault: WidthFault) -> u32
    ensures { result ≡ number_of_width fault }
{
    match fault {
        WidthFault::NoChannel => 20,
        WidthFault::TooManyChannels => 21,
        WidthFault::NoFlow => 22,
        WidthFault::TooManyFlows => 23,
    }
}

/// The number of a fault of the setup.
fn setup_number(error: SetupError) -> u32
    ensures { result ≡ number_of_setup error }
{
    match error {
        SetupError::Flows(SetupFault::TooManyFlows) => 24,
        SetupError::Flows(SetupFault::BadFlow(_)) => 25,
        SetupError::Flows(SetupFault::SameSfid(_)) => 26,
        SetupError::Rows(LaneFault::SidRange(_)) => 27,
        SetupError::Rows(LaneFault::SameSid(_)) => 28,
        SetupError::Rows(LaneFault::UnknownFlow(_)) => 29,
        SetupError::Flows(SetupFault::OutOfMemory) => 11,
        SetupError::Rows(LaneFault::OutOfMemory) => 11,
        SetupError::OutOfMemory => 11,
    }
}

//! What happens as a trace is followed.
ghost use Rattle.std.specs.Prelude.{◌≡◌};
ghost use Rattle.texts.specs.Happening.{name_of_input};
ghost use Rattle.texts.specs.Happened.{flow_admitted};

use consumer::Given;
use lane::Input;
use receiver::{DecisionReply, Reply};

/// What an input of a trace is.
#[derive(Clone, Copy, Debug, PartialEq, Eq)]
pub enum InputKind {
    /// A grant.
    Grant,
    /// A burst.
    Burst,
}

/// Which input of a trace it is.
#[derive(Clone, Copy, Debug, PartialEq, Eq)]
pub struct InputName {
    /// A grant or a burst.
    pub kind: InputKind,
    /// The channel on which it came, 0 to 15.
    pub channel: u8,
    /// The number of the grant.
    pub grant: u32,
}

impl InputName {
    /// The name of an input that came on this channel.
    pub fn of(channel: u8, input: &Input) -> InputName
        ensures { result ≡ name_of_input channel input.now }
    {
        match input {
            Input::Grant { number, .. } => InputName {
                kind: InputKind::Grant,
                channel,
                grant: *number,
            },
            Input::Burst { grant, .. } => InputName {
                kind: InputKind::Burst,
                channel,
                grant: *grant,
            },
        }
    }
}

/// Something that happens as a trace is followed: what its receiver gives, and what became of an
/// input or a decision.
#[derive(Debug, Drop)]
pub enum Happening {
    /// The receiver gave a frame or a request.
    Gave(Given),
    /// An input was taken.
    Took {
        /// Which input it was.
        name: InputName,
        /// What became of it.
        reply: Reply,
    },
    /// A decision was taken, or passed over.
    Decided {
        /// The index of the flow's record.
        flow: usize,
        /// What became of it.
        reply: DecisionReply,
    },
    /// How a flow stands after what came to it.
    Stands {
        /// The index of the flow's record.
        flow: usize,
        /// The number that it expects, 0 to 8191.
        expected: u16,
        /// How many segments it holds that were kept and are not joined yet.
        held: usize,
    },
}

/// The flow to which a segment was admitted, if one was.
pub fn flow_admitted(reply: &Reply) -> Option<usize>
    ensures { result ≡ flow_admitted reply.now }
{
    match reply {
        Reply::Granted => None,
        Reply::Refused(_) => None,
        Reply::Admitted { flow, .. } => Some(*flow),
    }
}

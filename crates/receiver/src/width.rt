//! How many channels and flows a receiver is made for.
ghost use Rattle.std.specs.Prelude.{◌≡◌, ◌<◌, ◌≤◌, IfOk, IfErr};
ghost use Rattle.flow_records.specs.Limits.{most_flows};
ghost use Rattle.lane.specs.Limits.{most_channels};
ghost use Rattle.receiver.specs.Widths.{IsWidthFault};

use flow_records::MOST_FLOWS;
use lane::MOST_CHANNELS;
use thiserror::Error;

/// How many channels and flows a receiver is made for: the number of upstream channels of the
/// modems' transmit channel sets, and that of the flows of all modems.
#[derive(Clone, Copy, Debug, PartialEq, Eq)]
pub struct Width {
    channels: u8,
    flows: u16,
    ghost some_channel: { 0 < channels },
    ghost few_channels: { channels ≤ most_channels },
    ghost some_flow: { 0 < flows },
    ghost few_flows: { flows ≤ most_flows },
}

/// Why no receiver can be made so wide. The first of these is reported.
#[derive(Clone, Copy, Debug, PartialEq, Eq, Error)]
pub enum WidthFault {
    /// It would have no channel.
    #[error("a receiver has at least one channel")]
    NoChannel,
    /// It would have more than 16 channels.
    #[error("a receiver has at most 16 channels")]
    TooManyChannels,
    /// It would have no flow.
    #[error("a receiver has at least one flow")]
    NoFlow,
    /// It would have more than 16,384 flows.
    #[error("a receiver has at most 16384 flows")]
    TooManyFlows,
}

impl Width {
    /// The four channels and 64 flows of `replay` and `run`.
    pub const PROFILE: Width = Width {
        channels: 4,
        flows: 64,
    };

    /// A width of so many channels, 1 to 16, and of at most so many flows, 1 to 16,384.
    pub fn new(channels: u8, flows: u16) -> Result<Width, WidthFault>
        ensures channels { IfOk result (λ width. width.channels ≡ channels) }
        ensures flows { IfOk result (λ width. width.flows ≡ flows) }
        ensures fault { IfErr result (IsWidthFault channels flows) }
    {
        if channels == 0 {
            return Err(WidthFault::NoChannel);
        }
        if usize::from(channels) > MOST_CHANNELS {
            return Err(WidthFault::TooManyChannels);
        }
        if flows == 0 {
            return Err(WidthFault::NoFlow);
        }
        if flows > MOST_FLOWS {
            return Err(WidthFault::TooManyFlows);
        }
        Ok(Width { channels, flows })
    }

    /// How many channels there are, 1 to 16.
    pub fn channels(self) -> u8
        ensures is { result ≡ self.channels }
        ensures some { 0 < result }
        ensures few { result ≤ most_channels }
    {
        self.channels
    }

    /// How many flows there may be, 1 to 16,384.
    pub fn flows(self) -> u16
        ensures is { result ≡ self.flows }
        ensures some { 0 < result }
        ensures few { result ≤ most_flows }
    {
        self.flows
    }
}

//! The two forms of a record with a frame.
ghost use Rattle.std.specs.Prelude.{◌≡◌};
ghost use Rattle.frame_records.specs.Frames.{file_header, link_type};

use capture::{Endian, PcapHeader, Resolution, XRA};

/// What a record with a frame holds.
#[derive(Clone, Copy, Debug, PartialEq, Eq)]
pub enum FrameLink {
    /// The frame: link type 143.
    Docsis,
    /// A packet with the frame, the channel and the SID: link type 273.
    Xra,
}

impl FrameLink {
    /// The link type of the file.
    pub fn link_type(self) -> u32
        ensures { result ≡ link_type self }
    {
        match self {
            FrameLink::Docsis => 143,
            FrameLink::Xra => XRA,
        }
    }

    /// The header of the file: little-endian, with times in nanoseconds.
    pub fn header(self) -> PcapHeader
        ensures { result ≡ file_header self }
    {
        PcapHeader {
            endian: Endian::Little,
            resolution: Resolution::Nanoseconds,
            major: 2,
            minor: 4,
            zone: 0,
            accuracy: 0,
            snap_length: 0x4_0000,
            link_type: self.link_type(),
        }
    }
}

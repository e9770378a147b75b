//! The fields of a segment's header, and their ranges.
ghost use Rattle.std.specs.Prelude.{◌<◌};
ghost use Rattle.docsis_wire.specs.Limits.{pointer_limit, sequence_modulus, cluster_limit};

/// How many sequence numbers there are. They run from 0 to 8191 and then begin again.
pub const SEQUENCE_MODULUS: u16 = 8192;

/// The header of a segment, eight bytes before its payload (CM-SP-MULPIv3.0, segment header
/// format).
#[derive(Clone, Copy, Debug, PartialEq, Eq)]
pub struct SegmentHeader {
    /// Pointer field indicator: a MAC header begins in this segment.
    pub pfi: bool,
    /// The reserved bit R: read, kept and ignored.
    pub reserved: bool,
    /// 0 to 16,383. With `pfi` the number of payload bytes to skip to reach the first MAC header
    /// that begins here; without it the pointer means nothing.
    pub pointer: u16,
    /// 0 to 8191: the number of the segment in its service flow, modulo 8192.
    pub sequence: u16,
    /// 0 to 7: the SID cluster that the request is made for.
    pub cluster: u8,
    /// The queue depth that is asked for, in the flow's request units; 0 asks for nothing.
    pub request: u16,
    /// The header check sequence, as it came. Its verdict comes with the burst.
    pub hcs: u16,
    ghost pointer_in_range: { pointer < pointer_limit },
    ghost sequence_in_range: { sequence < sequence_modulus },
    ghost cluster_in_range: { cluster < cluster_limit },
}

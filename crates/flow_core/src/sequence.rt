//! The number of a segment.
ghost use Rattle.std.specs.Prelude.{◌<◌};
ghost use Rattle.docsis_wire.specs.Limits.{sequence_modulus};

/// A segment's sequence number, 0 to 8191.
#[derive(Clone, Copy, Debug, PartialEq, Eq)]
pub struct SequenceNumber {
    pub number: u16,
    ghost in_range: { number < sequence_modulus },
}

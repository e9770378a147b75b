//! A decision that segments are lost up to a number.
//!
//! A flow remembers one while segments that are held before its number wait to be joined.
ghost use Rattle.std.specs.Prelude.{◌≡◌, ◌<◌};
ghost use Rattle.docsis_wire.specs.Limits.{sequence_modulus};
ghost use Rattle.flow_core.specs.Stands.{number_to};

use crate::sequence::SequenceNumber;

/// A decision that the segments before a number are lost if they haven't come.
#[derive(Clone, Copy, Debug, PartialEq, Eq)]
pub enum UpTo {
    /// Those are declared lost that have a later segment that was kept.
    Declare(SequenceNumber),
    /// They are skipped, whether or not a later one was kept.
    Skip(SequenceNumber),
}

impl UpTo {
    /// The number, 0 to 8191.
    pub fn number(self) -> u16
        ensures number { result ≡ number_to self }
        ensures in_range { result < sequence_modulus }
    {
        match self {
            UpTo::Declare(sequence) | UpTo::Skip(sequence) => sequence.number,
        }
    }
}

//! The number that a flow expects, and its place.
ghost use Rattle.std.specs.Prelude.{◌<◌, ◌≤◌};
ghost use Rattle.docsis_wire.specs.Limits.{sequence_modulus};

/// The number that a flow expects, and its place. Places go on where numbers begin again.
#[derive(Clone, Copy, Debug, PartialEq, Eq)]
pub struct Place {
    /// 0 to 61,440, so that each number that lies ahead has a place, too.
    pub at: u16,
    /// 0 to 8191.
    pub number: u16,
    ghost room: { at ≤ 61440 },
    ghost in_range: { number < sequence_modulus },
}

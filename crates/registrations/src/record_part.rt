//! The part of a message in a record of link type 273.
ghost use Rattle.std.specs.Prelude.{◌≡◌, ◌<◌, ◌≤◌, length};
ghost use Rattle.registrations.specs.Part.{IsAnswer};

use crate::message::NoPart;
use crate::part::{Part, read_part};
use capture::CaptureRecord;

/// The part of a message that a record holds. Of a record that was cut short by the capture, which
/// kept fewer bytes than the packet had, there is none. Whether its link type is 273 the caller has
/// looked at.
pub fn part_in_capture(given: &CaptureRecord) -> Result<Part<'_>, NoPart>
    ensures cut { length given.now.bytes.items < given.now.original
        → result ≡ Err NoPart.CutShort }
    ensures whole { given.now.original ≤ length given.now.bytes.items
        → IsAnswer given.now.bytes.items result }
{
    if given.is_cut_short() {
        return Err(NoPart::CutShort);
    }
    read_part(&given.bytes)
}

//! The burst in a record of link type 273.
ghost use Rattle.std.specs.Prelude.{◌≡◌, ◌<◌, ◌≤◌, length};
ghost use Rattle.capture.specs.SeenBurst.{IsAnswer};

use crate::burst::{Burst, Passed, read_burst};
use crate::capture_record::CaptureRecord;
use crate::record::Record;

/// The burst that a record holds. A record that was cut short by the capture, which kept fewer
/// bytes than the packet had, is no burst.
pub fn burst_in_record(record: &Record) -> Result<Burst<'_>, Passed>
    ensures cut { length «record».now.bytes.items < «record».now.head.original
        → result ≡ Err Passed.CutShort }
    ensures whole { «record».now.head.original ≤ length «record».now.bytes.items
        → IsAnswer «record».now.bytes.items result }
{
    if record.bytes.len() < record.head.original as usize {
        return Err(Passed::CutShort);
    }
    read_burst(&record.bytes)
}

/// The same of a record of a capture. Whether its link type is 273 the caller has looked at.
pub fn burst_in_capture(given: &CaptureRecord) -> Result<Burst<'_>, Passed>
    ensures cut { length given.now.bytes.items < given.now.original
        → result ≡ Err Passed.CutShort }
    ensures whole { given.now.original ≤ length given.now.bytes.items
        → IsAnswer given.now.bytes.items result }
{
    if given.is_cut_short() {
        return Err(Passed::CutShort);
    }
    read_burst(&given.bytes)
}

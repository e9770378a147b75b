//! The burst that a record of a capture is to the flows of a map.
ghost use Rattle.std.specs.Prelude.{◌≡◌, ◌≤◌, length, min, take};
ghost use Rattle.docsis_wire.specs.Checks.{ends_with_its_sequence};
ghost use Rattle.capture.specs.SeenCapture.{capture_parts};
ghost use Rattle.frame_engine.specs.Records.{IsBurstOf, burst_in, greatest_sid};

use capture::{Burst, CaptureRecord, Passed, XRA, read_burst};
use capture_summary::PassedReason;
use captured_flows::CapturedBurst;
use docsis_wire::{Bytes, segment_check};

/// The greatest service identifier of 16 bits, which no map has.
const GREATEST_SID: u32 = 65_535;

/// Whether the segment header at the front of a burst ends with its check sequence.
fn is_checked(bytes: &[u8]) -> bool
    requires { 8 ≤ length bytes.now }
    ensures { result ≡ ends_with_its_sequence (take 8 bytes.now) }
{
    match bytes.first_chunk::<8>() {
        Some(header) => segment_check(header),
        None => false,
    }
}

/// The service identifier of a burst, or of a frame that was recorded: of one of more than 16 bits
/// it is enough that no map has it.
pub(crate) fn short_sid(sid: u32) -> u16
    ensures { result ≡ min sid greatest_sid }
{
    sid.min(GREATEST_SID) as u16
}

/// Whether a burst has more bits than its grant, where that is known.
fn is_above_grant(burst: &Burst<'_>) -> bool {
    match burst.grant_bits {
        Some(bits) => (burst.bytes.len() as u64).saturating_mul(8) > u64::from(bits),
        None => false,
    }
}

/// The burst that a record holds, and whether it is above its grant; or why it is passed over.
pub(crate) fn captured(given: CaptureRecord) -> Result<(CapturedBurst, bool), PassedReason>
    ensures { IsBurstOf (capture_parts given) (burst_in result) }
{
    if given.link_type != XRA {
        return Err(PassedReason::OtherLinkType);
    }
    if given.is_cut_short() {
        return Err(PassedReason::Packet(Passed::CutShort));
    }
    let burst = match read_burst(&given.bytes) {
        Ok(burst) => burst,
        Err(why) => return Err(PassedReason::Packet(why)),
    };
    let front = given.bytes.len() - burst.bytes.len();
    let channel = burst.channel;
    let sid = short_sid(burst.sid);
    let granted = burst.grant_bits.unwrap_or(0) / 8;
    let burst_id = burst.burst_id;
    let check = is_checked(burst.bytes);
    let is_above = is_above_grant(&burst);
    let burst = CapturedBurst {
        time: given.nanoseconds,
        channel,
        sid,
        granted,
        burst_id,
        check,
        bytes: Bytes::from(given.bytes).without_front(front),
    };
    Ok((burst, is_above))
}

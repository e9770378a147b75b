//! A burst of a capture, and whether its lane will admit it.
ghost use Rattle.std.specs.Prelude.{◌≡◌, ◌≤◌, IfOk, IfErr};
ghost use Rattle.captured_flows.specs.Sound.{granted_to, IsSound, IsUnsound};

use crate::sound_burst::SoundBurst;
use capture_rules::Arrival;
use docsis_wire::{Bytes, Segment};
use lane::{GRANT_MAX, GRANT_MIN};

/// A burst of a capture that is said to have a segment header.
#[derive(Debug, Drop)]
pub struct CapturedBurst {
    /// When it came, in nanoseconds of the packets' clock.
    pub time: u64,
    /// The upstream channel id.
    pub channel: u32,
    /// Its service identifier.
    pub sid: u16,
    /// The analyser's number of the burst, where it has one.
    pub burst_id: Option<u64>,
    /// How many bytes its grant has, as the analyser says; 0 where it doesn't.
    pub granted: u32,
    /// Whether the check sequence of its segment header is right.
    pub check: bool,
    pub bytes: Bytes,
}

/// How many bytes the grant of a burst is taken to have: as many as are said, as the burst has, and
/// 8, at least, and at most 2^32 - 1.
pub(crate) fn granted_to(burst: &CapturedBurst) -> u32
    ensures { result ≡ granted_to burst.now.granted burst.now.bytes }
{
    let length = burst.bytes.len().min(0xFFFF_FFFF) as u32;
    burst.granted.max(GRANT_MIN).max(length)
}

/// The burst as it waits, if its lane will admit it; otherwise the burst.
pub(crate) fn sound(
    channel: usize,
    burst: CapturedBurst,
) -> Result<Arrival<SoundBurst>, CapturedBurst>
    ensures sound { IfOk result (IsSound channel burst) }
    ensures unsound { IfErr result (λ back. back ≡ burst) }
    ensures why { IfErr result (λ _. IsUnsound burst) }
{
    let granted = granted_to(&burst);
    if !burst.check || granted > GRANT_MAX {
        return Err(burst);
    }
    let Ok(head) = Segment::head_of(burst.bytes.as_slice()) else {
        return Err(burst);
    };
    Ok(Arrival {
        time: burst.time,
        channel,
        number: head.sequence,
        item: SoundBurst {
            sid: burst.sid,
            burst_id: burst.burst_id,
            granted,
            bytes: burst.bytes,
        },
    })
}

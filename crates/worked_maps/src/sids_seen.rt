//! What is seen of SIDs.
mod failed_allocations;

use capture::{Burst, BurstKind};
use docsis_wire::check_sequence;
use seen_sids::{MOST_PAIRS, SeenSids, put_seen};
use std::alloc::{AllocError, Global};
use std::test::Fail;
use text_lines::TextBuffer;

/// The header of a segment of this number, with the right check sequence, or one beside it.
fn header(number: u16, is_right: bool) -> [u8; 8] {
    let [high, low] = ((number % 8192) * 8 + 5).to_be_bytes();
    let front = [0x80, 0, high, low, 0, 9];
    let sequence = check_sequence(&front) ^ u16::from(!is_right);
    let [first, last] = sequence.to_le_bytes();
    [0x80, 0, high, low, 0, 9, first, last]
}

/// Counts a burst.
fn take(
    seen: &mut SeenSids,
    channel: u32,
    sid: u32,
    number: u16,
    is_right: bool,
) -> Result<(), AllocError> {
    let bytes = header(number, is_right);
    seen.take(&Burst {
        kind: BurstKind::Tdma,
        channel,
        sid,
        grant_bits: None,
        burst_id: None,
        bytes: &bytes,
    })
}

/// The text of the table.
fn text_of(alloc: Global, seen: &SeenSids) -> Result<Vec<u8>, AllocError> {
    let mut text = TextBuffer::new(alloc);
    put_seen(&mut text, seen);
    text.finish()
}

/// The table of a flow on two channels and of one on a third, whose numbers begin again.
const TEXT: &[u8] =
    b"# No registration tells the SID of a flow. What was seen of segments, by upstream channel and SID:\n\
    # channel 3, SID 291: segments 4, bad checks 1, numbers 8190 to 3\n\
    # channel 4, SID 65536: segments 3, bad checks 0, numbers 8191 to 4; a guess: of one flow with channel 3, SID 291\n\
    # channel 3, SID 7: segments 3, bad checks 0, numbers 8191 to 1\n\
    # channel 9, SID 1: segments 1, bad checks 1, no number\n";

/// What was seen of these.
fn two_flows(alloc: Global) -> Result<SeenSids, AllocError> {
    let mut seen = SeenSids::new(alloc);
    take(&mut seen, 3, 291, 8190, true)?;
    take(&mut seen, 4, 65_536, 8191, true)?;
    take(&mut seen, 3, 7, 8191, true)?;
    take(&mut seen, 3, 7, 0, true)?;
    take(&mut seen, 3, 7, 1, true)?;
    take(&mut seen, 3, 291, 0, true)?;
    take(&mut seen, 4, 65_536, 2, true)?;
    take(&mut seen, 3, 291, 99, false)?;
    take(&mut seen, 3, 291, 3, true)?;
    take(&mut seen, 4, 65_536, 4, true)?;
    take(&mut seen, 9, 1, 5, false)?;
    Ok(seen)
}

#[test]
fn sids_are_counted(rt: HostRuntime) -> Result<(), Fail> {
    let seen = two_flows(rt.alloc())?;
    let text = text_of(rt.alloc(), &seen)?;
    assert!(rt; text.as_slice() == TEXT);
    Ok(())
}

#[test]
fn pairs_beyond_the_most_are_counted_together(rt: HostRuntime) -> Result<(), Fail> {
    let mut seen = SeenSids::new(rt.alloc());
    for sid in 0..MOST_PAIRS as u32 + 2 {
        take(&mut seen, 1, sid, 0, true)?;
        take(&mut seen, 1, sid, 1, true)?;
    }
    let text = text_of(rt.alloc(), &seen)?;
    assert!(rt; text.ends_with(b"\n# segments of other SIDs: 4\n"));
    Ok(())
}

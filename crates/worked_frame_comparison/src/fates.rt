//! What is known of bursts, and why frames are missing.
use burst_fates::{BurstFate, BurstFates, MOST_TOLD, MissingReason, put_reason};
use lane::Refusal;
use std::alloc::Global;
use std::process::Abort;
use std::test::Fail;
use text_lines::TextBuffer;

/// What people read of a reason.
fn text_of(alloc: Global, reason: MissingReason) -> Result<Vec<u8>, Fail> {
    let mut text = TextBuffer::new(alloc);
    put_reason(&mut text, &reason);
    Ok(text.finish()?)
}

/// A reason is told so, has this word for programs, and names this burst.
fn expect_words(
    rt: &(impl Abort + AllocGlobal),
    reason: MissingReason,
    text: &str,
    word: &str,
    burst: Option<u64>,
) -> Result<(), Fail> {
    assert!(rt; text_of(rt.alloc(), reason)?.as_slice() == text.as_bytes());
    assert!(rt; reason.word() == word);
    assert!(rt; reason.burst() == burst);
    Ok(())
}

#[test]
fn what_was_told_is_known(rt: HostRuntime) -> Result<(), Fail> {
    let mut fates = BurstFates::new(rt.alloc())?;
    assert!(rt; fates.fate_of(7).is_none());
    fates.tell(7, BurstFate::Waits);
    fates.tell(8, BurstFate::Late);
    fates.tell(7, BurstFate::Kept);
    fates.tell(9, BurstFate::Refused(Refusal::BadCheck));
    assert!(rt; fates.fate_of(7) == Some(BurstFate::Kept));
    assert!(rt; fates.fate_of(8) == Some(BurstFate::Late));
    assert!(rt; fates.reason(&[]) == MissingReason::Unnamed);
    assert!(rt; fates.reason(&[7, 7]) == MissingReason::AllKept);
    assert!(rt; fates.reason(&[7, 8, 9]) == MissingReason::Burst(8, BurstFate::Late));
    assert!(rt; fates.reason(&[7, 10, 8]) == MissingReason::NeverCame(10));
    Ok(())
}

#[test]
fn a_burst_that_was_kept_once_was_kept(rt: HostRuntime) -> Result<(), Fail> {
    let mut fates = BurstFates::new(rt.alloc())?;
    fates.tell(7, BurstFate::Waits);
    fates.tell(7, BurstFate::Kept);
    fates.tell(8, BurstFate::Repeat);
    fates.tell(7, BurstFate::Waits);
    fates.tell(7, BurstFate::Late);
    assert!(rt; fates.fate_of(7) == Some(BurstFate::Kept));
    assert!(rt; fates.fate_of(8) == Some(BurstFate::Repeat));
    assert!(rt; fates.reason(&[7]) == MissingReason::AllKept);
    assert!(rt; fates.reason(&[7, 8]) == MissingReason::Burst(8, BurstFate::Repeat));
    for id in 4..MOST_TOLD as u64 {
        fates.tell(1000 + id, BurstFate::Beyond);
    }
    assert!(rt; fates.fate_of(7) == Some(BurstFate::Kept));
    fates.tell(9, BurstFate::Beyond);
    assert!(rt; fates.fate_of(7) == Some(BurstFate::Late));
    Ok(())
}

#[test]
fn what_was_told_long_ago_is_forgotten(rt: HostRuntime) -> Result<(), Fail> {
    let mut fates = BurstFates::new(rt.alloc())?;
    fates.tell(7, BurstFate::Kept);
    for id in 1..MOST_TOLD as u64 {
        fates.tell(1000 + id, BurstFate::Beyond);
    }
    assert!(rt; fates.fate_of(7) == Some(BurstFate::Kept));
    fates.tell(8, BurstFate::Repeat);
    assert!(rt; fates.fate_of(7).is_none());
    assert!(rt; fates.fate_of(1001) == Some(BurstFate::Beyond));
    assert!(rt; fates.reason(&[7]) == MissingReason::NotSeenLately(7));
    assert!(rt; fates.reason(&[8]) == MissingReason::Burst(8, BurstFate::Repeat));
    Ok(())
}

#[test]
fn reasons_have_words(rt: HostRuntime) -> Result<(), Fail> {
    let of = |fate| MissingReason::Burst(57, fate);
    let refused = BurstFate::Refused(Refusal::BadCheck);
    let unnamed = MissingReason::Unnamed;
    expect_words(&rt, unnamed, "its bursts aren't named", "unnamed", None)?;
    let kept = MissingReason::AllKept;
    expect_words(&rt, kept, "its bursts were kept", "kept", None)?;
    let never = MissingReason::NeverCame(57);
    expect_words(&rt, never, "burst 57 never came", "never_came", Some(57))?;
    let not_seen = MissingReason::NotSeenLately(57);
    expect_words(
        &rt,
        not_seen,
        "burst 57 wasn't seen lately",
        "not_seen_lately",
        Some(57),
    )?;
    let late = of(BurstFate::Late);
    expect_words(&rt, late, "burst 57 came late", "late", Some(57))?;
    let waits = of(BurstFate::Waits);
    expect_words(&rt, waits, "burst 57 waits", "waits", Some(57))?;
    let text = "burst 57 was refused: bad_check";
    expect_words(&rt, of(refused), text, "bad_check", Some(57))?;
    Ok(())
}

//! What people read of a comparison.
use crate::compared_frames::{Came, compared};
use burst_fates::{BurstFate, MissingReason};
use frame_comparison::Side::{Analyser, Here};
use frame_comparison::put_comparison;
use std::test::Fail;
use text_lines::TextBuffer;

#[test]
fn text_names_flows_and_frames(rt: HostRuntime) -> Result<(), Fail> {
    let comparison = compared(
        rt.alloc(),
        4,
        &[
            Came(Analyser, 0, b"\x00\x01\x02"),
            Came(Here, 0, b"\x00\x01\x02"),
            Came(Analyser, 2, b"\xff0123456789abcdefgh"),
            Came(Here, 3, b"\x0a"),
        ],
    )?;
    let mut text = TextBuffer::new(rt.alloc());
    let reasons = [MissingReason::Burst(57, BurstFate::Late)];
    put_comparison(&mut text, &comparison, &reasons, &[17, 18, 4_294_967_295]);
    let wanted = "comparison with the analyser's frames\n\
        \x20 flow 0 (SFID 17): 1 in both, 0 only the analyser's, 0 only here\n\
        \x20 flow 2 (SFID 4294967295): 0 in both, 1 only the analyser's, 0 only here\n\
        \x20 flow 3: 0 in both, 0 only the analyser's, 1 only here\n\
        \x20 only the analyser's: flow 2, at 2.000000000, 19 bytes: \
        ff303132333435363738396162636465; burst 57 came late\n\
        \x20 only here: flow 3, at 3.000000000, 1 bytes: 0a\n";
    assert!(rt; text.finish()?.as_slice() == wanted.as_bytes());
    Ok(())
}

//! A test to be run with the Nth request for memory and all later ones refused.
use super::{expect_frames, expect_heads};
use crate::refused::say_whether_refused;
use std::test::Fail;

/// In the end it asks for memory itself, so that a run is known in which nothing else did.
#[test]
fn heads_and_frames_without_memory(rt: HostRuntime) -> Result<(), Fail> {
    expect_heads(&rt);
    expect_frames(&rt);
    say_whether_refused(&rt, rt.alloc())
}

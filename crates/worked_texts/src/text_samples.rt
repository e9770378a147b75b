//! Inputs of the commands, and what comes of each.

/// Three segments that split the headers of two frames.
pub const SEGMENTS: &str = "\
80000000000000000000000211
800300080000000011aabb01010003
0000001000000000e02222ccdd
";
/// The two frames, one a line.
pub const FRAMES: &str = "\
000000021111aabb
01010003e02222ccdd
";
/// The frames, and pieces that cut them into the segments.
pub const FRAMES_AND_PIECES: &str = "\
frame 000000021111aabb
piece 5 0
frame 01010003e02222ccdd
piece 7 0
piece 5 0
";
/// The segments as they came on two channels.
pub const TRACE: &str = "\
# the second segment first
flow 100 0 16 2
sid 0 1 0
sid 1 2 0
grant 0 1 1 13
grant 1 1 2 15
grant 0 2 1 13
burst 1 1 ok 800300080000000011aabb01010003
burst 0 1 ok 80000000000000000000000211
burst 0 2 ok 0000001000000000e02222ccdd
";
/// The report of that.
pub const REPORT: &str = "\
flow 0 100 kept 3 late 0 repeat 0 beyond 0 lost 0 frames 2 skipped 0
frame 0 000000021111aabb
frame 0 01010003e02222ccdd
lane 0 admitted 2 refused -
lane 1 admitted 1 refused -
lane 2 admitted 0 refused -
lane 3 admitted 0 refused -
";
/// The second and the third of these segments alone.
pub const LOST_TRACE: &str = "\
flow 100 0 16 2
sid 0 1 0
sid 1 2 0
grant 0 2 1 13
grant 1 1 2 15
burst 1 1 ok 800300080000000011aabb01010003
burst 0 2 ok 0000001000000000e02222ccdd
";
/// The report of that.
pub const LOST_REPORT: &str = "\
flow 0 100 kept 2 late 0 repeat 0 beyond 0 lost 1 frames 1 skipped 3
frame 0 01010003e02222ccdd
lane 0 admitted 1 refused -
lane 1 admitted 1 refused -
lane 2 admitted 0 refused -
lane 3 admitted 0 refused -
";
/// Of a flow with a window of four, on channel 0 the segments 0, 2, 4 and 10, and on channel 1
/// between them 3 and 5.
pub const RULED_TRACE: &str = "\
flow 7 0 4 1
sid 0 1 0
sid 1 1 0
grant 0 1 1 15
burst 0 1 ok 800000000000000000000001111100
grant 0 2 1 15
burst 0 2 ok 800000100000000000000001111102
grant 1 1 1 15
burst 1 1 ok 800000180000000000000001111103
grant 0 3 1 15
burst 0 3 ok 800000200000000000000001111104
grant 1 2 1 15
burst 1 2 ok 800000280000000000000001111105
grant 0 4 1 15
burst 0 4 ok 80000050000000000000000111110a
";
/// The report of that where decisions alone decide, of which there are none: what comes once
/// segment 1 has left the window no room is beyond it.
pub const DECIDED_REPORT: &str = "\
flow 0 7 kept 4 late 0 repeat 0 beyond 2 lost 1 frames 4 skipped 0
frame 0 00000001111100
frame 0 00000001111102
frame 0 00000001111103
frame 0 00000001111104
lane 0 admitted 4 refused -
lane 1 admitted 2 refused -
lane 2 admitted 0 refused -
lane 3 admitted 0 refused -
";
/// That where lost is also what both channels have passed: segment 1, once 3 has come.
pub const PASSED_REPORT: &str = "\
flow 0 7 kept 5 late 0 repeat 0 beyond 1 lost 1 frames 5 skipped 0
frame 0 00000001111100
frame 0 00000001111102
frame 0 00000001111103
frame 0 00000001111104
frame 0 00000001111105
lane 0 admitted 4 refused -
lane 1 admitted 2 refused -
lane 2 admitted 0 refused -
lane 3 admitted 0 refused -
";
/// That where the window slides too: segment 6 makes room for 10.
pub const SLID_REPORT: &str = "\
flow 0 7 kept 6 late 0 repeat 0 beyond 0 lost 5 frames 6 skipped 0
frame 0 00000001111100
frame 0 00000001111102
frame 0 00000001111103
frame 0 00000001111104
frame 0 00000001111105
frame 0 0000000111110a
lane 0 admitted 4 refused -
lane 1 admitted 2 refused -
lane 2 admitted 0 refused -
lane 3 admitted 0 refused -
";

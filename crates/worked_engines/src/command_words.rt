//! What `read_words` answers. Runs of the program show which words it understands.
use docsis_wire::FillByte;
use engines::{Command, UsageFault, read_words};
use flow_selection::Selection;
use loss_rule::LossRule;
use std::alloc::Global;
use std::process::Abort;

/// What some words are read as.
#[derive(Clone, Copy, PartialEq, Eq)]
enum Asked {
    Join,
    Cut(u16, FillByte),
    Replay(LossRule),
    /// Which of the flows 0 to 63 are asked for, flow 0 by the lowest bit.
    ReplayFlows(LossRule, u64),
    Run(LossRule, u16, u16),
    Follow(LossRule, u8, bool),
    /// So where a trace of 16 channels is followed without events.
    FollowFlows(LossRule, u64),
    Map,
    Help,
    Fault(UsageFault),
}

/// Which of the first 64 flows are selected.
fn first_flows(selected: &Selection) -> u64 {
    let mut flows = 0u64;
    for place in 1..=64usize {
        let has = selected.has(64usize.saturating_sub(place));
        flows = flows.rotate_left(1) | if has { 1 } else { 0 };
    }
    flows
}

fn what_is_asked(alloc: Global, words: &[&str]) -> Asked {
    match read_words(alloc, words) {
        Ok(Command::Join) => Asked::Join,
        Ok(Command::Cut { first, fill }) => Asked::Cut(first, fill),
        Ok(
            Command::Replay {
                rule,
                flows: Selection::All,
            },
        ) => Asked::Replay(rule),
        Ok(Command::Replay { rule, flows }) => Asked::ReplayFlows(rule, first_flows(&flows)),
        Ok(
            Command::Run {
                rule,
                mailbox,
                ring,
            },
        ) => Asked::Run(rule, mailbox, ring),
        Ok(
            Command::Follow {
                rule,
                channels,
                events,
                flows: Selection::All,
            },
        ) => Asked::Follow(rule, channels, events),
        Ok(
            Command::Follow {
                rule,
                channels: 16,
                events: false,
                flows,
            },
        ) => Asked::FollowFlows(rule, first_flows(&flows)),
        Ok(Command::Follow { .. }) => Asked::Fault(UsageFault::OutOfMemory),
        Ok(Command::Map) => Asked::Map,
        Ok(Command::Help(_)) => Asked::Help,
        Err(fault) => Asked::Fault(fault),
    }
}

/// What is asked for where the words are wrong.
const USAGE: Asked = Asked::Fault(UsageFault::Usage);

/// The name of a case, its words, and what is asked for.
type Case = (&'static str, &'static [&'static str], Asked);

const WORDS: [Case; 56] = [
    ("no words at all", &[], Asked::Join),
    ("no command", &["segrx"], Asked::Join),
    ("join", &["segrx", "join"], Asked::Join),
    ("map", &["segrx", "map"], Asked::Map),
    ("help behind map", &["segrx", "map", "--help"], Asked::Help),
    (
        "an option of map",
        &["segrx", "map", "--losses=slid"],
        USAGE,
    ),
    ("cut", &["segrx", "cut"], Asked::Cut(0, FillByte::Zero)),
    (
        "the options of cut",
        &["segrx", "cut", "--fill=ones", "--first", "8191"],
        Asked::Cut(8191, FillByte::Ones),
    ),
    (
        "a number too great",
        &["segrx", "cut", "--first=8192"],
        USAGE,
    ),
    (
        "replay",
        &["segrx", "replay"],
        Asked::Replay(LossRule::Decided),
    ),
    (
        "a rule of replay",
        &["segrx", "replay", "--losses=passed"],
        Asked::Replay(LossRule::Passed),
    ),
    (
        "a rule of replay in a word of its own",
        &["segrx", "replay", "--losses", "slid"],
        Asked::Replay(LossRule::PassedOrSlid),
    ),
    (
        "an unknown rule of replay",
        &["segrx", "replay", "--losses=Passed"],
        USAGE,
    ),
    (
        "two rules of replay",
        &["segrx", "replay", "--losses=slid", "--losses=slid"],
        USAGE,
    ),
    (
        "two rules of replay in words of their own",
        &["segrx", "replay", "--losses", "passed", "--losses", "slid"],
        USAGE,
    ),
    ("replay twice", &["segrx", "replay", "replay"], USAGE),
    (
        "an option of replay",
        &["segrx", "replay", "--ring=1"],
        USAGE,
    ),
    ("the end of options", &["segrx", "replay", "--"], USAGE),
    ("an unknown word", &["segrx", "frob"], USAGE),
    (
        "run",
        &["segrx", "run"],
        Asked::Run(LossRule::Decided, 1024, 1024),
    ),
    (
        "a rule of run",
        &["segrx", "run", "--losses=slid"],
        Asked::Run(LossRule::PassedOrSlid, 1024, 1024),
    ),
    (
        "a rule of run in a word of its own",
        &["segrx", "run", "--losses", "slid"],
        Asked::Run(LossRule::PassedOrSlid, 1024, 1024),
    ),
    (
        "a rule of run behind another option",
        &["segrx", "run", "--ring", "1", "--losses", "passed"],
        Asked::Run(LossRule::Passed, 1024, 1),
    ),
    (
        "a rule of run before another option",
        &["segrx", "run", "--losses", "decided", "--mailbox=2"],
        Asked::Run(LossRule::Decided, 2, 1024),
    ),
    (
        "a rule without a name",
        &["segrx", "run", "--losses"],
        USAGE,
    ),
    (
        "an unknown rule of run",
        &["segrx", "run", "--losses=lost"],
        USAGE,
    ),
    (
        "two rules of run",
        &["segrx", "run", "--losses=slid", "--losses=slid"],
        USAGE,
    ),
    (
        "two rules of run in words of their own",
        &["segrx", "run", "--losses", "passed", "--losses", "slid"],
        USAGE,
    ),
    (
        "two rules of run round another option",
        &["segrx", "run", "--losses=slid", "--ring=1", "--losses=slid"],
        USAGE,
    ),
    (
        "a rule of run that is a rule",
        &["segrx", "run", "--losses", "--losses=slid"],
        USAGE,
    ),
    ("a rule of cut", &["segrx", "cut", "--losses=slid"], USAGE),
    (
        "the options of run",
        &["segrx", "run", "--ring=1", "--mailbox", "065535"],
        Asked::Run(LossRule::Decided, 65_535, 1),
    ),
    ("no room", &["segrx", "run", "--ring=0"], USAGE),
    (
        "a capacity too great",
        &["segrx", "run", "--mailbox=65536"],
        USAGE,
    ),
    ("an option of cut", &["segrx", "run", "--first=1"], USAGE),
    (
        "follow",
        &["segrx", "follow"],
        Asked::Follow(LossRule::Decided, 16, false),
    ),
    (
        "the options of follow",
        &["segrx", "follow", "--channels", "09", "--losses=slid"],
        Asked::Follow(LossRule::PassedOrSlid, 9, false),
    ),
    (
        "one channel",
        &["segrx", "follow", "--channels=1"],
        Asked::Follow(LossRule::Decided, 1, false),
    ),
    (
        "events",
        &["segrx", "follow", "--events", "--losses=passed"],
        Asked::Follow(LossRule::Passed, 16, true),
    ),
    (
        "events alone",
        &["segrx", "follow", "--events"],
        Asked::Follow(LossRule::Decided, 16, true),
    ),
    (
        "events behind a rule",
        &["segrx", "follow", "--losses", "slid", "--events"],
        Asked::Follow(LossRule::PassedOrSlid, 16, true),
    ),
    (
        "events between a rule and its name",
        &["segrx", "follow", "--losses", "--events", "slid"],
        USAGE,
    ),
    (
        "events with a value",
        &["segrx", "follow", "--events=yes"],
        USAGE,
    ),
    ("events of run", &["segrx", "run", "--events"], USAGE),
    ("no channel", &["segrx", "follow", "--channels=0"], USAGE),
    (
        "a channel too many",
        &["segrx", "follow", "--channels=17"],
        USAGE,
    ),
    (
        "channels twice",
        &["segrx", "follow", "--channels=4", "--channels", "4"],
        USAGE,
    ),
    (
        "channels without a number",
        &["segrx", "follow", "--channels"],
        USAGE,
    ),
    (
        "channels that are no number",
        &["segrx", "follow", "--channels", "--events"],
        USAGE,
    ),
    (
        "too many channels before help",
        &["segrx", "follow", "--channels=17", "--help"],
        USAGE,
    ),
    ("channels of run", &["segrx", "run", "--channels=4"], USAGE),
    ("a ring of follow", &["segrx", "follow", "--ring=4"], USAGE),
    ("help", &["segrx", "cut", "-h", "frob"], Asked::Help),
    ("help of replay", &["segrx", "replay", "-h"], Asked::Help),
    ("help too late", &["segrx", "replay", "x", "-h"], USAGE),
    // The program's name asks for nothing, whatever it is.
    ("a name like an option", &["-h", "join"], Asked::Join),
];

/// Words that ask for some flows, and the first that ask for none.
const FLOW_WORDS: [Case; 19] = [
    (
        "a shard of replay",
        &["segrx", "replay", "--shard", "1/4"],
        Asked::ReplayFlows(LossRule::Decided, 0x2222_2222_2222_2222),
    ),
    (
        "the last shard, behind a rule",
        &["segrx", "replay", "--losses=slid", "--shard=3/4"],
        Asked::ReplayFlows(LossRule::PassedOrSlid, 0x8888_8888_8888_8888),
    ),
    (
        "the only shard",
        &["segrx", "replay", "--shard=0/1"],
        Asked::ReplayFlows(LossRule::Decided, u64::MAX),
    ),
    (
        "a shard of as many as there may be",
        &["segrx", "replay", "--shard", "16383/16384"],
        Asked::ReplayFlows(LossRule::Decided, 0),
    ),
    (
        "a list of flows",
        &["segrx", "replay", "--flows", "0,3,8-15"],
        Asked::ReplayFlows(LossRule::Decided, 0xff09),
    ),
    (
        "a list of flows that overlap, up to the last one, before a rule",
        &[
            "segrx",
            "replay",
            "--flows=62-63,060-62",
            "--losses",
            "passed",
        ],
        Asked::ReplayFlows(LossRule::Passed, 0xf000_0000_0000_0000),
    ),
    (
        "a shard of follow",
        &["segrx", "follow", "--shard", "1/4"],
        Asked::FollowFlows(LossRule::Decided, 0x2222_2222_2222_2222),
    ),
    (
        "a list of follow, up to the last flow, behind a rule",
        &["segrx", "follow", "--losses=slid", "--flows=0-3,16383"],
        Asked::FollowFlows(LossRule::PassedOrSlid, 0xf),
    ),
    (
        "a flow of follow behind the last",
        &["segrx", "follow", "--flows=16384"],
        USAGE,
    ),
    (
        "a shard and a list of follow",
        &["segrx", "follow", "--shard=0/2", "--flows=0"],
        USAGE,
    ),
    ("shard 4 of 4", &["segrx", "replay", "--shard=4/4"], USAGE),
    ("shard 0 of 0", &["segrx", "replay", "--shard=0/0"], USAGE),
    (
        "one of too many shards",
        &["segrx", "replay", "--shard=0/16385"],
        USAGE,
    ),
    ("half a shard", &["segrx", "replay", "--shard=1"], USAGE),
    ("a shard of none", &["segrx", "replay", "--shard=1/"], USAGE),
    ("no shard of two", &["segrx", "replay", "--shard=/2"], USAGE),
    (
        "a shard with a sign",
        &["segrx", "replay", "--shard=+1/2"],
        USAGE,
    ),
    (
        "a shard of a shard",
        &["segrx", "replay", "--shard=0/2/3"],
        USAGE,
    ),
    (
        "a range that goes backwards",
        &["segrx", "replay", "--flows=3-1"],
        USAGE,
    ),
];

/// More words that ask for no flows.
const WORDS_WITHOUT_FLOWS: [Case; 14] = [
    ("flow 64", &["segrx", "replay", "--flows=0,64"], USAGE),
    (
        "a range up to flow 64",
        &["segrx", "replay", "--flows=8-64"],
        USAGE,
    ),
    ("no flows", &["segrx", "replay", "--flows="], USAGE),
    (
        "a comma behind the flows",
        &["segrx", "replay", "--flows=1,"],
        USAGE,
    ),
    (
        "a comma before the flows",
        &["segrx", "replay", "--flows=,1"],
        USAGE,
    ),
    (
        "a range with no last flow",
        &["segrx", "replay", "--flows=1-"],
        USAGE,
    ),
    (
        "a range of three flows",
        &["segrx", "replay", "--flows=1-2-3"],
        USAGE,
    ),
    (
        "a list with a space",
        &["segrx", "replay", "--flows", "1, 2"],
        USAGE,
    ),
    (
        "a shard and a list",
        &["segrx", "replay", "--shard=0/2", "--flows=0"],
        USAGE,
    ),
    (
        "two shards",
        &["segrx", "replay", "--shard=0/2", "--shard=1/2"],
        USAGE,
    ),
    (
        "two lists",
        &["segrx", "replay", "--flows=0", "--flows=0"],
        USAGE,
    ),
    ("a shard of run", &["segrx", "run", "--shard=0/2"], USAGE),
    (
        "help behind a shard",
        &["segrx", "replay", "--shard=0/2", "--help"],
        Asked::Help,
    ),
    (
        "help behind a shard that isn't there",
        &["segrx", "replay", "--shard=2/2", "--help"],
        USAGE,
    ),
];

/// Ends the test if words are read as something else.
fn expect_asked(rt: &impl Abort, alloc: Global, cases: &[Case]) {
    for (case, words, want) in cases {
        assert!(rt; what_is_asked(alloc, words) == *want, "{case}");
    }
}

#[test]
fn reads_words(rt: HostRuntime) {
    expect_asked(&rt, rt.alloc(), &WORDS);
}

#[test]
fn reads_which_flows_are_asked_for(rt: HostRuntime) {
    expect_asked(&rt, rt.alloc(), &FLOW_WORDS);
}

#[test]
fn refuses_what_asks_for_no_flows(rt: HostRuntime) {
    expect_asked(&rt, rt.alloc(), &WORDS_WITHOUT_FLOWS);
}

/// The help that some words ask for, or no text.
fn help_of(alloc: Global, words: &[&str]) -> String {
    match read_words(alloc, words) {
        Ok(Command::Help(text)) => text,
        _ => String::new(alloc),
    }
}

/// Words that ask for help, and parts of it.
const HELPS: [(&[&str], &[&str]); 6] = [
    (
        &["segrx", "-h"],
        &[
            "Usage: segrx [join] < ",
            "segrx cut [",
            "segrx replay [",
            "  cut   ",
            "segrx run [",
            "segrx follow [",
            "  replay  ",
            "  run   ",
            "  follow  ",
        ],
    ),
    (&["segrx", "join", "-h"], &["Usage: segrx join < "]),
    (
        &["segrx", "replay", "-h"],
        &[
            "Usage: segrx replay [",
            "--losses <RULE>",
            "--flows <LIST>",
            "--shard <K/N>",
        ],
    ),
    (
        &["segrx", "run", "-h"],
        &[
            "Usage: segrx run [",
            "--losses <RULE>",
            "--mailbox <N>",
            "--ring <N>",
        ],
    ),
    (
        &["segrx", "follow", "-h"],
        &["Usage: segrx follow [", "--losses <RULE>", "--channels <N>"],
    ),
    (
        &["segrx", "cut", "-h"],
        &["Usage: segrx cut [", "--first <N>", "--fill <zero|ones>"],
    ),
];

/// Parts of each help.
const EACH: [&str; 11] = [
    "  SEGMENT ",
    "  frame FRAME ",
    "  piece DATA FILL ",
    "  flow SFID FIRST WINDOW CLUSTERS\n",
    "  sid CHANNEL SID FLOW\n",
    "  grant CHANNEL NUMBER SID BYTES\n",
    "  burst CHANNEL NUMBER ok|bad BURST\n",
    "  gap FLOW [NUMBER]\n",
    "join does not look at their sequence numbers",
    "268435456 bytes",
    "Exit status:\n  0 ",
];

#[test]
fn help_suffices_alone(rt: HostRuntime) {
    for (words, parts) in &HELPS {
        let help = help_of(rt.alloc(), words);
        for part in parts.iter().chain(&EACH) {
            assert!(rt; help.contains(*part), "{help}: {part}");
        }
        for line in help.lines() {
            assert!(rt; line.len() <= 80, "{line}");
        }
    }
}

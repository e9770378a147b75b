//! What words ask of a capture.
use capture_command::{CaptureWords, asks_to_capture, read_capture_words};
use command_line::UsageFault;
use flow_selection::Selection;
use frame_engine::InnerCheck;
use frame_records::FrameLink;
use loss_rule::LossRule;
use std::alloc::Global;
use std::test::Fail;

#[test]
fn words_without_options_are_the_usual(rt: HostRuntime) -> Result<(), Fail> {
    let words = ["segrx", "capture", "map.txt"];
    assert!(rt; asks_to_capture(&words));
    match read_capture_words(rt.alloc(), &words)? {
        CaptureWords::Capture(asked) => {
            assert!(rt; asked.map.as_str() == "map.txt");
            assert!(rt; asked.settings.rule == LossRule::PassedOrSlid);
            assert!(rt; asked.settings.waits.wait == 20_000_000);
            assert!(rt; asked.settings.waits.reorder == 2_000_000);
            assert!(rt; asked.settings.check == InnerCheck::Sequence);
            assert!(rt; asked.settings.link == FrameLink::Docsis);
            assert!(rt; asked.files.report.is_none());
            assert!(rt; asked.files.requests.is_none());
            assert!(rt; matches!(asked.settings.selected, Selection::All));
        }
        CaptureWords::Help(_) => return Err("help".into()),
    }
    Ok(())
}

/// Whether this path was read.
pub(crate) fn is_path(path: &Option<String>, text: &str) -> bool {
    match path {
        Some(path) => path.as_str() == text,
        None => false,
    }
}

#[test]
fn options_are_read(rt: HostRuntime) -> Result<(), Fail> {
    let words = [
        "segrx",
        "capture",
        "--losses=decided",
        "--wait",
        "0",
        "m",
        "--reorder=3600000",
        "--link",
        "xra",
        "--no-check",
        "--compare",
        "--report",
        "r",
        "--requests=q",
        "--json",
        "j",
        "--picture=p",
        "--progress",
    ];
    match read_capture_words(rt.alloc(), &words)? {
        CaptureWords::Capture(asked) => {
            assert!(rt; asked.settings.rule == LossRule::Decided);
            assert!(rt; asked.settings.waits.wait == 0);
            assert!(rt; asked.settings.waits.reorder == 3_600_000_000_000);
            assert!(rt; asked.settings.check == InnerCheck::Nothing);
            assert!(rt; asked.settings.link == FrameLink::Xra);
            assert!(rt; asked.compares);
            assert!(rt; asked.progress);
            assert!(rt; is_path(&asked.files.report, "r"));
            assert!(rt; is_path(&asked.files.requests, "q"));
            assert!(rt; is_path(&asked.files.json, "j"));
            assert!(rt; is_path(&asked.files.picture, "p"));
        }
        CaptureWords::Help(_) => return Err("help".into()),
    }
    Ok(())
}

#[test]
fn flows_are_asked_for(rt: HostRuntime) -> Result<(), Fail> {
    let words = ["segrx", "capture", "m", "--flows=16383,0-7"];
    match read_capture_words(rt.alloc(), &words)? {
        CaptureWords::Capture(asked) => {
            assert!(rt; !asked.compares);
            assert!(rt; !asked.progress);
            let selected = &asked.settings.selected;
            assert!(rt; selected.has(16_383));
            assert!(rt; selected.has(0));
            assert!(rt; selected.has(7));
            assert!(rt; !selected.has(8));
            assert!(rt; !selected.has(16_382));
        }
        CaptureWords::Help(_) => return Err("help".into()),
    }
    let words = ["segrx", "capture", "--shard", "1/3", "m"];
    match read_capture_words(rt.alloc(), &words)? {
        CaptureWords::Capture(asked) => {
            let selected = &asked.settings.selected;
            assert!(rt; selected.has(1));
            assert!(rt; selected.has(4));
            assert!(rt; !selected.has(0));
            assert!(rt; !selected.has(2));
        }
        CaptureWords::Help(_) => return Err("help".into()),
    }
    Ok(())
}

/// Words that are not understood.
const REFUSED: [&[&str]; 12] = [
    &["segrx", "capture"],
    &["segrx", "capture", "m", "n"],
    &["segrx", "capture", "m", "--losses", "other"],
    &["segrx", "capture", "m", "--wait", "3600001"],
    &["segrx", "capture", "m", "--reorder", "-1"],
    &["segrx", "capture", "m", "--link", "ethernet"],
    &["segrx", "capture", "m", "--no-check", "--no-check"],
    &["segrx", "capture", "m", "--channels", "4"],
    &["segrx", "capture", "m", "--report"],
    &["segrx", "capture", "m", "--flows", "16384"],
    &["segrx", "capture", "m", "--shard", "2/2"],
    &["segrx", "capture", "m", "--shard", "0/2", "--flows=1"],
];

/// Whether these words are not understood.
fn is_refused(alloc: Global, words: &[&str]) -> bool {
    matches!(read_capture_words(alloc, words), Err(UsageFault::Usage))
}

#[test]
fn words_that_are_not_understood(rt: HostRuntime) -> Result<(), Fail> {
    assert!(rt; !asks_to_capture(&["segrx", "map"]));
    assert!(rt; !asks_to_capture(&["segrx"]));
    for (place, words) in REFUSED.iter().enumerate() {
        assert!(rt; is_refused(rt.alloc(), words), "line {place}");
    }
    Ok(())
}

#[test]
fn help_is_asked_for(rt: HostRuntime) -> Result<(), Fail> {
    match read_capture_words(rt.alloc(), &["segrx", "capture", "--help"])? {
        CaptureWords::Help(text) => assert!(rt; text.as_str().contains("segrx capture MAP")),
        CaptureWords::Capture(_) => return Err("no help".into()),
    }
    Ok(())
}

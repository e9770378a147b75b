//! What the words of `capture` ask for.
//!
//! The settings are read from the words themselves, so that contracts can say by which of them
//! frames are joined; that the words are lawful, and the paths of files, is for `clap` to say.
ghost use Rattle.std.specs.Prelude.{◌≡◌, ◌≤◌, ◌↔◌, map, codes, IsTrue, IfOk};
ghost use Rattle.command_line.specs.Command.{IsCommand};
ghost use Rattle.loss_rule.specs.declared.rule.LossRule.TheVariants.{PassedOrSlid};
ghost use Rattle.command_line.specs.Losses.{AskForLosses};
ghost use Rattle.capture_command.specs.Asked.{AskForWait, AskForLink, AskForCheck};
ghost use Rattle.capture_command.specs.Asked.{AskForSettings, AskForHelp, AskToCapture};

use crate::arguments::capture_line;
use capture_map::MOST_FLOWS;
use captured_flows::Waits;
use clap::ArgMatches;
use clap::error::ErrorKind;
use command_line::{UsageFault, asked_flows, has_word, only_value, rule_named};
use frame_engine::{CaptureSettings, InnerCheck};
use frame_records::FrameLink;
use loss_rule::LossRule;
use std::alloc::Global;
use std::convert::AsStr;
use text_lines::read_number;

/// The most milliseconds that bursts may wait or be held: an hour.
const WAIT_MAX: u32 = 3_600_000;
/// How long segments are held where nothing is asked for, in milliseconds.
const WAIT: u32 = 20;
/// How long bursts wait where nothing is asked for, in milliseconds.
const REORDER: u32 = 2;
/// Nanoseconds in a millisecond.
const MILLISECOND: u64 = 1_000_000;
/// The greatest index of a flow of a map.
const LAST_FLOW: u16 = MOST_FLOWS as u16 - 1;

/// The files that are asked for besides the frames.
#[derive(Debug, Drop)]
pub struct AskedFiles {
    /// The path of the file for the report.
    pub report: Option<String>,
    /// The path of the file for the counts as JSON.
    pub json: Option<String>,
    /// The path of the file for the requests.
    pub requests: Option<String>,
    /// The path of the file for the picture.
    pub picture: Option<String>,
}

/// What is asked of a capture.
#[derive(Debug, Drop)]
pub struct CaptureAsked {
    /// The path of the map.
    pub map: String,
    pub settings: CaptureSettings,
    /// Whether the frames are to be compared with those that the analyser joined itself.
    pub compares: bool,
    pub files: AskedFiles,
    /// Whether it is to be said on the way how far the reading is.
    pub progress: bool,
}

/// What the words ask for.
#[derive(Debug, Drop)]
pub enum CaptureWords {
    Capture(CaptureAsked),
    /// To print this text.
    Help(String),
}

/// Whether the words, the program's name first, begin with this command.
pub fn asks_to_capture<S: AsStr>(words: &[S]) -> bool
    ensures { IsTrue result ↔ IsCommand (codes "capture") (map S.text words.now) }
{
    let [_, word, _options @ ..] = words else {
        return false;
    };
    word.as_str() == "capture"
}

/// The nanoseconds that options ask for by this one in milliseconds.
fn asked_wait<S: AsStr>(words: &[S], option: &str, default: u32) -> Result<u64, UsageFault>
    requires { default ≤ 3600000 }
    ensures { IfOk result (AskForWait option.now default (map S.text words.now)) }
{
    let wait = match only_value(words, option)? {
        Some(text) => match read_number(text.as_bytes(), WAIT_MAX) {
            Some(wait) => wait,
            None => return Err(UsageFault::Usage),
        },
        None => default,
    };
    Ok(u64::from(wait) * MILLISECOND)
}

/// The rule that options ask for.
fn asked_losses<S: AsStr>(words: &[S]) -> Result<LossRule, UsageFault>
    ensures { IfOk result (λ rule. AskForLosses PassedOrSlid rule (map S.text words.now)) }
{
    let Some(name) = only_value(words, "--losses")? else {
        return Ok(LossRule::PassedOrSlid);
    };
    match rule_named(name) {
        Some(rule) => Ok(rule),
        None => Err(UsageFault::Usage),
    }
}

/// What options ask a record with a frame to hold.
fn asked_link<S: AsStr>(words: &[S]) -> Result<FrameLink, UsageFault>
    ensures { IfOk result (AskForLink (map S.text words.now)) }
{
    match only_value(words, "--link")? {
        None => Ok(FrameLink::Docsis),
        Some("docsis") => Ok(FrameLink::Docsis),
        Some("xra") => Ok(FrameLink::Xra),
        Some(_) => Err(UsageFault::Usage),
    }
}

/// Which headers of frames options ask to let pass.
fn asked_check<S: AsStr>(words: &[S]) -> InnerCheck
    ensures { AskForCheck (map S.text words.now) result }
{
    if has_word(words, "--no-check") {
        InnerCheck::Nothing
    } else {
        InnerCheck::Sequence
    }
}

/// The settings that options ask for, among which no `--` ends the options.
fn asked_settings<S: AsStr>(alloc: Global, words: &[S]) -> Result<CaptureSettings, UsageFault>
    ensures { IfOk result (AskForSettings (map S.text words.now)) }
{
    if has_word(words, "--") {
        return Err(UsageFault::Usage);
    }
    Ok(CaptureSettings {
        rule: asked_losses(words)?,
        waits: Waits {
            reorder: asked_wait(words, "--reorder", REORDER)?,
            wait: asked_wait(words, "--wait", WAIT)?,
        },
        check: asked_check(words),
        link: asked_link(words)?,
        selected: asked_flows(alloc, words, LAST_FLOW)?,
    })
}

/// Whether a word asks for help.
fn ask_for_help<S: AsStr>(words: &[S]) -> bool
    ensures { IsTrue result ↔ AskForHelp (map S.text words.now) }
{
    has_word(words, "-h") || has_word(words, "--help")
}

/// The path that an option asks for.
fn read_path(
    alloc: Global,
    options: &ArgMatches<'_>,
    name: &str,
) -> Result<Option<String>, UsageFault> {
    match options.get_str(name) {
        Some(path) => Ok(Some(String::from_str(alloc, path)?)),
        None => Ok(None),
    }
}

/// What the words, the program's name first, ask for.
pub fn read_capture_words<'a, S: AsStr>(
    alloc: Global,
    words: &'a [S],
) -> Result<CaptureWords, UsageFault>
    ensures { IfOk result (AskToCapture (map S.text words.now)) }
{
    let [_, options @ ..] = words else {
        return Err(UsageFault::Usage);
    };
    let matches = match capture_line(alloc)?.try_get_matches_from(options) {
        Ok(matches) => matches,
        Err(error) => {
            if error.kind() != ErrorKind::DisplayHelp || !ask_for_help(words) {
                return Err(error.into());
            }
            return Ok(CaptureWords::Help(error.to_string(alloc)?));
        }
    };
    let Some(path) = matches.get_str("map") else {
        return Err(UsageFault::Usage);
    };
    Ok(CaptureWords::Capture(CaptureAsked {
        map: String::from_str(alloc, path)?,
        settings: asked_settings(alloc, words)?,
        compares: has_word(words, "--compare"),
        files: AskedFiles {
            report: read_path(alloc, &matches, "report")?,
            json: read_path(alloc, &matches, "json")?,
            requests: read_path(alloc, &matches, "requests")?,
            picture: read_path(alloc, &matches, "picture")?,
        },
        progress: has_word(words, "--progress"),
    }))
}

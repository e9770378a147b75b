//! What the program's arguments ask for.
ghost use Rattle.std.specs.Prelude.{◌≡◌, ◌≢◌, ◌<◌, ◌≤◌, ◌↔◌, ◌++◌, ◌∷◌, [], ℕ, Bool, Some, List};
ghost use Rattle.std.specs.Prelude.{map, codes, IsTrue, IfOk, MatchOption};
ghost use Rattle.loss_rule.specs.declared.rule.LossRule.{LossRule};
ghost use Rattle.text_lines.specs.Capacities.{default_capacity};
ghost use Rattle.command_line.specs.declared.command.UsageFault.TheVariants.{OutOfMemory};
ghost use Rattle.command_line.specs.Command.{IsCommandAlone, IsCommand, options_in, AsksToJoin};
ghost use Rattle.command_line.specs.Command.{AsksToMap, AsksForAnEngine};
ghost use Rattle.command_line.specs.Command.{AsksToReplayBy, AsksToRunByAlone};
ghost use Rattle.command_line.specs.Losses.{AskForRule, AskForRuleAlone};
ghost use Rattle.command_line.specs.Command.{events_option, AreWithEvents, AsksToFollowAlone};
ghost use Rattle.command_line.specs.Channels.{channels_max, AskForChannels};
ghost use Rattle.command_line.specs.Flows.{AskForFlows};
ghost use Rattle.flow_selection.specs.declared.selection.Selection.{Selection};
ghost use Rattle.command_line.specs.Command.{HasWord, AskForEvents, Asks};
ghost use Rattle.command_line.specs.Command.{IsHelpWord, HasNoHelpWord, StandsBeforeHelp};
ghost use Rattle.command_line.specs.Inside.Command.{AsksWithOptions};
ghost use Rattle.command_line.specs.Inside.Options.{ReadsOptions, ReadsCount, ReadsCapacities};
ghost use Rattle.clap.specs.Matches.{found_of, first_value};

use crate::arguments::command_line;
use crate::channels::{CHANNELS_MAX, asked_channels};
use crate::flows::asked_flows;
use crate::losses::{asked_rule, asked_rule_alone};
use clap::ArgMatches;
use clap::error::ErrorKind;
use docsis_wire::{FillByte, SEQUENCE_MODULUS};
use flow_records::{FLOWS_MAX, MOST_FLOWS};
use flow_selection::Selection;
use loss_rule::LossRule;
use std::alloc::{AllocError, Global};
use std::convert::AsStr;
use std::io;
use text_lines::{Capacities, DEFAULT_CAPACITY, read_number};
use thiserror::Error;

/// What the program is asked to do.
#[derive(Debug, Drop)]
pub enum Command {
    /// To join segments into frames. It is what the program does with no command word, too.
    Join,
    /// To cut frames into segments.
    Cut {
        /// The first segment's number, 0 to 8191.
        first: u16,
        /// What pieces are filled with.
        fill: FillByte,
    },
    /// To replay a trace, and report what a receiver gives for it.
    Replay {
        /// By what losses are decided.
        rule: LossRule,
        /// Which flows are reported, with indexes up to 63.
        flows: Selection,
    },
    /// To receive a trace on threads, and report what that gave.
    Run {
        /// By what losses are decided.
        rule: LossRule,
        /// How many entries each of the two mailboxes has room for, end marks included: 1 to
        /// 65,535.
        mailbox: u16,
        /// How many frames the ring of each flow has room for, its end mark included: 1 to 65,535.
        ring: u16,
    },
    /// To follow a trace, and print what happens by its lines as they are read.
    Follow {
        /// By what losses are decided.
        rule: LossRule,
        /// How many channels the trace may have, 1 to 16.
        channels: u8,
        /// Whether what becomes of each input and each decision is printed too.
        events: bool,
        /// Of which flows it is printed, with indexes up to 16,383.
        flows: Selection,
    },
    /// To write the map that the registrations in a capture give.
    Map,
    /// To print this text, which says how the program is used.
    Help(String),
}

/// Why the program's arguments were not read.
#[derive(Clone, Copy, Debug, PartialEq, Eq, Error)]
pub enum UsageFault {
    /// They ask for nothing that the program does.
    #[error("usage")]
    Usage,
    /// An allocation failed.
    #[error("out of memory")]
    OutOfMemory,
}

impl From<AllocError> for UsageFault {
    ghost from_gives = { λ _ fault. fault ≡ OutOfMemory };

    fn from(_error: AllocError) -> UsageFault {
        UsageFault::OutOfMemory
    }
}

impl From<io::Error> for UsageFault {
    fn from(error: io::Error) -> UsageFault {
        match error.kind() {
            io::ErrorKind::OutOfMemory => UsageFault::OutOfMemory,
            _ => UsageFault::Usage,
        }
    }
}

impl From<clap::Error> for UsageFault {
    fn from(error: clap::Error) -> UsageFault {
        match error.kind() {
            ErrorKind::OutOfMemory => UsageFault::OutOfMemory,
            _ => UsageFault::Usage,
        }
    }
}

/// The greatest number of a segment.
const FIRST_MAX: u32 = SEQUENCE_MODULUS as u32 - 1;

/// The greatest capacity of a mailbox or a ring.
const CAPACITY_MAX: u16 = 65_535;

/// The greatest index of a flow of a trace that is replayed.
const LAST_REPLAYED: u16 = FLOWS_MAX as u16 - 1;
/// And so of a trace that is followed.
const LAST_FOLLOWED: u16 = MOST_FLOWS - 1;

/// Whether the words are the program's name and this command's word.
fn is_command_alone<S: AsStr>(words: &[S], command: &str) -> bool
    ensures { IsTrue result ↔ IsCommandAlone command.now (map S.text words.now) }
{
    match words {
        [_, word] => word.as_str() == command,
        _ => false,
    }
}

/// Whether the words, the program's name first, ask to join and for nothing else.
fn asks_to_join<S: AsStr>(words: &[S]) -> bool
    ensures { IsTrue result ↔ AsksToJoin (map S.text words.now) }
{
    match words {
        [] | [_] => true,
        _ => is_command_alone(words, "join"),
    }
}

/// Whether the words, the program's name first, ask for a map and for nothing else.
fn asks_to_map<S: AsStr>(words: &[S]) -> bool
    ensures { IsTrue result ↔ AsksToMap (map S.text words.now) }
{
    is_command_alone(words, "map")
}

/// The words behind this command, if the words, the program's name first, begin with it.
fn options_of<'a, S: AsStr>(words: &'a [S], command: &str) -> Option<&'a [S]>
    ensures { MatchOption result (¬ IsCommand command.now (map S.text words.now))
        (λ options. IsCommand command.now (map S.text words.now)
        × (options_in (map S.text words.now) ≡ map S.text options.now)) }
{
    let [_, word, options @ ..] = words else {
        return None;
    };
    if word.as_str() != command {
        return None;
    }
    Some(options)
}

/// Whether the words, the program's name first, begin with this command.
fn is_command<S: AsStr>(words: &[S], command: &str) -> bool
    ensures { IsTrue result ↔ IsCommand command.now (map S.text words.now) }
{
    options_of(words, command).is_some()
}

/// The rule by which the words, the program's name first, ask for this command and for nothing
/// else.
fn asked_rule_alone_of<S: AsStr>(words: &[S], command: &str) -> Option<LossRule>
    ensures { (rule : LossRule) → (result ≡ Some rule)
        ↔ (IsCommand command.now (map S.text words.now)
        × AskForRuleAlone rule (options_in (map S.text words.now))) }
{
    asked_rule_alone(options_of(words, command)?)
}

/// The rule by which the words, the program's name first, ask for this command.
fn asked_rule_of<S: AsStr>(words: &[S], command: &str) -> Option<LossRule>
    ensures { (rule : LossRule) → (result ≡ Some rule)
        ↔ (IsCommand command.now (map S.text words.now)
        × AskForRule rule (options_in (map S.text words.now))) }
{
    asked_rule(options_of(words, command)?)
}

/// The rule by which the words, the program's name first, ask to replay and for nothing else.
fn asked_replay_alone<S: AsStr>(words: &[S]) -> Option<LossRule>
    ensures { (rule : LossRule)
        → (result ≡ Some rule) ↔ AsksToReplayBy rule (map S.text words.now) }
{
    asked_rule_alone_of(words, "replay")
}

/// The rule by which the words, the program's name first, ask to run and for nothing else.
fn asked_run_alone<S: AsStr>(words: &[S]) -> Option<LossRule>
    ensures { (rule : LossRule)
        → (result ≡ Some rule) ↔ AsksToRunByAlone rule (map S.text words.now) }
{
    asked_rule_alone_of(words, "run")
}

/// For how many channels the words, the program's name first, ask to follow.
fn asked_channels_of<S: AsStr>(words: &[S]) -> Option<u8>
    ensures { (channels : ℕ) → (result ≡ Some channels)
        ↔ (IsCommand (codes "follow") (map S.text words.now)
        × AskForChannels channels (options_in (map S.text words.now))) }
{
    asked_channels(options_of(words, "follow")?)
}

/// The flows for which the words, the program's name first, ask of this command, with indexes up to
/// the last one.
fn flows_in_words<S: AsStr>(
    alloc: Global,
    words: &[S],
    command: &str,
    last: u16,
) -> Result<Selection, UsageFault>
    ensures { IfOk result (λ selected. AskForFlows last selected
        (options_in (map S.text words.now))) }
{
    match options_of(words, command) {
        Some(options) => asked_flows(alloc, options, last),
        None => Err(UsageFault::Usage),
    }
}

/// The options behind `--events`, if that stands before all others.
fn behind_events<S: AsStr>(options: &[S]) -> Option<&[S]>
    ensures { MatchOption result
        ((rest : List (List ℕ)) → map S.text options.now ≢ events_option ∷ rest)
        (λ rest. map S.text options.now ≡ events_option ∷ map S.text rest.now) }
{
    match options {
        [first, rest @ ..] if first.as_str() == "--events" => Some(rest),
        _ => None,
    }
}

/// The options before `--events`, if that stands behind all others.
fn before_events<S: AsStr>(options: &[S]) -> Option<&[S]>
    ensures { MatchOption result
        ((rest : List (List ℕ)) → map S.text options.now ≢ rest ++ events_option ∷ [])
        (λ rest. map S.text options.now ≡ map S.text rest.now ++ events_option ∷ []) }
{
    match options {
        [rest @ .., last] if last.as_str() == "--events" => Some(rest),
        _ => None,
    }
}

/// The options beside `--events`, if that stands before or behind all others.
fn beside_events<S: AsStr>(options: &[S]) -> Option<&[S]>
    ensures { MatchOption result
        ((rest : List (List ℕ)) → ¬ AreWithEvents (map S.text options.now) rest)
        (λ rest. AreWithEvents (map S.text options.now) (map S.text rest.now)) }
{
    match behind_events(options) {
        Some(rest) => Some(rest),
        None => before_events(options),
    }
}

/// The rule by which the words, the program's name first, ask to follow and whether with events,
/// where they ask for nothing else.
fn asked_follow_alone<S: AsStr>(words: &[S]) -> Option<(LossRule, bool)>
    ensures { (rule : LossRule) (events : Bool)
        → (result ≡ Some (rule, events)) ↔ AsksToFollowAlone rule events (map S.text words.now) }
{
    let options = options_of(words, "follow")?;
    match beside_events(options) {
        Some(rest) => Some((asked_rule_alone(rest)?, true)),
        None => Some((asked_rule_alone(options)?, false)),
    }
}

/// Whether a word asks for help.
fn asks_for_help(word: &str) -> bool
    ensures { IsTrue result ↔ IsHelpWord word.now }
{
    word == "-h" || word == "--help"
}

/// The words before the first one after the program's name that asks for help.
fn before_help<S: AsStr>(words: &[S]) -> Option<&[S]>
    ensures { MatchOption result (HasNoHelpWord (map S.text words.now))
        (λ before. StandsBeforeHelp (map S.text before.now) (map S.text words.now)) }
{
    for place in 1..words.len() {
        if asks_for_help(words[place].as_str()) {
            return Some(&words[..place]);
        }
    }
    None
}

/// Whether one of the words is this one.
pub fn has_word<S: AsStr>(words: &[S], wanted: &str) -> bool
    ensures { IsTrue result ↔ HasWord wanted.now (map S.text words.now) }
{
    let mut rest = words;
    while let [word, more @ ..] = rest {
        if word.as_str() == wanted {
            return true;
        }
        rest = more;
    }
    false
}

/// Whether the words, the program's name first, ask for events, where they ask to follow.
fn asked_events<S: AsStr>(words: &[S]) -> bool
    ensures { IsCommand (codes "follow") (map S.text words.now)
        → AskForEvents result (options_in (map S.text words.now)) }
{
    match options_of(words, "follow") {
        Some(options) => has_word(options, "--events"),
        None => false,
    }
}

/// The first number and the fill that the options of `cut` ask for.
fn read_cut(options: &ArgMatches<'_>) -> Result<(u16, FillByte), UsageFault>
    ensures { ReadsOptions (first_value (found_of options.now) (codes "first"))
        (first_value (found_of options.now) (codes "fill")) result }
{
    let Some(first) = read_number(
        options.get_str("first").unwrap_or("0").as_bytes(),
        FIRST_MAX,
    ) else {
        return Err(UsageFault::Usage);
    };
    let fill = match options.get_str("fill").unwrap_or("zero") {
        "zero" => FillByte::Zero,
        "ones" => FillByte::Ones,
        _ => return Err(UsageFault::Usage),
    };
    Ok((first as u16, fill))
}

/// The number from 1 to this that an option asks for, and this other one where it is left out.
fn read_count(
    options: &ArgMatches<'_>,
    name: &str,
    most: u16,
    default: u16,
) -> Result<u16, UsageFault>
    requires { default ≤ most }
    ensures read { ReadsCount most default (first_value (found_of options.now) name.now) result }
    ensures within { IfOk result (λ count. count ≤ most) }
{
    let Some(text) = options.get_str(name) else {
        return Ok(default);
    };
    match read_number(text.as_bytes(), u32::from(most)) {
        Some(count) if count > 0 => Ok(count as u16),
        _ => Err(UsageFault::Usage),
    }
}

/// The capacities of the mailboxes and of the rings that the options of `run` ask for.
fn read_run(options: &ArgMatches<'_>) -> Result<Capacities, UsageFault>
    ensures { ReadsCapacities (first_value (found_of options.now) (codes "mailbox"))
        (first_value (found_of options.now) (codes "ring")) result }
{
    let mailbox = read_count(options, "mailbox", CAPACITY_MAX, DEFAULT_CAPACITY)?;
    let ring = read_count(options, "ring", CAPACITY_MAX, DEFAULT_CAPACITY)?;
    Ok(Capacities { mailbox, ring })
}

/// What words ask for that begin with a command which has options, and of which none asks for help.
fn read_with_options<'a, S: AsStr>(alloc: Global, words: &'a [S]) -> Result<Command, UsageFault>
    ensures { IfOk result (AsksWithOptions (map S.text words.now)) }
{
    let cuts = is_command(words, "cut");
    let run_rule = asked_rule_of(words, "run");
    let follow_rule = asked_rule_of(words, "follow");
    let replay_rule = asked_rule_of(words, "replay");
    let by_rule = run_rule.is_some() || follow_rule.is_some() || replay_rule.is_some();
    if !(cuts || by_rule) || has_word(words, "--") {
        return Err(UsageFault::Usage);
    }
    let matches = command_line(alloc)?.try_get_matches_from(words)?;
    if cuts && let Some(options) = matches.subcommand_matches("cut") {
        let (first, fill) = read_cut(options)?;
        return Ok(Command::Cut { first, fill });
    }
    if let Some(rule) = run_rule
        && let Some(options) = matches.subcommand_matches("run")
    {
        let Capacities { mailbox, ring } = read_run(options)?;
        return Ok(Command::Run {
            rule,
            mailbox,
            ring,
        });
    }
    if let Some(rule) = follow_rule
        && let Some(channels) = asked_channels_of(words)
        && matches.subcommand_matches("follow").is_some()
    {
        let events = asked_events(words);
        let flows = flows_in_words(alloc, words, "follow", LAST_FOLLOWED)?;
        return Ok(Command::Follow {
            rule,
            channels,
            events,
            flows,
        });
    }
    if let Some(rule) = replay_rule
        && matches.subcommand_matches("replay").is_some()
    {
        let flows = flows_in_words(alloc, words, "replay", LAST_REPLAYED)?;
        return Ok(Command::Replay { rule, flows });
    }
    Err(UsageFault::Usage)
}

/// The text that says how the program is used, for words of which one asks for it.
fn help_text<'a, S: AsStr>(alloc: Global, words: &'a [S]) -> Result<String, UsageFault> {
    let Err(error) = command_line(alloc)?.try_get_matches_from(words) else {
        return Err(UsageFault::Usage);
    };
    if error.kind() != ErrorKind::DisplayHelp {
        return Err(error.into());
    }
    Ok(error.to_string(alloc)?)
}

/// Whether the words, the program's name first, ask for what has no options or one alone, and for
/// nothing else.
fn asks_alone<S: AsStr>(words: &[S]) -> bool
    ensures { IsTrue result → AsksForAnEngine (map S.text words.now) }
{
    asks_to_join(words) || asks_to_map(words) || asked_replay_alone(words).is_some()
}

/// What the program's words ask for, its name first. No words at all are read as its name alone.
///
/// `-h` or `--help` asks for help, whatever follows it, where the words before it are lawful. Words
/// that ask for nothing that the program does are `Usage`: an unknown word or option, an option of
/// another command, one that is repeated or has no value or one out of range, a rule of another
/// name, `help`, `--version` and `--`.
pub fn read_words<'a, S: AsStr>(alloc: Global, words: &'a [S]) -> Result<Command, UsageFault>
    ensures asked { IfOk result (Asks (map S.text words.now)) }
    ensures join { AsksToJoin (map S.text words.now) → result ≡ Ok Command.Join }
    ensures map { AsksToMap (map S.text words.now) → result ≡ Ok Command.Map }
    ensures replay { (rule : LossRule)
        → AsksToReplayBy rule (map S.text words.now)
        → result ≡ Ok (Command.Replay rule Selection.All) }
    ensures run { (rule : LossRule) → AsksToRunByAlone rule (map S.text words.now)
        → result ≡ Ok (Command.Run rule default_capacity default_capacity) }
    ensures follow { (rule : LossRule) (events : Bool)
        → AsksToFollowAlone rule events (map S.text words.now)
        → result ≡ Ok (Command.Follow rule channels_max events Selection.All) }
{
    if asks_to_join(words) {
        return Ok(Command::Join);
    }
    if asks_to_map(words) {
        return Ok(Command::Map);
    }
    if let Some(rule) = asked_replay_alone(words) {
        return Ok(Command::Replay {
            rule,
            flows: Selection::All,
        });
    }
    if let Some(rule) = asked_run_alone(words) {
        return Ok(Command::Run {
            rule,
            mailbox: DEFAULT_CAPACITY,
            ring: DEFAULT_CAPACITY,
        });
    }
    if let Some((rule, events)) = asked_follow_alone(words) {
        let flows = Selection::All;
        return Ok(Command::Follow {
            rule,
            channels: CHANNELS_MAX,
            events,
            flows,
        });
    }
    let Some(before) = before_help(words) else {
        return read_with_options(alloc, words);
    };
    if !asks_alone(before) {
        read_with_options(alloc, before)?;
    }
    Ok(Command::Help(help_text(alloc, words)?))
}

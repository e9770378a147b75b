//! The command line as `clap` knows it: the commands, their options, and the help.
use clap::{Arg, ArgAction, Command};
use std::alloc::{AllocError, Global};

/// What the help of each command ends with.
const FORMATS: &str = "\
Lines of join:
  SEGMENT          one segment, header and payload, in the order to join them;
                   join does not look at their sequence numbers
Lines of cut:
  frame FRAME      one whole frame; frames are cut in their order
  piece DATA FILL  one segment with DATA bytes of frames and FILL of fill,
                   0 to 65535 each; segments are made in their order
Lines of replay, run and follow, a trace of what came in on the channels:
  flow SFID FIRST WINDOW CLUSTERS
                   a service flow: the number of its first segment, its window
                   of 1 to 4096 segments, and its 1 to 8 SID clusters; FLOW
                   below is its place among these lines, from 0
  sid CHANNEL SID FLOW
                   a SID of that flow on a channel, 0 to 3, or of follow one
                   below the number of channels
  grant CHANNEL NUMBER SID BYTES
                   a grant to that SID, under a number
  burst CHANNEL NUMBER ok|bad BURST
                   what came in that grant: whether the header's check was
                   right, and the segment, header and payload
  gap FLOW [NUMBER]
                   the expected segment is lost, or all before that number
Bytes are written as hexadecimal digits, two a byte, or as - for no bytes. Words
are separated by spaces, tabs or carriage returns. A line without words, or that
begins with #, is skipped. At most 268435456 bytes are read; follow and map read
all.

join prints one frame a line, and cut one segment a line. replay and run print a
report of each flow with its frames, of the requests and of the channels. replay
takes what came in in the order of its lines; run gives each channel a thread,
and takes it in the order in which it happens to come. Which segments are lost
say the gap lines alone by the rule decided; by passed, lost is also what each
channel of the flow has passed, since on each a later segment came; by slid, so
is what has to leave the window for one that comes beyond it. Nothing is printed
before the whole input was read and is without fault; but follow prints each
frame and each request as soon as the line is read that brings it, also above a
line that is at fault, and what was counted at the end. With --events it prints
besides what became of each grant, burst and gap, and how its flow then stands.

map reads a capture, pcap or pcapng, of packets of link type 273, to its end,
and prints the map that the registrations in it give: lines flow, channel and
sid, each below a comment that says which modem was told so, when and by what.
Where there are none it prints as comments which SIDs carry segments. capture
joins the bursts of a capture by such a map, and writes their frames as pcap:
segrx capture --help says how.

Exit status:
  0  done
  1  a line of the input or a capture is at fault, or the frames cannot be cut
     that way
  2  the arguments are not understood
  3  out of memory
  4  reading or writing failed, or the input is too long
Each fault is reported by one line on standard error.";

/// An option with a value.
fn option<'a>(alloc: Global, name: &'a str, value: &'a str, help: &'a str) -> Arg<'a> {
    Arg::new(alloc, name)
        .long(name)
        .value_name(value)
        .action(ArgAction::Set)
        .help(help)
}

/// A command with what its help says first, and how it is called.
fn command<'a>(alloc: Global, name: &'a str, about: &'a str, usage: &'a str) -> Command<'a> {
    Command::new(alloc, name)
        .about(about)
        .override_usage(usage)
        .after_help(FORMATS)
}

/// The option of `replay`, `run` and `follow` that names a loss rule.
fn losses_option<'a>(alloc: Global) -> Arg<'a> {
    let help = "What is lost: decided, passed or slid [default: decided]";
    option(alloc, "losses", "RULE", help)
}

/// The command `cut` with its options.
fn cut_command<'a>(alloc: Global) -> Result<Command<'a>, AllocError> {
    let first = "Number of the first segment, 0 to 8191 [default: 0]";
    let fill = "Byte of fill, 00 or ff [default: zero]";
    let about = "Cuts frames into pieces, and prints one segment a piece";
    let usage = "segrx cut [--first N] [--fill zero|ones] < FRAMES_AND_PIECES > SEGMENTS";
    command(alloc, "cut", about, usage)
        .arg(option(alloc, "first", "N", first))?
        .arg(option(alloc, "fill", "zero|ones", fill))
}

/// The option of `replay` and `follow` that lists flows.
fn flows_option<'a>(alloc: Global) -> Arg<'a> {
    let help = "Only these flows, as 0,3,8-15 [default: all]";
    option(alloc, "flows", "LIST", help)
}

/// The option of `replay` and `follow` that names a shard.
fn shard_option<'a>(alloc: Global) -> Arg<'a> {
    let help = "Only flows whose index modulo N is K [default: all]";
    option(alloc, "shard", "K/N", help)
}

/// The command `replay` with its options.
fn replay_command<'a>(alloc: Global) -> Result<Command<'a>, AllocError> {
    let about = "Replays a trace, and prints what each flow gave";
    let usage = "segrx replay [--losses RULE] [--flows LIST|--shard K/N] < TRACE > REPORT";
    command(alloc, "replay", about, usage)
        .arg(losses_option(alloc))?
        .arg(flows_option(alloc))?
        .arg(shard_option(alloc))
}

/// The command `run` with its options.
fn run_command<'a>(alloc: Global) -> Result<Command<'a>, AllocError> {
    let mailbox = "Entries that a mailbox holds, 1 to 65535 [default: 1024]";
    let ring = "Frames that a ring holds, 1 to 65535 [default: 1024]";
    let about = "Receives a trace on threads, and prints what each flow gave";
    let usage = "segrx run [--losses RULE] [--mailbox N] [--ring N] < TRACE > REPORT";
    command(alloc, "run", about, usage)
        .arg(losses_option(alloc))?
        .arg(option(alloc, "mailbox", "N", mailbox))?
        .arg(option(alloc, "ring", "N", ring))
}

/// The option of `follow` without a value.
fn events_option<'a>(alloc: Global) -> Arg<'a> {
    Arg::new(alloc, "events")
        .long("events")
        .action(ArgAction::SetTrue)
        .help("Also print what becomes of each grant, burst and gap")
}

/// The command `follow` with its options.
fn follow_command<'a>(alloc: Global) -> Result<Command<'a>, AllocError> {
    let channels = "Channels that the trace may have, 1 to 16 [default: 16]";
    let about = "Follows a trace, and prints what each flow gives as lines are read";
    let usage = "segrx follow [OPTION]... < TRACE > FRAMES";
    command(alloc, "follow", about, usage)
        .arg(losses_option(alloc))?
        .arg(option(alloc, "channels", "N", channels))?
        .arg(events_option(alloc))?
        .arg(flows_option(alloc))?
        .arg(shard_option(alloc))
}

/// The command `map`, which has no options.
fn map_command<'a>(alloc: Global) -> Command<'a> {
    let about = "Prints the map that the registrations in a capture give";
    command(alloc, "map", about, "segrx map < CAPTURE > MAP")
}

/// The command `capture`, of which only the name is known here: who reads the other commands' words
/// hands on those of `capture` before.
fn capture_command<'a>(alloc: Global) -> Command<'a> {
    let about = "Joins the bursts of a capture, and writes their frames as pcap";
    let usage = "segrx capture MAP [OPTION]... < CAPTURE > FRAMES";
    command(alloc, "capture", about, usage)
}

/// The program's own usage: that of each command.
const USAGE: &str = "segrx [join] < SEGMENTS > FRAMES
       segrx cut [--first N] [--fill zero|ones] < FRAMES_AND_PIECES > SEGMENTS
       segrx replay [--losses RULE] [--flows LIST|--shard K/N] < TRACE > REPORT
       segrx run [--losses RULE] [--mailbox N] [--ring N] < TRACE > REPORT
       segrx follow [OPTION]... < TRACE > FRAMES
       segrx map < CAPTURE > MAP
       segrx capture MAP [OPTION]... < CAPTURE > FRAMES";

/// The commands of the program.
pub fn command_line<'a>(alloc: Global) -> Result<Command<'a>, AllocError> {
    let about = "Joins segments, and prints their frames; the default";
    let join = command(alloc, "join", about, "segrx join < SEGMENTS > FRAMES");
    let about = "Receives DOCSIS 3.0 upstream service flows that are bonded over channels";
    command(alloc, "segrx", about, USAGE)
        .disable_help_subcommand(true)
        .subcommand(join)?
        .subcommand(cut_command(alloc)?)?
        .subcommand(replay_command(alloc)?)?
        .subcommand(run_command(alloc)?)?
        .subcommand(follow_command(alloc)?)?
        .subcommand(map_command(alloc))?
        .subcommand(capture_command(alloc))
}

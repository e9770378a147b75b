//! The command line of `capture` as `clap` knows it.
use clap::{Arg, ArgAction, Command};
use std::alloc::{AllocError, Global};

/// What the help ends with.
const FORMATS: &str = "\
Lines of MAP, which says which SIDs are of which flow (segrx map writes one):
  flow SFID FIRST|auto WINDOW CLUSTERS
  channel CHANNEL ID
  sid CHANNEL SID FLOW
The capture is pcap or pcapng, of packets of link type 273, and is read to its
end, also from a pipe. Each frame is written as soon as it is joined, with the
time of the burst that completed it. What is missing before a number that was
held for --wait milliseconds of the packets' clock is lost, besides what the
rule decides.";

/// How the command is called.
const USAGE: &str = "segrx capture MAP [OPTION]... < CAPTURE > FRAMES";

/// An option with a value.
fn option<'a>(alloc: Global, name: &'a str, value: &'a str, help: &'a str) -> Arg<'a> {
    Arg::new(alloc, name)
        .long(name)
        .value_name(value)
        .action(ArgAction::Set)
        .help(help)
}

/// An option without a value.
fn flag<'a>(alloc: Global, name: &'a str, help: &'a str) -> Arg<'a> {
    Arg::new(alloc, name)
        .long(name)
        .action(ArgAction::SetTrue)
        .help(help)
}

/// The command `capture` with its options.
pub fn capture_line<'a>(alloc: Global) -> Result<Command<'a>, AllocError> {
    let losses = "What is lost: decided, passed or slid [default: slid]";
    let wait = "How long a segment is held for those that are missing [default: 20]";
    let reorder = "How long a burst waits for its neighbours [default: 2]";
    let flows = "Only these flows, as 0,3,8-15 [default: all]";
    let shard = "Only flows whose index modulo N is K [default: all]";
    let link = "Frames alone, or packets with channel and SID [default: docsis]";
    let compare = "Compare the frames with those that the analyser joined itself";
    let report = "Also write the counts to this file";
    let json = "Also write the counts to this file, as JSON";
    let requests = "Also write the requests to this file, as CSV";
    let picture = "Also draw the segments of the flows into this file, as SVG";
    let progress = "Say on standard error once a second how far it is";
    Command::new(alloc, "capture")
        .about("Joins the bursts of a capture, and writes their frames as pcap")
        .override_usage(USAGE)
        .after_help(FORMATS)
        .disable_version_flag(true)
        .arg(
            Arg::new(alloc, "map")
                .value_name("MAP")
                .required(true)
                .help("The map, a file"),
        )?
        .arg(option(alloc, "losses", "RULE", losses))?
        .arg(option(alloc, "wait", "MS", wait))?
        .arg(option(alloc, "reorder", "MS", reorder))?
        .arg(option(alloc, "link", "docsis|xra", link))?
        .arg(flag(
            alloc,
            "no-check",
            "Let headers of frames pass that end with a wrong check",
        ))?
        .arg(option(alloc, "flows", "LIST", flows))?
        .arg(option(alloc, "shard", "K/N", shard))?
        .arg(flag(alloc, "compare", compare))?
        .arg(option(alloc, "report", "FILE", report))?
        .arg(option(alloc, "json", "FILE", json))?
        .arg(option(alloc, "requests", "FILE", requests))?
        .arg(option(alloc, "picture", "FILE", picture))?
        .arg(flag(alloc, "progress", progress))
}

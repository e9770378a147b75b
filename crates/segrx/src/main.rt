//! A receiver of DOCSIS 3.0 upstream service flows that are bonded over several channels, as a
//! program.
//!
//! `replay` reads a trace of what came in on the channels and prints the report of what each flow
//! gave; `run` does so too, with a thread for each channel, and `follow` prints what comes of each
//! line as it is read. `join` reads one segment in hexadecimal a line and prints one frame a line.
//! `cut` reads frames and pieces, one a line, and prints one segment a line. `map` reads a capture
//! and writes its map, and `capture` joins one with a map and writes its frames.
//!
//! It hands its arguments, its standard input and its two outputs to
//! [`capture_command::capture_program`], which also opens files, where they ask to capture, else to
//! [`commands::program`]. Either is all of it over any reader that may be shown the output
//! ([`engines::ReadBehind`]) and any two writers, and answers the exit status.
#![tactic(auto)]

use capture_command::{asks_to_capture, capture_program};
use commands::{program, report_outcome};
use engines::{Device, UsageFault};
use std::env;
use std::process::ExitCode;

/// The program's arguments, its name first.
fn words_of(rt: &HostRuntime) -> Result<Vec<String>, UsageFault> {
    let words = env::args(rt)?.collect(rt.alloc())?;
    Ok(words)
}

fn main(rt: HostRuntime) -> ExitCode {
    let status = match words_of(&rt) {
        Ok(words) if asks_to_capture(&words) => {
            capture_program(
                rt.alloc(),
                &rt,
                &words,
                rt.stdin(),
                rt.stdout(),
                rt.stderr(),
            )
        }
        Ok(words) => program(rt.alloc(), rt, &words, rt.stdin(), rt.stdout(), rt.stderr()),
        Err(fault) => {
            let mut err = Device::new(rt.stderr());
            let status = report_outcome(&Err(fault.into()), &mut err);
            err.into_inner();
            status
        }
    };
    ExitCode::from(status)
}

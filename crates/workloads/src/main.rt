//! The jobs by which the project's speed is measured (`bench/workloads.txt`).
//!
//! Its words are a job, a number, and the path of a map: the job makes its own input, another one
//! for each number, gives it to the public calls of the crates on top, and prints a digest of all
//! that these give, of how many bytes that is, and how many segments were made. A fourth word says
//! how much is given, in 256th parts; all if there is none. `trial` does all jobs on one such part.
//! It prints no times, and the same at each run.
#![tactic(auto)]

mod behind;
mod dice;
mod digest;
mod feed;
mod jobs;
mod pool;
mod receiving;
mod recording;
mod trace;

use dice::Dice;
use digest::Digest;
use jobs::{JOBS, Job, Scale, do_job};
use std::env;
use std::io::{Error, ErrorKind, Result};
use std::rt::{Clock, Files};
use std::sync::Wait;
use std::thread::Threads;

/// Does a job, and prints its digest, how many bytes that is of, and of how many segments.
fn show<T>(rt: T, job: Job, scale: Scale, seed: u64, map: &str) -> Result<()>
where
    T: AllocGlobal + Print + Files + Clock + Threads + Wait + Copy + Send + 'static,
{
    let mut digest = Digest::new();
    let segments = do_job(
        rt.alloc(),
        rt,
        job,
        scale,
        Dice::new(seed),
        map,
        &mut digest,
    )?;
    let (name, value, length) = (job.name(), digest.value(), digest.length());
    println!(rt; "{name} {value:016x} {length} {segments}")
}

fn main(rt: HostRuntime) -> Result<()> {
    let words: Vec<String> = env::args(&rt)?.collect(rt.alloc())?;
    let (Some(name), Some(seed), Some(map)) = (words.get(1), words.get(2), words.get(3)) else {
        return Err(Error::from(ErrorKind::InvalidInput));
    };
    let Ok(seed) = seed.as_str().parse::<u64>() else {
        return Err(Error::from(ErrorKind::InvalidInput));
    };
    if name.as_str() == "trial" {
        for job in JOBS {
            show(rt, job, Scale::TRIAL, seed, map.as_str())?;
        }
        return Ok(());
    }
    let scale = match words.get(4).map(|parts| parts.as_str().parse::<u64>()) {
        Some(Ok(parts)) => Scale(parts),
        Some(Err(_)) => return Err(Error::from(ErrorKind::InvalidInput)),
        None => Scale::WHOLE,
    };
    match JOBS.iter().find(|job| job.name() == name.as_str()) {
        Some(job) => show(rt, *job, scale, seed, map.as_str()),
        None => Err(Error::from(ErrorKind::InvalidInput)),
    }
}

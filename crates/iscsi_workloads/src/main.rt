//! The jobs that users of Cundarrix wait for, as workloads of a benchmark: each makes its input of a seed, and prints a
//! digest of all that came of it, with the number of its events.
//!
//! usage: `iscsi_workloads WORKLOAD ROUNDS SEED`, where the workload is replay, ports, target, trouble, threads, or all.
#![tactic(auto)]

mod digest;
mod effects;
mod halt;
mod headers;
mod random;
mod replay;
mod shapes;
mod source;
mod target;
mod text;
mod threads;
mod trouble;

use digest::Digest;
use halt::Halt;
use std::alloc::Global;
use std::process::ExitCode;
use std::{env, io};

/// Runs the workload of this name. None where there is no such workload.
fn run(
    alloc: Global,
    name: &str,
    rounds: u32,
    seed: u64,
    digest: &mut Digest,
) -> Option<Result<(), Halt>> {
    match name {
        "replay" => Some(replay::replay(alloc, rounds, seed, digest)),
        "ports" => Some(replay::ports(alloc, rounds, seed, digest)),
        "target" => Some(target::serve_all(alloc, rounds, seed, digest)),
        "trouble" => Some(trouble::trouble(alloc, rounds, seed, digest)),
        "threads" => Some(threads::threads(alloc, rounds, seed, digest)),
        _ => None,
    }
}

/// Runs a workload, and prints its digest.
fn tell<R: io::Print + AllocGlobal>(
    rt: &R,
    name: &str,
    rounds: u32,
    seed: u64,
) -> io::Result<bool> {
    let mut digest = Digest::new();
    match run(rt.alloc(), name, rounds, seed, &mut digest) {
        Some(Ok(())) => {
            println!(rt; "{name} {:016x} {}", digest.value(), digest.events)?;
            Ok(true)
        }
        Some(Err(halt)) => {
            println!(rt; "{name}: {halt}")?;
            Ok(false)
        }
        None => Ok(false),
    }
}

/// Runs the workload that the words tell, or all.
fn run_as_told<R: io::Print + AllocGlobal>(rt: &R, words: &[String]) -> io::Result<bool> {
    let [_, name, rounds, seed] = words else {
        return Ok(false);
    };
    let (Ok(rounds), Ok(seed)) = (rounds.parse::<u32>(), seed.parse::<u32>()) else {
        return Ok(false);
    };
    let seed = u64::from(seed);
    if name.as_str() != "all" {
        return tell(rt, name, rounds, seed);
    }
    for name in ["replay", "ports", "target", "trouble", "threads"] {
        if !tell(rt, name, rounds, seed)? {
            return Ok(false);
        }
    }
    Ok(true)
}

fn main(rt: HostRuntime) -> io::Result<ExitCode> {
    let words: Vec<String> = env::args(&rt)?.collect(rt.alloc())?;
    if run_as_told(&rt, &words)? {
        Ok(ExitCode::SUCCESS)
    } else {
        eprintln!(rt;
            "usage: iscsi_workloads replay|ports|target|trouble|threads|all ROUNDS SEED"
        )?;
        Ok(ExitCode::FAILURE)
    }
}

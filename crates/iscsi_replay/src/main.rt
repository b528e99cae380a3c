//! The program `iscsi-replay`: it reads a recording from standard input, and writes its report to standard
//! output.
#![tactic(auto)]

mod program;
mod recorded;
mod replaying;
mod stopping;
mod threading;

ghost use Rattle.std.specs.Prelude.{◌≡◌, IfOk, map, string_bytes};

use iscsi_recording::{ReplayFault, Watched};
use iscsi_settings::Named;
use program::replay_as_told;
use std::alloc::Global;
use std::env::Env;
use std::io::{Input, Print};
use std::process::ExitCode;
use std::sync::Wait;
use std::thread::Threads;
use std::{env, io};
use stopping::{Stop, exit_code};

/// The words of the command line, the program's name first.
fn words<R: Env + AllocGlobal>(rt: &R) -> Result<Vec<String>, Stop> {
    match env::args(&(Named::new(rt), rt.alloc())) {
        Ok(args) => match args.collect(rt.alloc()) {
            Ok(words) => Ok(words),
            Err(_) => Err(Stop::Fault(ReplayFault::NoMemory)),
        },
        Err(error) if error.kind() == io::ErrorKind::OutOfMemory => {
            Err(Stop::Fault(ReplayFault::NoMemory))
        }
        Err(_) => Err(Stop::NotText),
    }
}

/// The texts of the words.
fn texts<'a>(alloc: Global, words: &'a [String]) -> Result<Vec<&'a str>, Stop>
    ensures { IfOk result (λ texts. map (λ text. text.now) texts.items ≡ map string_bytes words.entry.now) }
{
    let mut texts = Vec::new(alloc);
    for word in words {
        if texts.push(word.as_str()).is_err() {
            return Err(Stop::Fault(ReplayFault::NoMemory));
        }
    }
    Ok(texts)
}

/// Replays standard input as the command line says.
fn run<R: Env + Input + Print + AllocGlobal + Threads + Wait + Sync>(rt: &R) -> Result<(), Stop> {
    let words = words(rt)?;
    let texts = texts(rt.alloc(), &words)?;
    let mut reader = Watched::new(rt.reader());
    let mut writer = Watched::new(io::writer(rt));
    replay_as_told(rt, rt.alloc(), &texts, &mut reader, &mut writer)
}

fn main(rt: HostRuntime) -> ExitCode {
    exit_code(run(&rt), &rt)
}

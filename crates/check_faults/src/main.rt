//! The driver of `tests/loops` and `tests/faults`: it reads a script of calls from standard input, makes them of a
//! session or of a loop with its ports, and prints what each of them answered.
//!
//! A call that is refused for want of memory is made again, and what is printed is the second answer. So a run in
//! which a request for memory is refused prints the same as one with ample memory. Where `open`, `serve` or the
//! driver's own work is refused, all is begun anew. On standard error it tells how many calls were made again, and how
//! often a thread was wanting. What the thread layer refuses for another reason, the driver tells.
#![tactic(auto)]

mod calls;
mod figures;
mod ports;
mod rig;
mod serving;
mod stepping;
mod told;

use calls::Given;
use std::alloc::Global;
use std::io::{Read, Write};
use std::process::ExitCode;
use std::sync::Wait;
use std::thread::Threads;
use std::{env, io};
use told::{Halt, TRIES, Told};

/// The most bytes of a script.
const LONGEST: usize = 1_048_576;

/// Makes the calls of a script, as the first word says: of a session, of a loop with its ports, of `serve`, or of the
/// figures of the wire and the window.
fn drive<R: Threads + Wait + Sync>(
    rt: &R,
    alloc: Global,
    words: &[String],
    script: &str,
    told: &mut Told,
) -> Result<(), Halt> {
    let Some(scene) = words.get(1) else {
        return Err(Halt::BadScript);
    };
    let given = Given::read(words.get(2..).unwrap_or(&[])).ok_or(Halt::BadScript)?;
    match scene.as_str() {
        "session" => stepping::make_calls(alloc, &given, script, told),
        "ports" => ports::make_calls(alloc, &given, script, told),
        "serve" => serving::make_call(rt, alloc, &given, script, told),
        "figures" => figures::make_calls(alloc, script, told),
        _ => Err(Halt::BadScript),
    }
}

/// Makes the calls of a script, and begins anew where memory or a thread is refused.
fn drive_again<R: Threads + Wait + Sync>(
    rt: &R,
    alloc: Global,
    words: &[String],
    script: &str,
    told: &mut Told,
) -> Result<(), Halt> {
    for _ in 0..TRIES {
        match drive(rt, alloc, words, script, told) {
            Err(Halt::NoMemory) => told.begin_anew(),
            Err(Halt::NoThread) => {
                told.threads = told.threads.saturating_add(1);
                told.begin_anew();
            }
            done => return done,
        }
    }
    Err(Halt::NoMemory)
}

/// The words of the command line.
fn words<R: env::Env + AllocGlobal>(rt: &R) -> Option<Vec<String>> {
    for _ in 0..TRIES {
        if let Ok(args) = env::args(rt)
            && let Ok(words) = args.collect(rt.alloc())
        {
            return Some(words);
        }
    }
    None
}

/// All bytes of standard input, where they are at most `LONGEST`.
fn input<R: io::Input + AllocGlobal>(rt: &R) -> Option<Vec<u8>> {
    let mut bytes = room(rt.alloc())?;
    let mut reader = rt.reader();
    let mut chunk = [0; 4096];
    for _ in 0..LONGEST {
        let count = reader.read(&mut chunk).ok()?;
        if count == 0 {
            return Some(bytes);
        }
        bytes.extend_from_slice(chunk.get(..count)?).ok()?;
    }
    None
}

/// Room for the input.
fn room(alloc: Global) -> Option<Vec<u8>> {
    for _ in 0..TRIES {
        if let Ok(bytes) = Vec::with_capacity(alloc, LONGEST) {
            return Some(bytes);
        }
    }
    None
}

fn main(rt: HostRuntime) -> io::Result<ExitCode> {
    let (Some(words), Some(bytes)) = (words(&rt), input(&rt)) else {
        return Ok(ExitCode::FAILURE);
    };
    let Ok(script) = str::from_utf8(&bytes) else {
        return Ok(ExitCode::FAILURE);
    };
    let mut told = Told::new(rt.alloc());
    let done = drive_again(&rt, rt.alloc(), &words, script, &mut told);
    io::writer(&rt).write_all(&told.text)?;
    eprintln!(rt;
        "again: {} steps, {} turns, {} ends, {} lines, {} from the start, {} of them for want of a thread",
        told.steps, told.turns, told.ends, told.lines, told.starts, told.threads
    )?;
    match done {
        Ok(()) => Ok(ExitCode::SUCCESS),
        Err(halt) => {
            eprintln!(rt; "{halt}")?;
            Ok(ExitCode::FAILURE)
        }
    }
}

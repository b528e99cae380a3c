//! The cases of `tests/cases` by a handle on a session with its effects, on which the library stands. The gate builds this
//! program by two compilers, and compares what it prints with the reports of the cases; the library's own archive is
//! built by one of them.
//!
//! Standard input has the cases one after another, as `tests/host-cases` writes them: a line
//! `case NAME FIRST WINDOW UNITS DEPTH LEVEL BYTES`, and then a recording of so many bytes. What is printed is the line
//! `case NAME` and the report, of each of them.
#![tactic(auto)]

mod case;
mod halt;
mod lines;
mod replay;

use case::Case;
use halt::Halt;
use replay::replay;
use std::alloc::Global;
use std::io;
use std::process::ExitCode;

/// Replays each case of the input.
fn replay_all(alloc: Global, input: &str, reports: &mut String) -> Result<(), Halt> {
    let mut left = input;
    for _ in 0..u64::MAX {
        if left.is_empty() {
            break;
        }
        let (case, rest) = Case::first(alloc, left)?;
        writeln!(reports, "case {}", case.name)?;
        replay(alloc, &case.options, case.recording, reports)?;
        left = rest;
    }
    Ok(())
}

fn main(rt: HostRuntime) -> io::Result<ExitCode> {
    let input = io::read_to_string(rt.alloc(), rt.reader())?;
    let mut reports = String::new(rt.alloc());
    let done = replay_all(rt.alloc(), &input, &mut reports);
    rt.print(reports)?;
    match done {
        Ok(()) => Ok(ExitCode::SUCCESS),
        Err(halt) => {
            eprintln!(rt; "check_host_cases: {halt}")?;
            Ok(ExitCode::FAILURE)
        }
    }
}

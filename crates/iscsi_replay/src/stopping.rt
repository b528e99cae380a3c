//! Why the program ends without a whole report.

ghost use Rattle.std.specs.Prelude.{◌≡◌, ◌≢◌, ◌≤◌, OnOk, IfErr};
ghost use Rattle.std.specs.Process.{exit_status};
ghost use Rattle.iscsi_replay.specs.rules.Stops.{status_of};

use clap::error::ErrorKind;
use iscsi_recording::ReplayFault;
use std::io;
use std::io::{Eprint, Print};
use std::process::ExitCode;

/// Why the program ends without a whole report.
#[derive(Debug, Drop)]
pub enum Stop {
    /// The replay was refused, or memory before it.
    Fault(ReplayFault),
    /// The command line was refused, or asks for the help.
    CommandLine(clap::Error),
    /// `--first` isn't eight hexadecimal digits.
    BadFirst,
    /// A word of the command line isn't UTF-8.
    NotText,
}

impl Stop {
    /// The status with which the program ends: 0 for the help, 1 for a fault and for want of memory, and 2
    /// for a command line that is refused.
    pub fn status(&self) -> u8
        ensures { result ≡ status_of self.now }
    {
        match self {
            Stop::Fault(_) => 1,
            Stop::CommandLine(error) => match error.kind() {
                ErrorKind::OutOfMemory => 1,
                ErrorKind::DisplayHelp | ErrorKind::DisplayVersion => 0,
                _ => 2,
            },
            Stop::BadFirst | Stop::NotText => 2,
        }
    }

    /// Prints the help on standard output, and any other text on standard error.
    fn tell<R: Print + Eprint>(&self, rt: &R) -> io::Result<()> {
        match self {
            Stop::Fault(fault) => eprintln!(rt; "{fault}"),
            Stop::CommandLine(error) if error.kind() == ErrorKind::OutOfMemory => {
                eprintln!(rt; "{}", ReplayFault::NoMemory)
            }
            Stop::CommandLine(error) => error.print(rt),
            Stop::BadFirst => {
                eprintln!(rt; "iscsi-replay: --first takes eight hexadecimal digits")
            }
            Stop::NotText => {
                eprintln!(rt; "iscsi-replay: a word of the command line is not UTF-8")
            }
        }
    }

    /// Tells why the program ends, and answers its status, or that of `Write` where the help couldn't be printed.
    pub fn report<R: Print + Eprint>(&self, rt: &R) -> ExitCode
        ensures refused { status_of self.now ≢ 0 → exit_status result ≡ status_of self.now }
        ensures help { status_of self.now ≡ 0 → exit_status result ≤ 1 }
    {
        match (self.tell(rt), self.status()) {
            (Err(_), 0) => {
                let unwritten = Stop::Fault(ReplayFault::Write);
                let _untold = unwritten.tell(rt);
                ExitCode::from(unwritten.status())
            }
            (_, status) => ExitCode::from(status),
        }
    }
}

/// Tells why the program ends, if it ends without a whole report, and answers its status.
pub fn exit_code<R: Print + Eprint>(answer: Result<(), Stop>, rt: &R) -> ExitCode
    ensures ok { OnOk answer (exit_status result ≡ 0) }
    ensures refused { IfErr answer (λ stop. status_of stop ≢ 0 → exit_status result ≡ status_of stop) }
    ensures help { IfErr answer (λ stop. status_of stop ≡ 0 → exit_status result ≤ 1) }
{
    match answer {
        Ok(()) => ExitCode::SUCCESS,
        Err(stop) => stop.report(rt),
    }
}

impl From<clap::Error> for Stop {
    ghost use Rattle.iscsi_replay.specs.declared.stopping.Stop.{Stop};

    ghost from_gives = { λ error stop. stop ≡ Stop.CommandLine error };

    fn from(error: clap::Error) -> Stop
        ensures value { result ≡ Stop.CommandLine error }
    {
        Stop::CommandLine(error)
    }
}

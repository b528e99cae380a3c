//! An outbox over a session, call by call, for the tests: each line of the input is a call, and what came of it is printed,
//! with a line behind it that has a dot alone.
//!
//!     open FIRST WINDOW UNITS DEPTH OWN ACKNOWLEDGED SHARED CID..    a session and its outbox, in the place of those before
//!     arrive CID HEADER        a header arrived, of 96 hexadecimal digits
//!     done TICKET STATUS       a unit completed a command
//!     put TICKET|-CID HEADER   a PDU of the target's own waits
//!     stopped TICKET, next CID, written CID, heard CID EXPSTATSN TAG, join CID STATSN, lose CID, clear UNIT, may
//!
//! ACKNOWLEDGED and SHARED are 0 or 1.
#![tactic(auto)]

mod calls;
mod player;
mod told;

use calls::Call;
use player::Player;
use std::alloc::Global;
use std::io::{self, BufRead};
use std::process::ExitCode;

/// Makes the call of a line: what is printed.
fn play(alloc: Global, player: &mut Option<Player>, line: &str) -> Option<String> {
    let call = Call::read(alloc, line)?;
    let mut told = String::new(alloc);
    if let Call::Open(options) = call {
        *player = Some(Player::open(alloc, options)?);
    } else {
        player.as_mut()?.make(call, &mut told)?;
    }
    told.push_str(".\n").ok()?;
    Some(told)
}

fn main(rt: HostRuntime) -> io::Result<ExitCode> {
    let mut player = None;
    for line in io::BufReader::new(rt.alloc(), rt.reader())?.lines(rt.alloc()) {
        let Some(told) = play(rt.alloc(), &mut player, &line?) else {
            eprintln!(rt; "check_outbox_play: a call can't be made")?;
            return Ok(ExitCode::FAILURE);
        };
        rt.print(told)?;
    }
    Ok(ExitCode::SUCCESS)
}

//! How a target uses a session: it opens one, gives it what happens, and does what comes of it.
#![tactic(auto)]

use iscsi_session::{Effect, Event, Numbers, Options, Session};
use std::io;
use std::io::Print;
use std::process::ExitCode;

/// A SCSI Command: TEST UNIT READY, SIMPLE, for unit 0, with the initiator task tag a1 and CmdSN 1.
const HEADER: [u8; 48] = [
    0x01, 0x81, 0, 0, 0, 0, 0, 0, 0, 0, 0, 0, 0, 0, 0, 0, 0, 0, 0, 0xa1, 0, 0, 0, 0, 0, 0, 0, 1, 0,
    0, 0, 0, 0, 0, 0, 0, 0, 0, 0, 0, 0, 0, 0, 0, 0, 0, 0, 0,
];

/// What a target does of an effect. Here it only says so.
fn carry_out(rt: &impl Print, effect: &Effect, numbers: Numbers) -> io::Result<()> {
    match effect {
        Effect::Enable { ticket, unit } => println!(rt; "unit {unit} may start ticket {ticket}"),
        Effect::Leave { ticket, unit } => println!(rt; "unit {unit} is done with ticket {ticket}"),
        Effect::Send {
            conn,
            stat_sn,
            reply,
        } => {
            let pdu = reply.encode(*stat_sn, numbers.exp, numbers.max);
            let [opcode, ..] = *pdu.header();
            println!(rt; "a PDU with opcode {opcode:02x} goes out on connection {conn}")
        }
        _ => Ok(()),
    }
}

fn main(rt: HostRuntime) -> io::Result<ExitCode> {
    let options = Options {
        first: 1,
        window: 32,
        units: 1,
        depth: 64,
        level: 1,
        events: 1_000_000,
        conns: vec![in rt.alloc(); (1, 1)]?,
    };
    let Ok(mut session) = Session::open(rt.alloc(), options) else {
        return Ok(ExitCode::FAILURE);
    };
    let mut effects = Vec::new(rt.alloc());
    let arrival = Event::Arrive {
        conn: 1,
        header: HEADER,
    };
    let completion = Event::Done {
        ticket: 1,
        status: 0,
    };
    for event in [arrival, completion] {
        effects.clear();
        let Ok(numbers) = session.step(&event, &mut effects) else {
            return Ok(ExitCode::FAILURE);
        };
        for effect in &effects {
            carry_out(&rt, effect, numbers)?;
        }
    }
    Ok(ExitCode::SUCCESS)
}

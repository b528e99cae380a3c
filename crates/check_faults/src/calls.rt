//! The lines of a script.

use crate::told::Halt;
use iscsi_session::{Event, Options};
use std::alloc::{AllocError, Global};

/// The options that the words give: the first CmdSN, the size of the window, how many units there are, the depth of
/// their sets, the protocol level, and the most events.
#[derive(Clone, Copy)]
pub(crate) struct Given {
    first: u32,
    window: u32,
    units: u32,
    depth: u32,
    level: u32,
    events: u32,
}

impl Given {
    /// None where a word isn't a number. Those that are left out have the program's own defaults.
    pub(crate) fn read(words: &[String]) -> Option<Given> {
        let number = |place: usize, otherwise: u32| match words.get(place) {
            Some(word) => word.as_str().parse::<u32>().ok(),
            None => Some(otherwise),
        };
        Some(Given {
            first: number(0, 1)?,
            window: number(1, 32)?,
            units: number(2, 1)?,
            depth: number(3, 64)?,
            level: number(4, 1)?,
            events: number(5, 1_048_576)?,
        })
    }

    /// The options, with the connections of a script.
    pub(crate) fn options(&self, alloc: Global, script: &str) -> Result<Options, AllocError> {
        let mut conns = Vec::new(alloc);
        for line in script.lines() {
            if let Some(conn) = connection(line) {
                conns.push(conn)?;
            }
        }
        Ok(Options {
            first: self.first,
            window: self.window,
            units: self.units,
            depth: self.depth,
            level: self.level,
            events: u64::from(self.events),
            conns,
        })
    }
}

/// What a line says behind a word and a blank.
pub(crate) fn behind<'a>(line: &'a str, word: &str) -> Option<&'a str> {
    line.strip_prefix(word)?.strip_prefix(' ')
}

/// Two words.
pub(crate) fn two(text: &str) -> Option<(&str, &str)> {
    text.split_once(' ')
}

pub(crate) fn hexadecimal(text: &str) -> Option<u32> {
    u32::from_str_radix(text, 16).ok()
}

fn connection(line: &str) -> Option<(u16, u32)> {
    let (cid, stat_sn) = two(behind(line, "conn")?)?;
    Some((cid.parse::<u16>().ok()?, hexadecimal(stat_sn)?))
}

pub(crate) fn header(text: &str) -> Option<[u8; 48]> {
    let mut bytes = [0; 48];
    hex::decode_to_slice(text, &mut bytes).ok()?;
    Some(bytes)
}

/// The event of a line of a recording.
pub(crate) fn event(line: &str) -> Option<Event> {
    if let Some(rest) = behind(line, "C") {
        let (cid, digits) = two(rest)?;
        return Some(Event::Arrive {
            conn: cid.parse::<u16>().ok()?,
            header: header(digits)?,
        });
    }
    let (ticket, status) = two(behind(line, "D")?)?;
    Some(Event::Done {
        ticket: ticket.parse::<u64>().ok()?,
        status: u8::from_str_radix(status, 16).ok()?,
    })
}

/// Whether a line is passed over: a comment, or that of a connection.
pub(crate) fn is_passed(line: &str) -> bool {
    line.is_empty() || line.starts_with('#') || line.starts_with("conn ")
}

/// A word that must be there.
pub(crate) fn must<T>(word: Option<T>) -> Result<T, Halt> {
    word.ok_or(Halt::BadScript)
}

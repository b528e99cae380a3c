//! The calls of the wire's serial numbers and of a window.

use crate::calls::{behind, hexadecimal, must, two};
use crate::told::{Halt, Told};
use iscsi_window::{Place, Window};
use iscsi_wire::{distance, serial_lt};
use std::alloc::Global;

/// Makes the calls of the script's lines: `less A B`, `distance A B`, `place FIRST SIZE SN`.
pub(crate) fn make_calls(alloc: Global, script: &str, told: &mut Told) -> Result<(), Halt> {
    for line in script.lines() {
        if let Some(rest) = behind(line, "less") {
            let (a, b) = must(numbers(rest))?;
            told.say(if serial_lt(a, b) { "true" } else { "false" })?;
        } else if let Some(rest) = behind(line, "distance") {
            let (a, b) = must(numbers(rest))?;
            told.say(&format!(in alloc; "{}", distance(a, b))?)?;
        } else {
            tell_place(alloc, must(behind(line, "place"))?, told)?;
        }
    }
    Ok(())
}

fn numbers(rest: &str) -> Option<(u32, u32)> {
    let (a, b) = two(rest)?;
    Some((hexadecimal(a)?, hexadecimal(b)?))
}

/// Tells where a number stands in a new window.
fn tell_place(alloc: Global, rest: &str, told: &mut Told) -> Result<(), Halt> {
    let (first, rest) = must(two(rest))?;
    let (size, sn) = must(two(rest))?;
    let size = must(size.parse::<u32>().ok())?;
    let Ok(window) = Window::open(alloc, must(hexadecimal(first))?, size) else {
        return Err(Halt::NoMemory);
    };
    match window.place(must(hexadecimal(sn))?) {
        Place::Inside(place) => told.say(&format!(in alloc; "inside {place}")?),
        Place::Outside => told.say("outside"),
    }
}

//! A case of the input.

use crate::halt::Halt;
use iscsi_host::PlainOptions;
use std::alloc::Global;

/// The most events that a session takes: a recording has no more lines.
const EVENTS: u64 = 1_048_576;

/// A case: its name, its options, and its recording.
#[derive(Drop)]
pub(crate) struct Case<'a> {
    pub(crate) name: &'a str,
    pub(crate) options: PlainOptions,
    pub(crate) recording: &'a str,
}

impl<'a> Case<'a> {
    /// The first case of the input, and what follows it.
    pub(crate) fn first(alloc: Global, input: &'a str) -> Result<(Case<'a>, &'a str), Halt> {
        let (line, rest) = input.split_once('\n').ok_or(Halt::BadCase)?;
        let line = line.strip_prefix("case ").ok_or(Halt::BadCase)?;
        let words: Vec<&'a str> = line.split(' ').collect(alloc)?;
        let [name, options @ .., size] = words.as_slice() else {
            return Err(Halt::BadCase);
        };
        let options = options_of(options).ok_or(Halt::BadCase)?;
        let (recording, rest) = parts(rest, size).ok_or(Halt::BadCase)?;
        let case = Case {
            name: *name,
            options,
            recording,
        };
        Ok((case, rest))
    }
}

/// The options that these words say. None where a word is none of an option.
fn options_of(words: &[&str]) -> Option<PlainOptions> {
    let [first, window, units, depth, level] = words else {
        return None;
    };
    Some(PlainOptions {
        events: EVENTS,
        first_cmd_sn: u32::from_str_radix(first, 16).ok()?,
        window: window.parse::<u32>().ok()?,
        units: units.parse::<u32>().ok()?,
        depth: depth.parse::<u32>().ok()?,
        level: level.parse::<u32>().ok()?,
    })
}

/// As many bytes of a text as the word says, and the others. None where there are fewer.
fn parts<'a>(text: &'a str, size: &str) -> Option<(&'a str, &'a str)> {
    text.split_at_checked(size.parse::<usize>().ok()?)
}

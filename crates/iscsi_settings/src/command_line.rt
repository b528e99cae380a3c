//! The settings of a command line.

ghost use Rattle.std.specs.Prelude.{◌≡◌, IfOk, false, map, option_map};
ghost use Rattle.clap.specs.Takes.{is_given};
ghost use Rattle.clap.specs.Words.{app_of, FailsBy, found_of, rows_of, rule_of, fault_of, matches_of, first_of};
ghost use Rattle.iscsi_settings.specs.Command.{first_rule, number_rule, threads_rule, begun_app, replay_app, number_of_digits, HasNumber, AreChecked, IsNumberIn, SettingsAre};

use crate::settings::Settings;
use clap::builder::ValueParser;
use clap::parser::ValueSource;
use clap::{Arg, ArgAction, ArgMatches, Command, Error};
use std::alloc::{AllocError, Global};

/// An option that takes a number from 1 to `high`, and without it has the number `given`.
fn number<'a>(alloc: Global, name: &'a str, high: u64, given: &'a str, help: &'a str) -> Arg<'a>
    ensures rule { rule_of result ≡ number_rule name.entry.now high given.entry.now }
    ensures local { result.global ≡ false }
{
    Arg::new(alloc, name)
        .long(name)
        .action(ArgAction::Set)
        .value_parser(ValueParser::unsigned(1, high))
        .default_value(given)
        .help(help)
}

/// The option `--first`, which takes any text.
fn first<'a>(alloc: Global) -> Arg<'a>
    ensures rule { rule_of result ≡ first_rule }
    ensures local { result.global ≡ false }
{
    Arg::new(alloc, "first")
        .long("first")
        .action(ArgAction::Set)
        .default_value("00000001")
        .help("The first CmdSN, in eight hexadecimal digits")
}

/// The option `--threads`, a flag.
fn threads<'a>(alloc: Global) -> Arg<'a>
    ensures rule { rule_of result ≡ threads_rule }
    ensures local { result.global ≡ false }
{
    Arg::new(alloc, "threads")
        .long("threads")
        .action(ArgAction::SetTrue)
        .help(
            "Run the connections and the units in threads of their own; D lines are passed over, and each unit \
             answers GOOD. The connections don't keep to the command window",
        )
}

/// The command line with the first CmdSN, the window and the units.
fn begun<'a>(alloc: Global) -> Result<Command<'a>, AllocError>
    ensures { IfOk result (λ c. app_of c ≡ begun_app) }
{
    Command::new(alloc, "iscsi-replay")
        .bin_name("iscsi-replay")?
        .about("Reads a recording from standard input and writes its report to standard output")
        .arg(first(alloc))?
        .arg(number(
            alloc,
            "window",
            1024,
            "32",
            "The size of the command window, 1 to 1024",
        ))?
        .arg(number(
            alloc,
            "units",
            256,
            "1",
            "How many logical units there are, 1 to 256",
        ))
}

/// The command line of the program.
fn command<'a>(alloc: Global) -> Result<Command<'a>, AllocError>
    ensures { IfOk result (λ c. app_of c ≡ replay_app) }
{
    begun(alloc)?
        .arg(number(
            alloc,
            "depth",
            1024,
            "64",
            "The most commands of a unit's task set, 1 to 1024",
        ))?
        .arg(number(alloc, "level", 2, "1", "The protocol level, 1 or 2"))?
        .arg(threads(alloc))
}

/// The matches of the words.
fn parse<'a>(alloc: Global, words: &'a [&'a str]) -> Result<ArgMatches<'a>, Error>
    ensures ok { IfOk result (λ m. rows_of (found_of m) ≡ matches_of replay_app (map (λ w. w.now) words.entry.now)) }
    // The parser checked each number against its limits.
    ensures checked { IfOk result (λ m. AreChecked (rows_of (found_of m))) }
    ensures kinds { FailsBy (fault_of replay_app (map (λ w. w.now) words.entry.now)) result }
{
    let command = command(alloc)?;
    command.try_get_matches_from(words)
}

/// The value of an option.
fn text<'a>(matches: &ArgMatches<'a>, id: &str) -> Option<&'a str>
    ensures { option_map (λ s. s.now) result ≡ first_of id.now (rows_of (found_of matches.now)) }
{
    matches.get_str(id)
}

/// The number that is the value of an option.
fn number_of(matches: &ArgMatches<'_>, id: &str, high: u32) -> u32
    requires { HasNumber high (first_of id.now (rows_of (found_of matches.now))) }
    ensures { IsNumberIn (first_of id.now (rows_of (found_of matches.now))) high result }
{
    let Some(text) = text(matches, id) else {
        unreachable!()
    };
    match text.parse::<u32>() {
        Ok(number) => number,
        Err(_) => unreachable!(),
    }
}

/// Whether the words gave a flag.
fn has_flag(matches: &ArgMatches<'_>, id: &str) -> bool
    ensures { result ≡ is_given id.now (rows_of (found_of matches.now)) }
{
    matches.contains_id(id) && !matches!(matches.value_source(id), Some(ValueSource::DefaultValue))
}

/// The number that eight hexadecimal digits, of either case, stand for.
fn first_number(text: &str) -> Option<u32>
    ensures { result ≡ number_of_digits text.now }
{
    let mut bytes = [0u8; 4];
    match hex::decode_to_slice(text, &mut bytes) {
        Ok(()) => Some(u32::from_be_bytes(bytes)),
        Err(_) => None,
    }
}

/// The settings of the words of a command line, the program's name first, and whether `--threads` is among them,
/// or `None` where `--first` isn't eight hexadecimal digits.
pub fn settings<'a>(alloc: Global, words: &'a [&'a str]) -> Result<Option<(Settings, bool)>, Error>
    // Option by option, the value that the words give it, and where they don't name it its default.
    ensures ok { IfOk result (SettingsAre (matches_of replay_app (map (λ w. w.now) words.entry.now))) }
    // They are refused where the command line does not take them, and else only for want of memory.
    ensures kinds { FailsBy (fault_of replay_app (map (λ w. w.now) words.entry.now)) result }
{
    let matches = parse(alloc, words)?;
    let Some(first) = text(&matches, "first") else {
        unreachable!()
    };
    let Some(first) = first_number(first) else {
        return Ok(None);
    };
    let settings = Settings {
        first,
        window: number_of(&matches, "window", 1024),
        units: number_of(&matches, "units", 256),
        depth: number_of(&matches, "depth", 1024),
        level: number_of(&matches, "level", 2),
    };
    Ok(Some((settings, has_flag(&matches, "threads"))))
}

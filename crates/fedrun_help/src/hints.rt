//! What is told of words that are no command, beside that they are none: which word isn't taken, what was expected, and
//! the usage.
ghost use Rattle.std.specs.Prelude.{◌≡◌, map, string_bytes};
ghost use Rattle.fedrun_help.specs.Hints.{said_by, said_first, words_left};

use crate::unparsed::{UnparsedWords, command_of};
use crate::usage::Usage;
use clap::ArgMatches;
use clap::error::{Error, ErrorKind};
use fedrun_words::{
    CommandKind, CommandWords, all_commands, command_line, count, given_value, host_and_port,
    is_stats_file, value_range,
};
use std::alloc::Global;
use std::fmt;
use std::net::SocketAddr;

/// What is told of words that are no command.
#[derive(Drop)]
pub enum WordsHint<'a> {
    /// They can't be parsed.
    Unparsed(UnparsedWords<'a>),
    /// They can, but a value isn't what it has to be.
    Refused(RefusedValue<'a>),
    /// What is given to this command stands together with something that is missing, or isn't for it, as the text says.
    Apart(&'static CommandWords, &'static str),
}

/// A value that isn't what it has to be.
#[derive(Clone, Copy)]
pub struct RefusedValue<'a> {
    pub command: &'static CommandWords,
    /// The name of the argument or option, without hyphens.
    pub name: &'static str,
    pub value: &'a str,
    /// What it has to be.
    pub wanted: &'static str,
}

impl fmt::Display for WordsHint<'_> {
    fn fmt<W: fmt::Write>(&self, f: &mut fmt::Formatter<W>) -> fmt::Result {
        match self {
            WordsHint::Unparsed(unparsed) => write!(f, "{unparsed}"),
            WordsHint::Refused(refused) => {
                let value = refused.value;
                let name = refused.name;
                let wanted = refused.wanted;
                let usage = Usage(refused.command);
                write!(
                    f,
                    "error: invalid value '{value}' for '{name}': it has to be {wanted}\n\nUsage: {usage}\n"
                )
            }
            WordsHint::Apart(command, why) => {
                let usage = Usage(command);
                write!(f, "error: {why}\n\nUsage: {usage}\n")
            }
        }
    }
}

/// The words without a first one that asks for hints or for none, and which of these it asks for; None where it says
/// nothing of them.
pub fn asks_for_hints(words: &[String]) -> (&[String], Option<bool>)
    ensures left { map string_bytes result.0.now ≡ words_left (map string_bytes words.now) }
    ensures said { result.1 ≡ said_first (map string_bytes words.now) }
{
    match words {
        [first, rest @ ..] => match said_by(first.as_str()) {
            Some(wanted) => (rest, Some(wanted)),
            None => (words, None),
        },
        [] => (words, None),
    }
}

// What a word says of hints, if it says anything.
fn said_by(word: &str) -> Option<bool>
    ensures { result ≡ said_by word.now }
{
    if word == "--hints" {
        Some(true)
    } else if word == "--hints=never" {
        Some(false)
    } else {
        None
    }
}

/// What is told of words that are no command; nothing of others, or where there is no memory for it.
pub fn words_hint<'a>(alloc: Global, words: &'a [String]) -> Option<WordsHint<'a>> {
    let command = command_line(alloc).ok()?;
    match command.try_get_matches_from(words) {
        Ok(matches) => hint_of_parsed(&matches),
        Err(error) => match error.kind() {
            ErrorKind::OutOfMemory | ErrorKind::DisplayHelp => None,
            ErrorKind::MissingRequiredArgument => unparsed(alloc, words, &error, true),
            _ => unparsed(alloc, words, &error, false),
        },
    }
}

// The same of words that can't be parsed, for this error: whether that is that something is missing.
fn unparsed<'a>(
    alloc: Global,
    words: &'a [String],
    error: &Error,
    is_missing: bool,
) -> Option<WordsHint<'a>> {
    Some(WordsHint::Unparsed(UnparsedWords {
        said: format!(in alloc; "{error}").ok()?,
        is_missing,
        command: command_of(words),
        words,
    }))
}

// The same of words that can be parsed.
fn hint_of_parsed<'a>(matches: &ArgMatches<'a>) -> Option<WordsHint<'a>> {
    for command in all_commands().iter() {
        if let Some(given) = matches.subcommand_matches(command.name) {
            if let Some(refused) = refused_value(command, given) {
                return Some(WordsHint::Refused(refused));
            }
            return match why_apart(command, given) {
                Some(why) => Some(WordsHint::Apart(command, why)),
                None => None,
            };
        }
    }
    None
}

// The first value that isn't what it has to be.
fn refused_value<'a>(
    command: &'static CommandWords,
    given: &ArgMatches<'a>,
) -> Option<RefusedValue<'a>> {
    for argument in command.arguments.iter().chain(command.may_follow) {
        let name = argument.name;
        let refused = refused_at(command, given, name, name);
        if refused.is_some() {
            return refused;
        }
    }
    for option in command.options {
        if let Some(what) = option.value {
            let refused = refused_at(command, given, option.name, what);
            if refused.is_some() {
                return refused;
            }
        }
    }
    refused_stats(command, given)
}

// The file of what is measured, where it can't be one.
fn refused_stats<'a>(
    command: &'static CommandWords,
    given: &ArgMatches<'a>,
) -> Option<RefusedValue<'a>> {
    if is_stats_file(given) {
        return None;
    }
    Some(RefusedValue {
        command,
        name: "stats",
        value: given.get_str("stats")?,
        wanted: "the name of a file, and of none that is given besides",
    })
}

// The first value under this name, which is called so, that isn't what it has to be.
fn refused_at<'a>(
    command: &'static CommandWords,
    given: &ArgMatches<'a>,
    name: &'static str,
    what: &str,
) -> Option<RefusedValue<'a>> {
    for value in given.get_strs(name).unwrap_or(&[]) {
        if let Some(wanted) = wanted(what, value) {
            return Some(RefusedValue {
                command,
                name,
                value: *value,
                wanted,
            });
        }
    }
    None
}

// What a value that is called so has to be, where this one isn't that.
fn wanted(what: &str, value: &str) -> Option<&'static str> {
    match what {
        "TURNS" | "N" | "STEP" | "SECONDS" if count(value).is_none() => {
            Some("a whole number from 0 to 4294967295, in digits")
        }
        "V" if count(value) != Some(1) && count(value) != Some(2) => Some("1 or 2"),
        "ADDRESS:PORT" if value.parse::<SocketAddr>().is_err() && host_and_port(value).is_none() =>
            { Some(wanted_address(value)) }
        "disk|system|no" if !["disk", "system", "no"].contains(&value) => {
            Some("disk, system or no")
        }
        "FILE" if value.is_empty() => Some("a file's name"),
        "SHELL" if !["bash", "zsh", "fish"].contains(&value) => Some("bash, zsh or fish"),
        "COMMAND" if !all_commands().iter().any(|command| command.name == value) => {
            Some("a command's name, as fedrun help lists them")
        }
        "NAME=VALUE" if given_value(value).is_none() => { Some(wanted_parameter(value)) }
        "RANGE" if value_range(value).is_none() => {
            Some("a parameter and at most 1000 numbers, as \"gain in 1..10\"")
        }
        "FOLDER" if value.is_empty() => Some("a folder's name"),
        _ => None,
    }
}

// What a parameter's value has to be, where this is none.
fn wanted_parameter(value: &str) -> &'static str {
    if value == "in" {
        "a parameter's name, = and a whole number of 64 bits; the range of --each is one word, in quotes, as \"gain in 1..10\""
    } else {
        "a parameter's name, = and a whole number of 64 bits, without spaces, as gain=3"
    }
}

// What an address and its port have to be, where this is none.
fn wanted_address(value: &str) -> &'static str {
    let Some((host, port)) = value.rsplit_once(':') else {
        return "an address or a host's name, then a : and a port, as 127.0.0.1:7000";
    };
    if value.contains("//") || value.contains('@') {
        "an address or a host's name, and a port, without anything before it, as 127.0.0.1:7000"
    } else if !port.is_empty() && port.bytes().all(|byte| byte.is_ascii_digit()) {
        if is_port(port) {
            wanted_host(host)
        } else {
            "an address or a host's name, and a port, which is a number from 0 to 65535"
        }
    } else {
        "an address or a host's name, and a port in digits, as 127.0.0.1:7000, [::1]:7000 or coordinator.example:7000"
    }
}

fn is_port(digits: &str) -> bool {
    match count(digits) {
        Some(number) => number <= 65_535,
        None => false,
    }
}

// What stands before a port, where this doesn't.
fn wanted_host(host: &str) -> &'static str {
    if host.is_empty() || host == "*" {
        "an address or a host's name before the port, as 127.0.0.1:7000; at 0.0.0.0:7000 a coordinator listens everywhere"
    } else if host.contains(':') {
        "an address or a host's name, and a port; one of IPv6 stands in brackets, as [::1]:7000"
    } else if host
        .bytes()
        .all(|byte| byte == b'.' || byte.is_ascii_digit())
    {
        "an address and a port; an address has four numbers from 0 to 255, as 127.0.0.1:7000"
    } else if host.bytes().all(|byte| byte.is_ascii_alphanumeric()
        || matches!(byte, b'-' | b'.' | b'_'))
    {
        "an address or a host's name, and a port; behind the last dot of a host's name stands a letter, as coordinator.example:7000"
    } else {
        "an address or a host's name, of ASCII letters, digits, -, . and _ alone, and a port, as 127.0.0.1:7000, [::1]:7000 or coordinator.example:7000"
    }
}

// Why what is given to a command isn't for each other, or stands together with more, if that is so.
fn why_apart(command: &CommandWords, given: &ArgMatches<'_>) -> Option<&'static str> {
    match command.kind {
        CommandKind::Draw => why_undrawn(given),
        CommandKind::Expand if given.get_str("each").is_some() != given.get_str("out").is_some() =>
            { Some("--each and --out stand together") }
        CommandKind::Lint if given.get_flag("source") && given.get_str("SCHEDULE").is_some() => {
            Some("there is no SCHEDULE beside a source")
        }
        _ => None,
    }
}

// The same of `draw`: of its IN and SCHEDULE, and of what is for a schedule or for a federation alone.
fn why_undrawn(given: &ArgMatches<'_>) -> Option<&'static str> {
    if given.get_str("SCHEDULE").is_some() {
        return if given.get_flag("reactions") {
            Some("--reactions is for a federation alone, without IN and SCHEDULE")
        } else {
            None
        };
    }
    if given.get_str("IN").is_some() {
        return Some(
            "IN and SCHEDULE stand together, and SCHEDULE is missing: where there are no recorded inputs, a - stands in the place of IN",
        );
    }
    let is_for_schedule = ["until-stuck", "from", "to"]
        .iter()
        .any(|name| given.get_str(*name).is_some());
    if is_for_schedule {
        Some("--until-stuck, --from and --to are for a schedule, and IN and SCHEDULE are missing")
    } else {
        None
    }
}

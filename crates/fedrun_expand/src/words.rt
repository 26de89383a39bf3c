use clap::ArgMatches;
use clap::error::ErrorKind;
use expand_source::Given;
use fedrun_words::{ValueRange, WordsFault, asks_for_help, command_line, given_value, value_range};
use plan_names::Text;
use std::alloc::Global;

const EXPAND: &str = "expand";

/// What is given to `expand`.
#[derive(Drop)]
pub struct ExpandRequest<'a> {
    /// The name of the source's file.
    pub source: &'a str,
    /// Values of its parameters.
    pub given: Vec<Given>,
}

/// A file for each value of a parameter.
#[derive(Clone, Copy)]
pub struct EachRequest<'a> {
    pub range: ValueRange<'a>,
    /// The folder in which they are saved.
    pub folder: &'a str,
}

/// Whether the words are this command, and don't ask for help on it.
pub fn asks_for_expand(words: &[String]) -> bool {
    match words.first() {
        Some(word) => word.as_str() == EXPAND && !asks_for_help(words),
        None => false,
    }
}

/// Whether the words ask for a file for each value of a parameter.
pub fn asks_for_each(words: &[String]) -> bool {
    words
        .iter()
        .map(|word| word.as_str())
        .take_while(|word| *word != "--")
        .any(|word| word == "--each" || word.starts_with("--each="))
}

/// What the words ask for where one federation is to be printed.
pub fn read_expand_words<'a>(
    alloc: Global,
    words: &'a [String],
) -> Result<ExpandRequest<'a>, WordsFault> {
    match read(alloc, words)? {
        (request, None) => Ok(request),
        _ => Err(WordsFault::Usage),
    }
}

/// What the words ask for where a file is to be saved for each value of a parameter.
pub fn read_each_words<'a>(
    alloc: Global,
    words: &'a [String],
) -> Result<(ExpandRequest<'a>, EachRequest<'a>), WordsFault> {
    match read(alloc, words)? {
        (request, Some(each)) => Ok((request, each)),
        _ => Err(WordsFault::Usage),
    }
}

fn read<'a>(
    alloc: Global,
    words: &'a [String],
) -> Result<(ExpandRequest<'a>, Option<EachRequest<'a>>), WordsFault> {
    let Ok(command) = command_line(alloc) else {
        return Err(WordsFault::Memory);
    };
    let matches = command.try_get_matches_from(words).map_err(|error| {
        if error.kind() == ErrorKind::OutOfMemory {
            WordsFault::Memory
        } else {
            WordsFault::Usage
        }
    })?;
    match matches.subcommand_matches(EXPAND) {
        Some(matches) => Ok((requested(alloc, matches)?, each_of(matches)?)),
        None => Err(WordsFault::Usage),
    }
}

fn requested<'a>(alloc: Global, matches: &ArgMatches<'a>) -> Result<ExpandRequest<'a>, WordsFault> {
    let Some(source) = matches.get_str("SOURCE") else {
        return Err(WordsFault::Usage);
    };
    let mut given = Vec::new(alloc);
    for word in matches.get_strs("NAME=VALUE").unwrap_or(&[]) {
        let one = given_by(alloc, word)?;
        given.push(one).map_err(|_| WordsFault::Memory)?;
    }
    Ok(ExpandRequest { source, given })
}

// The files that are to be made, if there are any.
fn each_of<'a>(matches: &ArgMatches<'a>) -> Result<Option<EachRequest<'a>>, WordsFault> {
    match (matches.get_str("each"), matches.get_str("out")) {
        (None, None) => Ok(None),
        (Some(range), Some(folder)) if !folder.is_empty() => match value_range(range) {
            Some(range) => Ok(Some(EachRequest { range, folder })),
            None => Err(WordsFault::Usage),
        },
        _ => Err(WordsFault::Usage),
    }
}

// The value that a word gives a parameter.
fn given_by(alloc: Global, word: &str) -> Result<Given, WordsFault> {
    let Some(given) = given_value(word) else {
        return Err(WordsFault::Usage);
    };
    match String::from_str(alloc, given.name) {
        Ok(name) => Ok(Given {
            name: Text::new(name),
            value: given.value,
        }),
        Err(_) => Err(WordsFault::Memory),
    }
}

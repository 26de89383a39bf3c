//! What is told of words that `clap` can't parse: what it says of them, what was likely meant, what each argument is, and
//! the usage.
use crate::usage::Usage;
use fedrun_words::{ArgumentWords, CommandWords, OptionWords, all_commands, count};
use std::fmt;

/// Words that can't be parsed.
#[derive(Drop)]
pub struct UnparsedWords<'a> {
    /// What `clap` says of them.
    pub(crate) said: String,
    /// Whether it is that something is missing.
    pub(crate) is_missing: bool,
    /// The command with which they begin, if it is one.
    pub(crate) command: Option<&'static CommandWords>,
    pub(crate) words: &'a [String],
}

/// What stands between the parts of what `clap` says.
const BETWEEN: &str = "\n\n";

/// How its tips begin that are told: others say how an option is given as a value, which isn't meant.
const SIMILAR: &str = "  tip: a similar ";

/// How each line begins that names a missing argument.
const MISSING_ARGUMENT: &str = "\n  <";

impl fmt::Display for UnparsedWords<'_> {
    fn fmt<W: fmt::Write>(&self, f: &mut fmt::Formatter<W>) -> fmt::Result {
        let said = self.said.as_str();
        let (error, rest) = said.split_once(BETWEEN).unwrap_or((said, ""));
        let error = error.trim_end();
        write!(f, "{error}\n\n")?;
        if let Some(tip) = self.tip(error) {
            write!(f, "  tip: {tip}\n\n")?;
        } else if rest.starts_with(SIMILAR) {
            let (tip, _) = rest.split_once(BETWEEN).unwrap_or((rest, ""));
            write!(f, "{tip}\n\n")?;
        }
        let Some(command) = self.command else {
            let any = AnyCommand;
            return write!(f, "{any}");
        };
        if self.is_missing {
            let missing = error.matches(MISSING_ARGUMENT).count();
            let places = Places {
                command,
                given: command.arguments.len().saturating_sub(missing),
                words: self.words,
            };
            let options = MissingOptions {
                options: command.options,
                error,
            };
            write!(f, "{places}{options}\n")?;
        } else if further_word(error).is_some() && !command.arguments.is_empty() {
            let places = Places {
                command,
                given: command.arguments.len(),
                words: self.words,
            };
            write!(f, "{places}\n")?;
        }
        let usage = Usage(command);
        write!(f, "Usage: {usage}\n")
    }
}

impl UnparsedWords<'_> {
    // What was likely meant, if it is known, where this is said.
    fn tip(&self, error: &str) -> Option<&'static str> {
        if let Some(further) = further_word(error) {
            let tip = tip_on_further(self.words, further);
            if tip.is_some() {
                return tip;
            }
        }
        match (tip_on(self.command, self.words), self.command) {
            (None, Some(command)) if error.contains(MISSING_ARGUMENT) => {
                tip_on_inputs(command, self.words)
            }
            (tip, _) => tip,
        }
    }
}

/// How it begins that a word is one too many, and ends.
const FURTHER: &str = "error: unexpected argument '";

const BEHIND_FURTHER: &str = "' found";

// The word that is one too many and no option, if this is said.
fn further_word(error: &str) -> Option<&str> {
    let word = error.strip_prefix(FURTHER)?.strip_suffix(BEHIND_FURTHER)?;
    if is_option(word) { None } else { Some(word) }
}

/// The command with which words begin.
pub(crate) fn command_of(words: &[String]) -> Option<&'static CommandWords> {
    let first = words.first()?;
    all_commands()
        .iter()
        .find(|command| command.name == first.as_str())
}

// The usage of the program, with the names of all commands.
#[derive(Clone, Copy)]
struct AnyCommand;

impl fmt::Display for AnyCommand {
    fn fmt<W: fmt::Write>(&self, f: &mut fmt::Formatter<W>) -> fmt::Result {
        write!(f, "Usage: fedrun COMMAND WORDS.., where COMMAND is one of")?;
        for command in all_commands().iter() {
            let name = command.name;
            write!(f, " {name}")?;
        }
        write!(f, "; fedrun help says what each does\n")
    }
}

// What each argument of a command is, of which so many are given by these words.
#[derive(Drop)]
struct Places<'a> {
    command: &'static CommandWords,
    given: usize,
    words: &'a [String],
}

impl fmt::Display for Places<'_> {
    fn fmt<W: fmt::Write>(&self, f: &mut fmt::Formatter<W>) -> fmt::Result {
        let in_order = words_in_order(self.words);
        for (number, argument) in self.command.arguments.iter().enumerate() {
            let word = if number < in_order {
                self.words.get(number.saturating_add(1))
            } else {
                None
            };
            let is_missing = number >= self.given;
            let place = Place {
                argument,
                word,
                is_missing,
            };
            write!(f, "{place}")?;
        }
        Ok(())
    }
}

// How many words stand behind a command before its options.
fn words_in_order(words: &[String]) -> usize {
    words
        .iter()
        .skip(1)
        .take_while(|word| !is_option(word.as_str()))
        .count()
}

fn is_option(word: &str) -> bool {
    word.starts_with('-') && word != "-"
}

// What an argument is, with the word that is in its place.
#[derive(Drop)]
struct Place<'a> {
    argument: &'static ArgumentWords,
    word: Option<&'a String>,
    is_missing: bool,
}

impl fmt::Display for Place<'_> {
    fn fmt<W: fmt::Write>(&self, f: &mut fmt::Formatter<W>) -> fmt::Result {
        let name = self.argument.name;
        let about = self.argument.about;
        match self.word {
            _ if self.is_missing => write!(f, "  {name} is missing: {about}\n"),
            Some(word) => {
                let word = word.as_str();
                write!(f, "  {name} is '{word}': {about}\n")
            }
            None => write!(f, "  {name}: {about}\n"),
        }
    }
}

// What each of these options is that is missing, which is named in what `clap` says.
#[derive(Drop)]
struct MissingOptions<'a> {
    options: &'static [OptionWords],
    error: &'a str,
}

impl fmt::Display for MissingOptions<'_> {
    fn fmt<W: fmt::Write>(&self, f: &mut fmt::Formatter<W>) -> fmt::Result {
        let options = self.options;
        for option in options {
            if option.is_needed && names(self.error, option) {
                let option = MissingOption(option);
                write!(f, "{option}")?;
            }
        }
        Ok(())
    }
}

// Whether what `clap` says names this option, with its hyphens.
fn names(error: &str, option: &OptionWords) -> bool {
    error
        .split("--")
        .skip(1)
        .any(|behind| begins_with_word(behind, option.name))
}

// Whether a text begins with this word, behind which it ends or a space stands.
fn begins_with_word(text: &str, word: &str) -> bool {
    text.strip_prefix(word)
        .is_some_and(|behind| behind.is_empty() || behind.starts_with(' '))
}

// What an option is that has to be there, and isn't.
#[derive(Drop)]
struct MissingOption(&'static OptionWords);

impl fmt::Display for MissingOption {
    fn fmt<W: fmt::Write>(&self, f: &mut fmt::Formatter<W>) -> fmt::Result {
        let name = self.0.name;
        let about = self.0.about;
        write!(f, "  --{name} is missing: {about}\n")
    }
}

const NO_VALUE: &str =
    "--csv has no value: what is printed goes to a file by > FILE, behind all words";

const ONE_ADDRESS: &str = "an address and its port are one word, as 127.0.0.1:7000";

// What was likely meant by a word that is one too many, by the words before it.
fn tip_on_further(words: &[String], further: &str) -> Option<&'static str> {
    let mut before = "";
    let mut last = "";
    for word in words {
        let word = word.as_str();
        if word == further && last == "--csv" {
            return Some(NO_VALUE);
        }
        if word == further && (before == "--connect" || before == "--listen") {
            return Some(ONE_ADDRESS);
        }
        before = last;
        last = word;
    }
    None
}

// What was likely meant where an argument is missing behind something that is read as a file of recorded inputs.
fn tip_on_inputs(command: &CommandWords, words: &[String]) -> Option<&'static str> {
    let place = command
        .arguments
        .iter()
        .position(|argument| argument.name == "IN")?;
    let given = words.get(place.saturating_add(1))?;
    if is_option(given.as_str()) || given.as_str() == "-" {
        None
    } else {
        Some("where there are no recorded inputs, a - stands in the place of IN")
    }
}

/// What to write in the place of words that a command hasn't.
#[derive(Clone, Copy)]
struct Tip {
    words: &'static [&'static str],
    /// The commands of which it is told; none where it is of any.
    commands: &'static [&'static str],
    text: &'static str,
}

impl Tip {
    // Whether it is told of this word of this command.
    fn is_of(&self, command: &str, word: &str) -> bool {
        self.words.contains(&word) && (self.commands.is_empty() || self.commands.contains(&command))
    }
}

const TIPS: &[Tip] = &[
    Tip {
        words: &["--turns"],
        commands: &["whole"],
        text: "TURNS is the third word here, without --turns",
    },
    Tip {
        words: &["--turns"],
        commands: &[],
        text: "turns are limited by run, record and join alone",
    },
    Tip {
        words: &["--hints", "--hint", "--hints=never"],
        commands: &[],
        text: "--hints, or --hints=never, is the first word, before the command",
    },
    Tip {
        words: &["--port"],
        commands: &[],
        text: "the port stands behind the address, as 127.0.0.1:7000",
    },
    Tip {
        words: &["--address"],
        commands: &[],
        text: "the address is given by --listen to coordinate, and by --connect to join",
    },
    Tip {
        words: &["--connect"],
        commands: &["coordinate"],
        text: "a coordinator listens, by --listen ADDRESS:PORT",
    },
    Tip {
        words: &["--listen"],
        commands: &["join"],
        text: "a federate connects, by --connect ADDRESS:PORT",
    },
    Tip {
        words: &["--report"],
        commands: &["audit"],
        text: "report files are named without an option, behind IN, the coordinator's first",
    },
    Tip {
        words: &["--out", "-o"],
        commands: &["coordinate", "join"],
        text: "the report's file is named by --report FILE",
    },
    Tip {
        words: &["--out", "-o"],
        commands: &["draw"],
        text: "the picture is printed, and goes to a file by > FILE, as > picture.svg",
    },
    Tip {
        words: &["--out", "-o"],
        commands: &[],
        text: "what is printed goes to a file by > FILE",
    },
    Tip {
        words: &["--stats"],
        commands: &[],
        text: "run, coordinate and join alone count, by --stats FILE",
    },
    Tip {
        words: &["--step"],
        commands: &[],
        text: "steps are told by frames FED IN SCHEDULE, and draw has --from STEP and --to STEP",
    },
];

/// A first word that is no command, and what to write in its place.
const FIRST_TIPS: &[(&str, &str)] = &[
    ("version", "--version says which version it is"),
    ("never", "--hints=never is one word"),
    (
        "--hint",
        "--hints, or --hints=never, is the first word, before the command",
    ),
    (
        "--hints=always",
        "--hints has no value but never: hints are asked for by --hints alone",
    ),
    (
        "--hints=no",
        "--hints has no value but never: there are none by --hints=never",
    ),
];

const NO_HYPHEN: &str =
    "a dash of print is no hyphen: an option begins with two of these, as --csv";

const SIGN: &str = "a number has no sign here: it is a whole one, from 0 on";

const ONE_HYPHEN: &str =
    "an option begins with two hyphens, as --csv; a file's name that begins with one is written ./-name";

// What was likely meant by words that begin with this command or with none, if it is known.
fn tip_on(command: Option<&'static CommandWords>, words: &[String]) -> Option<&'static str> {
    let first = words.first()?;
    let Some(command) = command else {
        return tip_on_first(first.as_str());
    };
    for word in words {
        let tip = tip_on_word(command, word.as_str());
        if tip.is_some() {
            return tip;
        }
    }
    tip_on_number(command, words)
}

// The same of a first word that is no command.
fn tip_on_first(word: &str) -> Option<&'static str> {
    for (known, tip) in FIRST_TIPS {
        if *known == word {
            return Some(*tip);
        }
    }
    if begins_with_dash(word) {
        Some(NO_HYPHEN)
    } else if word.contains('.') || word.contains('/') {
        Some("a command stands before the names of files, as fedrun check counter.toml")
    } else {
        None
    }
}

// The same of a word of a command that hasn't it.
fn tip_on_word(command: &CommandWords, word: &str) -> Option<&'static str> {
    if has_option(command, word) {
        return None;
    }
    for tip in TIPS {
        if tip.is_of(command.name, word) {
            return Some(tip.text);
        }
    }
    if begins_with_dash(word) {
        Some(NO_HYPHEN)
    } else if is_negative(word) {
        Some(SIGN)
    } else if is_option(word) && !word.starts_with("--") {
        Some(ONE_HYPHEN)
    } else {
        None
    }
}

// Whether a word is an option of a command.
fn has_option(command: &CommandWords, word: &str) -> bool {
    command
        .options
        .iter()
        .any(|option| names_option(word, option))
}

// Whether a word is this option, by its name or its letter.
fn names_option(word: &str, option: &OptionWords) -> bool {
    if let Some(name) = word.strip_prefix("--") {
        return name == option.name;
    }
    match (word.strip_prefix('-'), option.letter) {
        (Some(word), Some(letter)) => {
            word.strip_prefix(letter)
                .is_some_and(|behind| behind.is_empty())
        }
        _ => false,
    }
}

fn begins_with_dash(word: &str) -> bool {
    word.starts_with('\u{2013}') || word.starts_with('\u{2014}')
}

// Whether a word is a number behind a sign.
fn is_negative(word: &str) -> bool {
    match word.strip_prefix('-') {
        Some(number) => count(number).is_some(),
        None => false,
    }
}

// The same of a number behind all arguments of a command that limits turns by an option.
fn tip_on_number(command: &CommandWords, words: &[String]) -> Option<&'static str> {
    if words_in_order(words) <= command.arguments.len() {
        return None;
    }
    let further = words.get(command.arguments.len().saturating_add(1))?;
    let limits_turns = command.options.iter().any(|option| option.name == "turns");
    if limits_turns && count(further.as_str()).is_some() {
        Some("the number of turns is given by --turns N")
    } else {
        None
    }
}

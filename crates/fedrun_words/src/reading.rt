use crate::commands::{ArgumentWords, CommandKind, CommandWords, OptionWords, all_commands};
use crate::numbers::count;
use crate::request::{
    AboutRequest, AboutTopic, AuditRequest, CheckRequest, DrawFederationRequest,
    DrawScheduleRequest, FramesRequest, LintRequest, RecordRequest, ReplayRequest, Request,
    RunRequest, Shell, TraceRequest, WholeRequest,
};
use clap::error::{Error, ErrorKind};
use clap::{Arg, ArgAction, ArgMatches, Command};
use files_text::RowFormat;
use signal::wire::BATCHING;
use std::alloc::{AllocError, Global};

/// The turns of a run for which no number is given.
const RUN_TURNS: u32 = 1_000_000;

/// The commands that may be measured.
const MEASURED: &[&str] = &["run", "coordinate", "join"];

/// The option that asks for it.
const STATS: &str = "stats";

/// Why the words give no request.
#[derive(Clone, Copy, Debug, PartialEq, Eq)]
pub enum WordsFault {
    /// They are no command: whoever gave them corrects them.
    Usage,
    /// An allocation failed. The same words may be given again.
    Memory,
}

/// What the words ask for: one subcommand with its arguments and options, or help.
pub fn read_words<'a>(alloc: Global, words: &'a [String]) -> Result<Request<'a>, WordsFault> {
    let Ok(command) = command_line(alloc) else {
        return Err(WordsFault::Memory);
    };
    match command.try_get_matches_from(words) {
        Ok(matches) => requested(alloc, &matches),
        Err(error) => unparsed(&error, words),
    }
}

/// The file in which it is to be saved what is measured of a command, where the words ask for that. Words that can't be
/// parsed don't.
pub fn stats_file<'a>(alloc: Global, words: &'a [String]) -> Option<&'a str> {
    let command = command_line(alloc).ok()?;
    let matches = command.try_get_matches_from(words).ok()?;
    for name in MEASURED {
        if let Some(given) = matches.subcommand_matches(*name) {
            if is_stats_file(given) {
                return given.get_str(STATS);
            }
        }
    }
    None
}

/// Whether what is measured can be saved where that is asked for: in a file that has a name, other than those that the
/// command is given besides.
pub fn is_stats_file(given: &ArgMatches<'_>) -> bool {
    match given.get_str(STATS) {
        Some(name) => {
            let others = ["FED", "IN", "report", "secret"];
            name != ""
                && name != "-"
                && others
                    .iter()
                    .all(|other| given.get_str(*other) != Some(name))
        }
        None => true,
    }
}

/// Whether the words ask for the version, and nothing else.
pub fn asks_for_version(words: &[String]) -> bool {
    match words {
        [word] => word.as_str() == "--version",
        _ => false,
    }
}

/// Whether one of the words asks for help: `--help` or `-h`, before the words that may begin with a hyphen.
pub fn asks_for_help(words: &[String]) -> bool {
    words
        .iter()
        .map(|word| word.as_str())
        .take_while(|word| *word != "--")
        .any(|word| word == "--help" || word == "-h")
}

// What is answered where the words can't be parsed.
fn unparsed<'a>(error: &Error, words: &[String]) -> Result<Request<'a>, WordsFault> {
    match error.kind() {
        ErrorKind::OutOfMemory => Err(WordsFault::Memory),
        ErrorKind::DisplayHelp => Ok(about(help_of(words))),
        _ => Err(WordsFault::Usage),
    }
}

// The help for which these words ask: of the command with which they begin, or of all.
fn help_of(words: &[String]) -> AboutTopic {
    match words.first().and_then(|word| named(word.as_str())) {
        Some(command) => AboutTopic::Command(command),
        None => AboutTopic::Commands,
    }
}

// The command of this name.
fn named(name: &str) -> Option<&'static CommandWords> {
    all_commands().iter().find(|command| command.name == name)
}

// The request for what the program says of all its commands.
fn about<'a>(topic: AboutTopic) -> Request<'a> {
    Request::About(AboutRequest {
        commands: all_commands(),
        topic,
    })
}

// The request of words that were parsed.
fn requested<'a>(alloc: Global, matches: &ArgMatches<'a>) -> Result<Request<'a>, WordsFault> {
    for command in all_commands().iter() {
        if let Some(given) = matches.subcommand_matches(command.name) {
            return request(alloc, command.kind, given);
        }
    }
    Err(WordsFault::Usage)
}

// The request of a subcommand with these arguments and options. Those of one node on a machine of its own, of `expand`,
// and of `lint` where it looks at a source, are no requests.
fn request<'a>(
    alloc: Global,
    kind: CommandKind,
    given: &ArgMatches<'a>,
) -> Result<Request<'a>, WordsFault> {
    let request = match kind {
        CommandKind::Whole => whole(given),
        CommandKind::Check => check(given),
        CommandKind::Replay => replay(given),
        CommandKind::Run => run(given),
        CommandKind::Record => record(given),
        CommandKind::Frames => frames_of_schedule(given),
        CommandKind::Trace => trace(given),
        CommandKind::Draw => draw(given),
        CommandKind::Lint => lint(given),
        CommandKind::Audit => return audit(alloc, given),
        CommandKind::Help => help(given),
        CommandKind::Completions => completions(given),
        CommandKind::Manual => Some(about(AboutTopic::Manual)),
        CommandKind::Expand | CommandKind::Coordinate | CommandKind::Join => None,
    };
    request.ok_or(WordsFault::Usage)
}

/// The command line as `clap` has it: the commands, with their arguments and options.
pub fn command_line<'a>(alloc: Global) -> Result<Command<'a>, AllocError> {
    let mut command = Command::new(alloc, "fedrun")
        .bin_name("fedrun")?
        .no_binary_name(true)
        .disable_help_subcommand(true)
        .subcommand_required(true);
    for words in all_commands().iter() {
        command = command.subcommand(described(alloc, words)?)?;
    }
    Ok(command)
}

// A command as `clap` has it.
fn described<'a>(alloc: Global, words: &CommandWords) -> Result<Command<'a>, AllocError> {
    let mut command = Command::new(alloc, words.name).about(words.about);
    for argument in words.arguments {
        command = command.arg(described_argument(alloc, argument).required(true))?;
    }
    for argument in words.may_follow {
        command = command.arg(described_argument(alloc, argument))?;
    }
    for option in words.options {
        command = command.arg(described_option(alloc, option))?;
    }
    Ok(command)
}

fn described_argument<'a>(alloc: Global, words: &ArgumentWords) -> Arg<'a> {
    let argument = Arg::new(alloc, words.name).help(words.about);
    if words.is_repeated {
        argument.num_args(1..).action(ArgAction::Append)
    } else {
        argument
    }
}

// An option as `clap` has it: with a value or without, it may be given once.
fn described_option<'a>(alloc: Global, words: &OptionWords) -> Arg<'a> {
    let option = Arg::new(alloc, words.name)
        .long(words.name)
        .required(words.is_needed)
        .help(words.about);
    let option = match words.letter {
        Some(letter) => option.short(letter),
        None => option,
    };
    match words.value {
        Some(value) => option.action(ArgAction::Set).value_name(value),
        None => option.action(ArgAction::SetTrue),
    }
}

fn whole<'a>(given: &ArgMatches<'a>) -> Option<Request<'a>> {
    Some(Request::Whole(WholeRequest {
        federation: given.get_str("FED")?,
        inputs: given.get_str("IN")?,
        turns: count(given.get_str("TURNS")?)?,
        format: row_format(given),
    }))
}

fn check<'a>(given: &ArgMatches<'a>) -> Option<Request<'a>> {
    Some(Request::Check(CheckRequest {
        federation: given.get_str("FED")?,
    }))
}

fn replay<'a>(given: &ArgMatches<'a>) -> Option<Request<'a>> {
    Some(Request::Replay(ReplayRequest {
        federation: given.get_str("FED")?,
        inputs: given.get_str("IN")?,
        schedule: given.get_str("SCHEDULE")?,
        until_stuck: until_stuck(given)?,
        format: row_format(given),
    }))
}

fn run<'a>(given: &ArgMatches<'a>) -> Option<Request<'a>> {
    if !is_stats_file(given) {
        return None;
    }
    Some(Request::Run(RunRequest {
        federation: given.get_str("FED")?,
        inputs: given.get_str("IN")?,
        turns: turns(given)?,
        frames: frames(given)?,
        format: row_format(given),
    }))
}

fn record<'a>(given: &ArgMatches<'a>) -> Option<Request<'a>> {
    Some(Request::Record(RecordRequest {
        federation: given.get_str("FED")?,
        inputs: given.get_str("IN")?,
        turns: turns(given)?,
        frames: frames(given)?,
    }))
}

fn frames_of_schedule<'a>(given: &ArgMatches<'a>) -> Option<Request<'a>> {
    Some(Request::Frames(FramesRequest {
        federation: given.get_str("FED")?,
        inputs: given.get_str("IN")?,
        schedule: given.get_str("SCHEDULE")?,
        until_stuck: until_stuck(given)?,
    }))
}

fn trace<'a>(given: &ArgMatches<'a>) -> Option<Request<'a>> {
    Some(Request::Trace(TraceRequest {
        federation: given.get_str("FED")?,
        inputs: given.get_str("IN")?,
        schedule: given.get_str("SCHEDULE")?,
        until_stuck: until_stuck(given)?,
    }))
}

// The federation alone, or a schedule of it.
fn draw<'a>(given: &ArgMatches<'a>) -> Option<Request<'a>> {
    let federation = given.get_str("FED")?;
    match (given.get_str("IN"), given.get_str("SCHEDULE")) {
        (None, None) => draw_federation(given, federation),
        (Some(inputs), Some(schedule)) => draw_schedule(given, federation, inputs, schedule),
        _ => None,
    }
}

// The federation alone: what is for a schedule isn't given.
fn draw_federation<'a>(given: &ArgMatches<'a>, federation: &'a str) -> Option<Request<'a>> {
    if given.get_str("until-stuck").is_some()
        || given.get_str("from").is_some()
        || given.get_str("to").is_some()
    {
        return None;
    }
    Some(Request::DrawFederation(DrawFederationRequest {
        federation,
        reactions: given.get_flag("reactions"),
    }))
}

// A schedule of it: what is for the federation alone isn't given.
fn draw_schedule<'a>(
    given: &ArgMatches<'a>,
    federation: &'a str,
    inputs: &'a str,
    schedule: &'a str,
) -> Option<Request<'a>> {
    if given.get_flag("reactions") {
        return None;
    }
    Some(Request::DrawSchedule(DrawScheduleRequest {
        federation,
        inputs,
        schedule,
        until_stuck: number(given, "until-stuck")?,
        from: number(given, "from")?,
        to: number(given, "to")?,
    }))
}

// Of a federation file.
fn lint<'a>(given: &ArgMatches<'a>) -> Option<Request<'a>> {
    if given.get_flag("source") {
        return None;
    }
    Some(Request::Lint(LintRequest {
        federation: given.get_str("FED")?,
        inputs: given.get_str("IN").unwrap_or("-"),
        schedule: given.get_str("SCHEDULE"),
    }))
}

fn audit<'a>(alloc: Global, given: &ArgMatches<'a>) -> Result<Request<'a>, WordsFault> {
    match (
        given.get_str("FED"),
        given.get_str("IN"),
        given.get_str("COORDINATOR"),
        given.get_strs("FEDERATE"),
    ) {
        (Some(federation), Some(inputs), Some(coordinator), Some(federates)) => {
            match Vec::from_slice(alloc, federates) {
                Ok(federates) => Ok(Request::Audit(AuditRequest {
                    federation,
                    inputs,
                    coordinator,
                    federates,
                    format: row_format(given),
                })),
                Err(_) => Err(WordsFault::Memory),
            }
        }
        _ => Err(WordsFault::Usage),
    }
}

// All commands, or one by its name.
fn help<'a>(given: &ArgMatches<'a>) -> Option<Request<'a>> {
    match given.get_str("COMMAND") {
        Some(name) => Some(about(AboutTopic::Command(named(name)?))),
        None => Some(about(AboutTopic::Commands)),
    }
}

fn completions<'a>(given: &ArgMatches<'a>) -> Option<Request<'a>> {
    let shell = match given.get_str("SHELL")? {
        "bash" => Shell::Bash,
        "zsh" => Shell::Zsh,
        "fish" => Shell::Fish,
        _ => return None,
    };
    Some(about(AboutTopic::Completions(shell)))
}

// How many closing rounds there may be, where some are asked for. None where the words say no number.
fn until_stuck(given: &ArgMatches<'_>) -> Option<Option<u32>> {
    number(given, "until-stuck")
}

// The number that is given to an option, where it is. None where the words say no number.
fn number(given: &ArgMatches<'_>, option: &str) -> Option<Option<u32>> {
    match given.get_str(option) {
        Some(text) => Some(Some(count(text)?)),
        None => Some(None),
    }
}

// The format in which rows are written.
fn row_format(given: &ArgMatches<'_>) -> RowFormat {
    if given.get_flag("csv") {
        RowFormat::Csv
    } else {
        RowFormat::Text
    }
}

// How many turns a run may make.
fn turns(given: &ArgMatches<'_>) -> Option<u32> {
    match given.get_str("turns") {
        Some(turns) => count(turns),
        None => Some(RUN_TURNS),
    }
}

// The version of frames that a run's federates write, in ASCII digits; where none is given, one that has Batches.
fn frames(given: &ArgMatches<'_>) -> Option<u8> {
    match given.get_str("frames") {
        Some(version) => match count(version)? {
            1 => Some(1),
            2 => Some(2),
            _ => None,
        },
        None => Some(BATCHING),
    }
}

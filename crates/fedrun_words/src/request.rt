//! What the words ask for: a variant for each command, with a struct of what is given to it. Files are given by their
//! names; an `inputs` of `-` is a file without any.
use crate::commands::{CommandTables, CommandWords};
use files_text::RowFormat;

/// What the words ask for.
#[derive(Debug, PartialEq, Eq, Drop)]
pub enum Request<'a> {
    /// The rows of the undivided program.
    Whole(WholeRequest<'a>),
    /// The plan.
    Check(CheckRequest<'a>),
    /// The steps that a schedule's world refuses, and the rows after it, or in the other format the rows alone.
    Replay(ReplayRequest<'a>),
    /// The rows of the federation in threads.
    Run(RunRequest<'a>),
    /// The steps of such a run, as a schedule.
    Record(RecordRequest<'a>),
    /// Each step of a schedule, with the frames that it sent.
    Frames(FramesRequest<'a>),
    /// The same as trace events.
    Trace(TraceRequest<'a>),
    /// The picture of the federation.
    DrawFederation(DrawFederationRequest<'a>),
    /// The picture of a schedule.
    DrawSchedule(DrawScheduleRequest<'a>),
    /// The rows that the reports of a run's nodes prove.
    Audit(AuditRequest<'a>),
    /// All that is wrong or odd in the files.
    Lint(LintRequest<'a>),
    /// What the program says of its own commands.
    About(AboutRequest),
}

/// What is given to `whole`.
#[derive(Clone, Copy, Debug, PartialEq, Eq)]
pub struct WholeRequest<'a> {
    pub federation: &'a str,
    pub inputs: &'a str,
    /// How many turns are made at most.
    pub turns: u32,
    pub format: RowFormat,
}

/// What is given to `check`.
#[derive(Clone, Copy, Debug, PartialEq, Eq)]
pub struct CheckRequest<'a> {
    pub federation: &'a str,
}

/// What is given to `replay`.
#[derive(Clone, Copy, Debug, PartialEq, Eq)]
pub struct ReplayRequest<'a> {
    pub federation: &'a str,
    pub inputs: &'a str,
    pub schedule: &'a str,
    /// How many closing rounds there may be after the schedule, where some are asked for.
    pub until_stuck: Option<u32>,
    pub format: RowFormat,
}

/// What is given to `run`.
#[derive(Clone, Copy, Debug, PartialEq, Eq)]
pub struct RunRequest<'a> {
    pub federation: &'a str,
    pub inputs: &'a str,
    /// How many turns each federate makes at most.
    pub turns: u32,
    /// The version of frames that federates write, 1 or 2.
    pub frames: u8,
    pub format: RowFormat,
}

/// What is given to `record`.
#[derive(Clone, Copy, Debug, PartialEq, Eq)]
pub struct RecordRequest<'a> {
    pub federation: &'a str,
    pub inputs: &'a str,
    /// How many turns each federate makes at most.
    pub turns: u32,
    /// The version of frames that federates write, 1 or 2.
    pub frames: u8,
}

/// What is given to `frames`.
#[derive(Clone, Copy, Debug, PartialEq, Eq)]
pub struct FramesRequest<'a> {
    pub federation: &'a str,
    pub inputs: &'a str,
    pub schedule: &'a str,
    /// How many closing rounds there may be after the schedule, where some are asked for.
    pub until_stuck: Option<u32>,
}

/// What is given to `trace`.
#[derive(Clone, Copy, Debug, PartialEq, Eq)]
pub struct TraceRequest<'a> {
    pub federation: &'a str,
    pub inputs: &'a str,
    pub schedule: &'a str,
    /// How many closing rounds there may be after the schedule, where some are asked for.
    pub until_stuck: Option<u32>,
}

/// What is given to `draw`, where it is given no schedule.
#[derive(Clone, Copy, Debug, PartialEq, Eq)]
pub struct DrawFederationRequest<'a> {
    pub federation: &'a str,
    /// Whether reactions are drawn too.
    pub reactions: bool,
}

/// What is given to `draw`, where it is given a schedule.
#[derive(Clone, Copy, Debug, PartialEq, Eq)]
pub struct DrawScheduleRequest<'a> {
    pub federation: &'a str,
    pub inputs: &'a str,
    pub schedule: &'a str,
    /// How many closing rounds there may be after the schedule, where some are asked for.
    pub until_stuck: Option<u32>,
    /// The first step and the last that are drawn, where they are given, counted from 1.
    pub from: Option<u32>,
    pub to: Option<u32>,
}

/// What is given to `audit`.
#[derive(Debug, PartialEq, Eq, Drop)]
pub struct AuditRequest<'a> {
    pub federation: &'a str,
    pub inputs: &'a str,
    /// The coordinator's report.
    pub coordinator: &'a str,
    /// The reports of federates, in any order.
    pub federates: Vec<&'a str>,
    pub format: RowFormat,
}

/// What is given to `lint`.
#[derive(Clone, Copy, Debug, PartialEq, Eq)]
pub struct LintRequest<'a> {
    pub federation: &'a str,
    pub inputs: &'a str,
    /// The schedule beside these, where one is given.
    pub schedule: Option<&'a str>,
}

/// What the program says of its own commands.
#[derive(Clone, Copy, Debug, PartialEq, Eq)]
pub struct AboutRequest {
    /// The commands that there are.
    pub commands: CommandTables,
    pub topic: AboutTopic,
}

/// What of its own commands the program says.
#[derive(Clone, Copy, Debug, PartialEq, Eq)]
pub enum AboutTopic {
    /// The usage of all commands, and what each does.
    Commands,
    /// The usage of this command of the table, and what is given to it.
    Command(&'static CommandWords),
    /// For this shell, which words it may complete.
    Completions(Shell),
    /// The manual page.
    Manual,
}

/// A shell for which there are completions.
#[derive(Clone, Copy, Debug, PartialEq, Eq)]
pub enum Shell {
    Bash,
    Zsh,
    Fish,
}

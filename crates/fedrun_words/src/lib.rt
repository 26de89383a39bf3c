//! The command line: its words, and why a command gives up: its exit status and its line.
//!
//! The words are those that the machine gives, and which command they are, with its arguments and options, as `clap`
//! reads them by the table of all commands (`commands.rt`). Why a command gives up is a fault, with the exit status
//! that goes with it. A program with more commands than `whole` and `check` has more faults: they are a type of its
//! own, of the trait `MoreFault`. A fault's line is written to a writer a piece at a time, with no memory, since out of
//! memory has to be printed too.
//!
//! Promise to the layer above: every request is one of `Request`, and every other list of words is a fault. That a
//! request is the words' is shown by tests, in the crate `tests_fedrun_words`. The status of each fault is that of
//! `specs/Faults`. Whatever a writer refuses, what it gains is a prefix of the text, and all of it where that is said
//! (`specs/Pieces`); the same of the program's line with that text (`specs/Lines`), and so of the line of a fault that
//! was answered to the program (`refuse`). What `thiserror` derives of its own messages is shown by tests. Begin with
//! `request.rt`, then `read_words` in `reading.rt`; for faults with `Fault`, then `refuse`; for texts with `print_line`,
//! then `print_text`.
#![tactic(auto)]

pub mod commands;
pub mod fault;
mod given;
mod host;
mod line;
pub mod more;
mod numbers;
mod piece;
mod reading;
pub mod refusing;
mod request;
pub mod text;
mod values;

pub use commands::{
    ArgumentWords, CommandKind, CommandTables, CommandWords, OptionWords, all_commands,
};
pub use fault::Fault;
pub use given::given_words;
pub use host::host_and_port;
pub use more::{MoreFault, NoSuchCommand};
pub use numbers::count;
pub use reading::{
    WordsFault, asks_for_help, asks_for_version, command_line, is_stats_file, read_words,
    stats_file,
};
pub use refusing::{Answered, refuse};
pub use request::{
    AboutRequest, AboutTopic, AuditRequest, CheckRequest, DrawFederationRequest,
    DrawScheduleRequest, FramesRequest, LintRequest, RecordRequest, ReplayRequest, Request,
    RunRequest, Shell, TraceRequest, WholeRequest,
};
pub use text::{print_line, print_text};
pub use values::{GivenValue, MOST_VALUES, ValueRange, given_value, value_range};

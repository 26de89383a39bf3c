use clap::error::ErrorKind;
use fedrun_words::{LintRequest, WordsFault, asks_for_help, command_line};
use std::alloc::Global;

const LINT: &str = "lint";

/// Whether the words are `lint` of a source, and don't ask for help on it.
pub fn asks_for_source_lint(words: &[String]) -> bool {
    match words.first() {
        Some(word) => word.as_str() == LINT && has_source(words) && !asks_for_help(words),
        None => false,
    }
}

// Whether `--source` is among the words, before those that may begin with a hyphen.
fn has_source(words: &[String]) -> bool {
    words
        .iter()
        .map(|word| word.as_str())
        .take_while(|word| *word != "--")
        .any(|word| word == "--source")
}

/// What the words ask for: a source in the place of a federation file, and a file of recorded inputs. A source has no
/// schedule: that is looked at beside the federation file that it becomes.
pub fn read_lint_words<'a>(
    alloc: Global,
    words: &'a [String],
) -> Result<LintRequest<'a>, WordsFault> {
    let Ok(command) = command_line(alloc) else {
        return Err(WordsFault::Memory);
    };
    let matches = command.try_get_matches_from(words).map_err(|error| {
        if error.kind() == ErrorKind::OutOfMemory {
            WordsFault::Memory
        } else {
            WordsFault::Usage
        }
    })?;
    let Some(given) = matches.subcommand_matches(LINT) else {
        return Err(WordsFault::Usage);
    };
    match (given.get_str("FED"), given.get_str("SCHEDULE")) {
        (Some(federation), None) => Ok(LintRequest {
            federation,
            inputs: given.get_str("IN").unwrap_or("-"),
            schedule: None,
        }),
        _ => Err(WordsFault::Usage),
    }
}

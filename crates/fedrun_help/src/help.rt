//! Help, as it is printed for those who read it: of all commands, or of one.
use crate::usage::{Argument, OptionText, Usage};
use fedrun_words::{ArgumentWords, CommandTables, CommandWords, OptionWords};
use std::fmt;

/// What stands before the commands.
const BEFORE: &str =
    "Runs a federation of reactors, and prints the rows of what its federates did.\n\n";

/// What stands after them.
const AFTER: &str = "  fedrun --version
      which commit it was built from, and whether it is proved

FED is a federation file, or - for standard input, IN a file of recorded inputs, or - for none. With --csv the rows
alone are printed, as comma-separated values. With --progress a line on the terminal says how far it is. What is given
to a command, and what it means: fedrun help COMMAND, or fedrun COMMAND --help. An example:

  fedrun whole counter.toml - 4
";

/// The usage of commands, and what each does.
#[derive(Drop)]
pub(crate) struct HelpOfAll(pub CommandTables);

impl fmt::Display for HelpOfAll {
    ghost use Rattle.std.specs.Prelude.{Some};
    ghost use Rattle.fedrun_help.specs.Help.{help_of_all};

    ghost output = { λ help. Some (help_of_all help.0) };

    fn fmt<W: fmt::Write>(&self, f: &mut fmt::Formatter<W>) -> fmt::Result {
        let before = BEFORE;
        let commands = Summaries(self.0.of_federations);
        let others = Summaries(self.0.others);
        let after = AFTER;
        write!(f, "{before}{commands}{others}{after}")
    }
}

/// The usage of a command, what it does, and what is given to it.
#[derive(Drop)]
pub(crate) struct HelpOfOne<'a>(pub &'a CommandWords);

impl fmt::Display for HelpOfOne<'_> {
    ghost use Rattle.std.specs.Prelude.{Some};
    ghost use Rattle.fedrun_help.specs.Help.{help_of_one};

    ghost output = { λ help. Some (help_of_one help.0.now) };

    fn fmt<W: fmt::Write>(&self, f: &mut fmt::Formatter<W>) -> fmt::Result {
        let summary = Summary(self.0);
        let more = Lines(self.0.more);
        let arguments = Arguments(self.0.arguments);
        let may_follow = Arguments(self.0.may_follow);
        let options = Options(self.0.options);
        write!(f, "{summary}{more}{arguments}{may_follow}{options}")
    }
}

// A command's usage, and what it does.
#[derive(Drop)]
struct Summary<'a>(&'a CommandWords);

impl fmt::Display for Summary<'_> {
    ghost use Rattle.std.specs.Prelude.{Some};
    ghost use Rattle.fedrun_help.specs.Help.{summary_text};

    ghost output = { λ summary. Some (summary_text summary.0.now) };

    fn fmt<W: fmt::Write>(&self, f: &mut fmt::Formatter<W>) -> fmt::Result {
        let usage = Usage(self.0);
        let about = self.0.about;
        write!(f, "  {usage}\n      {about}\n")
    }
}

// The same of commands.
#[derive(Drop)]
struct Summaries<'a>(&'a [CommandWords]);

impl fmt::Display for Summaries<'_> {
    ghost use Rattle.std.specs.Prelude.{Some, flat_map};
    ghost use Rattle.fedrun_help.specs.Help.{summary_text};

    ghost output = { λ commands. Some (flat_map summary_text commands.0.now) };

    fn fmt<W: fmt::Write>(&self, f: &mut fmt::Formatter<W>) -> fmt::Result {
        let commands = self.0;
        for command in commands {
            let summary = Summary(command);
            write!(f, "{summary}")?;
        }
        Ok(())
    }
}

// Further lines on what a command does.
#[derive(Drop)]
struct Lines<'a>(&'a [&'a str]);

impl fmt::Display for Lines<'_> {
    ghost use Rattle.std.specs.Prelude.{Some, flat_map};
    ghost use Rattle.fedrun_help.specs.Help.{line_text};

    ghost output = { λ lines. Some (flat_map line_text lines.0.now) };

    fn fmt<W: fmt::Write>(&self, f: &mut fmt::Formatter<W>) -> fmt::Result {
        let lines = self.0;
        for line in lines {
            let line = *line;
            write!(f, "      {line}\n")?;
        }
        Ok(())
    }
}

// Arguments, and what each is.
#[derive(Drop)]
struct Arguments<'a>(&'a [ArgumentWords]);

impl fmt::Display for Arguments<'_> {
    ghost use Rattle.std.specs.Prelude.{Some, flat_map};
    ghost use Rattle.fedrun_help.specs.Help.{argument_lines};

    ghost output = { λ arguments. Some (flat_map argument_lines arguments.0.now) };

    fn fmt<W: fmt::Write>(&self, f: &mut fmt::Formatter<W>) -> fmt::Result {
        let arguments = self.0;
        for argument in arguments {
            let name = Argument(argument);
            let about = argument.about;
            write!(f, "  {name}\n      {about}\n")?;
        }
        Ok(())
    }
}

// Options, and what each does.
#[derive(Drop)]
struct Options<'a>(&'a [OptionWords]);

impl fmt::Display for Options<'_> {
    ghost use Rattle.std.specs.Prelude.{Some, flat_map};
    ghost use Rattle.fedrun_help.specs.Help.{option_lines};

    ghost output = { λ options. Some (flat_map option_lines options.0.now) };

    fn fmt<W: fmt::Write>(&self, f: &mut fmt::Formatter<W>) -> fmt::Result {
        let options = self.0;
        for option in options {
            let name = OptionText(option);
            let about = option.about;
            write!(f, "  {name}\n      {about}\n")?;
        }
        Ok(())
    }
}

//! The manual page, as `man` reads it.
use crate::usage::{Argument, OptionText, Usage};
use fedrun_words::{ArgumentWords, CommandTables, CommandWords, OptionWords};
use std::fmt;

const BEFORE: &str = ".TH FEDRUN 1
.SH NAME
fedrun \\- runs a federation of reactors, and prints the rows of what its federates did
.SH SYNOPSIS
.B fedrun
COMMAND ..
.SH COMMANDS
";

const AFTER: &str = ".TP
.B fedrun --version
which commit it was built from, and whether it is proved
.SH EXIT STATUS
.TP
0
done
.TP
1
a file, a federate's name or a secret can't be read or is refused, or there was no memory while files were loaded; of
lint: something is wrong
.TP
2
the words are no command, or lack a secret
.TP
3
it couldn't finish: a run that isn't finished or not believed, an output that can't be written, or out of memory
.PP
A fault is told on standard error, on one line.
";

/// The manual page.
#[derive(Drop)]
pub(crate) struct Manual(pub CommandTables);

impl fmt::Display for Manual {
    ghost use Rattle.std.specs.Prelude.{Some};
    ghost use Rattle.fedrun_help.specs.Manual.{manual_text};

    ghost output = { λ manual. Some (manual_text manual.0) };

    fn fmt<W: fmt::Write>(&self, f: &mut fmt::Formatter<W>) -> fmt::Result {
        let before = BEFORE;
        let commands = Commands(self.0.of_federations);
        let others = Commands(self.0.others);
        let after = AFTER;
        write!(f, "{before}{commands}{others}{after}")
    }
}

// Commands, one after the other.
#[derive(Drop)]
struct Commands<'a>(&'a [CommandWords]);

impl fmt::Display for Commands<'_> {
    ghost use Rattle.std.specs.Prelude.{Some, flat_map};
    ghost use Rattle.fedrun_help.specs.Manual.{command_part};

    ghost output = { λ commands. Some (flat_map command_part commands.0.now) };

    fn fmt<W: fmt::Write>(&self, f: &mut fmt::Formatter<W>) -> fmt::Result {
        let commands = self.0;
        for command in commands {
            let part = CommandPart(command);
            write!(f, "{part}")?;
        }
        Ok(())
    }
}

// A command: its usage, what it does, and what is given to it.
#[derive(Drop)]
struct CommandPart<'a>(&'a CommandWords);

impl fmt::Display for CommandPart<'_> {
    ghost use Rattle.std.specs.Prelude.{Some};
    ghost use Rattle.fedrun_help.specs.Manual.{command_part};

    ghost output = { λ part. Some (command_part part.0.now) };

    #[tactic(auto, unfolding(crate::specs::Manual::command_part))]
    fn fmt<W: fmt::Write>(&self, f: &mut fmt::Formatter<W>) -> fmt::Result {
        let usage = Usage(self.0);
        let about = self.0.about;
        let more = Lines(self.0.more);
        let arguments = Arguments(self.0.arguments);
        let may_follow = Arguments(self.0.may_follow);
        let options = Options(self.0.options);
        write!(
            f,
            ".TP\n.B {usage}\n{about}\n{more}.RS\n{arguments}{may_follow}{options}.RE\n"
        )
    }
}

// Further lines on what a command does, each by itself.
#[derive(Drop)]
struct Lines<'a>(&'a [&'a str]);

impl fmt::Display for Lines<'_> {
    ghost use Rattle.std.specs.Prelude.{Some, flat_map};
    ghost use Rattle.fedrun_help.specs.Manual.{line_part};

    ghost output = { λ lines. Some (flat_map line_part lines.0.now) };

    fn fmt<W: fmt::Write>(&self, f: &mut fmt::Formatter<W>) -> fmt::Result {
        let lines = self.0;
        for line in lines {
            let line = *line;
            write!(f, ".br\n{line}\n")?;
        }
        Ok(())
    }
}

// Arguments, and what each is.
#[derive(Drop)]
struct Arguments<'a>(&'a [ArgumentWords]);

impl fmt::Display for Arguments<'_> {
    ghost use Rattle.std.specs.Prelude.{Some, flat_map};
    ghost use Rattle.fedrun_help.specs.Manual.{argument_part};

    ghost output = { λ arguments. Some (flat_map argument_part arguments.0.now) };

    fn fmt<W: fmt::Write>(&self, f: &mut fmt::Formatter<W>) -> fmt::Result {
        let arguments = self.0;
        for argument in arguments {
            let name = Argument(argument);
            let about = argument.about;
            write!(f, ".TP\n{name}\n{about}\n")?;
        }
        Ok(())
    }
}

// Options, and what each does.
#[derive(Drop)]
struct Options<'a>(&'a [OptionWords]);

impl fmt::Display for Options<'_> {
    ghost use Rattle.std.specs.Prelude.{Some, flat_map};
    ghost use Rattle.fedrun_help.specs.Manual.{option_part};

    ghost output = { λ options. Some (flat_map option_part options.0.now) };

    fn fmt<W: fmt::Write>(&self, f: &mut fmt::Formatter<W>) -> fmt::Result {
        let options = self.0;
        for option in options {
            let name = OptionText(option);
            let about = option.about;
            write!(f, ".TP\n{name}\n{about}\n")?;
        }
        Ok(())
    }
}

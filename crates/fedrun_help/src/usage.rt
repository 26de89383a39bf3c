//! The usage of a command.
use fedrun_words::{ArgumentWords, CommandWords, OptionWords};
use std::fmt;

/// A command's usage, on one line.
#[derive(Drop)]
pub(crate) struct Usage<'a>(pub &'a CommandWords);

impl fmt::Display for Usage<'_> {
    ghost use Rattle.std.specs.Prelude.{Some};
    ghost use Rattle.fedrun_help.specs.Usage.{usage_text};

    ghost output = { λ usage. Some (usage_text usage.0.now) };

    fn fmt<W: fmt::Write>(&self, f: &mut fmt::Formatter<W>) -> fmt::Result {
        let name = self.0.name;
        let arguments = Arguments(self.0.arguments);
        let may_follow = MayFollow(self.0.may_follow);
        let options = Options(self.0.options);
        write!(f, "fedrun {name}{arguments}{may_follow}{options}")
    }
}

/// An argument.
#[derive(Drop)]
pub(crate) struct Argument<'a>(pub &'a ArgumentWords);

impl fmt::Display for Argument<'_> {
    ghost use Rattle.std.specs.Prelude.{Some};
    ghost use Rattle.fedrun_help.specs.Usage.{argument_text};

    ghost output = { λ argument. Some (argument_text argument.0.now) };

    fn fmt<W: fmt::Write>(&self, f: &mut fmt::Formatter<W>) -> fmt::Result {
        let name = self.0.name;
        if self.0.is_repeated {
            write!(f, "{name}..")
        } else {
            write!(f, "{name}")
        }
    }
}

/// An option, with what its value is called.
#[derive(Drop)]
pub(crate) struct OptionText<'a>(pub &'a OptionWords);

impl fmt::Display for OptionText<'_> {
    ghost use Rattle.std.specs.Prelude.{Some};
    ghost use Rattle.fedrun_help.specs.Usage.{option_text};

    ghost output = { λ option. Some (option_text option.0.now) };

    fn fmt<W: fmt::Write>(&self, f: &mut fmt::Formatter<W>) -> fmt::Result {
        let name = self.0.name;
        match self.0.value {
            Some(value) => write!(f, "--{name} {value}"),
            None => write!(f, "--{name}"),
        }
    }
}

// The arguments that have to be there.
#[derive(Drop)]
struct Arguments<'a>(&'a [ArgumentWords]);

impl fmt::Display for Arguments<'_> {
    ghost use Rattle.std.specs.Prelude.{Some, flat_map};
    ghost use Rattle.fedrun_help.specs.Usage.{spaced_argument};

    ghost output = { λ arguments. Some (flat_map spaced_argument arguments.0.now) };

    fn fmt<W: fmt::Write>(&self, f: &mut fmt::Formatter<W>) -> fmt::Result {
        let arguments = self.0;
        for argument in arguments {
            let argument = Argument(argument);
            write!(f, " {argument}")?;
        }
        Ok(())
    }
}

// The arguments that may stand after these.
#[derive(Drop)]
struct MayFollow<'a>(&'a [ArgumentWords]);

impl fmt::Display for MayFollow<'_> {
    ghost use Rattle.std.specs.Prelude.{Some};
    ghost use Rattle.fedrun_help.specs.Usage.{may_follow_text};

    ghost output = { λ arguments. Some (may_follow_text arguments.0.now) };

    fn fmt<W: fmt::Write>(&self, f: &mut fmt::Formatter<W>) -> fmt::Result {
        match self.0 {
            [] => write!(f, ""),
            [first, rest @ ..] => {
                let first = Argument(first);
                let rest = FurtherArguments(rest);
                write!(f, " [{first}{rest}]")
            }
        }
    }
}

// Arguments behind one that may follow.
#[derive(Drop)]
struct FurtherArguments<'a>(&'a [ArgumentWords]);

impl fmt::Display for FurtherArguments<'_> {
    ghost use Rattle.std.specs.Prelude.{Some, flat_map};
    ghost use Rattle.fedrun_help.specs.Usage.{further_argument};

    ghost output = { λ arguments. Some (flat_map further_argument arguments.0.now) };

    fn fmt<W: fmt::Write>(&self, f: &mut fmt::Formatter<W>) -> fmt::Result {
        let arguments = self.0;
        for argument in arguments {
            let argument = FurtherArgument(argument);
            write!(f, "{argument}")?;
        }
        Ok(())
    }
}

// An argument behind one that may follow, in brackets where it may be left out by itself.
#[derive(Drop)]
struct FurtherArgument<'a>(&'a ArgumentWords);

impl fmt::Display for FurtherArgument<'_> {
    ghost use Rattle.std.specs.Prelude.{Some};
    ghost use Rattle.fedrun_help.specs.Usage.{further_argument};

    ghost output = { λ argument. Some (further_argument argument.0.now) };

    fn fmt<W: fmt::Write>(&self, f: &mut fmt::Formatter<W>) -> fmt::Result {
        let argument = Argument(self.0);
        if self.0.is_separate {
            write!(f, " [{argument}]")
        } else {
            write!(f, " {argument}")
        }
    }
}

// The options.
#[derive(Drop)]
struct Options<'a>(&'a [OptionWords]);

impl fmt::Display for Options<'_> {
    ghost use Rattle.std.specs.Prelude.{Some, flat_map};
    ghost use Rattle.fedrun_help.specs.Usage.{option_usage};

    ghost output = { λ options. Some (flat_map option_usage options.0.now) };

    fn fmt<W: fmt::Write>(&self, f: &mut fmt::Formatter<W>) -> fmt::Result {
        let options = self.0;
        for option in options {
            let option = OptionUsage(option);
            write!(f, "{option}")?;
        }
        Ok(())
    }
}

// An option, in brackets where it may be left out.
#[derive(Drop)]
struct OptionUsage<'a>(&'a OptionWords);

impl fmt::Display for OptionUsage<'_> {
    ghost use Rattle.std.specs.Prelude.{Some};
    ghost use Rattle.fedrun_help.specs.Usage.{option_usage};

    ghost output = { λ option. Some (option_usage option.0.now) };

    fn fmt<W: fmt::Write>(&self, f: &mut fmt::Formatter<W>) -> fmt::Result {
        let text = OptionText(self.0);
        if self.0.is_needed {
            write!(f, " {text}")
        } else {
            write!(f, " [{text}]")
        }
    }
}

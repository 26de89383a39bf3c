//! Completions: for each shell a script, by which it knows the commands and their options. All else is a file's name.
ghost use Rattle.std.specs.Prelude.{◌≡◌};
ghost use Rattle.fedrun_help.specs.Completions.{zsh_value, fish_value};

use fedrun_words::{CommandTables, CommandWords, OptionWords};
use std::fmt;

const BEFORE_BASH_NAMES: &str = "# Which words bash may complete behind fedrun.
_fedrun() {
  local word=${COMP_WORDS[COMP_CWORD]} words='' names='";

const BEFORE_BASH_COMMANDS: &str = "'
  if ((COMP_CWORD == 1)); then
    words=\"$names --help --version\"
  elif [[ $word == -* ]]; then
    case ${COMP_WORDS[1]} in
";

const AFTER_BASH_COMMANDS: &str = "    esac
  elif ((COMP_CWORD == 2)); then
    case ${COMP_WORDS[1]} in
      help) words=$names ;;
      completions) words='bash zsh fish' ;;
    esac
  fi
  COMPREPLY=($(compgen -W \"$words\" -- \"$word\"))
}
complete -o default -F _fedrun fedrun
";

const BEFORE_ZSH_NAMES: &str = "#compdef fedrun
# Which words zsh may complete behind fedrun.
_fedrun() {
  local command=$words[2]
  local -a names
  names=(
";

const BEFORE_ZSH_COMMANDS: &str = "  )
  if ((CURRENT == 2)); then
    _describe command names
    return
  fi
  shift words
  ((CURRENT--))
  case $command in
    help) _describe command names ;;
    completions) _values shell bash zsh fish ;;
";

const AFTER_ZSH_COMMANDS: &str = "  esac
}
if [ \"$funcstack[1]\" = _fedrun ]; then
  _fedrun \"$@\"
else
  compdef _fedrun fedrun
fi
";

const BEFORE_FISH_NAMES: &str = "# Which words fish may complete behind fedrun.
complete -c fedrun -l help -d \"what is given to it\"
complete -c fedrun -n __fish_use_subcommand -l version -d \"which commit it was built from\"
complete -c fedrun -n '__fish_seen_subcommand_from completions' -f -a 'bash zsh fish'
complete -c fedrun -n '__fish_seen_subcommand_from help' -f -a '";

const AFTER_FISH_NAMES: &str = "'\n";

/// For bash.
#[derive(Drop)]
pub(crate) struct BashCompletions(pub CommandTables);

impl fmt::Display for BashCompletions {
    ghost use Rattle.std.specs.Prelude.{Some};
    ghost use Rattle.fedrun_help.specs.Completions.{bash_text};

    ghost output = { λ script. Some (bash_text script.0) };

    fn fmt<W: fmt::Write>(&self, f: &mut fmt::Formatter<W>) -> fmt::Result {
        let first = BEFORE_BASH_NAMES;
        let names = Names(self.0.of_federations);
        let other_names = Names(self.0.others);
        let second = BEFORE_BASH_COMMANDS;
        let commands = BashCommands(self.0.of_federations);
        let other_commands = BashCommands(self.0.others);
        let third = AFTER_BASH_COMMANDS;
        write!(
            f,
            "{first}{names}{other_names}{second}{commands}{other_commands}{third}"
        )
    }
}

/// For zsh.
#[derive(Drop)]
pub(crate) struct ZshCompletions(pub CommandTables);

impl fmt::Display for ZshCompletions {
    ghost use Rattle.std.specs.Prelude.{Some};
    ghost use Rattle.fedrun_help.specs.Completions.{zsh_text};

    ghost output = { λ script. Some (zsh_text script.0) };

    fn fmt<W: fmt::Write>(&self, f: &mut fmt::Formatter<W>) -> fmt::Result {
        let first = BEFORE_ZSH_NAMES;
        let names = ZshNames(self.0.of_federations);
        let other_names = ZshNames(self.0.others);
        let second = BEFORE_ZSH_COMMANDS;
        let commands = ZshCommands(self.0.of_federations);
        let other_commands = ZshCommands(self.0.others);
        let third = AFTER_ZSH_COMMANDS;
        write!(
            f,
            "{first}{names}{other_names}{second}{commands}{other_commands}{third}"
        )
    }
}

/// For fish.
#[derive(Drop)]
pub(crate) struct FishCompletions(pub CommandTables);

impl fmt::Display for FishCompletions {
    ghost use Rattle.std.specs.Prelude.{Some};
    ghost use Rattle.fedrun_help.specs.Completions.{fish_text};

    ghost output = { λ script. Some (fish_text script.0) };

    fn fmt<W: fmt::Write>(&self, f: &mut fmt::Formatter<W>) -> fmt::Result {
        let first = BEFORE_FISH_NAMES;
        let names = Names(self.0.of_federations);
        let other_names = Names(self.0.others);
        let second = AFTER_FISH_NAMES;
        let commands = FishCommands(self.0.of_federations);
        let other_commands = FishCommands(self.0.others);
        write!(
            f,
            "{first}{names}{other_names}{second}{commands}{other_commands}"
        )
    }
}

// The names of commands.
#[derive(Drop)]
struct Names<'a>(&'a [CommandWords]);

impl fmt::Display for Names<'_> {
    ghost use Rattle.std.specs.Prelude.{Some, flat_map};
    ghost use Rattle.fedrun_help.specs.Completions.{spaced_name};

    ghost output = { λ commands. Some (flat_map spaced_name commands.0.now) };

    fn fmt<W: fmt::Write>(&self, f: &mut fmt::Formatter<W>) -> fmt::Result {
        let commands = self.0;
        for command in commands {
            let name = command.name;
            write!(f, " {name}")?;
        }
        Ok(())
    }
}

// For bash, the options of commands.
#[derive(Drop)]
struct BashCommands<'a>(&'a [CommandWords]);

impl fmt::Display for BashCommands<'_> {
    ghost use Rattle.std.specs.Prelude.{Some, flat_map};
    ghost use Rattle.fedrun_help.specs.Completions.{bash_command};

    ghost output = { λ commands. Some (flat_map bash_command commands.0.now) };

    fn fmt<W: fmt::Write>(&self, f: &mut fmt::Formatter<W>) -> fmt::Result {
        let commands = self.0;
        for command in commands {
            let line = BashCommand(command);
            write!(f, "{line}")?;
        }
        Ok(())
    }
}

// For bash, the options of a command.
#[derive(Drop)]
struct BashCommand<'a>(&'a CommandWords);

impl fmt::Display for BashCommand<'_> {
    ghost use Rattle.std.specs.Prelude.{Some};
    ghost use Rattle.fedrun_help.specs.Completions.{bash_command};

    ghost output = { λ command. Some (bash_command command.0.now) };

    #[tactic(auto, unfolding(crate::specs::Completions::bash_command))]
    fn fmt<W: fmt::Write>(&self, f: &mut fmt::Formatter<W>) -> fmt::Result {
        let name = self.0.name;
        let options = BashOptions(self.0.options);
        write!(f, "      {name}) words='--help{options}' ;;\n")
    }
}

// For bash, the names of options.
#[derive(Drop)]
struct BashOptions<'a>(&'a [OptionWords]);

impl fmt::Display for BashOptions<'_> {
    ghost use Rattle.std.specs.Prelude.{Some, flat_map};
    ghost use Rattle.fedrun_help.specs.Completions.{bash_option};

    ghost output = { λ options. Some (flat_map bash_option options.0.now) };

    fn fmt<W: fmt::Write>(&self, f: &mut fmt::Formatter<W>) -> fmt::Result {
        let options = self.0;
        for option in options {
            let name = option.name;
            write!(f, " --{name}")?;
        }
        Ok(())
    }
}

// For zsh, the names of commands, and what each does.
#[derive(Drop)]
struct ZshNames<'a>(&'a [CommandWords]);

impl fmt::Display for ZshNames<'_> {
    ghost use Rattle.std.specs.Prelude.{Some, flat_map};
    ghost use Rattle.fedrun_help.specs.Completions.{zsh_name};

    ghost output = { λ commands. Some (flat_map zsh_name commands.0.now) };

    fn fmt<W: fmt::Write>(&self, f: &mut fmt::Formatter<W>) -> fmt::Result {
        let commands = self.0;
        for command in commands {
            let name = command.name;
            let about = command.about;
            write!(f, "    \"{name}:{about}\"\n")?;
        }
        Ok(())
    }
}

// For zsh, the options of commands.
#[derive(Drop)]
struct ZshCommands<'a>(&'a [CommandWords]);

impl fmt::Display for ZshCommands<'_> {
    ghost use Rattle.std.specs.Prelude.{Some, flat_map};
    ghost use Rattle.fedrun_help.specs.Completions.{zsh_command};

    ghost output = { λ commands. Some (flat_map zsh_command commands.0.now) };

    fn fmt<W: fmt::Write>(&self, f: &mut fmt::Formatter<W>) -> fmt::Result {
        let commands = self.0;
        for command in commands {
            let line = ZshCommand(command);
            write!(f, "{line}")?;
        }
        Ok(())
    }
}

// For zsh, the options of a command.
#[derive(Drop)]
struct ZshCommand<'a>(&'a CommandWords);

impl fmt::Display for ZshCommand<'_> {
    ghost use Rattle.std.specs.Prelude.{Some};
    ghost use Rattle.fedrun_help.specs.Completions.{zsh_command};

    ghost output = { λ command. Some (zsh_command command.0.now) };

    #[tactic(auto, unfolding(crate::specs::Completions::zsh_command))]
    fn fmt<W: fmt::Write>(&self, f: &mut fmt::Formatter<W>) -> fmt::Result {
        let name = self.0.name;
        let options = ZshOptions(self.0.options);
        write!(
            f,
            "    {name}) _arguments '--help[what is given to it]'{options} '*:file:_files' ;;\n"
        )
    }
}

// For zsh, options.
#[derive(Drop)]
struct ZshOptions<'a>(&'a [OptionWords]);

impl fmt::Display for ZshOptions<'_> {
    ghost use Rattle.std.specs.Prelude.{Some, flat_map};
    ghost use Rattle.fedrun_help.specs.Completions.{zsh_option};

    ghost output = { λ options. Some (flat_map zsh_option options.0.now) };

    fn fmt<W: fmt::Write>(&self, f: &mut fmt::Formatter<W>) -> fmt::Result {
        let options = self.0;
        for option in options {
            let name = option.name;
            let about = option.about;
            let value = zsh_value(option);
            write!(f, " \"--{name}[{about}]{value}\"")?;
        }
        Ok(())
    }
}

// How zsh is told what an option's value is.
fn zsh_value(option: &OptionWords) -> &'static str
    ensures { result.now ≡ zsh_value option.now.value option.now.is_file }
{
    match option.value {
        None => "",
        Some(_) if option.is_file => ":file:_files",
        Some(_) => ": : ",
    }
}

// For fish, commands with what each does and with their options.
#[derive(Drop)]
struct FishCommands<'a>(&'a [CommandWords]);

impl fmt::Display for FishCommands<'_> {
    ghost use Rattle.std.specs.Prelude.{Some, flat_map};
    ghost use Rattle.fedrun_help.specs.Completions.{fish_command};

    ghost output = { λ commands. Some (flat_map fish_command commands.0.now) };

    fn fmt<W: fmt::Write>(&self, f: &mut fmt::Formatter<W>) -> fmt::Result {
        let commands = self.0;
        for command in commands {
            let lines = FishCommand(command);
            write!(f, "{lines}")?;
        }
        Ok(())
    }
}

// For fish, a command with what it does and with its options.
#[derive(Drop)]
struct FishCommand<'a>(&'a CommandWords);

impl fmt::Display for FishCommand<'_> {
    ghost use Rattle.std.specs.Prelude.{Some};
    ghost use Rattle.fedrun_help.specs.Completions.{fish_command};

    ghost output = { λ command. Some (fish_command command.0.now) };

    #[tactic(auto, unfolding(crate::specs::Completions::fish_command))]
    fn fmt<W: fmt::Write>(&self, f: &mut fmt::Formatter<W>) -> fmt::Result {
        let name = self.0.name;
        let about = self.0.about;
        let options = FishOptions(self.0);
        write!(
            f,
            "complete -c fedrun -n __fish_use_subcommand -f -a {name} -d \"{about}\"\n{options}"
        )
    }
}

// For fish, the options of a command.
#[derive(Drop)]
struct FishOptions<'a>(&'a CommandWords);

impl fmt::Display for FishOptions<'_> {
    ghost use Rattle.std.specs.Prelude.{Some, flat_map};
    ghost use Rattle.fedrun_help.specs.Completions.{fish_option};

    ghost output = { λ command. Some (flat_map (fish_option command.0.now.name.now) command.0.now.options.now) };

    fn fmt<W: fmt::Write>(&self, f: &mut fmt::Formatter<W>) -> fmt::Result {
        let command = self.0.name;
        let options = self.0.options;
        for option in options {
            let line = FishOption { command, option };
            write!(f, "{line}")?;
        }
        Ok(())
    }
}

// For fish, an option of the command of this name.
#[derive(Drop)]
struct FishOption<'a> {
    command: &'a str,
    option: &'a OptionWords,
}

impl fmt::Display for FishOption<'_> {
    ghost use Rattle.std.specs.Prelude.{Some};
    ghost use Rattle.fedrun_help.specs.Completions.{fish_option};

    ghost output = { λ line. Some (fish_option line.command.now line.option.now) };

    #[tactic(auto, unfolding(crate::specs::Completions::fish_option))]
    fn fmt<W: fmt::Write>(&self, f: &mut fmt::Formatter<W>) -> fmt::Result {
        let command = self.command;
        let name = self.option.name;
        let about = self.option.about;
        let value = fish_value(self.option);
        write!(
            f,
            "complete -c fedrun -n '__fish_seen_subcommand_from {command}' -l {name}{value} -d \"{about}\"\n"
        )
    }
}

// How fish is told what an option's value is.
fn fish_value(option: &OptionWords) -> &'static str
    ensures { result.now ≡ fish_value option.now.value option.now.is_file }
{
    match option.value {
        None => "",
        Some(_) if option.is_file => " -r -F",
        Some(_) => " -x",
    }
}

use crate::completions::{BashCompletions, FishCompletions, ZshCompletions};
use crate::help::{HelpOfAll, HelpOfOne};
use crate::manual::Manual;
use fedrun_words::{AboutRequest, AboutTopic, Shell};
use std::fmt;

/// What is asked for.
#[derive(Drop)]
pub(crate) struct About(pub AboutRequest);

impl fmt::Display for About {
    ghost use Rattle.std.specs.Prelude.{Some};
    ghost use Rattle.fedrun_help.specs.About.{about_text};

    ghost output = { λ about. Some (about_text about.0) };

    #[tactic(auto, unfolding(crate::specs::About::about_text))]
    fn fmt<W: fmt::Write>(&self, f: &mut fmt::Formatter<W>) -> fmt::Result {
        let commands = self.0.commands;
        match self.0.topic {
            AboutTopic::Commands => write!(f, "{}", HelpOfAll(commands)),
            AboutTopic::Command(command) => write!(f, "{}", HelpOfOne(command)),
            AboutTopic::Completions(Shell::Bash) => write!(f, "{}", BashCompletions(commands)),
            AboutTopic::Completions(Shell::Zsh) => write!(f, "{}", ZshCompletions(commands)),
            AboutTopic::Completions(Shell::Fish) => write!(f, "{}", FishCompletions(commands)),
            AboutTopic::Manual => write!(f, "{}", Manual(commands)),
        }
    }
}

/// Of which commit it is, and whether it is proved.
#[derive(Drop)]
pub(crate) struct Version<'a> {
    pub commit: &'a str,
    pub proof: &'a str,
}

impl fmt::Display for Version<'_> {
    ghost use Rattle.std.specs.Prelude.{Some};
    ghost use Rattle.fedrun_help.specs.About.{version_text};

    ghost output = { λ version. Some (version_text version.commit.now version.proof.now) };

    fn fmt<W: fmt::Write>(&self, f: &mut fmt::Formatter<W>) -> fmt::Result {
        let commit = self.commit;
        let proof = self.proof;
        write!(f, "{commit}{proof}\n")
    }
}

//! The commands of the program, with what is given to each. From this one list words are read, and usage, help,
//! completions of shells and the manual page are printed.
ghost use Rattle.std.specs.Prelude.{◌≡◌, false};
ghost use Rattle.std.specs.Iterator.Adapters.{chain_first, chain_second, chain_first_done, chain_second_done};
ghost use Rattle.std.specs.Slice.Iter.{iter_rest};

use std::iter::Chain;
use std::slice;

/// Which command it is.
#[derive(Clone, Copy, Debug, PartialEq, Eq)]
pub enum CommandKind {
    Run,
    Record,
    Whole,
    Check,
    Replay,
    Frames,
    Trace,
    Draw,
    Lint,
    Expand,
    Coordinate,
    Join,
    Audit,
    Help,
    Completions,
    Manual,
}

/// An argument, which is known by its place.
#[derive(Clone, Copy, Debug, PartialEq, Eq)]
pub struct ArgumentWords {
    pub name: &'static str,
    /// Whether it is a file's name.
    pub is_file: bool,
    /// Whether there may be more of them, as last arguments.
    pub is_repeated: bool,
    /// Whether, of arguments that may follow, those before it may stand without it.
    pub is_separate: bool,
    pub about: &'static str,
}

/// An option, which is known by its name behind two hyphens, and may be given once.
#[derive(Clone, Copy, Debug, PartialEq, Eq)]
pub struct OptionWords {
    pub name: &'static str,
    /// A letter that stands for the name behind one hyphen, where there is one.
    pub letter: Option<char>,
    /// What its value is called, where it has one.
    pub value: Option<&'static str>,
    /// Whether its value is a file's name.
    pub is_file: bool,
    /// Whether it has to be there.
    pub is_needed: bool,
    pub about: &'static str,
}

/// A command, and what is given to it.
#[derive(Clone, Copy, Debug, PartialEq, Eq)]
pub struct CommandWords {
    pub kind: CommandKind,
    pub name: &'static str,
    /// The arguments that have to be there.
    pub arguments: &'static [ArgumentWords],
    /// The arguments that may stand after these.
    pub may_follow: &'static [ArgumentWords],
    pub options: &'static [OptionWords],
    /// What it does, on one line.
    pub about: &'static str,
    /// What else is to be known of it, line by line.
    pub more: &'static [&'static str],
}

/// The commands that there are, in the order in which they are told. They stand in two tables, since one constant is
/// proved as a whole, and all of them are too much for one proof.
#[derive(Clone, Copy, Debug, PartialEq, Eq)]
pub struct CommandTables {
    /// Those that run a federation on this machine, or show what it is and does.
    pub of_federations: &'static [CommandWords],
    /// Those of files, of nodes on machines of their own, and of the program itself.
    pub others: &'static [CommandWords],
}

impl CommandTables {
    /// Each command, from the first table on.
    pub fn iter(
        &self,
    ) -> Chain<slice::Iter<'static, CommandWords>, slice::Iter<'static, CommandWords>>
        ensures first { iter_rest (chain_first result) ≡ self.now.of_federations.now }
        ensures others { iter_rest (chain_second result) ≡ self.now.others.now }
        ensures none { (chain_first_done result ≡ false) × (chain_second_done result ≡ false) }
    {
        self.of_federations.iter().chain(self.others)
    }
}

/// The commands of the program.
pub fn all_commands() -> CommandTables {
    CommandTables {
        of_federations: commands_of_federations(),
        others: other_commands(),
    }
}

// The first table. Where the constant is named, its whole text is proved: so it is named here alone.
fn commands_of_federations() -> &'static [CommandWords] {
    COMMANDS_OF_FEDERATIONS
}

// The second table.
fn other_commands() -> &'static [CommandWords] {
    OTHER_COMMANDS
}

const COMMANDS_OF_FEDERATIONS: &[CommandWords] = &[
    CommandWords {
        kind: CommandKind::Run,
        name: "run",
        arguments: &[FED, IN],
        may_follow: &[],
        options: &[TURNS_OF_EACH, FRAMES, CSV, PROGRESS, STATS],
        about: "in threads, over TCP on loopback: each federate's rows",
        more: &[
            "They are printed once the run is finished and audited.",
            "A turn is an attempt to do something and no row: N is to be well above the number of rows.",
        ],
    },
    CommandWords {
        kind: CommandKind::Record,
        name: "record",
        arguments: &[FED, IN],
        may_follow: &[],
        options: &[TURNS_OF_EACH, FRAMES, PROGRESS],
        about: "as run, but the steps of it, as a schedule for replay",
        more: &[],
    },
    CommandWords {
        kind: CommandKind::Whole,
        name: "whole",
        arguments: &[FED, IN, TURNS],
        may_follow: &[],
        options: &[CSV, PROGRESS],
        about: "undivided, on one thread: the rows of at most TURNS turns",
        more: &[],
    },
    CommandWords {
        kind: CommandKind::Check,
        name: "check",
        arguments: &[FED],
        may_follow: &[],
        options: &[],
        about: "the plan: ranks, and the least delays between federates",
        more: &[],
    },
    CommandWords {
        kind: CommandKind::Replay,
        name: "replay",
        arguments: &[FED, IN, SCHEDULE],
        may_follow: &[],
        options: &[UNTIL_STUCK, CSV, PROGRESS],
        about: "step by step, with frames late, repeated and lost",
        more: &["It prints the steps that are refused, and then each federate's rows."],
    },
    CommandWords {
        kind: CommandKind::Frames,
        name: "frames",
        arguments: &[FED, IN, SCHEDULE],
        may_follow: &[],
        options: &[UNTIL_STUCK],
        about: "as replay, step by step: each frame that was sent, and what came of it",
        more: &["Each frame stands with the number by which a schedule names it."],
    },
    CommandWords {
        kind: CommandKind::Trace,
        name: "trace",
        arguments: &[FED, IN, SCHEDULE],
        may_follow: &[],
        options: &[UNTIL_STUCK],
        about: "as replay, but its steps as trace events, which Perfetto opens",
        more: &[],
    },
    CommandWords {
        kind: CommandKind::Draw,
        name: "draw",
        arguments: &[FED],
        may_follow: &[IN, SCHEDULE],
        options: &[UNTIL_STUCK, FROM, TO, REACTIONS],
        about: "a picture of the federation, or of a schedule, as SVG",
        more: &[
            "Closing rounds and steps are for a schedule alone, reactions for a federation alone.",
        ],
    },
];

const OTHER_COMMANDS: &[CommandWords] = &[
    CommandWords {
        kind: CommandKind::Lint,
        name: "lint",
        arguments: &[FED],
        may_follow: &[IN, FURTHER_SCHEDULE],
        options: &[AS_SOURCE],
        about: "all that is wrong in the files, and what is odd, with its line",
        more: &["There is no schedule beside a source."],
    },
    CommandWords {
        kind: CommandKind::Expand,
        name: "expand",
        arguments: &[SOURCE],
        may_follow: &[VALUE],
        options: &[EACH, OUT],
        about: "the federation file that a source becomes: classes, counts, whole expressions",
        more: &[
            "A source has parameters, and bodies with expressions, branches and local names.",
            "A federation file becomes itself.",
            "With --each a file is saved for each value of a parameter, and nothing is printed.",
        ],
    },
    CommandWords {
        kind: CommandKind::Coordinate,
        name: "coordinate",
        arguments: &[FED, IN],
        may_follow: &[],
        options: &[
            LISTEN,
            REPORT,
            SECRET,
            PATIENCE,
            SYNC,
            LOG,
            PROGRESS_OF_NODE,
            STATS,
        ],
        about: "the coordinator alone, for federates on other machines; it writes a report",
        more: &[
            "At an address that isn't on loopback a secret is needed. The reports of all nodes are for audit.",
            "Killed in the midst, it goes on from its log by the same words again; with --sync no it has none.",
        ],
    },
    CommandWords {
        kind: CommandKind::Join,
        name: "join",
        arguments: &[FED, IN, NAME],
        may_follow: &[],
        options: &[
            CONNECT,
            REPORT,
            SECRET,
            PATIENCE,
            SYNC,
            TURNS_OF_EACH,
            FRAMES,
            LOG,
            PROGRESS_OF_NODE,
            STATS,
        ],
        about: "one federate alone; it writes a report",
        more: &[
            "At an address that isn't on loopback a secret is needed. The reports of all nodes are for audit.",
            "Killed in the midst, it goes on from its log by the same words again; with --sync no it has none.",
        ],
    },
    CommandWords {
        kind: CommandKind::Audit,
        name: "audit",
        arguments: &[FED, IN, COORDINATOR, FEDERATE],
        may_follow: &[],
        options: &[CSV],
        about: "the rows that the report files of a run's nodes prove",
        more: &["The reports of federates stand in any order."],
    },
    CommandWords {
        kind: CommandKind::Help,
        name: "help",
        arguments: &[],
        may_follow: &[COMMAND],
        options: &[],
        about: "these lines, or what is given to one command",
        more: &[],
    },
    CommandWords {
        kind: CommandKind::Completions,
        name: "completions",
        arguments: &[SHELL],
        may_follow: &[],
        options: &[],
        about: "for a shell, which words it may complete",
        more: &[
            "bash: source <(fedrun completions bash)",
            "zsh: fedrun completions zsh > _fedrun, in a folder of fpath",
            "fish: fedrun completions fish > ~/.config/fish/completions/fedrun.fish",
        ],
    },
    CommandWords {
        kind: CommandKind::Manual,
        name: "man",
        arguments: &[],
        may_follow: &[],
        options: &[],
        about: "the manual page, for man",
        more: &["man reads it from a file: fedrun man > fedrun.1; man ./fedrun.1"],
    },
];

const FED: ArgumentWords = ArgumentWords {
    name: "FED",
    is_file: true,
    is_repeated: false,
    is_separate: false,
    about: "a federation file, or - for standard input",
};

const IN: ArgumentWords = ArgumentWords {
    name: "IN",
    is_file: true,
    is_repeated: false,
    is_separate: false,
    about: "a file of recorded inputs, or - for none",
};

const SOURCE: ArgumentWords = ArgumentWords {
    name: "SOURCE",
    is_file: true,
    is_repeated: false,
    is_separate: false,
    about: "a source of a federation, or - for standard input",
};

const VALUE: ArgumentWords = ArgumentWords {
    name: "NAME=VALUE",
    is_file: false,
    is_repeated: true,
    is_separate: false,
    about: "a parameter of the source, and the whole number that it is to be",
};

const EACH: OptionWords = OptionWords {
    name: "each",
    letter: None,
    value: Some("RANGE"),
    is_file: false,
    is_needed: false,
    about: "a parameter and its values, as gain in 1..10, for each of which a file is saved",
};

const OUT: OptionWords = OptionWords {
    name: "out",
    letter: Some('o'),
    value: Some("FOLDER"),
    is_file: true,
    is_needed: false,
    about: "the folder, which is there, in which these are saved; -o for short",
};

const TURNS: ArgumentWords = ArgumentWords {
    name: "TURNS",
    is_file: false,
    is_repeated: false,
    is_separate: false,
    about: "how many turns are made at most",
};

const SCHEDULE: ArgumentWords = ArgumentWords {
    name: "SCHEDULE",
    is_file: true,
    is_repeated: false,
    is_separate: false,
    about: "a schedule file: which frame comes when, twice, late or never",
};

const FURTHER_SCHEDULE: ArgumentWords = ArgumentWords {
    name: "SCHEDULE",
    is_file: true,
    is_repeated: false,
    is_separate: true,
    about: "a schedule file beside them",
};

const NAME: ArgumentWords = ArgumentWords {
    name: "NAME",
    is_file: false,
    is_repeated: false,
    is_separate: false,
    about: "the federate's name",
};

const COORDINATOR: ArgumentWords = ArgumentWords {
    name: "COORDINATOR",
    is_file: true,
    is_repeated: false,
    is_separate: false,
    about: "the coordinator's report file, or its log",
};

const FEDERATE: ArgumentWords = ArgumentWords {
    name: "FEDERATE",
    is_file: true,
    is_repeated: true,
    is_separate: false,
    about: "a federate's report file, or its log",
};

const COMMAND: ArgumentWords = ArgumentWords {
    name: "COMMAND",
    is_file: false,
    is_repeated: false,
    is_separate: false,
    about: "a command's name",
};

const SHELL: ArgumentWords = ArgumentWords {
    name: "SHELL",
    is_file: false,
    is_repeated: false,
    is_separate: false,
    about: "bash, zsh or fish",
};

const TURNS_OF_EACH: OptionWords = OptionWords {
    name: "turns",
    letter: None,
    value: Some("N"),
    is_file: false,
    is_needed: false,
    about: "at most N turns of each federate; 1000000 where it isn't given",
};

const FRAMES: OptionWords = OptionWords {
    name: "frames",
    letter: None,
    value: Some("V"),
    is_file: false,
    is_needed: false,
    about: "the version of frames that federates write, 1 or 2; 2 where it isn't given",
};

const CSV: OptionWords = OptionWords {
    name: "csv",
    letter: None,
    value: None,
    is_file: false,
    is_needed: false,
    about: "the rows alone, as comma-separated values",
};

const PROGRESS: OptionWords = OptionWords {
    name: "progress",
    letter: None,
    value: None,
    is_file: false,
    is_needed: false,
    about: "a line on the terminal says how far it is",
};

const AS_SOURCE: OptionWords = OptionWords {
    name: "source",
    letter: None,
    value: None,
    is_file: false,
    is_needed: false,
    about: "FED is a source: what is wrong in it, or odd in what it becomes",
};

const UNTIL_STUCK: OptionWords = OptionWords {
    name: "until-stuck",
    letter: None,
    value: Some("N"),
    is_file: false,
    is_needed: false,
    about: "after the schedule, closing rounds until nothing is left to do, at most N",
};

const FROM: OptionWords = OptionWords {
    name: "from",
    letter: None,
    value: Some("STEP"),
    is_file: false,
    is_needed: false,
    about: "of all steps, which are made, those from the STEP-th on are drawn",
};

const TO: OptionWords = OptionWords {
    name: "to",
    letter: None,
    value: Some("STEP"),
    is_file: false,
    is_needed: false,
    about: "and those to the STEP-th",
};

const REACTIONS: OptionWords = OptionWords {
    name: "reactions",
    letter: None,
    value: None,
    is_file: false,
    is_needed: false,
    about: "in each box its reactions, with triggers, outputs, actions and delays",
};

const LISTEN: OptionWords = OptionWords {
    name: "listen",
    letter: None,
    value: Some("ADDRESS:PORT"),
    is_file: false,
    is_needed: true,
    about: "where it listens",
};

const CONNECT: OptionWords = OptionWords {
    name: "connect",
    letter: None,
    value: Some("ADDRESS:PORT"),
    is_file: false,
    is_needed: true,
    about: "where the coordinator listens",
};

const REPORT: OptionWords = OptionWords {
    name: "report",
    letter: None,
    value: Some("FILE"),
    is_file: true,
    is_needed: true,
    about: "its report, once it has ended; until then its log is FILE.part",
};

const SECRET: OptionWords = OptionWords {
    name: "secret",
    letter: None,
    value: Some("FILE"),
    is_file: true,
    is_needed: false,
    about: "the file of the secret that all nodes have",
};

const PATIENCE: OptionWords = OptionWords {
    name: "patience",
    letter: None,
    value: Some("SECONDS"),
    is_file: false,
    is_needed: false,
    about: "it gives up once nobody was heard for so long",
};

const SYNC: OptionWords = OptionWords {
    name: "sync",
    letter: None,
    value: Some("disk|system|no"),
    is_file: false,
    is_needed: false,
    about: "what has its log before anything leaves it, the disk or the system; the disk where it isn't given",
};

const LOG: OptionWords = OptionWords {
    name: "log",
    letter: None,
    value: None,
    is_file: false,
    is_needed: false,
    about: "lines on standard error say who connects, who is lost, who is refused and why, and when it is finished",
};

const STATS: OptionWords = OptionWords {
    name: "stats",
    letter: None,
    value: Some("FILE"),
    is_file: true,
    is_needed: false,
    about: "the file, in TOML, of what went over connections and how long what took",
};

const PROGRESS_OF_NODE: OptionWords = OptionWords {
    name: "progress",
    letter: None,
    value: None,
    is_file: false,
    is_needed: false,
    about: "lines on the terminal say which federates are there and how far they are",
};

//! Tables of the two files: for each the least file that has it, into which a key of it is put to be looked at.

/// A table of one of the two files.
#[derive(Clone, Copy)]
pub(crate) struct Form {
    /// What stands before its pairs in the least file that has it, and behind them.
    pub(crate) before: &'static str,
    pub(crate) behind: &'static str,
    /// What parts two pairs.
    pub(crate) between: &'static str,
    /// The keys that it can't be without, each with a value that is taken.
    pub(crate) needed: &'static [(&'static str, &'static str)],
    /// The other keys that it may have.
    pub(crate) others: &'static [&'static str],
    /// Of these the ones whose arrays are looked at elsewhere, an entry at a time.
    pub(crate) lists: &'static [&'static str],
    /// What it has, for whoever wrote something else.
    pub(crate) keys: &'static str,
    /// Keys that stand elsewhere, and where, for whoever wrote them here.
    pub(crate) strays: &'static [(&'static str, &'static str)],
}

impl Form {
    /// Whether it may have this key.
    pub(crate) fn has(&self, key: &str) -> bool {
        for (needed, _) in self.needed {
            if *needed == key {
                return true;
            }
        }
        is_one_of(key, self.others) || is_one_of(key, self.lists)
    }

    /// What to do about a key that it can't have: where that stands, or else what it has.
    pub(crate) fn advice_on(&self, key: &str) -> &'static str {
        for (stray, advice) in self.strays {
            if *stray == key {
                return *advice;
            }
        }
        self.keys
    }
}

const OF_SOURCES: &str =
    "it is one of sources: fedrun expand makes a federation file of one, and fedrun lint FILE --source looks at one";

const OF_FEDERATES: &str = "it is one of a federate: it stands below a header [[federate]]";

const OF_FEDERATIONS: &str =
    "it is one of a federation file, which is named before the inputs, as FED IN";

const OF_INPUTS: &str = "it is one of an input: it stands below a header [[input]]";

/// Whether a key is one of these.
pub(crate) fn is_one_of(key: &str, keys: &[&str]) -> bool {
    for other in keys {
        if *other == key {
            return true;
        }
    }
    false
}

pub(crate) const FEDERATION_FILE: Form = Form {
    before: "",
    behind: "",
    between: "\n",
    needed: &[("stop", "\"0\"")],
    others: &[],
    lists: &["federate", "connection"],
    keys: "a federation file has stop, federate and connection",
    strays: &[
        (
            "input",
            "it is one of recorded inputs, which are named behind the federation file, as FED IN",
        ),
        (
            "reaction",
            "write [[federate.reaction]], below the [[federate]] whose it is",
        ),
        (
            "timers",
            "write [[federate.timers]], below the [[federate]] whose they are",
        ),
        (
            "state",
            "write [[federate.state]], below the [[federate]] whose it is",
        ),
        ("name", OF_FEDERATES),
        ("inputs", OF_FEDERATES),
        ("outputs", OF_FEDERATES),
        ("actions", OF_FEDERATES),
        ("physical", OF_FEDERATES),
        ("parameter", OF_SOURCES),
        ("class", OF_SOURCES),
    ],
};

pub(crate) const FEDERATE: Form = Form {
    before: "stop = \"0\"\nfederate = [{ ",
    behind: "}]",
    between: ", ",
    needed: &[("name", "\"a\"")],
    others: &[],
    lists: &[
        "inputs", "outputs", "timers", "actions", "physical", "state", "reaction",
    ],
    keys: "a federate has name, inputs, outputs, actions, physical, timers, state and reaction",
    strays: &[
        (
            "stop",
            "it stands above the first header, as [[federate]]: below one a key is of that table",
        ),
        (
            "connection",
            "write it below a header [[connection]], or above the first header: below one a key is of that table",
        ),
        ("class", OF_SOURCES),
        ("count", OF_SOURCES),
    ],
};

const TIMER: Form = Form {
    before: "stop = \"0\"\nfederate = [{ name = \"a\", timers = [{ ",
    behind: "}]}]",
    between: ", ",
    needed: &[("name", "\"t\"")],
    others: &["offset", "period"],
    lists: &[],
    keys: "a timer has name, offset and period",
    strays: &[],
};

const STATE: Form = Form {
    before: "stop = \"0\"\nfederate = [{ name = \"a\", state = [{ ",
    behind: "}]}]",
    between: ", ",
    needed: &[("name", "\"n\""), ("value", "0")],
    others: &[],
    lists: &[],
    keys: "a state has name and value",
    strays: &[],
};

const REACTION: Form = Form {
    before: "stop = \"0\"\nfederate = [{ name = \"a\", reaction = [{ ",
    behind: "}]}]",
    between: ", ",
    needed: &[("triggers", "[\"startup\"]")],
    others: &["body"],
    lists: &[],
    keys: "a reaction has triggers and body",
    strays: &[],
};

const CONNECTION: Form = Form {
    before: "stop = \"0\"\nconnection = [{ ",
    behind: "}]",
    between: ", ",
    needed: &[("from", "\"a.y\""), ("to", "\"b.x\"")],
    others: &["after"],
    lists: &[],
    keys: "a connection has from, to and after",
    strays: &[],
};

pub(crate) const INPUT_FILE: Form = Form {
    before: "",
    behind: "",
    between: "\n",
    needed: &[],
    others: &[],
    lists: &["input"],
    keys: "an input file has input",
    strays: &[
        ("stop", OF_FEDERATIONS),
        ("connection", OF_FEDERATIONS),
        (
            "federate",
            "it is one of an input, below a header [[input]], or of a federation file, which is named before the inputs, as FED IN",
        ),
        ("action", OF_INPUTS),
        ("time", OF_INPUTS),
        ("micro", OF_INPUTS),
        ("value", OF_INPUTS),
        ("parameter", OF_SOURCES),
        ("class", OF_SOURCES),
    ],
};

const INPUT: Form = Form {
    before: "input = [{ ",
    behind: "}]",
    between: ", ",
    needed: &[
        ("federate", "\"a\""),
        ("action", "\"p\""),
        ("time", "\"0\""),
        ("value", "0"),
    ],
    others: &["micro"],
    lists: &[],
    keys: "an input has federate, action, time, micro and value",
    strays: &[],
};

/// The form of the tables in the array at a key. A federate's is none of these, since its lists are looked at
/// elsewhere.
pub(crate) fn form_in(key: &str) -> Option<Form> {
    match key {
        "timers" => Some(TIMER),
        "state" => Some(STATE),
        "reaction" => Some(REACTION),
        "connection" => Some(CONNECTION),
        "input" => Some(INPUT),
        _ => None,
    }
}

/// How many entries the arrays at these keys may have, for whoever wrote more.
const LIMITS: &[(&str, usize, &str)] = &[
    ("federate", 64, "a federation has at most 64 of them"),
    ("connection", 1024, "a federation has at most 1024 of them"),
    ("inputs", 32, "a federate has at most 32 of them"),
    ("outputs", 32, "a federate has at most 32 of them"),
    ("timers", 32, "a federate has at most 32 of them"),
    ("actions", 32, "a federate has at most 32 of them"),
    ("physical", 32, "a federate has at most 32 of them"),
    ("state", 64, "a federate has at most 64 of them"),
    ("reaction", 64, "a federate has at most 64 of them"),
    ("body", 256, "a reaction has at most 256 of them"),
    ("input", 65_536, "a file has at most 65,536 of them"),
];

/// How many entries the array at a key may have, and this in words, if there is a limit.
pub(crate) fn limit_of(key: &str) -> Option<(usize, &'static str)> {
    for (limited, most, advice) in LIMITS {
        if *limited == key {
            return Some((*most, *advice));
        }
    }
    None
}

/// Whether an array of tables stands at a key: of a federation file, or of recorded inputs.
pub(crate) fn has_tables(key: &str, is_of_inputs: bool) -> bool {
    if is_of_inputs {
        key == "input"
    } else {
        matches!(
            key,
            "federate" | "connection" | "timers" | "state" | "reaction"
        )
    }
}

/// What stands at the key of an input's federate, for whoever wrote something else there.
pub(crate) const FORM_OF_INPUTS_FEDERATE: &str =
    "write the name of a federate in quotes, and behind action the name of one of its physical actions";

/// What stands at a key, for whoever wrote something else there.
pub(crate) fn form_of(key: &str) -> &'static str {
    match key {
        "name" => {
            "a name is 1 to 32 ASCII letters, digits and _ in quotes, the first no digit; when, schedule, min, max, in, out, has, startup and coordinator are none"
        }
        "stop" | "offset" | "period" | "after" | "time" => {
            "a duration is a text of digits, without a point, and ns, us, ms or s, as \"5 ms\", or \"0\"; it is below 2^62 ns, which are 146 years"
        }
        "inputs" | "outputs" | "actions" | "physical" => {
            "write an array of names, as [\"x\", \"y\"]; a name is 1 to 32 ASCII letters, digits and _, the first no digit; when, schedule, min, max, in, out, has and startup are none"
        }
        "from" | "to" => {
            "write a federate and its port, as \"src.y\": two names with one dot; what leads to several inputs has a [[connection]] for each"
        }
        "value" => "write a whole number of 64 bits, without quotes",
        "micro" => "write a whole number from 0 to 4294967295",
        "triggers" => "write at least one text, as [\"t\"]",
        "body" => "write an array of texts, as [\"n = n + 1\", \"out.y = n\"]",
        "timers" => {
            "write an array of tables, as [{ name = \"t\", period = \"5 ms\" }], or under headers in double brackets"
        }
        "state" => {
            "write an array of tables, as [{ name = \"n\", value = 0 }], or under headers in double brackets"
        }
        "federate" | "connection" | "reaction" | "input" => {
            "write an array of tables, as [{ .. }, { .. }] or under headers in double brackets"
        }
        "action" => "write the name of a physical action in quotes",
        _ => "see FILES for what stands here",
    }
}

//! What to do about faults for which no file is looked at: a line for each.
use fedrun_hosts::HostFault;
use fedrun_reports::NodeFileFault;
use files_keeping::KeepFault;
use files_saving::SaveFault;
use std::fmt;
use wires::Cause;
use wires_greeting::SecretFault;
use wires_hosts::DialFault;

/// What to do, on a line.
#[derive(Drop)]
pub(crate) struct Advice(pub &'static str);

impl fmt::Display for Advice {
    fn fmt<W: fmt::Write>(&self, f: &mut fmt::Formatter<W>) -> fmt::Result {
        let text = self.0;
        write!(f, "help: {text}\n")
    }
}

/// What to do where a run isn't finished for this cause.
pub(crate) fn advice_on_run(cause: Cause) -> &'static str {
    match cause {
        Cause::TurnsUsedUp => {
            "a federate's turns were made before: give more than its rows, as --turns 4294967295"
        }
        Cause::NoListener => {
            "nothing can listen on 127.0.0.1: the system gives no open file (ulimit -n) or no port, or loopback is down (ip addr show lo)"
        }
        Cause::NoThread => {
            "a thread couldn't be started: the system gives too few, or too little memory for them (ulimit -u, -s, -v)"
        }
        Cause::SharesDisagree => {
            "what a node's threads kept doesn't agree: give the command again, and tell us, with the files"
        }
    }
}

/// What to do where a file can't be read.
pub(crate) const UNREADABLE: &str =
    "there is no such file, as seen from this folder, or it is a folder, or can't be read; in the place of IN a - is for no inputs";

/// The same of a node's secret.
pub(crate) const UNREADABLE_SECRET: &str =
    "there is no such file of a secret (--secret), as seen from this folder, or it is a folder, or can't be read by this user";

/// The same of standard input.
pub(crate) const UNREADABLE_INPUT: &str =
    "- is standard input: it is closed, can't be read, or was read for another of the words already; a file called so is ./-";

/// What to do where reports aren't proved.
pub(crate) const UNPROVED: &str =
    "a report is missing, is of another run of these files, is the log of a node that was cut off, or was changed: give those of one run, one of each node, each as it was at its end";

/// The same where no list of steps goes on behind the event that is named.
pub(crate) const STUCK: &str =
    "that node heard next what no other says it sent, so rather another's file is wrong than its own: one ends too early, as a log that was cut off, copied in part or read while its node ran, or is of another run, or was changed: compare their lengths and times, and give those of one run, each as it was at its end";

/// The same where a federate's rows aren't what it computed.
pub(crate) const MISMATCH: &str =
    "that row isn't what this federate computes of what came to it: its report was changed, or another program wrote it";

/// What to do where reports are proved of a run that isn't finished.
pub(crate) const UNFINISHED: &str =
    "the reports are proved, and by its own the coordinator isn't finished: where the nodes still run, ask again once they have ended";

/// What to do where a file can't be made.
const FOLDER: &str = "look whether its folder is there, as seen from this one, and may be changed";

/// The same where it can be made, and not be written or get its name.
const ROOM: &str = "look at the room on the disk and at the folder's permissions";

/// What to do where the file of `--stats` can't be had, for this reason.
pub(crate) fn advice_on_stats(why: SaveFault) -> &'static str {
    match why {
        SaveFault::Exists => {
            "something that --stats didn't save has this name, or what has it can't be read: give another name; nothing was begun"
        }
        _ => advice_on_saving(why),
    }
}

// What to do where a file isn't saved.
fn advice_on_saving(why: SaveFault) -> &'static str {
    match why {
        SaveFault::CannotLook | SaveFault::CannotCreate => FOLDER,
        _ => ROOM,
    }
}

/// What to do about a report or a log that isn't taken, by the number of its fault.
const ON_REPORTS: &[(u16, &str)] = &[
    (80, "it is of a federate that this federation hasn't"),
    (
        81,
        "one before it is of the same federate: name one of each",
    ),
    (
        100,
        "it is no report, or one of another version: the words are FED IN COORDINATOR FEDERATE.., with - in the place of IN where there are no inputs, and the others reports or logs",
    ),
    (101, "it is longer than a report may be"),
    (
        102,
        "it was cut short, or changed on its way: copy it again from its node",
    ),
    (
        103,
        "it is of another federation file or of other recorded inputs: give those of that run, byte for byte",
    ),
    (104, NOT_OURS),
    (105, NOT_OURS),
    (106, NOT_OURS),
    (107, NOT_OURS),
    (108, NOT_OURS),
    (
        111,
        "the coordinator's report comes first, then one of each federate",
    ),
    (
        121,
        "another version of the program wrote it: audit it by that one",
    ),
    (
        122,
        "it isn't as it was written: copy it again from its node",
    ),
];

const NOT_OURS: &str = "it is whole, and no node of this program wrote it: ask who did";

/// The advice on such a report, if there is any.
pub(crate) fn advice_on_report(why: NodeFileFault) -> Option<&'static str> {
    let number = why.number();
    for (about, advice) in ON_REPORTS {
        if *about == number {
            return Some(*advice);
        }
    }
    None
}

/// What to do about the fault of a node on a machine of its own, which keeps a log or was to keep none.
pub(crate) fn advice_on_node(fault: &HostFault<'_>, keeps_log: bool) -> Option<&'static str> {
    match fault {
        HostFault::Secret(why) => Some(advice_on_secret(*why)),
        HostFault::ReportExists(_) => Some(
            "a file of that name is there, or a folder: give another name, of a file, or put away what has that one where it is no other node's report; nothing was begun",
        ),
        HostFault::PartExists(_) => Some(advice_on_part(keeps_log)),
        HostFault::OtherLog(_) => Some(
            "the log is of other files, another node or other rules: give the words that belong to it; or another name, where this node was never let in, as after 118",
        ),
        HostFault::Damaged(_) => Some(
            "put a copy of the log there as it was at its end; else end all nodes, and begin the run anew",
        ),
        HostFault::Unkept(_, why) => Some(advice_on_log(*why)),
        HostFault::Unsaved(_, why) => Some(advice_on_saving(*why)),
        HostFault::Refused(why) => Some(advice_on_refusal(*why)),
        HostFault::NotProved => Some(
            "whoever answered there hasn't the same secret, or has one and none was given here, or is no coordinator: compare sha256sum of both secrets, of which each byte counts, and look at the address",
        ),
        HostFault::OtherHistory => Some(
            "another process of this federate may run, by mistake or of a copied log: end this one, and ask audit of the reports once the others have ended; or one of the two was begun anew or from an older copy of its log: where audit prints no rows, begin the run anew",
        ),
        HostFault::NoSuchFederate(_)
        | HostFault::CannotListen(_)
        | HostFault::NotFinished(_)
        | HostFault::Unwritten(_)
        | HostFault::Memory(_) => None,
    }
}

// The same where there is no key.
fn advice_on_secret(why: SecretFault) -> &'static str {
    match why {
        SecretFault::TooShort => {
            "a secret has at least 16 bytes, not counting zeros at its end; head -c 32 /dev/urandom makes one"
        }
        SecretFault::TooLong => "a secret has at most 4096 bytes: another file may be meant",
        SecretFault::Missing => {
            "a host's name, localhost too, and an address that isn't on loopback need --secret FILE, of the same bytes at each node; 127.0.0.1 needs none"
        }
    }
}

// The same where the temporary file of a report is there, which is the log of a node that keeps one.
fn advice_on_part(keeps_log: bool) -> &'static str {
    if keeps_log {
        "another process has this log, as where two nodes are given one report: give each its own; or a node with --sync no was ended in the midst, as a line in the file says: then end the run, remove the file, and begin the run anew"
    } else {
        "where the file begins with fedrep 2, it is this node's log: leave out --sync no, and it goes on; else another process has this report, or a node with --sync no was ended in the midst: then end the run, remove the file, and begin the run anew"
    }
}

// The same where a log can't be opened, or takes nothing more.
fn advice_on_log(why: KeepFault) -> &'static str {
    match why {
        KeepFault::CannotOpen => {
            "nothing was begun: look whether its folder is there, as seen from this one, and may be changed"
        }
        _ => {
            "all that left the node is in the log: make room on the disk, look at the folder's permissions, and give the same words again"
        }
    }
}

// The same where the coordinator doesn't let a federate take part.
fn advice_on_refusal(why: DialFault) -> &'static str {
    match why {
        DialFault::OtherFiles => {
            "the coordinator has another federation file or another input file: compare sha256sum on both machines; this node was never let in, so its report or .part is removed before it begins with the right file"
        }
        DialFault::NoSuchFederate => {
            "who answers there has these very files, and no federate of that number: look at the address"
        }
        _ => "the coordinator lets this federate take part no more",
    }
}

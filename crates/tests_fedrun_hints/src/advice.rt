//! What to do about faults of reports, of runs, and of nodes on machines of their own.
use crate::told::{is_told, no_files, told_of_command, told_of_node, told_of_stats};
use fedrun_commands::NodeFault;
use fedrun_hosts::HostFault;
use fedrun_reports::NodeFileFault;
use fedrun_run::AuditFailure;
use fedrun_words::Fault;
use files_keeping::KeepFault;
use files_logs::LogFault;
use files_reports::{ContentFault, ReadFault, ReportFileFault};
use files_saving::SaveFault;
use plan_names::Text;
use recorder_reports::ReportFault;
use std::alloc::Global;
use wires::Cause;
use wires_greeting::SecretFault;
use wires_hosts::DialFault;

/// Words of an audit, of a run and of a node.
const AUDIT: &[&str] = &["audit", "f", "-", "c", "s"];

const RUN: &[&str] = &["run", "f", "-"];

const JOIN: &[&str] = &[
    "join",
    "f",
    "-",
    "src",
    "--connect",
    "127.0.0.1:1",
    "--report",
    "r",
];

// Whether this is told of a fault of the command with these words, on a line.
fn is_advised<'a>(alloc: Global, words: &[&str], fault: NodeFault<'a>, advice: &str) -> bool {
    let mut files = no_files(alloc);
    let told = told_of_command(alloc, words, &Fault::More(fault), &mut files);
    match format!(in alloc; "help: {advice}\n") {
        Ok(text) => is_told(&told, text.as_str()),
        Err(_) => false,
    }
}

/// Why a report isn't taken, and what to do; of what is none `commands` has it.
const REPORTS: &[(NodeFileFault, &str)] = &[
    (
        NodeFileFault::Report(ReportFileFault::Unread(ReadFault::CutShort)),
        "it was cut short, or changed on its way: copy it again from its node",
    ),
    (
        NodeFileFault::Log(LogFault::CutShort),
        "it was cut short, or changed on its way: copy it again from its node",
    ),
    (
        NodeFileFault::Report(ReportFileFault::Unread(ReadFault::OtherFiles)),
        "it is of another federation file or of other recorded inputs: give those of that run, byte for byte",
    ),
    (
        NodeFileFault::Log(LogFault::Content(ContentFault::BadEvent)),
        "it is whole, and no node of this program wrote it: ask who did",
    ),
    (
        NodeFileFault::Report(ReportFileFault::OtherNode),
        "the coordinator's report comes first, then one of each federate",
    ),
    (
        NodeFileFault::Report(ReportFileFault::NotTaken(ReportFault::Double)),
        "one before it is of the same federate: name one of each",
    ),
    (
        NodeFileFault::NotTaken(ReportFault::Stranger),
        "it is of a federate that this federation hasn't",
    ),
    (
        NodeFileFault::Log(LogFault::OtherLog),
        "another version of the program wrote it: audit it by that one",
    ),
    (
        NodeFileFault::Log(LogFault::Damaged),
        "it isn't as it was written: copy it again from its node",
    ),
];

/// Why a run isn't finished, and what to do.
const RUNS: &[(Cause, &str)] = &[
    (
        Cause::TurnsUsedUp,
        "a federate's turns were made before: give more than its rows, as --turns 4294967295",
    ),
    (
        Cause::NoListener,
        "nothing can listen on 127.0.0.1: the system gives no open file (ulimit -n) or no port, or loopback is down \
         (ip addr show lo)",
    ),
    (
        Cause::NoThread,
        "a thread couldn't be started: the system gives too few, or too little memory for them (ulimit -u, -s, -v)",
    ),
    (
        Cause::SharesDisagree,
        "what a node's threads kept doesn't agree: give the command again, and tell us, with the files",
    ),
];

const UNPROVED: &str =
    "a report is missing, is of another run of these files, is the log of a node that was cut off, or was changed: \
     give those of one run, one of each node, each as it was at its end";

#[test]
fn tells_what_to_do_about_reports_and_runs(rt: HostRuntime) {
    let alloc = rt.alloc();
    for (fault, advice) in REPORTS {
        let fault = NodeFault::ReportFile("a.report", *fault);
        assert!(rt; is_advised(alloc, AUDIT, fault, advice), "{advice}");
    }
    for (cause, advice) in RUNS {
        let fault = NodeFault::NotFinished(*cause);
        assert!(rt; is_advised(alloc, RUN, fault, advice), "{advice}");
    }
    let unproved = NodeFault::Unproved(AuditFailure::Double);
    assert!(rt; is_advised(alloc, AUDIT, unproved, UNPROVED));
    assert!(rt; is_stuck_advised(alloc));
    assert!(rt; is_mismatch_advised(alloc));
}

const STUCK: &str =
    "that node heard next what no other says it sent, so rather another's file is wrong than its own: one ends too \
     early, as a log that was cut off, copied in part or read while its node ran, or is of another run, or was changed: \
     compare their lengths and times, and give those of one run, each as it was at its end";

const MISMATCH: &str =
    "that row isn't what this federate computes of what came to it: its report was changed, or another program wrote it";

fn name(alloc: Global) -> Option<Text> {
    Some(Text::new(String::from_str(alloc, "src").ok()?))
}

// Whether it is told what to do where no event of a node can come next.
fn is_stuck_advised(alloc: Global) -> bool {
    match name(alloc) {
        Some(node) => {
            let stuck = NodeFault::Unproved(AuditFailure::Stuck { node, event: 3 });
            is_advised(alloc, AUDIT, stuck, STUCK)
        }
        None => false,
    }
}

// The same where a federate's rows aren't what it computed.
fn is_mismatch_advised(alloc: Global) -> bool {
    match name(alloc) {
        Some(federate) => {
            let mismatch = NodeFault::Unproved(AuditFailure::Mismatch { federate, row: 1 });
            is_advised(alloc, AUDIT, mismatch, MISMATCH)
        }
        None => false,
    }
}

/// Why a node doesn't end well, and what to do; of some that don't begin `commands` has it, of what others keep `ends`.
const NODES: &[(HostFault<'static>, &str)] = &[
    (
        HostFault::Secret(SecretFault::TooLong),
        "a secret has at most 4096 bytes: another file may be meant",
    ),
    (
        HostFault::ReportExists("a.report"),
        "a file of that name is there, or a folder: give another name, of a file, or put away what has that one where \
         it is no other node's report; nothing was begun",
    ),
    (
        HostFault::OtherLog("a.report"),
        "the log is of other files, another node or other rules: give the words that belong to it; or another name, \
         where this node was never let in, as after 118",
    ),
    (
        HostFault::Damaged("a.report"),
        "put a copy of the log there as it was at its end; else end all nodes, and begin the run anew",
    ),
    (
        HostFault::Unkept("a.report", KeepFault::CannotAppend),
        "all that left the node is in the log: make room on the disk, look at the folder's permissions, and give the \
         same words again",
    ),
    (
        HostFault::Unkept("a.report", KeepFault::CannotOpen),
        "nothing was begun: look whether its folder is there, as seen from this one, and may be changed",
    ),
    (
        HostFault::Unsaved("a.report", SaveFault::CannotCreate),
        "look whether its folder is there, as seen from this one, and may be changed",
    ),
    (
        HostFault::Unsaved("a.report", SaveFault::CannotWrite),
        "look at the room on the disk and at the folder's permissions",
    ),
    (
        HostFault::Refused(DialFault::OtherFiles),
        "the coordinator has another federation file or another input file: compare sha256sum on both machines; this \
         node was never let in, so its report or .part is removed before it begins with the right file",
    ),
    (
        HostFault::Refused(DialFault::NoSuchFederate),
        "who answers there has these very files, and no federate of that number: look at the address",
    ),
    (
        HostFault::Refused(DialFault::NotAllowed),
        "the coordinator lets this federate take part no more",
    ),
    (
        HostFault::NotProved,
        "whoever answered there hasn't the same secret, or has one and none was given here, or is no coordinator: \
         compare sha256sum of both secrets, of which each byte counts, and look at the address",
    ),
    (
        HostFault::OtherHistory,
        "another process of this federate may run, by mistake or of a copied log: end this one, and ask audit of the \
         reports once the others have ended; or one of the two was begun anew or from an older copy of its log: where \
         audit prints no rows, begin the run anew",
    ),
];

// Whether this is told of a node's fault, on a line.
fn is_node_advised(alloc: Global, fault: &HostFault<'_>, advice: &str) -> bool {
    let mut files = no_files(alloc);
    let told = told_of_node(alloc, JOIN, *fault, &mut files);
    match format!(in alloc; "help: {advice}\n") {
        Ok(text) => is_told(&told, text.as_str()),
        Err(_) => false,
    }
}

#[test]
fn tells_what_to_do_about_nodes(rt: HostRuntime) {
    for (fault, advice) in NODES {
        assert!(rt; is_node_advised(rt.alloc(), fault, advice), "{advice}");
    }
}

/// Why the file of `--stats` can't be had, and what to do.
const STATS: &[(SaveFault, &str)] = &[
    (
        SaveFault::Exists,
        "something that --stats didn't save has this name, or what has it can't be read: give another name; nothing \
         was begun",
    ),
    (
        SaveFault::CannotLook,
        "look whether its folder is there, as seen from this one, and may be changed",
    ),
    (
        SaveFault::CannotCreate,
        "look whether its folder is there, as seen from this one, and may be changed",
    ),
    (
        SaveFault::CannotWrite,
        "look at the room on the disk and at the folder's permissions",
    ),
];

// Whether this is told of the file of `--stats`, on a line.
fn is_stats_advised(alloc: Global, why: SaveFault, advice: &str) -> bool {
    let told = told_of_stats(alloc, why);
    match format!(in alloc; "help: {advice}\n") {
        Ok(text) => is_told(&told, text.as_str()),
        Err(_) => false,
    }
}

#[test]
fn tells_what_to_do_about_counts(rt: HostRuntime) {
    for (why, advice) in STATS {
        assert!(rt; is_stats_advised(rt.alloc(), *why, advice), "{advice}");
    }
}

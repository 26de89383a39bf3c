use crate::advice::{
    Advice, MISMATCH, STUCK, UNFINISHED, UNPROVED, UNREADABLE, UNREADABLE_INPUT, UNREADABLE_SECRET,
    advice_on_node, advice_on_report, advice_on_run, advice_on_stats,
};
use crate::findings::{GivenFiles, given_files, plan_of, print_findings};
use crate::node_ends::{print_end, print_listener};
use crate::standings::print_standings;
use fedrun_commands::NodeFault;
use fedrun_files::Files;
use fedrun_hosts::{HostFault, HostRequest, NodeRequest, read_node_words};
use fedrun_lint_schedule::{NoSuchName, federate_names, meant_name};
use fedrun_run::AuditFailure;
use fedrun_words::{Fault, Request, print_text, read_words};
use files_saving::{SaveFault, temporary_name};
use files_script::ScriptFault;
use loadfed::LoadFault;
use std::alloc::Global;
use std::fmt;
use std::io::Write;

/// Tells of a command's fault where it is and what to do, given these words; files are read again among these, which are
/// to be regular ones. Of words that are no command nothing is told: `words_hint` of `fedrun_help` does that.
pub fn print_hint<'a, F: Files, E: Write>(
    alloc: Global,
    words: &[String],
    fault: &Fault<'a, NodeFault<'a>>,
    files: &mut F,
    err: &mut E,
) {
    let Ok(request) = read_words(alloc, words) else {
        return;
    };
    match fault {
        Fault::CannotRead(name) => print_advice(advice_on_name(name), err),
        Fault::Load(LoadFault::Memory) => {}
        Fault::Load(_) => {
            if let Some(given) = given_files(&request) {
                let given = GivenFiles {
                    schedule: None,
                    ..given
                };
                print_findings(alloc, given, files, err);
            }
        }
        Fault::More(NodeFault::Schedule(ScriptFault::ScheduleLine(_))) => {
            if let Some(given) = given_files(&request) {
                print_findings(alloc, given, files, err);
            }
        }
        Fault::More(NodeFault::NotFinished(cause)) => match &request {
            Request::Audit(audit) => {
                print_advice(UNFINISHED, err);
                let (federation, inputs) = (audit.federation, audit.inputs);
                print_standings(alloc, federation, inputs, audit.coordinator, files, err);
            }
            _ => print_advice(advice_on_run(*cause), err),
        },
        Fault::More(NodeFault::ReportFile(_name, why)) => print_some(advice_on_report(*why), err),
        Fault::More(NodeFault::Unproved(failure)) => {
            if matches!(&request, Request::Audit(_)) {
                print_some(advice_on_audit(failure), err);
            }
        }
        Fault::Usage | Fault::CannotWrite | Fault::Turns(_) | Fault::Print(_) | Fault::More(_) => {}
    }
}

/// The same of a node's fault.
pub fn print_node_hint<'a, F: Files, E: Write>(
    alloc: Global,
    words: &[String],
    fault: &Fault<'a, HostFault<'a>>,
    files: &mut F,
    err: &mut E,
) {
    let (node, turns) = match read_node_words(alloc, words) {
        Ok(HostRequest::Coordinate(node)) => (node, None),
        Ok(HostRequest::Join { node, turns, .. }) => (node, Some(turns)),
        Err(_) => return,
    };
    match fault {
        Fault::CannotRead(name) if node.secret == Some(*name) && *name != "-" => {
            print_advice(UNREADABLE_SECRET, err);
        }
        Fault::CannotRead(name) => print_advice(advice_on_name(name), err),
        Fault::Load(LoadFault::Memory) => {}
        Fault::Load(_) => {
            let given = GivenFiles {
                federation: node.federation,
                inputs: node.inputs,
                schedule: None,
            };
            print_findings(alloc, given, files, err);
        }
        Fault::More(HostFault::NoSuchFederate(name)) => {
            print_federates(alloc, node.federation, name, files, err);
        }
        Fault::More(HostFault::CannotListen(why)) => print_listener(node.address, *why, err),
        Fault::More(HostFault::NotFinished(why)) => {
            print_end(&node, turns, *why, err);
            if turns.is_none() {
                print_heard(alloc, &node, files, err);
            }
        }
        Fault::More(fault) => print_some(advice_on_node(fault, node.log.is_some()), err),
        Fault::Usage | Fault::CannotWrite | Fault::Turns(_) | Fault::Print(_) => {}
    }
}

/// The same where the file of `--stats` can't be had, for this reason.
pub fn print_stats_hint<E: Write>(why: SaveFault, err: &mut E) {
    print_advice(advice_on_stats(why), err);
}

fn print_advice<E: Write>(advice: &'static str, err: &mut E) {
    let _is_told = print_text(err, &Advice(advice));
}

fn print_some<E: Write>(advice: Option<&'static str>, err: &mut E) {
    if let Some(advice) = advice {
        print_advice(advice, err);
    }
}

// What to do where the file of this name can't be read.
fn advice_on_name(name: &str) -> &'static str {
    if name == "-" {
        UNREADABLE_INPUT
    } else {
        UNREADABLE
    }
}

// What to do where an audit doesn't believe reports.
fn advice_on_audit(failure: &AuditFailure) -> Option<&'static str> {
    match failure {
        AuditFailure::Stuck { .. } => Some(STUCK),
        AuditFailure::Mismatch { .. } => Some(MISMATCH),
        AuditFailure::Memory => None,
        _ => Some(UNPROVED),
    }
}

// Tells which federates there are, in place of this one.
fn print_federates<F: Files, E: Write>(
    alloc: Global,
    federation: &str,
    name: &str,
    files: &mut F,
    err: &mut E,
) {
    let Some(plan) = plan_of(alloc, federation, files) else {
        return;
    };
    let Ok(federates) = federate_names(alloc, &plan) else {
        return;
    };
    let names = federates.as_slice();
    let no_such_name = NoSuchName {
        kind: "federate",
        name,
        meant: meant_name(alloc, name, names),
        names,
    };
    let _is_told = print_text(err, &OtherName(no_such_name));
}

// A name that isn't there, on a line.
#[derive(Drop)]
struct OtherName<'a>(NoSuchName<'a>);

impl fmt::Display for OtherName<'_> {
    fn fmt<W: fmt::Write>(&self, f: &mut fmt::Formatter<W>) -> fmt::Result {
        let name = self.0;
        write!(f, "help: {name}\n")
    }
}

// Tells how far each federate was that this coordinator heard: its journal is in its log, or where it has none, in its
// report.
fn print_heard<F: Files, E: Write>(
    alloc: Global,
    node: &NodeRequest<'_>,
    files: &mut F,
    err: &mut E,
) {
    let (federation, inputs) = (node.federation, node.inputs);
    if node.log.is_none() {
        print_standings(alloc, federation, inputs, node.report, files, err);
    } else if let Ok(log) = temporary_name(alloc, node.report) {
        print_standings(alloc, federation, inputs, log.as_str(), files, err);
    }
}

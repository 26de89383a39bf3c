use crate::commands::{measure_command, run_source};
use crate::edges::Edges;
use crate::machine::Machine;
use crate::single_node::measure_node;
use fedrun_commands::NodeFault;
use fedrun_expand::asks_for_expand;
use fedrun_files::Files;
use fedrun_help::{asks_for_hints, print_version, words_hint};
use fedrun_hosts::asks_for_node;
use fedrun_lint_source::asks_for_source_lint;
use fedrun_logs::LogDisk;
use fedrun_progress::{NoProgress, ProgressLine, asks_for_progress};
use fedrun_words::{Fault, asks_for_version, print_text, refuse};
use files_keeping::MachineDevice;
use files_saving::Disk;
use std::alloc::Global;
use std::io::Write;
use std::net::{Net, TcpListener, TcpStream};
use std::thread;

/// The exit status where words are no command.
const USAGE: u8 = 2;

/// What the program says of itself.
#[derive(Clone, Copy)]
pub struct Version<'a> {
    /// Which commit it was built from.
    pub commit: &'a str,
    /// Whether it is proved, and by which kit.
    pub proof: &'a str,
}

/// Does what words ask for, and answers the exit status. Hints are told where the words ask for them, and where they
/// don't say, if the edges have them wanted. What is shown beside a command, how far it is or what happens at a node, goes
/// to `shown`, which is standard error too.
pub fn run<
    R: Machine + Net<Stream = TcpStream, Listener = TcpListener>,
    F: Files,
    G: Files,
    D: Disk,
    L: LogDisk<MachineDevice>,
    O: Write,
    E: Write,
    S: Write + Send,
>(
    rt: &R,
    words: &[String],
    version: Version<'_>,
    edges: &mut Edges<'_, F, G, D, L, O, E>,
    shown: &mut S,
) -> u8 {
    let (words, said) = asks_for_hints(words);
    edges.hints = said.unwrap_or(edges.hints);
    let status = run_words(rt, words, version, edges, shown);
    if edges.hints && status == USAGE {
        hint(rt.alloc(), words, edges.err);
    }
    status
}

// Does what words ask for; beside it is shown how far that is, where they ask for it.
fn run_words<
    R: Machine + Net<Stream = TcpStream, Listener = TcpListener>,
    F: Files,
    G: Files,
    D: Disk,
    L: LogDisk<MachineDevice>,
    O: Write,
    E: Write,
    S: Write + Send,
>(
    rt: &R,
    words: &[String],
    version: Version<'_>,
    edges: &mut Edges<'_, F, G, D, L, O, E>,
    shown: &mut S,
) -> u8 {
    if asks_for_version(words) {
        say_version(version, edges.out, edges.err)
    } else if asks_for_node(words) {
        measure_node(rt, words, edges, shown)
    } else if asks_for_expand(words) || asks_for_source_lint(words) {
        run_source(rt.alloc(), words, edges)
    } else if asks_for_progress(words) {
        let line = ProgressLine::new(rt);
        let (_, status) = thread::join(
            rt,
            || line.show(rt.alloc(), shown),
            || measure_command(rt, words, edges, &line),
        );
        status
    } else {
        measure_command(rt, words, edges, &NoProgress)
    }
}

// Says why words are no command, and what they may be.
fn hint<E: Write>(alloc: Global, words: &[String], err: &mut E) {
    if let Some(hint) = words_hint(alloc, words) {
        let _is_told = print_text(err, &hint);
    }
}

// Says which version of the program this is.
fn say_version<O: Write, E: Write>(version: Version<'_>, out: &mut O, err: &mut E) -> u8 {
    if print_version(version.commit, version.proof, out) {
        return 0;
    }
    let fault: Fault<'_, NodeFault<'_>> = Fault::CannotWrite;
    refuse(&fault, err).status
}

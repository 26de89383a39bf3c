//! Commands that end by themselves, measured where that is asked for, and what there is more to tell of their faults.
use crate::edges::Edges;
use crate::machine::Machine;
use crate::measuring::{drawn_number, refused_stats};
use fedrun_commands::answer;
use fedrun_expand::{asks_for_each, expand_command, expand_each_command};
use fedrun_files::Files;
use fedrun_hints::print_hint;
use fedrun_lint_source::{asks_for_source_lint, lint_source_command};
use fedrun_progress::Progress;
use fedrun_stats::{RunMeasures, end_stats};
use fedrun_words::{read_words, stats_file};
use files_saving::Disk;
use std::alloc::Global;
use std::io::Write;
use std::net::{Net, TcpListener, TcpStream};

/// Runs a command, and saves what is measured of it, where the words ask for that.
pub(crate) fn measure_command<
    R: Machine + Net<Stream = TcpStream, Listener = TcpListener>,
    F: Files,
    G: Files,
    D: Disk,
    L,
    O: Write,
    E: Write,
    P: Progress + Sync,
>(rt: &R, words: &[String], edges: &mut Edges<'_, F, G, D, L, O, E>, progress: &P) -> u8 {
    let name = match stats_file(rt.alloc(), words) {
        Some(name) if read_words(rt.alloc(), words).is_ok() => name,
        _ => return run_command(rt, words, edges, progress),
    };
    let drawn = drawn_number(rt);
    if let Some(status) = refused_stats(rt.alloc(), name, drawn, edges) {
        progress.end();
        return status;
    }
    let measures = RunMeasures::new(rt, progress);
    let status = run_command(rt, words, edges, &measures);
    end_stats(
        rt.alloc(),
        name,
        drawn,
        measures.stats(status),
        status,
        edges.regular,
        edges.disk,
        edges.err,
    )
}

// `answer`, and what there is more to tell of its fault.
fn run_command<
    R: Machine + Net<Stream = TcpStream, Listener = TcpListener>,
    F: Files,
    G: Files,
    D,
    L,
    O: Write,
    E: Write,
    P: Progress + Sync,
>(rt: &R, words: &[String], edges: &mut Edges<'_, F, G, D, L, O, E>, progress: &P) -> u8 {
    let answer = answer(rt, words, edges.files, edges.out, edges.err, progress);
    if let Some(fault) = &answer.fault {
        if edges.hints {
            print_hint(rt.alloc(), words, fault, edges.regular, edges.err);
        }
    }
    answer.status
}

/// Prints what a source becomes, or saves it for each value of a parameter, or says what is wrong in it.
pub(crate) fn run_source<F: Files, G, D: Disk, L, O: Write, E: Write>(
    alloc: Global,
    words: &[String],
    edges: &mut Edges<'_, F, G, D, L, O, E>,
) -> u8 {
    if asks_for_source_lint(words) {
        lint_source_command(alloc, words, edges.files, edges.out, edges.err)
    } else if asks_for_each(words) {
        expand_each_command(alloc, words, edges.files, edges.disk, edges.err)
    } else {
        expand_command(alloc, words, edges.files, edges.out, edges.err)
    }
}

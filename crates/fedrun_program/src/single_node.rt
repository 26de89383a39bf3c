//! A node on a machine of its own, measured and watched where that is asked for, and what there is more to tell of its
//! fault.
use crate::edges::Edges;
use crate::machine::Machine;
use crate::measuring::{drawn_number, refused_stats};
use arrayvec::ArrayVec;
use crossbeam_channel::Sender;
use fedrun_files::Files;
use fedrun_hints::print_node_hint;
use fedrun_hosts::{NodeAnswer, node_answer, read_node_words};
use fedrun_logs::LogDisk;
use fedrun_stats::{NodeMeasures, StatsFault, end_stats};
use fedrun_watch::{View, show, view_asked};
use fedrun_words::{Fault, refuse, stats_file};
use files_keeping::MachineDevice;
use files_saving::{Disk, SaveFault};
use std::alloc::Global;
use std::io::Write;
use std::net::{Net, TcpListener, TcpStream};
use std::thread;
use std::time::Clock;
use wires_hosts::{Measured, Teller, Watcher};

/// The bytes of a fault's line that waits for other lines, at most: more than a file's name has.
const MOST_FAULT: usize = 8192;

/// Runs a node, and saves what is measured of it, where the words ask for that.
pub(crate) fn measure_node<
    R: Machine + Net<Stream = TcpStream, Listener = TcpListener>,
    F: Files,
    G: Files,
    D: Disk,
    L: LogDisk<MachineDevice>,
    O: Write,
    E: Write,
    S: Write + Send,
>(rt: &R, words: &[String], edges: &mut Edges<'_, F, G, D, L, O, E>, shown: &mut S) -> u8 {
    let name = match stats_file(rt.alloc(), words) {
        Some(name) if read_node_words(rt.alloc(), words).is_ok() => name,
        _ => return run_node(rt, words, edges, shown, None),
    };
    let drawn = drawn_number(rt);
    if let Some(status) = refused_stats(rt.alloc(), name, drawn, edges) {
        return status;
    }
    match NodeMeasures::new(rt, rt.alloc()) {
        Ok((measures, to)) => {
            let status = run_node(rt, words, edges, shown, Some(to));
            let stats = measures.stats(rt, status);
            end_stats(
                rt.alloc(),
                name,
                drawn,
                stats,
                status,
                edges.regular,
                edges.disk,
                edges.err,
            )
        }
        Err(_) => {
            let why = SaveFault::CannotWrite;
            refuse(&Fault::More(StatsFault { name, why }), edges.err).status
        }
    }
}

// `node_answer`; with `--log` what happens is shown meanwhile, and with `--progress` where federates stand. What is
// measured is told over the channel.
fn run_node<
    R: Machine + Net<Stream = TcpStream, Listener = TcpListener>,
    F: Files,
    G: Files,
    D: Disk,
    L: LogDisk<MachineDevice>,
    O: Write,
    E: Write,
    S: Write + Send,
>(
    rt: &R,
    words: &[String],
    edges: &mut Edges<'_, F, G, D, L, O, E>,
    shown: &mut S,
    to: Option<Sender<Measured>>,
) -> u8 {
    let view = view_asked(words);
    let answer = match watched(rt, rt.alloc(), view) {
        Some((teller, watcher)) => {
            let teller = with_measures(rt, teller, to);
            // A fault comes last, behind all lines.
            let mut line: ArrayVec<u8, MOST_FAULT> = ArrayVec::new();
            let (_, answer) = thread::join(
                rt,
                || show(rt, rt.alloc(), &watcher, view, shown),
                || {
                    // Once it is gone all is shown.
                    let teller = teller;
                    node_answer(
                        rt,
                        words,
                        edges.files,
                        edges.disk,
                        edges.logs,
                        edges.out,
                        &mut line,
                        &teller,
                    )
                },
            );
            edges.tell(line.as_slice());
            answer
        }
        None => {
            let teller = with_measures(rt, Teller::silent(), to);
            node_answer(
                rt,
                words,
                edges.files,
                edges.disk,
                edges.logs,
                edges.out,
                edges.err,
                &teller,
            )
        }
    };
    let NodeAnswer { status, fault } = answer;
    if let Some(fault) = &fault {
        if edges.hints {
            print_node_hint(rt.alloc(), words, fault, edges.regular, edges.err);
        }
    }
    status
}

// Who tells what is in view of a node, with whoever watches it. None where nothing is, or there is no memory: then nobody
// watches.
fn watched<C: Clock>(clock: &C, alloc: Global, view: View) -> Option<(Teller, Watcher)> {
    if view.is_empty() {
        return None;
    }
    let (teller, watcher) = Teller::watched(clock, alloc).ok()?;
    if view.rows {
        Some((teller.with_looks(), watcher))
    } else {
        Some((teller, watcher))
    }
}

// Who tells what happens, and over this channel what is measured, if that is asked for.
fn with_measures<C: Clock>(clock: &C, teller: Teller, to: Option<Sender<Measured>>) -> Teller {
    match to {
        Some(to) => teller.measured(clock, to),
        None => teller,
    }
}

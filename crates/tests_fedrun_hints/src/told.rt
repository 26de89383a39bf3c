//! What is told of a fault.
use fedrun_commands::NodeFault;
use fedrun_files::Files;
use fedrun_hints::{print_hint, print_node_hint, print_stats_hint};
use fedrun_hosts::HostFault;
use fedrun_words::Fault;
use files_saving::SaveFault;
use std::alloc::Global;
use tests_outcomes::{NamedFiles, given};

/// What is told of a command's fault, given these words, over these files; None where there is no memory.
pub(crate) fn told_of_command<'a, F: Files>(
    alloc: Global,
    words: &[&str],
    fault: &Fault<'a, NodeFault<'a>>,
    files: &mut F,
) -> Option<String> {
    let words = given(alloc, words)?;
    let mut out = Vec::new(alloc);
    print_hint(alloc, words.as_slice(), fault, files, &mut out);
    String::from_utf8(out).ok()
}

/// The same of a node's fault.
pub(crate) fn told_of_node<'a, F: Files>(
    alloc: Global,
    words: &[&str],
    fault: HostFault<'a>,
    files: &mut F,
) -> Option<String> {
    let words = given(alloc, words)?;
    let mut out = Vec::new(alloc);
    print_node_hint(
        alloc,
        words.as_slice(),
        &Fault::More(fault),
        files,
        &mut out,
    );
    String::from_utf8(out).ok()
}

/// The same where the file of `--stats` can't be had.
pub(crate) fn told_of_stats(alloc: Global, why: SaveFault) -> Option<String> {
    let mut out = Vec::new(alloc);
    print_stats_hint(why, &mut out);
    String::from_utf8(out).ok()
}

const NONE: &[(&str, &[u8])] = &[];

/// Files of which there are none.
pub(crate) fn no_files<'a>(alloc: Global) -> NamedFiles<'a> {
    NamedFiles::new(alloc, NONE)
}

/// Whether this is told.
pub(crate) fn is_told(told: &Option<String>, text: &str) -> bool {
    match told {
        Some(told) => told.as_str() == text,
        None => false,
    }
}

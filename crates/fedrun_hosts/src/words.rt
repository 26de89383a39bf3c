use crate::request::{HostRequest, NodeRequest};
use clap::ArgMatches;
use clap::error::ErrorKind;
use fedrun_words::{WordsFault, asks_for_help, command_line, count, host_and_port, is_stats_file};
use files_keeping::KeptBy;
use signal::wire::BATCHING;
use std::alloc::Global;
use std::net::SocketAddr;
use wires_hosts::HostAddress;

/// The turns of a federate for which no number is given. One that hears nothing makes a turn some 100 times a second,
/// and so gives up after some three hours.
const JOIN_TURNS: u32 = 1_000_000;

const COORDINATE: &str = "coordinate";

const JOIN: &str = "join";

/// Whether the words are a command of this crate, and don't ask for help on it.
pub fn asks_for_node(words: &[String]) -> bool {
    match words.first() {
        Some(word) => {
            (word.as_str() == COORDINATE || word.as_str() == JOIN) && !asks_for_help(words)
        }
        None => false,
    }
}

/// What the words ask for: one of the two commands with its arguments and options.
pub fn read_node_words<'a>(
    alloc: Global,
    words: &'a [String],
) -> Result<HostRequest<'a>, WordsFault> {
    let Ok(command) = command_line(alloc) else {
        return Err(WordsFault::Memory);
    };
    let matches = command.try_get_matches_from(words).map_err(|error| {
        if error.kind() == ErrorKind::OutOfMemory {
            WordsFault::Memory
        } else {
            WordsFault::Usage
        }
    })?;
    match requested(&matches) {
        Some(request) => Ok(request),
        None => Err(WordsFault::Usage),
    }
}

// For the prover: no call takes a request by value, since `?` of one isn't covered.
fn requested<'a>(matches: &ArgMatches<'a>) -> Option<HostRequest<'a>> {
    if let Some(given) = matches.subcommand_matches(COORDINATE) {
        let Some(node) = node(given, "listen") else {
            return None;
        };
        return Some(HostRequest::Coordinate(node));
    }
    let given = matches.subcommand_matches(JOIN)?;
    let Some(node) = node(given, "connect") else {
        return None;
    };
    Some(HostRequest::Join {
        node,
        name: given.get_str("NAME")?,
        turns: number(given, "turns", JOIN_TURNS)?,
        frames: frames(given)?,
    })
}

// What every node is given, with the address under this option.
fn node<'a>(given: &ArgMatches<'a>, address: &str) -> Option<NodeRequest<'a>> {
    if !is_stats_file(given) {
        return None;
    }
    Some(NodeRequest {
        federation: given.get_str("FED")?,
        inputs: given.get_str("IN")?,
        address: host_address(given.get_str(address)?)?,
        report: name(given.get_str("report")?)?,
        log: log(given)?,
        secret: given.get_str("secret"),
        patience: match given.get_str("patience") {
            Some(seconds) => Some(count(seconds)?),
            None => None,
        },
    })
}

// An address and a port, or a host's name and a port.
fn host_address(text: &str) -> Option<HostAddress> {
    if let Ok(address) = text.parse::<SocketAddr>() {
        return Some(HostAddress::At(address));
    }
    let (host, port) = host_and_port(text)?;
    HostAddress::named(host, port)
}

// A file's name, which has a letter at least.
fn name(text: &str) -> Option<&str> {
    if text.is_empty() { None } else { Some(text) }
}

// Who keeps the node's log, if anybody does: where nothing is said, the disk.
fn log(given: &ArgMatches<'_>) -> Option<Option<KeptBy>> {
    match given.get_str("sync") {
        None | Some("disk") => Some(Some(KeptBy::Disk)),
        Some("system") => Some(Some(KeptBy::System)),
        Some("no") => Some(None),
        Some(_) => None,
    }
}

// The version of frames that a federate writes; where none is given, one that has Batches.
fn frames(given: &ArgMatches<'_>) -> Option<u8> {
    match number(given, "frames", u32::from(BATCHING))? {
        1 => Some(1),
        2 => Some(2),
        _ => None,
    }
}

// The number under an option, or this one where it isn't given.
fn number(given: &ArgMatches<'_>, option: &str, default: u32) -> Option<u32> {
    match given.get_str(option) {
        Some(text) => count(text),
        None => Some(default),
    }
}

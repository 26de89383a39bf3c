//! What the words of a node's command ask for.
use crate::nodes::given;
use fedrun_hosts::{HostRequest, NodeRequest, asks_for_node, read_node_words};
use files_keeping::KeptBy;
use std::alloc::Global;
use std::net::SocketAddr;
use wires_hosts::HostAddress;

// Whether these words ask for this.
fn ask_for(alloc: Global, texts: &[&str], request: &HostRequest<'_>) -> Option<bool> {
    let given = given(alloc, texts)?;
    Some(asks_for_node(&given) && is_read_as(alloc, &given, request))
}

// Whether these words are read as this.
fn is_read_as(alloc: Global, words: &[String], request: &HostRequest<'_>) -> bool {
    match read_node_words(alloc, words) {
        Ok(read) => read == *request,
        Err(_) => false,
    }
}

const COORDINATE: &str = "coordinate fed.toml - --listen 10.0.0.1:7000 --report c.report";

const JOIN: &str = "join fed.toml - src --connect 10.0.0.1:7000 --report c.report";

// What a node is given by these words, which have no options.
fn plain() -> NodeRequest<'static> {
    NodeRequest {
        federation: "fed.toml",
        inputs: "-",
        address: HostAddress::At(SocketAddr::from(([10, 0, 0, 1], 7000))),
        report: "c.report",
        log: Some(KeptBy::Disk),
        secret: None,
        patience: None,
    }
}

#[test]
fn options_are_left_out(rt: HostRuntime) {
    let join = HostRequest::Join {
        node: plain(),
        name: "src",
        turns: 1_000_000,
        frames: 2,
    };
    let coordinate = HostRequest::Coordinate(plain());
    let asked = [
        ask_for(rt.alloc(), &[COORDINATE], &coordinate),
        ask_for(rt.alloc(), &[COORDINATE, "--stats s"], &coordinate),
        ask_for(rt.alloc(), &[JOIN], &join),
    ];
    assert_eq!(rt; asked, [Some(true); 3]);
}

const NAMED: &str = "join fed.toml - src --connect my_host-1.example:7000 --report c.report";

// Whether a node's place is refused, by the longest name that a host can have and this in front of it.
fn is_long_name_refused(alloc: Global, front: &str) -> Option<bool> {
    let mut place = String::from_str(alloc, front).ok()?;
    for _ in 0..253 {
        place.push('n').ok()?;
    }
    place.push_str(":1").ok()?;
    are_refused(alloc, UNCONNECTED, place.as_str())
}

// Whether these words ask for a federate of a coordinator on a host of this name.
fn ask_for_host(alloc: Global, texts: &[&str], host: &str) -> Option<bool> {
    let address = HostAddress::named(host, 7000)?;
    let join = HostRequest::Join {
        node: NodeRequest { address, ..plain() },
        name: "src",
        turns: 1_000_000,
        frames: 2,
    };
    ask_for(alloc, texts, &join)
}

#[test]
fn hosts_have_names(rt: HostRuntime) {
    let asked = ask_for_host(rt.alloc(), &[NAMED], "my_host-1.example");
    assert_eq!(rt; asked, Some(true));
    let are_refused = [
        is_long_name_refused(rt.alloc(), ""),
        is_long_name_refused(rt.alloc(), "n"),
    ];
    assert_eq!(rt; are_refused, [Some(false), Some(true)]);
}

const COORDINATE_WITH_OPTIONS: &[&str] = &[
    "coordinate --patience=4294967295 fed.toml --secret secret - --report c.report",
    "--listen [::1]:0",
];

const JOIN_WITH_OPTIONS: &[&str] = &[
    "join --turns 007 --frames 1 fed.toml - src --report=c.report",
    "--connect [::1]:0 --secret=secret --patience 4294967295",
];

// What a node is given by these words.
fn with_options() -> NodeRequest<'static> {
    NodeRequest {
        address: HostAddress::At(SocketAddr::from(([0, 0, 0, 0, 0, 0, 0, 1], 0))),
        secret: Some("secret"),
        patience: Some(4_294_967_295),
        ..plain()
    }
}

#[test]
fn options_stand_anywhere_behind_the_command(rt: HostRuntime) {
    let join = HostRequest::Join {
        node: with_options(),
        name: "src",
        turns: 7,
        frames: 1,
    };
    let coordinate = HostRequest::Coordinate(with_options());
    let asked = [
        ask_for(rt.alloc(), COORDINATE_WITH_OPTIONS, &coordinate),
        ask_for(rt.alloc(), JOIN_WITH_OPTIONS, &join),
    ];
    assert_eq!(rt; asked, [Some(true); 2]);
}

// Whether these are words of a node's command.
fn are_of_node(alloc: Global, texts: &[&str]) -> Option<bool> {
    Some(asks_for_node(&given(alloc, texts)?))
}

// Help is asked of no node, and other commands are left to others.
#[test]
fn a_node_has_commands_of_its_own(rt: HostRuntime) {
    let are_of_node = [
        are_of_node(rt.alloc(), &[JOIN]),
        are_of_node(rt.alloc(), &[JOIN, "-- --help"]),
        are_of_node(rt.alloc(), &[JOIN, "--help"]),
        are_of_node(rt.alloc(), &["run f"]),
        are_of_node(rt.alloc(), &["--listen coordinate"]),
    ];
    assert_eq!(rt;
        are_of_node,
        [
            Some(true),
            Some(true),
            Some(false),
            Some(false),
            Some(false)
        ]
    );
}

const UNNAMED: &str = "coordinate fed.toml - --listen 10.0.0.1:7000";

const UNCONNECTED: &str = "join fed.toml - src --report c.report --connect";

const MEASURED: &str =
    "coordinate fed.toml inputs --listen 10.0.0.1:7000 --report c.report --secret secret --stats";

/// Words, and what they are refused with behind them. A text that ends with a space has an empty word there.
const REFUSED: &[(&str, &[&str])] = &[
    // What is no such option, or is given twice.
    (
        JOIN,
        &[
            "--patience +1",
            "--patience -1",
            "--patience ",
            "--patience 4294967296",
            "--turns 1.0",
            "--frames 0",
            "--frames 3",
            "--listen 10.0.0.1:7000",
            "--report s",
            "--connect 10.0.0.2:7000",
            "--csv x",
            "--help",
            "--help x",
        ],
    ),
    // The name of a federate.
    (COORDINATE, &["src"]),
    // No report, and one without a name.
    (UNNAMED, &["", "--report "]),
    // Where no node can be: what is no address, no name of a host, or has no port.
    (
        UNCONNECTED,
        &[
            "10.0.0.300:7000",
            "10.0.0.1",
            "localhost",
            "localhost:",
            "localhost:65536",
            ":7000",
            "a.1:7000",
            "a/b:7000",
            "::1:7000",
        ],
    ),
    // What is measured has a file of its own.
    (MEASURED, &["-", "fed.toml", "inputs", "c.report", "secret"]),
];

// Whether words with this behind them are refused.
fn are_refused(alloc: Global, words: &str, more: &str) -> Option<bool> {
    let given = given(alloc, &[words, more])?;
    Some(read_node_words(alloc, &given).is_err())
}

// The first of these behind which words aren't.
fn first_taken_behind<'a>(alloc: Global, words: &str, all: &[&'a str]) -> Option<&'a str> {
    for more in all {
        if are_refused(alloc, words, more) != Some(true) {
            return Some(*more);
        }
    }
    None
}

// The same of all.
fn first_taken(alloc: Global) -> Option<&'static str> {
    for (words, all) in REFUSED {
        let taken = first_taken_behind(alloc, words, *all);
        if taken.is_some() {
            return taken;
        }
    }
    None
}

#[test]
fn other_words_are_refused(rt: HostRuntime) {
    assert_eq!(rt; first_taken(rt.alloc()), None);
}

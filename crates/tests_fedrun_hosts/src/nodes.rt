//! The command of a node, as its process gets it: words, and the files that all nodes read.
use fedrun_files::{FileFault, Files};
use fedrun_hosts::node_command;
use fedrun_logs::LogDisk;
use files_keeping::Device;
use files_saving::Disk;
use std::alloc::Global;
use std::io::Write;
use std::net::{Net, TcpListener, TcpStream};
use std::random::RandomSource;
use tests_samples::{COUNTER, Machine, REPLACED};
use wires_hosts::Teller;

/// The machine of a node's process, with threads, TCP and random bytes.
pub trait Host: Machine + RandomSource {}

impl<R: Machine + RandomSource> Host for R {}

/// The secret of all nodes.
pub const SECRET: &str = "0123456789abcdef0123456789abcdef";

/// The files that all nodes read, but for the secret: two federations, two files without inputs, and secrets that
/// differ from that of all in the last byte, and are as short as one may be.
const TEXTS: &[(&str, &str)] = &[
    ("f", COUNTER),
    ("replaced", REPLACED),
    ("i", ""),
    ("other", "# no input\n"),
    ("wrong", "0123456789abcdef0123456789abcdeg"),
    ("least", "0123456789abcdef"),
];

/// An address at which nobody listens.
pub const NOBODY: &str = "127.0.0.1:1";

/// An address of which the system chooses the port.
pub const ANY: &str = "127.0.0.1:0";

/// How a node ends: its status, and what is on standard output and on standard error.
pub type End<'a> = (u8, &'a str, &'a str);

/// How a node ends whose run is finished.
pub const FINISHED: End<'static> = (0, "finished\n", "");

/// How a node ends whose run isn't.
pub const NOT_FINISHED: End<'static> = (3, "", "fedrun: not finished\n");

/// The words of these texts, with a space between each two, as the program gets them; None where there is no memory.
pub fn given(alloc: Global, texts: &[&str]) -> Option<Vec<String>> {
    let mut given = Vec::new(alloc);
    for text in texts {
        if !text.is_empty() {
            add_words(alloc, &mut given, text)?;
        }
    }
    Some(given)
}

fn add_words(alloc: Global, given: &mut Vec<String>, text: &str) -> Option<()> {
    for word in text.split(' ') {
        given.push(String::from_str(alloc, word).ok()?).ok()?;
    }
    Some(())
}

/// The files that all nodes read, with this text as the secret.
#[derive(Drop)]
struct NodeFiles<'a> {
    alloc: Global,
    secret: &'a str,
}

impl<'a> NodeFiles<'a> {
    // What the file of this name holds, if there is one.
    fn text(&self, name: &str) -> Option<&'a str> {
        if name == "secret" {
            return Some(self.secret);
        }
        for (known, text) in TEXTS {
            if *known == name {
                return Some(*text);
            }
        }
        None
    }
}

impl Files for NodeFiles<'_> {
    fn bytes(&mut self, name: &str, most: usize) -> Result<Vec<u8>, FileFault> {
        match self.text(name) {
            Some(text) if text.len() > most => Err(FileFault::OverLimit),
            Some(text) => Vec::from_slice(self.alloc, text.as_bytes()).map_err(
                |_| FileFault::Memory,
            ),
            None => Err(FileFault::Unreadable),
        }
    }
}

/// What the words of a node's command give that has this secret, on this disk and with these logs, where it says all to
/// this writer: the status, and what is on standard error. None where there is no memory.
pub fn commanded<
    R: Host + Net<Stream = TcpStream, Listener = TcpListener>,
    D: Disk,
    L: LogDisk<V>,
    V: Device + Drop + Send,
    O: Write,
>(
    rt: &R,
    texts: &[&str],
    secret: &str,
    disk: &mut D,
    logs: &mut L,
    out: &mut O,
) -> Option<(u8, Vec<u8>)> {
    watched(rt, texts, secret, disk, logs, out, Teller::silent())
}

/// The same where this tells what happens.
pub fn watched<
    R: Host + Net<Stream = TcpStream, Listener = TcpListener>,
    D: Disk,
    L: LogDisk<V>,
    V: Device + Drop + Send,
    O: Write,
>(
    rt: &R,
    texts: &[&str],
    secret: &str,
    disk: &mut D,
    logs: &mut L,
    out: &mut O,
    teller: Teller,
) -> Option<(u8, Vec<u8>)> {
    let alloc = rt.alloc();
    let words = given(alloc, texts)?;
    let mut files = NodeFiles { alloc, secret };
    let mut err = Vec::new(alloc);
    let status = node_command(rt, &words, &mut files, disk, logs, out, &mut err, &teller);
    Some((status, err))
}

/// Whether a node ends so that is given these words.
pub fn ends<
    R: Host + Net<Stream = TcpStream, Listener = TcpListener>,
    D: Disk,
    L: LogDisk<V>,
    V: Device + Drop + Send,
>(rt: &R, texts: &[&str], disk: &mut D, logs: &mut L, end: End<'_>) -> bool {
    let mut out = Vec::new(rt.alloc());
    match commanded(rt, texts, SECRET, disk, logs, &mut out) {
        Some((status, err)) => {
            status == end.0
                && out.as_slice() == end.1.as_bytes()
                && err.as_slice() == end.2.as_bytes()
        }
        None => false,
    }
}

/// The address of a listener, as a text; None where there is none.
pub fn address_of(alloc: Global, listener: &TcpListener) -> Option<String> {
    let address = listener.local_addr().ok()?;
    format!(in alloc; "{address}").ok()
}

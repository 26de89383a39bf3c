//! Runs of nodes, all on one machine with files in memory, each in a thread in the place of a process.
use crate::nodes::{ANY, End, FINISHED, Host, NOBODY, SECRET, commanded, ends};
use crate::shared_files::{Operation, Process, SharedFiles};
use crate::spoken::{Spoken, Until, heard};
use crossbeam_channel::{Receiver, Sender, unbounded};
use std::io::Write;
use std::net::{Net, TcpListener, TcpStream};
use std::thread;
use tests_outcomes::{outcome_of, shown};

/// The names of the reports or logs of the coordinator, of `src` and of `snk`.
pub const REPORTS: &[&str] = &["c", "src", "snk"];

/// What one node is given, and how it ends.
#[derive(Clone, Copy)]
pub struct Node<'a> {
    /// Its words before the address: what it is, its report, and the option of the address.
    pub role: &'a str,
    /// Its federation.
    pub federation: &'a str,
    /// Its inputs, and a federate's name.
    pub given: &'a str,
    /// Its further words, if any.
    pub more: &'a str,
    /// What it can't do, if that is said.
    pub failing: Option<Operation>,
    /// How it ends; of a coordinator without the line that it says first.
    pub end: End<'a>,
}

/// The nodes of the counter, which keep logs, and their run is finished.
pub const COORDINATOR: Node<'static> = Node {
    role: "coordinate --report c --listen",
    federation: "f",
    given: "i",
    more: "",
    failing: None,
    end: FINISHED,
};

pub const SRC: Node<'static> = Node {
    role: "join --report src --connect",
    given: "i src",
    ..COORDINATOR
};

pub const SNK: Node<'static> = Node {
    role: "join --report snk --connect",
    given: "i snk",
    ..COORDINATOR
};

pub const ALL: &[Node<'static>] = &[COORDINATOR, SRC, SNK];

impl Node<'_> {
    /// Whether it ends so on this machine.
    pub fn ends<R: Host + Net<Stream = TcpStream, Listener = TcpListener>>(
        &self,
        rt: &R,
        files: &SharedFiles,
        address: &str,
    ) -> bool {
        let texts = [self.role, address, self.federation, self.given, self.more];
        ends_on(rt, files, self.failing, &texts, self.end)
    }

    /// Whether it ends so that says all to this writer, whatever it says.
    pub fn ends_saying<R: Host + Net<Stream = TcpStream, Listener = TcpListener>, O: Write>(
        &self,
        rt: &R,
        files: &SharedFiles,
        address: &str,
        out: &mut O,
    ) -> bool {
        let texts = [self.role, address, self.federation, self.given, self.more];
        let mut disk = Process::new(rt, files, self.failing);
        let mut logs = Process::new(rt, files, self.failing);
        match commanded(rt, &texts, SECRET, &mut disk, &mut logs, out) {
            Some((status, err)) => status == self.end.0 && err.as_slice() == self.end.2.as_bytes(),
            None => false,
        }
    }

    /// The same of one that says all to another thread.
    pub fn speaks<R: Host + Net<Stream = TcpStream, Listener = TcpListener>>(
        &self,
        rt: &R,
        files: &SharedFiles,
        address: &str,
        to: Sender<Vec<u8>>,
    ) -> bool {
        self.ends_saying(rt, files, address, &mut Spoken::new(rt, rt.alloc(), to))
    }
}

/// Whether a node ends so on this machine that is given these words.
pub fn ends_on<R: Host + Net<Stream = TcpStream, Listener = TcpListener>>(
    rt: &R,
    files: &SharedFiles,
    failing: Option<Operation>,
    texts: &[&str],
    end: End<'_>,
) -> bool {
    let mut disk = Process::new(rt, files, failing);
    let mut logs = Process::new(rt, files, failing);
    ends(rt, texts, &mut disk, &mut logs, end)
}

/// Whether nodes end so, each in a process of its own, which is gone then: a coordinator that listens at `ANY` address
/// and says which, or says first that it is finished and listens at this one, and one federate or two side by side, which
/// connect to it.
pub fn run<R: Host + Net<Stream = TcpStream, Listener = TcpListener>>(
    rt: &R,
    files: &SharedFiles,
    address: &str,
    nodes: &[Node<'_>],
) -> Option<bool> {
    let (coordinator, federates) = nodes.split_first()?;
    let (to, from) = unbounded(rt.alloc()).ok()?;
    let (is_right, are_right) = thread::join(
        rt,
        || coordinator.speaks(rt, files, address, to),
        || connect(rt, files, coordinator, address, federates, &from),
    );
    files.kill_all(rt);
    Some(is_right && are_right?)
}

/// Whether federates end so that connect where the coordinator says that it listens, and it says behind that what it
/// should.
pub fn connect<R: Host + Net<Stream = TcpStream, Listener = TcpListener>>(
    rt: &R,
    files: &SharedFiles,
    coordinator: &Node<'_>,
    address: &str,
    federates: &[Node<'_>],
    from: &Receiver<Vec<u8>>,
) -> Option<bool> {
    let line = heard(rt, rt.alloc(), from, Until::Line)?;
    let address = if address == ANY {
        line.as_str()
            .strip_prefix("listening ")?
            .strip_suffix("\n")?
    } else if line.as_str() == "finished\n" {
        address
    } else {
        return None;
    };
    let are_right = end_beside(rt, files, federates, address);
    let rest = heard(rt, rt.alloc(), from, Until::End)?;
    Some(are_right && rest.as_str() == coordinator.end.1)
}

// Whether one federate ends so, or two do side by side.
fn end_beside<R: Host + Net<Stream = TcpStream, Listener = TcpListener>>(
    rt: &R,
    files: &SharedFiles,
    federates: &[Node<'_>],
    address: &str,
) -> bool {
    match federates {
        [first] => first.ends(rt, files, address),
        [first, second] => {
            let (first, second) = thread::join(
                rt,
                || first.ends(rt, files, address),
                || second.ends(rt, files, address),
            );
            first && second
        }
        _ => false,
    }
}

/// Whether all three nodes end so that are begun one after the other, where no other one is there.
pub fn end_alone<R: Host + Net<Stream = TcpStream, Listener = TcpListener>>(
    rt: &R,
    files: &SharedFiles,
    nodes: &[Node<'_>],
) -> bool {
    let [coordinator, source, sink] = nodes else {
        return false;
    };
    let are_right = coordinator.ends(rt, files, ANY)
        && source.ends(rt, files, NOBODY)
        && sink.ends(rt, files, NOBODY);
    files.kill_all(rt);
    are_right
}

/// Whether the reports or logs of all three nodes are there, with no other file, and an audit of these prints the rows of
/// this federation.
pub fn are_proved<R: Host + Net<Stream = TcpStream, Listener = TcpListener>>(
    rt: &R,
    files: &SharedFiles,
    federation: &str,
    rows: &str,
) -> Option<bool> {
    if !files.are_just(rt, REPORTS) {
        return Some(false);
    }
    let coordinator = files.file(rt, "c")?;
    let source = files.file(rt, "src")?;
    let sink = files.file(rt, "snk")?;
    Some(prints(rt, federation, &coordinator, &source, &sink, rows))
}

// Whether an audit of these reports or logs prints the rows.
fn prints<'x, R: Host + Net<Stream = TcpStream, Listener = TcpListener>>(
    rt: &R,
    federation: &'x str,
    coordinator: &'x [u8],
    source: &'x [u8],
    sink: &'x [u8],
    rows: &str,
) -> bool {
    let files = [
        ("f", federation.as_bytes()),
        ("i", "".as_bytes()),
        ("c", coordinator),
        ("0", source),
        ("1", sink),
    ];
    let outcome = outcome_of(rt, &["audit", "f", "i", "c", "1", "0"], &files);
    shown(&outcome) == Some((0, rows, ""))
}

/// The bytes of a log's end.
pub const END: usize = 40;

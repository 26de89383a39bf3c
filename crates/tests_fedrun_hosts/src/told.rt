//! A node whose log says already that the run is finished: it says so itself once that log has its end and its name.
use crate::nodes::{ANY, End, FINISHED, Host, ends};
use crate::runs::{ALL, END, run};
use crate::shared_files::{Operation, Process, SharedFiles};
use fedrun_logs::LogDisk;
use files_keeping::{KeepFault, KeptBy, MemoryDevice, Part};
use std::alloc::Global;
use std::net::{Net, TcpListener, TcpStream};

/// Logs of which each is opened with these bytes, and of each of which so many calls succeed.
#[derive(Drop)]
struct Failing<'a> {
    alloc: Global,
    bytes: &'a [u8],
    calls: u64,
}

impl LogDisk<MemoryDevice> for Failing<'_> {
    fn open(&mut self, _name: &str, _kept_by: KeptBy) -> Result<MemoryDevice, KeepFault> {
        match MemoryDevice::new(self.alloc, self.bytes) {
            Ok(mut device) => {
                device.fail_after(self.calls, Part::Half);
                Ok(device)
            }
            Err(_) => Err(KeepFault::CannotOpen),
        }
    }
}

/// What `src` says where one of the calls fails by which a node ends such a log, each in turn: lock, read, sync the
/// folder, cut, sync, read, append, sync.
const UNKEPT: &[&str] = &[
    "fedrun: 120 Unsaved r.part: cannot lock\n",
    "fedrun: 120 Unsaved r.part: cannot read\n",
    "fedrun: 120 Unsaved r.part: cannot sync the folder\n",
    "fedrun: 120 Unsaved r.part: cannot cut\n",
    "fedrun: 120 Unsaved r.part: cannot sync\n",
    "fedrun: 120 Unsaved r.part: cannot read\n",
    "fedrun: 120 Unsaved r.part: cannot append\n",
    "fedrun: 120 Unsaved r.part: cannot sync\n",
];

// Whether `src` ends so that has this log, in a file of which so many calls succeed, on a disk of which one operation
// may fail.
fn ends_with<R: Host + Net<Stream = TcpStream, Listener = TcpListener>>(
    rt: &R,
    log: &[u8],
    calls: u64,
    failing: Option<Operation>,
    end: End<'_>,
) -> Option<bool> {
    let alloc = rt.alloc();
    let files = SharedFiles::new(alloc);
    files.put(rt, "r.part", b"")?;
    let mut disk = Process::new(rt, &files, failing);
    let mut logs = Failing {
        alloc,
        bytes: log,
        calls,
    };
    let texts = ["join f i src --connect 127.0.0.1:1 --report r --patience 1"];
    Some(ends(rt, &texts, &mut disk, &mut logs, end))
}

// Whether `src` says that the run is finished where its log has its end and its name, and else why it hasn't.
fn says_it_last<R: Host + Net<Stream = TcpStream, Listener = TcpListener>>(
    rt: &R,
    log: &[u8],
) -> Option<bool> {
    let mut calls = 0u64;
    for err in UNKEPT {
        if !ends_with(rt, log, calls, None, (3, "", err))? {
            return Some(false);
        }
        calls = calls.saturating_add(1);
    }
    let unnamed = (3, "", "fedrun: 120 Unsaved r: cannot rename\n");
    Some(
        ends_with(rt, log, calls, None, FINISHED)?
            && ends_with(rt, log, calls, Some(Operation::Rename), unnamed)?,
    )
}

// The same of the log of a run, without its end.
fn says_it_last_of_a_run<R: Host + Net<Stream = TcpStream, Listener = TcpListener>>(
    rt: &R,
) -> Option<bool> {
    let files = SharedFiles::new(rt.alloc());
    run(rt, &files, ANY, ALL)?;
    let log = files.front(rt, "src", END)?;
    says_it_last(rt, log.as_slice())
}

#[test]
fn finished_is_said_once_the_log_has_its_end_and_its_name(rt: HostRuntime) {
    assert_eq!(rt; says_it_last_of_a_run(&rt), Some(true));
}

//! Nodes that keep logs, on the machine's disk: which ones they refuse, and leave as they are.
use crate::nodes::{End, Host, NOT_FINISHED, ends};
use fedrun_logs::MachineLogs;
use files_keeping::{Device, KeptBy, MachineDevice};
use files_saving::MachineDisk;
use std::fs::File;
use std::net::{Net, TcpListener, TcpStream};
use std::{fs, rt};

// Whether a node ends so that is given these words.
fn ends_here<R: Host + Net<Stream = TcpStream, Listener = TcpListener> + rt::Files<File = File>>(
    rt: &R,
    texts: &[&str],
    end: End<'_>,
) -> bool {
    let mut disk = MachineDisk::new(rt);
    let mut logs = MachineLogs::new(rt);
    ends(rt, texts, &mut disk, &mut logs, end)
}

// Whether a node is refused where another one has its log.
fn is_refused_taken<
    R: Host + Net<Stream = TcpStream, Listener = TcpListener> + rt::Files<File = File>,
>(rt: &R) -> Option<bool> {
    let mut device = MachineDevice::open(rt, "taken.part", KeptBy::System).ok()?;
    device.lock().ok()?;
    let is_refused = ends_here(
        rt,
        &["join f i src --connect 127.0.0.1:1 --report taken"],
        (1, "", "fedrun: 116 ReportExists taken.part\n"),
    );
    drop(device);
    let _ = fs::remove_file(rt, "taken.part");
    Some(is_refused)
}

#[test]
fn refuses_a_log_that_another_process_has(rt: HostRuntime) {
    assert_eq!(rt; is_refused_taken(&rt), Some(true));
}

/// A log that was begun.
const BEGUN: &str = "begun.part";

/// Words over a log of `src`, which byte of it was changed, and what is said.
const REFUSED: &[(&str, Option<usize>, &str)] = &[
    (
        "join f i snk --connect 127.0.0.1:1 --report begun",
        None,
        "fedrun: 121 OtherLog begun.part\n",
    ),
    (
        "join f other src --connect 127.0.0.1:1 --report begun",
        None,
        "fedrun: 121 OtherLog begun.part\n",
    ),
    (
        "join f i src --connect 127.0.0.1:1 --report begun",
        Some(10),
        "fedrun: 122 Damaged begun.part\n",
    ),
];

// Makes a byte of the log one more.
fn change<R: AllocGlobal + rt::Files<File = File>>(rt: &R, place: usize) -> Option<()> {
    let mut bytes = fs::read(rt, BEGUN).ok()?;
    let byte = bytes.get_mut(place)?;
    *byte = byte.wrapping_add(1);
    fs::write(rt, BEGUN, bytes.as_slice()).ok()
}

// Whether that is said where a node would go on from that log, and it stays as it is.
fn is_refused<R: Host + Net<Stream = TcpStream, Listener = TcpListener> + rt::Files<File = File>>(
    rt: &R,
    words: &str,
    changed: Option<usize>,
    err: &str,
) -> Option<bool> {
    let is_begun = ends_here(
        rt,
        &["join f i src --connect 127.0.0.1:1 --report begun --turns 20"],
        NOT_FINISHED,
    );
    if let Some(place) = changed {
        change(rt, place)?;
    }
    let bytes = fs::read(rt, BEGUN).ok()?;
    let is_refused = ends_here(rt, &[words], (1, "", err));
    let is_left = fs::read(rt, BEGUN).ok()?.as_slice() == bytes.as_slice();
    let _ = fs::remove_file(rt, BEGUN);
    Some(is_begun && is_refused && is_left)
}

// The place of the first of these that isn't.
fn first_wrong<R: Host + Net<Stream = TcpStream, Listener = TcpListener> + rt::Files<File = File>>(
    rt: &R,
) -> Option<usize> {
    REFUSED.iter().position(|(words, changed, err)| {
        is_refused(rt, words, *changed, err) != Some(true)
    })
}

#[test]
fn refuses_other_logs_and_leaves_them(rt: HostRuntime) {
    assert_eq!(rt; first_wrong(&rt), None);
}

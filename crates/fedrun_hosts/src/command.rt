ghost use Rattle.std.specs.Prelude.{◌≡◌, ◌≤◌, IfSome, MatchOption, OnOk};
ghost use Rattle.fedrun_words.specs.Faults.{status_of, printed_fault};
ghost use Rattle.fedrun_words.specs.Lines.{line_of};
ghost use Rattle.fedrun_words.specs.Pieces.{AppendsPrefix};
ghost use Rattle.fedrun_hosts.specs.Ended.{HasEnded};
ghost use Rattle.fedrun_hosts.specs.Faults.{host_status, printed_host_fault};

use crate::coordinate::coordinate;
use crate::fault::HostFault;
use crate::join::join;
use crate::request::HostRequest;
use crate::words::read_node_words;
use fedrun_files::Files;
use fedrun_logs::LogDisk;
use fedrun_words::{Fault, refuse};
use files_keeping::Device;
use files_saving::Disk;
use std::alloc::Global;
use std::io::Write;
use std::random::RandomSource;
use wires::{NetRuntime, Terms};
use wires_hosts::Teller;

/// Runs the node for which the words ask, and answers the exit status: 0 where the run is finished and the node's
/// report is written or its log has its end; 1 where what it was given is refused, by itself or by the coordinator; 2
/// where the words are no command, or an address needs a secret; 3 where it couldn't finish. What it has to say of a
/// failure is one line to `err`. What happens meanwhile is told by `teller`, to whoever watches.
pub fn node_command<
    R: AllocGlobal + NetRuntime + RandomSource,
    F: Files,
    D: Disk,
    L: LogDisk<V>,
    V: Device + Drop + Send,
    O: Write,
    E: Write,
>(
    rt: &R,
    words: &[String],
    files: &mut F,
    disk: &mut D,
    logs: &mut L,
    out: &mut O,
    err: &mut E,
    teller: &Teller,
) -> u8
    ensures ended { result ≡ 0 → HasEnded (F.contents files.old)
        V.is_known (L.holds logs.old) (D.contents disk.old) (D.contents disk.new) }
    ensures quiet { result ≡ 0 → err.new ≡ err.old }
    ensures statuses { result ≤ 3 }
{
    node_answer(rt, words, files, disk, logs, out, err, teller).status
}

/// What a node's command answers.
#[derive(Drop)]
pub struct NodeAnswer<'a> {
    /// The exit status.
    pub status: u8,
    /// Why the node didn't end well, if it didn't.
    pub fault: Option<Fault<'a, HostFault<'a>>>,
}

/// As `node_command`; the answer says too which fault it is.
pub fn node_answer<
    'a,
    R: AllocGlobal + NetRuntime + RandomSource,
    F: Files,
    D: Disk,
    L: LogDisk<V>,
    V: Device + Drop + Send,
    O: Write,
    E: Write,
>(
    rt: &R,
    words: &'a [String],
    files: &mut F,
    disk: &mut D,
    logs: &mut L,
    out: &mut O,
    err: &mut E,
    teller: &Teller,
) -> NodeAnswer<'a>
    ensures ended { result.status ≡ 0 → HasEnded (F.contents files.old)
        V.is_known (L.holds logs.old) (D.contents disk.old) (D.contents disk.new) }
    ensures quiet { result.status ≡ 0 → err.new ≡ err.old }
    ensures statuses { result.status ≤ 3 }
    ensures fault { MatchOption result.fault (result.status ≡ 0) (λ fault.
        (result.status ≡ status_of host_status fault)
        × IfSome (printed_fault printed_host_fault fault)
        (λ text. AppendsPrefix (E.contents err.old) (E.contents err.new) (line_of text))) }
{
    match perform(rt, rt.alloc(), words, files, disk, logs, out, teller) {
        Ok(()) => NodeAnswer {
            status: 0,
            fault: None,
        },
        Err(fault) => {
            let status = refuse(&fault, err).status;
            NodeAnswer {
                status,
                fault: Some(fault),
            }
        }
    }
}

// Does what the words ask for.
fn perform<
    'a,
    R: NetRuntime + RandomSource,
    F: Files,
    D: Disk,
    L: LogDisk<V>,
    V: Device + Drop + Send,
    O: Write,
>(
    rt: &R,
    alloc: Global,
    words: &'a [String],
    files: &mut F,
    disk: &mut D,
    logs: &mut L,
    out: &mut O,
    teller: &Teller,
) -> Result<(), Fault<'a, HostFault<'a>>>
    ensures { OnOk result (HasEnded (F.contents files.old)
        V.is_known (L.holds logs.old) (D.contents disk.old) (D.contents disk.new)) }
{
    match read_node_words(alloc, words) {
        Ok(HostRequest::Coordinate(node)) => {
            coordinate(rt, alloc, &node, files, disk, logs, out, teller)
        }
        Ok(
            HostRequest::Join {
                node,
                name,
                turns,
                frames,
            },
        ) => join(
            rt,
            alloc,
            &node,
            name,
            Terms { turns, frames },
            files,
            disk,
            logs,
            out,
            teller,
        ),
        Err(why) => Err(Fault::of_words(why)),
    }
}

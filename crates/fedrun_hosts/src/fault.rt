ghost use Rattle.std.specs.Prelude.{◌≡◌};
ghost use Rattle.fedrun_hosts.specs.Faults.{refusal_name};

use crate::listen_fault::ListenFault;
use crate::unfinished::Unfinished;
use fedrun_words::MoreFault;
use files_keeping::KeepFault;
use files_reports::WriteFault;
use files_saving::SaveFault;
use std::fmt;
use wires_greeting::SecretFault;
use wires_hosts::DialFault;

/// Why a node on a machine of its own doesn't end well: those faults that other commands don't have.
#[derive(Clone, Copy, Debug)]
pub enum HostFault<'a> {
    /// There is no key, and the inner fault says why. Nothing was begun.
    Secret(SecretFault),
    /// The federation has no federate of this name. Nothing was begun.
    NoSuchFederate(&'a str),
    /// A file of this name, under which the report is to be written, is there already. It is left as it is, and nothing
    /// was begun: a federate that begins anew isn't the one that it was. It is put away, or another name is given.
    ReportExists(&'a str),
    /// The temporary file of this name is there: a node of the same report runs now; or, of a node without a log, one
    /// was ended before it wrote it. It is left as it is, and nothing was begun. Once no such node runs and the run is
    /// begun anew, it is removed by hand, or another name is given.
    PartExists(&'a str),
    /// Nothing can listen at the address, and the inner fault says why. Nothing was begun. Another address is given, or
    /// who listens there is ended.
    CannotListen(ListenFault),
    /// The file in which the node's log would go on is another one: of other files, another node or other rules. It is
    /// left as it is, and nothing was begun. Another name is given, or the words that belong to it.
    OtherLog(&'a str),
    /// The node's log was changed before its last block, or what it says can't be read. It is left as it is, and
    /// nothing was begun: what is missing others may have seen. A copy of it as it was is put there, or the run begun
    /// anew.
    Damaged(&'a str),
    /// The node's log couldn't be opened, or doesn't take more, and the inner fault says why. All that has left the
    /// node is in it. Once the disk works the same words go on. Of a node without a log: the temporary file couldn't be
    /// locked. It is left, and nothing was begun.
    Unkept(&'a str, KeepFault),
    /// The coordinator, which has the secret, doesn't let the federate take part, and this is why. The report was
    /// written.
    Refused(DialFault),
    /// Whoever answered at the address hasn't the secret, or the greeting was changed on its way. The report was
    /// written.
    NotProved,
    /// The coordinator acknowledged a signal that this federate never offered to it: one of the two was begun anew
    /// without what it knew, or from an older copy of that. The report was written.
    OtherHistory,
    /// The run isn't finished, and this is why. The report was written, where there was a node.
    NotFinished(Unfinished),
    /// The report has no spelling, and the inner fault says why. None was written.
    Unwritten(WriteFault),
    /// The report's name couldn't be reserved before anything was begun, or the report couldn't be written under it at
    /// the end, and the inner fault says why. No file of this name was made or changed; at the end the temporary one is
    /// left, whole unless its bytes couldn't be written or synced.
    Unsaved(&'a str, SaveFault),
    /// No memory for the node or its workers. No report was written.
    Memory(desk::Memory),
}

impl MoreFault for HostFault<'_> {
    ghost use Rattle.std.specs.Prelude.{refl};
    ghost use Rattle.fedrun_hosts.specs.Faults.{host_status, printed_host_fault};

    ghost status_of = { host_status };

    ghost printed_fault = { printed_host_fault };

    fn status(&self) -> u8 {
        match self {
            HostFault::Secret(SecretFault::Missing) => 2,
            HostFault::Secret(_)
            | HostFault::NoSuchFederate(_)
            | HostFault::ReportExists(_)
            | HostFault::PartExists(_)
            | HostFault::OtherLog(_)
            | HostFault::Damaged(_)
            | HostFault::Refused(_)
            | HostFault::NotProved
            | HostFault::OtherHistory => 1,
            HostFault::CannotListen(_)
            | HostFault::NotFinished(_)
            | HostFault::Unwritten(_)
            | HostFault::Unsaved(_, _)
            | HostFault::Unkept(_, _)
            | HostFault::Memory(_) => 3,
        }
    }

    ghost displayed = { λ _. refl };
}

impl fmt::Display for HostFault<'_> {
    ghost use Rattle.std.specs.Prelude.{Some};
    ghost use Rattle.fedrun_hosts.specs.Faults.{printed_host_fault};

    ghost output = { λ fault. Some (printed_host_fault fault) };

    fn fmt<W: fmt::Write>(&self, f: &mut fmt::Formatter<W>) -> fmt::Result {
        match self {
            HostFault::Secret(SecretFault::TooShort) => write!(f, "112 SecretTooShort"),
            HostFault::Secret(SecretFault::TooLong) => write!(f, "113 SecretTooLong"),
            HostFault::Secret(SecretFault::Missing) => write!(f, "114 NoSecret"),
            HostFault::NoSuchFederate(name) => write!(f, "115 NoSuchFederate {name}"),
            HostFault::ReportExists(name) => write!(f, "116 ReportExists {name}"),
            HostFault::PartExists(name) => write!(f, "116 ReportExists {name}.part"),
            HostFault::OtherLog(name) => write!(f, "121 OtherLog {name}.part"),
            HostFault::Damaged(name) => write!(f, "122 Damaged {name}.part"),
            HostFault::Unkept(name, fault) => write!(f, "120 Unsaved {name}.part: {fault}"),
            HostFault::CannotListen(_) => write!(f, "117 CannotListen"),
            HostFault::Refused(fault) => write!(f, "118 {}", refusal_name(*fault)),
            HostFault::NotProved => write!(f, "119 NotProved"),
            HostFault::OtherHistory => write!(f, "123 OtherHistory"),
            HostFault::NotFinished(_) => write!(f, "not finished"),
            HostFault::Unwritten(fault) => write!(f, "{fault}"),
            HostFault::Unsaved(name, fault) => write!(f, "120 Unsaved {name}: {fault}"),
            HostFault::Memory(memory) => write!(f, "{memory}"),
        }
    }
}

// The name of what a coordinator answered.
fn refusal_name(fault: DialFault) -> &'static str
    ensures { result.now ≡ refusal_name fault }
{
    match fault {
        DialFault::OtherFiles => "OtherFiles",
        DialFault::NoSuchFederate => "NoSuchFederate",
        DialFault::NotAllowed => "NotAllowed",
        _ => "Refused",
    }
}

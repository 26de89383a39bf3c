//! What the program says of its own commands.
ghost use Rattle.std.specs.Prelude.{◌≡◌, ◌≢◌, IfErr, OnOk};
ghost use Rattle.fedrun_commands.specs.Faults.{status_of};
ghost use Rattle.fedrun_commands.specs.Printed.{PrintsAbout};
ghost use Rattle.fedrun_commands.specs.Refused.{IsAboutFault};

use crate::fault::NodeFault;
use fedrun_help::print_about;
use fedrun_words::{AboutRequest, Fault};
use std::io::Write;

/// Prints what the program says of its own commands. It needs no file.
pub(crate) fn about<'a, O: Write>(
    request: AboutRequest,
    out: &mut O,
) -> Result<(), Fault<'a, NodeFault<'a>>>
    ensures ok { OnOk result (PrintsAbout request (O.contents out.old) (O.contents out.new)) }
    ensures stands { IfErr result (IsAboutFault request (O.contents out.old) (O.contents out.new)) }
    ensures untouched { IfErr result (λ fault. status_of fault ≢ 3 → out.new ≡ out.old) }
{
    if print_about(request, out) {
        Ok(())
    } else {
        Err(Fault::CannotWrite)
    }
}

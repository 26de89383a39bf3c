//! Drawing federations.
ghost use Rattle.std.specs.Prelude.{◌≡◌, ◌≢◌, IfErr, OnOk};
ghost use Rattle.fedrun_files.specs.Answers.{Answers};
ghost use Rattle.fedrun_commands.specs.Faults.{status_of};
ghost use Rattle.fedrun_commands.specs.Printed.{PrintsFor};
ghost use Rattle.fedrun_commands.specs.Refused.{IsFaultOf};

use crate::fault::NodeFault;
use crate::printing::print_federation_picture;
use fedrun_files::{Files, read_federation};
use fedrun_words::{DrawFederationRequest, Fault, Request};
use std::alloc::Global;
use std::io::Write;

/// Prints a picture of the federation, with its reactions where they are asked for.
pub(crate) fn draw_federation<'a, F: Files, O: Write>(
    alloc: Global,
    request: &DrawFederationRequest<'a>,
    files: &mut F,
    out: &mut O,
) -> Result<(), Fault<'a, NodeFault<'a>>>
    ensures ok { OnOk result (PrintsFor (F.contents files.old) (Request.DrawFederation request.now) (O.contents out.old)
        (O.contents out.new)) }
    ensures stands { IfErr result (IsFaultOf (F.contents files.old)
        (Answers (F.answers files.old) (F.answers files.new)) (O.contents out.old) (O.contents out.new)
        (Request.DrawFederation request.now)) }
    ensures untouched { IfErr result (λ fault. status_of fault ≢ 3 → out.new ≡ out.old) }
{
    match read_federation(alloc, request.federation, files) {
        Ok((plan, programs)) => {
            let shown = if request.reactions {
                Some(&programs)
            } else {
                None
            };
            print_federation_picture(alloc, &plan, shown, out)
        }
        Err(fault) => Err(fault),
    }
}

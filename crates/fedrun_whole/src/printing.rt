ghost use Rattle.std.specs.Prelude.{◌≡◌, IfErr, OnOk, string_bytes};
ghost use Rattle.std.specs.Io.KnownBytes.{Appends};
ghost use Rattle.files_text.specs.PlanText.{printed_plan};
ghost use Rattle.fedrun_words.specs.Faults.{status_of};
ghost use Rattle.fedrun_words.specs.declared.fault.Fault.TheVariants.{CannotWrite as cannot_write};
ghost use Rattle.fedrun_whole.specs.Refused.{IsPlanFault};

use fedrun_words::{Fault, MoreFault};
use files_text::plan_text;
use plan::Plan;
use std::alloc::Global;
use std::io::Write;

/// Prints the plan.
pub(crate) fn print_plan<M: MoreFault, O: Write>(
    alloc: Global,
    plan: &Plan,
    out: &mut O,
) -> Result<(), Fault<'static, M>>
    ensures ok { OnOk result (Appends (O.contents out.old) (O.contents out.new) (printed_plan plan.now)) }
    ensures stands { IfErr result (IsPlanFault (O.contents out.old) (O.contents out.new)) }
    ensures late { IfErr result (λ fault. status_of M.status_of fault ≡ 3) }
{
    match plan_text(alloc, plan) {
        Ok(text) => print(out, &text),
        Err(memory) => Err(Fault::Print(memory)),
    }
}

// Prints a text, and sends it on.
fn print<M, O: Write>(out: &mut O, text: &String) -> Result<(), Fault<'static, M>>
    ensures ok { OnOk result (Appends (O.contents out.old) (O.contents out.new) (string_bytes text.now)) }
    ensures err { IfErr result (λ fault. fault ≡ cannot_write) }
{
    out.write_all(text.as_bytes())
        .map_err(|_| Fault::CannotWrite)?;
    out.flush().map_err(|_| Fault::CannotWrite)
}

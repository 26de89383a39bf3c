ghost use Rattle.std.specs.Prelude.{◌≡◌, ◌<◌, ◌≤◌, ℕ, List, [], Option, IfOk, IfErr, OnOk, OnErr};
ghost use Rattle.std.specs.Io.KnownBytes.{Appends};
ghost use Rattle.plan.specs.External.{AreInputsOf};
ghost use Rattle.reactor_programs.specs.Programs.{AreProgramsOf};
ghost use Rattle.whole.specs.Progress.{pending_in};
ghost use Rattle.files_text.specs.Formats.{heading};
ghost use Rattle.fedrun_words.specs.Faults.{status_of};
ghost use Rattle.fedrun_whole.specs.PrintedTurns.{PrintsRows, PrintsFirstRows, IsPrinted, let_go_after};
ghost use Rattle.fedrun_whole.specs.Refused.{IsTurnsFault};

use fedrun_files::Sources;
use fedrun_progress::Progress;
use fedrun_words::{Fault, MoreFault};
use files_text::{CannotWrite, RowFormat, write_heading, write_rows};
use plan::Plan;
use reactor::Rows;
use std::alloc::Global;
use std::io::Write;
use whole::Whole;

/// Of how many turns the rows are kept before they are written.
const TURNS_AT_ONCE: u32 = 1024;

/// Prints the rows of the undivided program after at most this many turns, in this format, as they are made. Where
/// there is no memory for a turn, the rows before it are written.
pub fn print_turns<M: MoreFault, O: Write, P: Progress>(
    alloc: Global,
    sources: &Sources,
    turns: u32,
    format: RowFormat,
    out: &mut O,
    progress: &P,
) -> Result<(), Fault<'static, M>>
    requires programs { AreProgramsOf sources.now.plan sources.now.programs }
    requires inputs { AreInputsOf sources.now.plan sources.now.inputs }
    ensures ok { OnOk result (PrintsRows sources.now.plan sources.now.programs sources.now.inputs turns format
        (O.contents out.old)
        (O.contents out.new)) }
    ensures stands { IfErr result (IsTurnsFault sources.now.plan sources.now.programs sources.now.inputs turns format
        (O.contents out.old)
        (O.contents out.new)) }
    ensures late { IfErr result (λ fault. status_of M.status_of fault ≡ 3) }
{
    progress.until(sources.plan.stop_time());
    let Ok(turned) = print_all(alloc, sources, turns, format, out, progress) else {
        return Err(Fault::CannotWrite);
    };
    if out.flush().is_err() {
        return Err(Fault::CannotWrite);
    }
    match turned {
        Ok(()) => Ok(()),
        Err(memory) => Err(Fault::Turns(memory)),
    }
}

// Makes at most this many turns, or as many as there is memory for, and prints their rows under their heading.
fn print_all<O: Write, P: Progress>(
    alloc: Global,
    sources: &Sources,
    turns: u32,
    format: RowFormat,
    out: &mut O,
    progress: &P,
) -> Result<Result<(), reactor::Memory>, CannotWrite>
    requires programs { AreProgramsOf sources.now.plan sources.now.programs }
    requires inputs { AreInputsOf sources.now.plan sources.now.inputs }
    ensures ok { IfOk result (λ turned.
        OnOk turned (PrintsRows sources.now.plan sources.now.programs sources.now.inputs turns format
        (O.contents out.old) (O.contents out.new))) }
    ensures err { IfOk result (λ turned.
        OnErr turned (PrintsFirstRows sources.now.plan sources.now.programs sources.now.inputs turns format
        (O.contents out.old) (O.contents out.new))) }
{
    write_heading(out, format)?;
    match Whole::new(alloc, &sources.plan, &sources.programs, &sources.inputs) {
        Ok(mut program) => print_in_batches(
            &mut program,
            &sources.plan,
            turns,
            format,
            out,
            progress,
        ),
        Err(memory) => Ok(Err(memory)),
    }
}

// Makes at most this many turns, or as many as there is memory for, and prints their rows, for which the heading is
// written.
fn print_in_batches<O: Write, P: Progress>(
    program: &mut Whole<'_>,
    plan: &Plan,
    turns: u32,
    format: RowFormat,
    out: &mut O,
    progress: &P,
) -> Result<Result<(), reactor::Memory>, CannotWrite>
    requires draft { program.old.draft ≡ plan.now }
    requires none_made { program.old.turns ≡ 0 }
    requires none_discarded { program.old.discarded ≡ 0 }
    ensures ok { IfOk result (λ turned.
        OnOk turned ((before : Option (List ℕ)) → Appends before (O.contents out.old) (heading format)
        → PrintsRows plan.now program.old.programs program.old.inputs turns format before (O.contents out.new))) }
    ensures err { IfOk result (λ turned.
        OnErr turned ((before : Option (List ℕ)) → Appends before (O.contents out.old) (heading format)
        → PrintsFirstRows plan.now program.old.programs program.old.inputs turns format before (O.contents out.new))) }
{
    let mut left = turns;
    while left > 0 {
        let most = left.min(TURNS_AT_ONCE);
        match print_batch(program, plan, most, format, out, progress)? {
            Ok(made) if made == most => left -= made,
            Ok(_) => return Ok(Ok(())),
            Err(memory) => return Ok(Err(memory)),
        }
    }
    Ok(Ok(()))
}

// Makes at most this many turns, prints their rows, and lets go of them.
fn print_batch<O: Write, P: Progress>(
    program: &mut Whole<'_>,
    plan: &Plan,
    most: u32,
    format: RowFormat,
    out: &mut O,
    progress: &P,
) -> Result<Result<u32, reactor::Memory>, CannotWrite>
    requires { program.old.draft ≡ plan.now }
    ensures printed { OnOk result ((before : Option (List ℕ)) → IsPrinted program.old format before (O.contents out.old)
        → IsPrinted program.new format before (O.contents out.new)) }
    ensures made { IfOk result (λ turned.
        IfOk turned (λ made. (program.new ≡ let_go_after made program.old) × (made ≤ most)
        × (made < most → pending_in program.new ≡ []))) }
    ensures err { IfOk result (λ turned.
        OnErr turned ((made : ℕ) × (program.new ≡ let_go_after made program.old) × (made < most))) }
{
    let turned = program.turns(most);
    write_rows(out, plan, program.rows(), format)?;
    tell(program.rows(), progress);
    program.discard();
    Ok(turned)
}

// Tells that these rows are made.
fn tell<P: Progress>(rows: &Rows, progress: &P) {
    if let Some(last) = rows.len().checked_sub(1) {
        progress.rows(rows.len(), rows.row(last).tag());
    }
}

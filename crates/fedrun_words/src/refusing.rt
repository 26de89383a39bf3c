ghost use Rattle.std.specs.Prelude.{◌≡◌, ◌≢◌, ◌≤◌, IfSome};
ghost use Rattle.fedrun_words.specs.Faults.{status_of, printed_fault};
ghost use Rattle.fedrun_words.specs.Lines.{line_of};
ghost use Rattle.fedrun_words.specs.Pieces.{AppendsPrinted};

use crate::fault::Fault;
use crate::more::MoreFault;
use crate::text::print_line;
use std::io::Write;

/// What a command answers.
#[derive(Clone, Copy)]
pub struct Answered {
    /// The exit status.
    pub status: u8,
    /// Whether there was a fault, and its line could be written.
    pub is_printed: bool,
}

/// Prints a fault on one line, and answers its exit status.
pub fn refuse<M: MoreFault, E: Write>(fault: &Fault<'_, M>, err: &mut E) -> Answered
    ensures status { result.status ≡ status_of M.status_of fault.now }
    ensures failure { result.status ≢ 0 }
    ensures statuses { result.status ≤ 3 }
    ensures line { IfSome (printed_fault M.printed_fault fault.now)
        (λ text. AppendsPrinted result.is_printed (E.contents err.old) (E.contents err.new) (line_of text)) }
{
    let is_printed = print_fault(fault, err);
    Answered {
        status: fault.status(),
        is_printed,
    }
}

// Prints a fault's line, and says whether all of it was written. What was answered to the program prints itself: no
// clause can name a text that is derived.
fn print_fault<M: MoreFault, E: Write>(fault: &Fault<'_, M>, err: &mut E) -> bool
    ensures { IfSome (printed_fault M.printed_fault fault.now)
        (λ text. AppendsPrinted result (E.contents err.old) (E.contents err.new) (line_of text)) }
{
    match fault {
        Fault::Load(inner) => print_line(err, inner),
        Fault::Turns(inner) => print_line(err, inner),
        Fault::Print(inner) => print_line(err, inner),
        Fault::More(inner) => print_line(err, inner),
        Fault::Usage | Fault::CannotRead(_) | Fault::CannotWrite => print_line(err, fault),
    }
}

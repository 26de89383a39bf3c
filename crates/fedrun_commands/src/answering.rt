ghost use Rattle.std.specs.Prelude.{◌≡◌, ◌≢◌, ◌≤◌, ◌⊎◌, IfSome, MatchOption};
ghost use Rattle.fedrun_words.specs.Lines.{line_of, PrintsFault};
ghost use Rattle.fedrun_words.specs.Pieces.{AppendsPrefix, AppendsPrinted};
ghost use Rattle.fedrun_files.specs.Answers.{Answers};
ghost use Rattle.fedrun_commands.specs.Faults.{status_of, printed_fault};
ghost use Rattle.fedrun_commands.specs.Linted.{HasToldWrong};
ghost use Rattle.fedrun_commands.specs.Printed.{PrintsAnswer};
ghost use Rattle.fedrun_commands.specs.Refused.{Stands};

use crate::fault::NodeFault;
use crate::requests::perform;
use fedrun_files::Files;
use fedrun_progress::{NoProgress, Progress};
use fedrun_words::{Answered, Fault, refuse};
use std::io::Write;
use wires::NetRuntime;

/// What a command answers.
#[derive(Drop)]
pub struct CommandAnswer<'a> {
    /// The exit status.
    pub status: u8,
    /// Why it isn't done, if it isn't.
    pub fault: Option<Fault<'a, NodeFault<'a>>>,
    /// Whether there was a fault, and its line could be written.
    pub is_printed: bool,
}

/// Does what the words ask for, over these files, and answers the exit status: 0 where it is done, 1 where what it was
/// given is refused or can't be read, or where `lint` told of something wrong, 2 where the words are no command, 3
/// where it couldn't finish. What it has to say of a failure is one line to `err`: what `err` gains is a prefix of that
/// line, and `answer` says whether it is all of it; what `err` refuses changes nothing else. With 0, `run` printed the
/// rows of reports that the audit proved, and whose coordinator is finished.
pub fn command<R: AllocGlobal + NetRuntime, F: Files, O: Write, E: Write>(
    rt: &R,
    words: &[String],
    files: &mut F,
    out: &mut O,
    err: &mut E,
) -> u8
    ensures done { result ≡ 0 → PrintsAnswer (F.contents files.old) (O.contents out.old) (O.contents out.new) }
    ensures quiet { result ≡ 0 → err.new ≡ err.old }
    ensures printed { result ≢ 0 → PrintsFault
        (Stands (F.contents files.old) (Answers (F.answers files.old) (F.answers files.new)) (O.contents out.old)
        (O.contents out.new)) status_of printed_fault result (AppendsPrefix (E.contents err.old) (E.contents err.new)) }
    ensures untouched { result ≡ 1
        → (out.new ≡ out.old) ⊎ HasToldWrong (F.contents files.old) (O.contents out.old) (O.contents out.new) }
    ensures unused { result ≡ 2 → out.new ≡ out.old }
    ensures statuses { result ≤ 3 }
{
    answer(rt, words, files, out, err, &NoProgress).status
}

/// As `command`, and whoever watches is told how far it is; the answer says too which fault it is, and whether its line could be written.
pub fn answer<'a, R: AllocGlobal + NetRuntime, F: Files, O: Write, E: Write, P: Progress + Sync>(
    rt: &R,
    words: &'a [String],
    files: &mut F,
    out: &mut O,
    err: &mut E,
    progress: &P,
) -> CommandAnswer<'a>
    ensures done { result.status ≡ 0 → PrintsAnswer (F.contents files.old) (O.contents out.old) (O.contents out.new) }
    ensures quiet { result.status ≡ 0 → err.new ≡ err.old }
    ensures printed { result.status ≢ 0
        → PrintsFault (Stands (F.contents files.old) (Answers (F.answers files.old) (F.answers files.new))
        (O.contents out.old) (O.contents out.new)) status_of printed_fault result.status
        (AppendsPrinted result.is_printed (E.contents err.old) (E.contents err.new)) }
    ensures fault { MatchOption result.fault (result.status ≡ 0) (λ fault.
        Stands (F.contents files.old) (Answers (F.answers files.old) (F.answers files.new)) (O.contents out.old)
        (O.contents out.new) fault
        × (result.status ≡ status_of fault)
        × IfSome (printed_fault fault) (λ text.
        AppendsPrinted result.is_printed (E.contents err.old) (E.contents err.new) (line_of text))) }
    ensures untouched { result.status ≡ 1
        → (out.new ≡ out.old) ⊎ HasToldWrong (F.contents files.old) (O.contents out.old) (O.contents out.new) }
    ensures unused { result.status ≡ 2 → out.new ≡ out.old }
    ensures statuses { result.status ≤ 3 }
{
    let done = perform(rt, rt.alloc(), words, files, out, progress);
    progress.end();
    match done {
        Ok(()) => CommandAnswer {
            status: 0,
            fault: None,
            is_printed: false,
        },
        Err(fault) => {
            let Answered { status, is_printed } = refuse(&fault, err);
            CommandAnswer {
                status,
                fault: Some(fault),
                is_printed,
            }
        }
    }
}

ghost use Rattle.fedrun_words.specs.Pieces.{AppendsPrinted};
ghost use Rattle.fedrun_watch.specs.Lines.{happened_lines, left_out_line};

use crate::lines::{HappenedLines, LeftOut};
use crate::screen::{Screen, View};
use fedrun_words::print_text;
use plan_names::Text;
use std::alloc::Global;
use std::io::Write;
use std::sync::Wait;
use wires_hosts::{Happened, Watcher};

/// What is to be shown of a node by these words, which are those of its command: what happens by `--log`, where each
/// federate stands by `--progress`.
pub fn view_asked(words: &[String]) -> View {
    View {
        lines: words.iter().any(|word| word.as_str() == "--log"),
        rows: words.iter().any(|word| word.as_str() == "--progress"),
    }
}

/// Shows all that a node tells, as it is told and as far as it is in view, until the node has ended; then what would be
/// drawn again is wiped, and how much was left out that no line says so far is told. What can't be written is left out.
pub fn show<R: Wait, E: Write>(rt: &R, alloc: Global, watcher: &Watcher, view: View, err: &mut E) {
    let mut screen = Screen::new(alloc, view);
    for _ in rt.forever() {
        match watcher.told.recv(rt) {
            Ok(told) => {
                if watcher.is_over() {
                    // Looks that were told before may be there still.
                    screen.end_looks(err);
                }
                screen.take(told, err);
            }
            Err(_) => break,
        }
    }
    screen.end(watcher.left_out(), err);
}

/// Writes the lines of something that happened, at a node whose federates have these names, and says whether all of
/// them were written.
pub fn print_happened<E: Write>(names: &[Text], happened: &Happened, err: &mut E) -> bool
    ensures { AppendsPrinted result (E.contents err.old) (E.contents err.new)
        (happened_lines names.now happened.now) }
{
    print_text(err, &HappenedLines { names, happened })
}

/// Writes the line that says how often something happened for which there was no room, if something did, and says
/// whether all of it was written.
pub fn print_left_out<E: Write>(count: u64, err: &mut E) -> bool
    ensures { AppendsPrinted result (E.contents err.old) (E.contents err.new) (left_out_line count) }
{
    print_text(err, &LeftOut(count))
}

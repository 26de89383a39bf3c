//! A body as body lines, of one operator each.
ghost use Rattle.std.specs.Prelude.{◌≡◌, IfOk, IfSome};
ghost use Rattle.expand_bodies.specs.Printing.{printed_line};
ghost use Rattle.expand_bodies.specs.Expanded.{ArePrinted, IsExpanded};

use crate::body_line::is_body_line;
use crate::fault::{BodyFault, BodyFaultKind};
use crate::lines::add_lines;
use crate::names::BodyNames;
use crate::printing::{PrintedLine, Printing};
use crate::reading::read_body;
use crate::scratch::scratch_names;
use plan_names::{Names, Text};
use reactor_program::limits::{MOST_LINES, MOST_STATES};
use reactor_program::{Line, Statement};
use std::alloc::{AllocError, Global};

/// Body lines, and how many scratch states they use.
#[derive(Drop)]
pub struct ExpandedBody {
    pub lines: Names,
    pub scratch: usize,
}

/// The body lines that these lines become, where all of them are good. Where all are body lines already, they are
/// these, byte for byte.
pub fn expand_body(
    alloc: Global,
    names: &BodyNames,
    lines: &[Text],
) -> Result<ExpandedBody, BodyFault>
    ensures { IfOk result (λ body. IsExpanded names.now lines.now body.lines) }
{
    match copied(alloc, names, lines) {
        Ok(Some(lines)) => Ok(ExpandedBody { lines, scratch: 0 }),
        Ok(None) => expanded(alloc, names, lines),
        Err(kind) => Err(kind.at(0)),
    }
}

// The lines of the block that the body is read as.
fn expanded(alloc: Global, names: &BodyNames, lines: &[Text]) -> Result<ExpandedBody, BodyFault>
    ensures { IfOk result (λ body. IsExpanded names.now lines.now body.lines) }
{
    let block = read_body(alloc, names, lines)?;
    let mut added = Vec::new(alloc);
    add_lines(&mut added, &block, names.states.as_slice().len(), None)?;
    printed_body(alloc, names, added.as_slice())
}

fn printed_body(alloc: Global, names: &BodyNames, lines: &[Line]) -> Result<ExpandedBody, BodyFault>
    ensures { IfOk result (λ body. ArePrinted names.now lines.now body.lines) }
{
    let own = names.states.as_slice().len();
    match printed(alloc, names, lines) {
        Ok(texts) => Ok(ExpandedBody {
            lines: texts,
            scratch: states_used(own, lines).saturating_sub(own),
        }),
        Err(kind) => Err(kind.at(0)),
    }
}

// The lines as they are, where all are body lines.
fn copied(alloc: Global, names: &BodyNames, lines: &[Text]) -> Result<Option<Names>, BodyFaultKind>
    ensures { IfOk result (λ copied. IfSome copied (λ texts. texts ≡ lines.now)) }
{
    let mut texts = Vec::new(alloc);
    for line in lines {
        if texts.len() >= MOST_LINES || !is_body_line(alloc, names, line.as_str())? {
            return Ok(None);
        }
        texts.push(line.clone()?)?;
    }
    Ok(Some(Names::new(texts)))
}

fn printed(alloc: Global, names: &BodyNames, lines: &[Line]) -> Result<Names, BodyFaultKind>
    ensures { IfOk result (λ texts. ArePrinted names.now lines.now texts) }
{
    let scratch = scratch_names(alloc, &names.states, MOST_STATES)?;
    let printing = Printing {
        names,
        scratch: &scratch,
    };
    let mut texts = Vec::new(alloc);
    for line in lines {
        texts.push(printed_text(alloc, printing, *line)?)?;
    }
    Ok(Names::new(texts))
}

fn printed_text(alloc: Global, printing: Printing<'_>, line: Line) -> Result<Text, AllocError>
    ensures { IfOk result
        (λ text. text ≡ printed_line printing.entry.names.now printing.entry.scratch.now line) }
{
    let printed = PrintedLine { printing, line };
    Ok(Text::new(format!(in alloc; "{printed}")?))
}

// How many states there are, once the lines have theirs.
fn states_used(own: usize, lines: &[Line]) -> usize {
    let mut used = own;
    for line in lines {
        if let Statement::Assign(state, _) = line.statement {
            used = used.max(state.saturating_add(1));
        }
    }
    used
}

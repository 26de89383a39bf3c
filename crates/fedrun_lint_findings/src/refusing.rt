//! Why one file is refused: the loader's own fault first, where it stands, and what else is wrong there.
ghost use Rattle.std.specs.Prelude.{◌≡◌, IfOk};

use crate::characters::lookalike_behind;
use crate::federates::look_at_federation;
use crate::finding::{Finding, advice_of};
use crate::inputs::look_at_inputs;
use crate::look::Look;
use crate::refusal::Refusal;
use crate::texts::{ADVICE_ON_BRACKET, advice_on_text, leaves_open, line_at};
use crate::walk::{line_feeds, open_array, tree_of};
use loadfed::{LoadFault, MOST_BYTES, MOST_INPUT_BYTES};
use plan::Plan;
use std::alloc::{AllocError, Global};
use toml::de::Error;

/// The faults that were found in a file, and whether there may be more.
type Found = (Vec<Finding>, bool);

/// Why a federation file is refused that has this fault.
pub fn refusal_of_federation(
    alloc: Global,
    federation: &[u8],
    fault: LoadFault,
) -> Result<Refusal, AllocError>
    ensures { IfOk result (λ refusal. refusal.first.fault ≡ fault) }
{
    if let LoadFault::NotToml = fault {
        return refusal_of_text(alloc, federation, fault);
    }
    let found = faults(alloc, up_to(federation, MOST_BYTES), None, true)?;
    refusal_of(alloc, fault, found)
}

/// Why a file of recorded inputs is refused that has this fault as one of this plan: whether they are its own, or only
/// their shape is looked at.
pub fn refusal_of_inputs(
    alloc: Global,
    inputs: &[u8],
    plan: &Plan,
    is_theirs: bool,
    fault: LoadFault,
) -> Result<Refusal, AllocError>
    ensures { IfOk result (λ refusal. refusal.first.fault ≡ fault) }
{
    if let LoadFault::NotToml = fault {
        return refusal_of_text(alloc, inputs, fault);
    }
    let found = faults(
        alloc,
        up_to(inputs, MOST_INPUT_BYTES),
        Some(plan),
        is_theirs,
    )?;
    refusal_of(alloc, fault, found)
}

// The faults of a TOML document: as recorded inputs where there is a plan, theirs or for the shape alone, and else as a
// federation.
fn faults(
    alloc: Global,
    bytes: &[u8],
    plan: Option<&Plan>,
    is_theirs: bool,
) -> Result<Found, AllocError> {
    let tree = tree_of(alloc, bytes)?;
    let mut look = Look::new(alloc, &tree, plan);
    if plan.is_some() {
        look_at_inputs(&mut look, is_theirs);
    } else {
        look_at_federation(&mut look);
    }
    look.into_found()
}

// A file's bytes, but none of one that is longer than it may be.
fn up_to(bytes: &[u8], most: usize) -> &[u8] {
    if bytes.len() > most { &[] } else { bytes }
}

// Why a file is refused that is no TOML document: what its reader says, at the line where it stopped, and what to do.
fn refusal_of_text(alloc: Global, bytes: &[u8], fault: LoadFault) -> Result<Refusal, AllocError>
    ensures { IfOk result (λ refusal. refusal.first.fault ≡ fault) }
{
    let Stop { line, what, advice } = stop_of_reader(alloc, bytes)?;
    let advice = advice.unwrap_or(advice_of(&fault));
    Ok(Refusal {
        first: Finding {
            line,
            fault,
            what,
            advice,
        },
        more: Vec::new(alloc),
        is_cut: false,
    })
}

// Where the reader of documents stopped, what it says, and what to do, if that is known.
#[derive(Drop)]
struct Stop {
    line: usize,
    what: String,
    advice: Option<&'static str>,
}

fn stop_of_reader(alloc: Global, bytes: &[u8]) -> Result<Stop, AllocError> {
    match toml::table_from_slice(alloc, bytes).err() {
        Some(error) => stop_with(alloc, bytes, &error),
        None => Ok(Stop {
            line: 1,
            what: String::new(alloc),
            advice: None,
        }),
    }
}

// The same, where it stopped with this error.
fn stop_with(alloc: Global, bytes: &[u8], error: &Error) -> Result<Stop, AllocError> {
    let Some(span) = error.span() else {
        return Err(AllocError);
    };
    let before = bytes.get(..span.start).unwrap_or(&[]);
    let number = line_feeds(before).saturating_add(1);
    let text = std::str::from_utf8(bytes).unwrap_or("");
    let line = line_at(text, span.start);
    let message = error.message();
    let open = if leaves_open(text, span.start) {
        open_array(alloc, before, number)?
    } else {
        None
    };
    if let Some(open) = open {
        return Ok(Stop {
            line: number,
            what: format!(in alloc; "{message}; the [ of line {open} isn't closed; ")?,
            advice: Some(ADVICE_ON_BRACKET),
        });
    }
    match lookalike_behind(text, span.start) {
        Some(lookalike) => {
            let place = lookalike.place;
            Ok(Stop {
                line: number,
                what: format!(in alloc; "{message}; the line's character {place} is ")?,
                advice: Some(lookalike.advice),
            })
        }
        None => Ok(Stop {
            line: number,
            what: format!(in alloc; "{message}; ")?,
            advice: advice_on_text(bytes, line, message),
        }),
    }
}

// Why a file is refused that has this fault, which comes first: where it was found again, at its line, and else at the
// first.
fn refusal_of(alloc: Global, fault: LoadFault, found: Found) -> Result<Refusal, AllocError>
    ensures { IfOk result (λ refusal. refusal.first.fault ≡ fault) }
{
    let (mut more, is_cut) = found;
    let place = place_of(alloc, more.as_slice(), &fault)?;
    let first = if place < more.len() {
        more.remove(place).of(fault)
    } else {
        of_whole_file(alloc, fault)
    };
    Ok(Refusal {
        first,
        more,
        is_cut,
    })
}

// A fault of which no line is known: it is about the whole file.
fn of_whole_file(alloc: Global, fault: LoadFault) -> Finding
    ensures { result.fault ≡ fault }
{
    let advice = advice_of(&fault);
    Finding {
        line: 1,
        fault,
        what: String::new(alloc),
        advice,
    }
}

// The place of the first of the findings that is spelled as this fault is, or how many they are.
fn place_of(alloc: Global, findings: &[Finding], fault: &LoadFault) -> Result<usize, AllocError> {
    let spelled = format!(in alloc; "{fault}")?;
    for (place, finding) in findings.iter().enumerate() {
        if is_spelled(alloc, &finding.fault, spelled.as_str())? {
            return Ok(place);
        }
    }
    Ok(findings.len())
}

fn is_spelled(alloc: Global, fault: &LoadFault, spelled: &str) -> Result<bool, AllocError> {
    let text = format!(in alloc; "{fault}")?;
    Ok(text.as_str() == spelled)
}

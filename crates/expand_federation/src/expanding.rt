//! A source as a federation file.
ghost use Rattle.std.specs.Prelude.{◌≡◌, [], OnOk, IfOk, IfErr, List};
ghost use Rattle.toml.specs.View.{table_view};
ghost use Rattle.plan.specs.declared.draft.Draft.{Draft};
ghost use Rattle.reactor_program.specs.Behaviour.{Behaviour};
ghost use Rattle.loadfed.specs.Loaded.{IsFederationFile};
ghost use Rattle.expand_documents.specs.Documents.{IsExpansionOf};
ghost use Rattle.expand_federation.specs.Made.{IsFederationText, IsMadeOf, IsFederationOf};

use crate::bodies::check_bodies;
use crate::changing::changed;
use crate::fault::{ExpandFault, NoFederation};
use crate::federation::Federation;
use crate::lines::{at_source, changed_lines};
use crate::places::{Federate, all_changes, federates};
use expand_documents::is_expansion;
use expand_source::group::groups;
use expand_source::item::items;
use expand_source::token::tokens;
use expand_source::{Given, SourceFault, SourceFaultKind};
use loadfed::{LoadFault, load};
use loadfed_tables::document;
use std::alloc::Global;
use toml::Table;

/// The federation file that a source becomes, with these values of its parameters. A federation file is its own, byte
/// for byte; it has no parameters.
pub fn expand(alloc: Global, source: &[u8], given: &[Given]) -> Result<Vec<u8>, ExpandFault>
    ensures ok { IfOk result (λ text. IsFederationOf source.now given.now text.items) }

    // A federation file without values is refused only for want of memory.
    ensures accepts { (d : Draft) (programs : List Behaviour) → IsFederationFile source.now d programs → given.now ≡ []
        → IfErr result (λ fault. fault ≡ ExpandFault.Memory) }
{
    match expand_with_lines(alloc, source, given) {
        Ok(
            Federation {
                text,
                lines: _lines,
            },
        ) => Ok(text),
        Err(fault) => Err(fault),
    }
}

/// The same, and of which line of the source each of its lines came.
pub fn expand_with_lines(
    alloc: Global,
    source: &[u8],
    given: &[Given],
) -> Result<Federation, ExpandFault>
    ensures ok { IfOk result (λ made. IsFederationOf source.now given.now made.text.items) }
    ensures accepts { (d : Draft) (programs : List Behaviour) → IsFederationFile source.now d programs → given.now ≡ []
        → IfErr result (λ fault. fault ≡ ExpandFault.Memory) }
{
    match load(alloc, source) {
        Ok(_) => own_federation(alloc, source, given),
        Err(LoadFault::Memory) => Err(ExpandFault::Memory),
        Err(_) => made_federation(alloc, source, given),
    }
}

// A federation file as it is.
#[tactic(auto, using(crate::proofs::Taken::none_given))]
fn own_federation(alloc: Global, source: &[u8], given: &[Given]) -> Result<Federation, ExpandFault>
    ensures itself { IfOk result (λ made. made.text.items ≡ source.now) }
    ensures alone { OnOk result (given.now ≡ []) }
    ensures refused { IfErr result (λ fault. given.now ≡ [] → fault ≡ ExpandFault.Memory) }
{
    match given {
        [] => Ok(Federation::itself(alloc, source)?),
        [first, ..] => Err(ExpandFault::Source(SourceFault {
            line: 0,
            kind: SourceFaultKind::UnknownParameter(first.name.clone()?),
        })),
    }
}

// What any other source becomes, where that is a federation file.
fn made_federation(alloc: Global, source: &[u8], given: &[Given]) -> Result<Federation, ExpandFault>
    ensures made { IfOk result (λ made. IsMadeOf source.now given.now made.text.items) }
    ensures taken { IfOk result (λ made. IsFederationText made.text.items) }
{
    let filled = expand_source::expand(alloc, source, given)?;
    let (text, lines) = with_bodies(alloc, filled.text.as_slice(), filled.lines.as_slice())?;
    let federation = text.as_slice();
    match load(alloc, federation) {
        Ok(_) => {
            check_meaning(alloc, source, given, filled.text.as_slice(), federation)?;
            Ok(Federation { text, lines })
        }
        Err(LoadFault::Memory) => Err(ExpandFault::Memory),
        Err(fault) => Err(ExpandFault::NoFederation(NoFederation { fault, text, lines })),
    }
}

// Refuses a text whose document isn't what the source's becomes, where `filled` is the text before its bodies are
// expanded.
fn check_meaning(
    alloc: Global,
    source: &[u8],
    given: &[Given],
    filled: &[u8],
    text: &[u8],
) -> Result<(), ExpandFault>
    ensures { OnOk result (IsMadeOf source.now given.now text.now) }
{
    let before = document(alloc, source)?;
    let filled = document(alloc, filled)?;
    let after = document(alloc, text)?;
    check_expansion(alloc, given, &before, &filled)?;
    check_bodies(alloc, &filled, &after)
}

// Refuses a document that isn't what the source's becomes before its bodies are expanded. Its braces were filled before:
// where they can't be now, something else was filled.
fn check_expansion(
    alloc: Global,
    given: &[Given],
    source: &Table,
    filled: &Table,
) -> Result<(), ExpandFault>
    ensures { OnOk result (IsExpansionOf given.now (table_view source.now) (table_view filled.now)) }
{
    match is_expansion(alloc, given, source, filled) {
        Ok(true) => Ok(()),
        Err(SourceFaultKind::Memory) => Err(ExpandFault::Memory),
        Ok(false) | Err(_) => Err(ExpandFault::OtherMeaning),
    }
}

// A text with its bodies expanded, and of which line of the source each of its lines came, where these are those of the
// text's own lines.
fn with_bodies(
    alloc: Global,
    text: &[u8],
    lines: &[usize],
) -> Result<(Vec<u8>, Vec<usize>), ExpandFault> {
    let tokens = tokens(alloc, text)?;
    let items = items(alloc, tokens.as_slice())?;
    let groups = groups(alloc, items.as_slice())?;
    let federates = federates(alloc, groups.as_slice())?;
    with_changes(alloc, text, lines, federates.as_slice())
}

// The same, of a text with these federates.
fn with_changes(
    alloc: Global,
    text: &[u8],
    lines: &[usize],
    federates: &[Federate<'_>],
) -> Result<(Vec<u8>, Vec<usize>), ExpandFault> {
    let changes = match all_changes(alloc, federates) {
        Ok(changes) => changes,
        Err(fault) => return Err(at_source(lines, fault)),
    };
    let made = changed(alloc, text, changes.list.as_slice())?;
    let made_lines = changed_lines(alloc, text, lines, &changes)?;
    Ok((made, made_lines))
}

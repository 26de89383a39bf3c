//! What is answered for a source.
use expand_federation::{ExpandFault, NoFederation, expand};
use expand_source::Given;
use plan_names::Text;
use std::alloc::{AllocError, Global};

fn given(alloc: Global, values: &[(&str, i64)]) -> Result<Vec<Given>, AllocError> {
    let mut given = Vec::new(alloc);
    for (name, value) in values {
        given.push(Given {
            name: Text::new(String::from_str(alloc, name)?),
            value: *value,
        })?;
    }
    Ok(given)
}

/// What a source becomes, or its fault with its line, as a text.
pub(crate) fn answer(alloc: Global, source: &str, values: &[(&str, i64)]) -> Option<String> {
    let given = given(alloc, values).ok()?;
    match expand(alloc, source.as_bytes(), given.as_slice()) {
        Ok(text) => String::from_utf8(text).ok(),
        Err(fault) => format!(in alloc; "line {}: {fault}", line_of(&fault)).ok(),
    }
}

// The line of a fault. What is no federation file has none: `lint` finds it.
fn line_of(fault: &ExpandFault) -> usize {
    match fault {
        ExpandFault::Source(fault) => fault.line,
        ExpandFault::Body(fault) => fault.line,
        ExpandFault::NoFederation(_) | ExpandFault::OtherMeaning | ExpandFault::Memory => 0,
    }
}

/// Whether it is this.
pub(crate) fn is_answered(
    alloc: Global,
    source: &str,
    values: &[(&str, i64)],
    wanted: &str,
) -> bool {
    match answer(alloc, source, values) {
        Some(answer) => answer.as_str() == wanted,
        None => false,
    }
}

/// Whether a source becomes no federation, in a text whose lines came of these lines of the source.
pub(crate) fn has_lines(alloc: Global, source: &str, wanted: &[usize]) -> bool {
    match expand(alloc, source.as_bytes(), &[]) {
        Err(ExpandFault::NoFederation(NoFederation { lines, .. })) => lines.as_slice() == wanted,
        _ => false,
    }
}

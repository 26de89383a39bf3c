//! What is answered for a source.
use expand_source::{Given, SourceFault, expand};
use plan_names::Text;
use std::alloc::{AllocError, Global};

/// Values that are given beside a source.
pub(crate) fn given(alloc: Global, values: &[(&str, i64)]) -> Result<Vec<Given>, AllocError> {
    let mut given = Vec::new(alloc);
    for (name, value) in values {
        let name = Text::new(String::from_str(alloc, name)?);
        given.push(Given {
            name,
            value: *value,
        })?;
    }
    Ok(given)
}

/// What a source expands to, or its fault, as a text.
pub(crate) fn answer(alloc: Global, source: &str, values: &[(&str, i64)]) -> Option<String> {
    let given = given(alloc, values).ok()?;
    match expand(alloc, source.as_bytes(), given.as_slice()) {
        Ok(expansion) => String::from_utf8(expansion.text).ok(),
        Err(SourceFault { line, kind }) => format!(in alloc; "line {line}: {kind}").ok(),
    }
}

/// Whether it is this.
pub(crate) fn is_answered(
    alloc: Global,
    source: &str,
    values: &[(&str, i64)],
    wanted: &str,
) -> bool {
    match answer(alloc, source, values) {
        Some(answer) => answer.as_str() == wanted,
        None => false,
    }
}

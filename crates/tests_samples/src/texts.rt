//! Texts of parts.
use std::alloc::Global;

/// The parts, one behind the other; None where there is no memory.
pub fn joined(alloc: Global, parts: &[&str]) -> Option<String> {
    let mut text = String::new(alloc);
    for part in parts {
        text.push_str(part).ok()?;
    }
    Some(text)
}

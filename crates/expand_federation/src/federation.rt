ghost use Rattle.std.specs.Prelude.{◌≡◌, IfOk};

use expand_source::token::line_ends;
use std::alloc::{AllocError, Global};

/// A federation file that a source became.
#[derive(Drop)]
pub struct Federation {
    pub text: Vec<u8>,
    /// For each line of the text the line of the source that it came of; the last is of what stands behind the end of
    /// the last line.
    pub lines: Vec<usize>,
}

impl Federation {
    /// A federation file that is its own source.
    pub(crate) fn itself(alloc: Global, text: &[u8]) -> Result<Federation, AllocError>
        ensures { IfOk result (λ made. made.text.items ≡ text.now) }
    {
        Ok(Federation {
            text: Vec::from_slice(alloc, text)?,
            lines: line_numbers(alloc, text)?,
        })
    }
}

// The numbers of a text's lines, with one for what stands behind the end of the last.
fn line_numbers(alloc: Global, text: &[u8]) -> Result<Vec<usize>, AllocError> {
    let mut numbers = Vec::new(alloc);
    let last = line_ends(text).saturating_add(1);
    for number in 1..=last {
        numbers.push(number)?;
    }
    Ok(numbers)
}

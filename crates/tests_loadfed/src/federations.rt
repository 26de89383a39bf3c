//! Federation files, and how they are answered.
ghost use Rattle.std.specs.Prelude.{IfOk};
ghost use Rattle.reactor_programs.specs.Programs.{AreProgramsOf};

use loadfed::{LoadFault, load};
use plan::Plan;
use reactor_programs::Programs;
use std::alloc::{AllocError, Global};

/// A federate `f` with a physical action `p`.
pub(crate) const ONE_ACTION: &str = r#"
stop = "20 ms"
federate = [{ name = "f", inputs = ["x"], physical = ["p"] }]
"#;

/// Four federates, each with an input and an output; the third has a second input.
pub(crate) const FOUR: &str = r#"
stop = "10 ms"
federate = [
    { name = "a", inputs = ["x"], outputs = ["y"] },
    { name = "b", inputs = ["x"], outputs = ["y"] },
    { name = "c", inputs = ["x", "w"], outputs = ["y"] },
    { name = "d", inputs = ["x"], outputs = ["y"] },
]
"#;

/// Of them: an input that two outputs are connected to.
pub(crate) const TWO_SOURCES: &str =
    r#"connection = [{ from = "a.y", to = "b.x" }, { from = "c.y", to = "b.x" }]"#;

/// Of them: a zero-delay cycle, entered by its highest federate.
pub(crate) const CYCLE: &str = r#"connection = [
    { from = "d.y", to = "c.x" },
    { from = "c.y", to = "b.x" },
    { from = "b.y", to = "d.x" },
    { from = "b.y", to = "a.x" },
]"#;

fn joined(alloc: Global, front: &str, back: &str) -> Result<String, AllocError> {
    let mut text = String::from_str(alloc, front)?;
    text.push_str(back)?;
    Ok(text)
}

/// The federation of a file of two parts.
pub(crate) fn loaded(alloc: Global, front: &str, back: &str) -> Result<(Plan, Programs), LoadFault>
    ensures { IfOk result (λ loaded. AreProgramsOf loaded.0 loaded.1) }
{
    let text = joined(alloc, front, back)?;
    load(alloc, text.as_bytes())
}

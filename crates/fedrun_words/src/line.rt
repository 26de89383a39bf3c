use std::fmt;

/// The line on which a text is printed.
#[derive(Drop)]
pub(crate) struct ProgramLine<'a, D>(pub &'a D);

impl<D: fmt::Display> fmt::Display for ProgramLine<'_, D> {
    ghost use Rattle.fedrun_words.specs.Lines.{displayed_line};

    ghost output = { λ line. displayed_line (D.output line.0.now) };

    fn fmt<W: fmt::Write>(&self, f: &mut fmt::Formatter<W>) -> fmt::Result {
        let text = self.0;
        write!(f, "fedrun: {text}\n")
    }
}

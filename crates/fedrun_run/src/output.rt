use files_text::RowFormat;

/// What is printed of a run that an audit proved.
#[derive(Clone, Copy, Debug, PartialEq, Eq)]
pub enum RunOutput {
    /// The rows that each federate reports, federate by federate, in this format.
    Rows(RowFormat),
    /// The steps by which the audit proved them, as a schedule file.
    Steps,
}

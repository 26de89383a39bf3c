/// How rows are written.
#[derive(Clone, Copy, Debug, PartialEq, Eq)]
pub enum RowFormat {
    /// A line for each row, as `src (10 ms, 0) [t] -> [y=2]`.
    Text,
    /// Comma-separated values: a header, and a line for each input and each output of a row.
    Csv,
}

/// Bytes that are to be appended to a log, and the sum behind them.
#[derive(Debug, Drop)]
pub struct Written {
    pub bytes: Vec<u8>,
    /// What is written behind these bytes needs it.
    pub sum: u64,
}

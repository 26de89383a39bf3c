/// A call that changed a file in memory, or kept it.
#[derive(Drop)]
pub enum Call {
    /// These bytes were appended.
    Append(Vec<u8>),
    /// The file was cut to that many bytes.
    Cut(usize),
    /// These bytes, all of the file, were synced.
    Sync(Vec<u8>),
}

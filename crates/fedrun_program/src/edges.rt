use std::io::Write;

/// What the program reads and writes, and whether hints are wanted behind a fault's line.
#[derive(Drop)]
pub struct Edges<'a, F, G, D, L, O, E> {
    /// Files by name, `-` among them.
    pub files: &'a mut F,
    /// The regular files among them, which can be read again.
    pub regular: &'a mut G,
    /// Where files are saved.
    pub disk: &'a mut D,
    /// Where nodes' logs are kept.
    pub logs: &'a mut L,
    pub out: &'a mut O,
    pub err: &'a mut E,
    pub hints: bool,
}

impl<F, G, D, L, O, E: Write> Edges<'_, F, G, D, L, O, E> {
    /// Prints bytes to standard error; what it refuses changes nothing else.
    pub fn tell(&mut self, bytes: &[u8]) {
        let _is_told = self.err.write_all(bytes);
    }
}

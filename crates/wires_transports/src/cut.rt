use std::sync::Wait;

/// Ends a connection from outside, also where its ends are borrowed by workers that wait.
pub trait Cut: Drop {
    /// Ends both directions.
    fn cut<R: Wait>(&self, rt: &R);
}

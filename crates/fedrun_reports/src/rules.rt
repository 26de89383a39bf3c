//! By which rules this program replays a journal.

/// The number of the rules by which a node's state follows from its events. A log says by which it was written, and one
/// of others isn't replayed. Whoever changes what a node does on an event makes it one more.
pub const RULES: u16 = 1;

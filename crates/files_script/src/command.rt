use world_stations::{Dir, Step};

/// What a line of a schedule asks for.
#[derive(Clone, Copy, Debug, PartialEq, Eq)]
pub enum Command {
    /// A step of the world.
    Make(Step),
    /// The cursor of a direction goes to the number of frames sent.
    Skip(Dir),
    /// All that a round does.
    Round,
}

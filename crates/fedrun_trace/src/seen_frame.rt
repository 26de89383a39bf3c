use signal::Frame;
use world_stations::Dir;

/// A frame, and the step that sent or delivered it.
#[derive(Clone, Copy, Debug)]
pub struct SeenFrame {
    /// The step's number, counted from 1.
    pub step: usize,
    pub dir: Dir,
    /// The frame's number in its direction, counted from 1.
    pub number: usize,
    pub frame: Frame,
}

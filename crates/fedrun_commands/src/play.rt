use fedrun_draw::Excerpt;
use fedrun_files::Sources;
use files_script::Script;
use files_text::RowFormat;

/// A schedule that is to be played over a federation's world, and what is to be printed of it. Files are given by their
/// names; an `inputs` of `-` is a file without any.
#[derive(Clone, Copy, Debug, PartialEq, Eq)]
pub struct Play<'a> {
    pub federation: &'a str,
    pub inputs: &'a str,
    pub schedule: &'a str,
    /// How many closing rounds there may be after the schedule, where some are asked for.
    pub until_stuck: Option<u32>,
    pub output: PlayOutput,
}

/// What is printed of a schedule that was played.
#[derive(Clone, Copy, Debug, PartialEq, Eq)]
pub enum PlayOutput {
    /// The steps that were refused, and the rows after them, or in the other format the rows alone.
    Rows(RowFormat),
    /// Each step, with the frames that it sent.
    Frames,
    /// The same as trace events.
    Trace,
    /// A picture of these steps.
    Picture(Excerpt),
}

/// A federation with its recorded inputs and a schedule of it, as they were read.
#[derive(Drop)]
pub(crate) struct Scheduled {
    pub sources: Sources,
    pub script: Script,
    /// How many closing rounds there may be after the schedule, where some are asked for.
    pub until_stuck: Option<u32>,
}

//! A replay over a federation.
use fedrun_progress::NoProgress;
use fedrun_replay::{ReplayFault, replay};
use files_script::read_script;
use std::alloc::Global;
use std::io::Write;
use tests_samples::Federation;

/// Plays a schedule over a federation; None where the schedule isn't taken.
pub(crate) fn played<W: Write>(
    alloc: Global,
    federation: &Federation,
    schedule: &str,
    closing: Option<u32>,
    out: &mut W,
) -> Option<Result<(), ReplayFault>> {
    let script = read_script(alloc, schedule.as_bytes(), federation.plan()).ok()?;
    Some(replay(
        alloc,
        out,
        federation.plan(),
        federation.programs(),
        federation.inputs(),
        &script,
        closing,
        &NoProgress,
    ))
}

//! The trace of a schedule.
use fedrun_replay::ReplayFault;
use fedrun_trace::trace;
use files_script::read_script;
use std::alloc::Global;
use std::io::Write;
use tests_samples::{COUNTER, Federation, loaded};

/// How it ends, into a writer; None where the schedule isn't taken.
pub(crate) fn ended<W: Write>(
    alloc: Global,
    federation: &Federation,
    schedule: &str,
    closing: Option<u32>,
    out: &mut W,
) -> Option<Result<(), ReplayFault>> {
    let script = read_script(alloc, schedule.as_bytes(), federation.plan()).ok()?;
    Some(trace(
        alloc,
        out,
        federation.plan(),
        federation.programs(),
        federation.inputs(),
        &script,
        closing,
    ))
}

/// All of it, over the counter; None where something isn't taken.
pub(crate) fn traced(alloc: Global, schedule: &str, closing: Option<u32>) -> Option<String> {
    let federation = loaded(alloc, COUNTER, "")?;
    let mut out = Vec::new(alloc);
    match ended(alloc, &federation, schedule, closing, &mut out)? {
        Ok(()) => String::from_utf8(out).ok(),
        Err(_) => None,
    }
}

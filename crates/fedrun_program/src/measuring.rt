//! The file of `--stats`, before a command begins.
use crate::edges::Edges;
use fedrun_files::Files;
use fedrun_hints::print_stats_hint;
use fedrun_stats::{StatsFault, begin_stats};
use fedrun_words::{Fault, refuse};
use files_saving::Disk;
use std::alloc::Global;
use std::io::Write;
use std::random::RandomSource;

/// A number that hardly another process draws; 0 where the machine gives no random bytes.
pub(crate) fn drawn_number<S: RandomSource>(random: &S) -> u32 {
    let mut bytes = [0; 4];
    if random.fill_bytes(&mut bytes).is_err() {
        bytes = [0; 4];
    }
    u32::from_be_bytes(bytes)
}

/// Looks whether what is measured can be saved under this name. Where it can't, says so and what to do, and answers the
/// exit status: nothing is begun then.
pub(crate) fn refused_stats<F, G: Files, D: Disk, L, O, E: Write>(
    alloc: Global,
    name: &str,
    drawn: u32,
    edges: &mut Edges<'_, F, G, D, L, O, E>,
) -> Option<u8> {
    match begin_stats(alloc, name, drawn, edges.regular, edges.disk) {
        Ok(()) => None,
        Err(StatsFault { name, why }) => {
            let fault = StatsFault { name, why };
            let status = refuse(&Fault::More(fault), edges.err).status;
            if edges.hints {
                print_stats_hint(why, edges.err);
            }
            Some(status)
        }
    }
}

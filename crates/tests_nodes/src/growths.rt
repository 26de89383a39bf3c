//! What is out of memory in the midst of its steps: a world, the desks of a federation's nodes, a collector of reports,
//! and audits. Whichever one request for memory is refused, the refusal is answered by its number, all is as before it,
//! the same call made again succeeds, and at the end all rows are there. These tests pass with ample memory too, as in
//! the gate, where no test can refuse a request; `bench/growths` runs them once for each request, with that one
//! refused.
//!
//! Begin with `worlds`; then `runs`, whose journals `audits` audits.
mod audits;
mod runs;
mod worlds;

use loadfed::LoadFault;
use std::alloc::Global;
use tests_samples::{COUNTER, Federation, load_both};

// Whether this is so of the counter, which is lent; not where it isn't loaded.
fn is_so_of_counter<F: FnOnce(&Federation) -> bool>(alloc: Global, is_so: F) -> bool
    requires { F.IsAlwaysCallable is_so }
{
    match loaded(alloc) {
        Some(federation) => is_so(&federation),
        None => false,
    }
}

// The counter, at the second attempt where the first was out of memory; None where that isn't what it was answered.
fn loaded(alloc: Global) -> Option<Federation> {
    match load_both(alloc, COUNTER, "") {
        Ok(federation) => Some(federation),
        Err(LoadFault::Memory) => load_both(alloc, COUNTER, "").ok(),
        Err(_) => None,
    }
}

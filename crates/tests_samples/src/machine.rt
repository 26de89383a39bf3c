//! The machine that commands run on, and federations in threads.
use std::process::Abort;
use std::sync::Wait;
use std::thread::Threads;
use std::time::Clock;

/// It has memory, threads and a clock, and a test that fails ends the process.
pub trait Machine: AllocGlobal + Abort + Threads + Wait + Clock + Sync {}

impl<R: AllocGlobal + Abort + Threads + Wait + Clock + Sync> Machine for R {}

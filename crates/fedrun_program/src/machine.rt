//! The machine that the program runs on.
use std::random::RandomSource;
use std::sync::Wait;
use std::thread::Threads;
use std::time::Clock;

/// It has memory, threads, a clock and random bytes; connections are said beside it.
pub trait Machine: AllocGlobal + Threads + Wait + Clock + RandomSource + Sync {}

impl<R: AllocGlobal + Threads + Wait + Clock + RandomSource + Sync> Machine for R {}

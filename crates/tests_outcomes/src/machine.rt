//! The machine that commands run on.
use std::sync::Wait;
use std::thread::Threads;
use std::time::Clock;

/// It has memory, threads and a clock; connections are said beside it.
pub trait CommandMachine: AllocGlobal + Threads + Wait + Clock + Sync {}

impl<R: AllocGlobal + Threads + Wait + Clock + Sync> CommandMachine for R {}

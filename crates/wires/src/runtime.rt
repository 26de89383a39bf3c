//! What the workers of nodes take of the machine.
use std::net::{Net, TcpListener, TcpStream};
use std::sync::Wait;
use std::thread::Threads;
use std::time::Clock;

/// Threads, waiting and time, shared by all threads of a run.
pub trait Runtime: Threads + Wait + Clock + Sync {}

impl<R: Threads + Wait + Clock + Sync> Runtime for R {}

/// The same, with connections over TCP.
pub trait NetRuntime: Runtime + Net<Stream = TcpStream, Listener = TcpListener> {}

impl<R: Runtime + Net<Stream = TcpStream, Listener = TcpListener>> NetRuntime for R {}

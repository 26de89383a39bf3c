use wires::Cause;
use wires_hosts::DialFault;

/// Why a node's run isn't finished.
#[derive(Clone, Copy, Debug, PartialEq, Eq)]
pub enum Unfinished {
    /// Nobody was heard for its patience. Of a federate also why its last attempt to connect came to nothing, if it
    /// did.
    OutOfPatience(Option<DialFault>),
    /// It ended before: its turns were made, or its end was closed. The same of its last attempt to connect.
    Stopped(Option<DialFault>),
    /// It wasn't run, or what its workers left gives no journal, for this cause.
    NotRun(Cause),
}

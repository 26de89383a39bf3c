use files_keeping::KeptBy;
use wires_hosts::HostAddress;

/// What a node on a machine of its own is given, whichever node it is. Files are given by their names.
#[derive(Clone, Copy, Debug, PartialEq, Eq)]
pub struct NodeRequest<'a> {
    pub federation: &'a str,
    /// `-` is a file without any inputs.
    pub inputs: &'a str,
    /// Where the coordinator listens, and federates connect to it.
    pub address: HostAddress,
    /// Where the node's report is written. There is no file of this name, but for a log that has its end.
    pub report: &'a str,
    /// Who keeps its log while it runs, so that it goes on where it is killed. None: there is no log, and its report is
    /// written at its end.
    pub log: Option<KeptBy>,
    /// The file of the secret that all nodes have.
    pub secret: Option<&'a str>,
    /// It gives up after this many seconds in which nobody was heard.
    pub patience: Option<u32>,
}

/// What the words ask for.
#[derive(Clone, Copy, Debug, PartialEq, Eq)]
pub enum HostRequest<'a> {
    /// The coordinator, until the run is finished.
    Coordinate(NodeRequest<'a>),
    /// One federate.
    Join {
        node: NodeRequest<'a>,
        /// The federate's name.
        name: &'a str,
        /// How many turns it may make.
        turns: u32,
        /// The version of frames that it writes, 1 or 2.
        frames: u8,
    },
}

//! The tables of the coordinator and of the federates.
use crate::lines::{FrameLines, Line};
use std::fmt;
use wires_traffic::{Counts, Traffic};

/// The coordinator's tables, where it ran.
#[derive(Drop)]
pub(crate) struct CoordinatorTables(pub Option<Counts>);

impl fmt::Display for CoordinatorTables {
    ghost use Rattle.std.specs.Prelude.{Some};
    ghost use Rattle.files_stats.specs.Stats.{coordinator_text};

    ghost output = { λ tables. Some (coordinator_text tables.0) };

    fn fmt<W: fmt::Write>(&self, f: &mut fmt::Formatter<W>) -> fmt::Result {
        match self.0 {
            Some(counts) => {
                let tables = NodeTables {
                    name: "coordinator",
                    grants: counts.sent.frames.tag,
                    rows: counts.received.frames.ltc,
                    counts,
                };
                write!(f, "{tables}")
            }
            None => write!(f, ""),
        }
    }
}

/// The tables of all federates together, where some ran.
#[derive(Drop)]
pub(crate) struct FederatesTables(pub Option<Counts>);

impl fmt::Display for FederatesTables {
    ghost use Rattle.std.specs.Prelude.{Some};
    ghost use Rattle.files_stats.specs.Stats.{federates_text};

    ghost output = { λ tables. Some (federates_text tables.0) };

    fn fmt<W: fmt::Write>(&self, f: &mut fmt::Formatter<W>) -> fmt::Result {
        match self.0 {
            Some(counts) => {
                let tables = NodeTables {
                    name: "federates",
                    grants: counts.received.frames.tag,
                    rows: counts.sent.frames.ltc,
                    counts,
                };
                write!(f, "{tables}")
            }
            None => write!(f, ""),
        }
    }
}

// What the workers of nodes counted that are called so.
#[derive(Drop)]
struct NodeTables {
    name: &'static str,
    // The TAGs by which federates were granted how far they may go.
    grants: u64,
    // The LTCs, one for each row.
    rows: u64,
    counts: Counts,
}

impl fmt::Display for NodeTables {
    ghost use Rattle.std.specs.Prelude.{Some};
    ghost use Rattle.files_stats.specs.Stats.{node_text};

    ghost output = { λ tables. Some (node_text tables.name.now tables.grants tables.rows tables.counts) };

    fn fmt<W: fmt::Write>(&self, f: &mut fmt::Formatter<W>) -> fmt::Result {
        let name = self.name;
        let own = OwnLines {
            connections: self.counts.connections,
            grants: self.grants,
            rows: self.rows,
        };
        let sent = SentTable(name, self.counts.sent);
        let received = ReceivedTable(name, self.counts.received);
        write!(f, "\n[{name}]\n{own}{sent}{received}")
    }
}

// What goes neither one way nor the other.
#[derive(Drop)]
struct OwnLines {
    connections: u64,
    grants: u64,
    rows: u64,
}

impl fmt::Display for OwnLines {
    ghost use Rattle.std.specs.Prelude.{Some};
    ghost use Rattle.files_stats.specs.Stats.{own_text};

    ghost output = { λ lines. Some (own_text lines.connections lines.grants lines.rows) };

    fn fmt<W: fmt::Write>(&self, f: &mut fmt::Formatter<W>) -> fmt::Result {
        let connections = Line("connections", self.connections);
        let grants = Line("grants", self.grants);
        let rows = Line("rows", self.rows);
        write!(f, "{connections}{grants}{rows}")
    }
}

// What nodes sent that are called so.
#[derive(Drop)]
struct SentTable(&'static str, Traffic);

impl fmt::Display for SentTable {
    ghost use Rattle.std.specs.Prelude.{Some};
    ghost use Rattle.files_stats.specs.Stats.{sent_text};

    ghost output = { λ table. Some (sent_text table.0.now table.1) };

    fn fmt<W: fmt::Write>(&self, f: &mut fmt::Formatter<W>) -> fmt::Result {
        let name = self.0;
        let sends = Line("sends", self.1.calls);
        let bytes = Line("bytes", self.1.bytes);
        let batches = Line("batches", self.1.batches);
        let frames = FrameLines(self.1.frames);
        write!(f, "\n[{name}.sent]\n{sends}{bytes}{batches}{frames}")
    }
}

// What came to nodes that are called so.
#[derive(Drop)]
struct ReceivedTable(&'static str, Traffic);

impl fmt::Display for ReceivedTable {
    ghost use Rattle.std.specs.Prelude.{Some};
    ghost use Rattle.files_stats.specs.Stats.{received_text};

    ghost output = { λ table. Some (received_text table.0.now table.1) };

    fn fmt<W: fmt::Write>(&self, f: &mut fmt::Formatter<W>) -> fmt::Result {
        let name = self.0;
        let reads = Line("reads", self.1.calls);
        let bytes = Line("bytes", self.1.bytes);
        let frames = FrameLines(self.1.frames);
        write!(f, "\n[{name}.received]\n{reads}{bytes}{frames}")
    }
}

//! Report files of a run that is made on one thread, round by round, in the world of a replay: each federate announces
//! and advances, and then all that was sent comes.
use fedrun_replay::Player;
use files_reports::{FileDigests, NodeReport, write_report};
use files_script::{Command, ScheduleLine};
use node::Event;
use node_journal::Journal;
use reactor::Rows;
use recorder_reports::Report;
use sha2::{Digest, Sha256};
use std::alloc::Global;
use tests_samples::{Federation, with_loaded};
use world::World;
use world_stations::{Dir, Step};

/// More rounds than any of these federations has until it is finished.
const ALL_ROUNDS: usize = 100;

/// Bytes of the digest at the end of a report file.
const SEAL: usize = 32;

/// How a report file differs from what its node did.
#[derive(Clone, Copy)]
pub enum Flaw {
    /// It doesn't.
    Honest,
    /// It is of the node after so many rounds.
    Rounds(usize),
    /// It has none of the rows.
    Rowless,
    /// This byte of it is one more, under a digest that fits.
    Changed(usize),
    /// Its last byte isn't there.
    Cut,
}

/// A report file: its name, whose it is, that is, which federate's or the coordinator's, and how it differs from what
/// that node did.
pub type ReportFile = (&'static str, Option<usize>, Flaw);

/// A file of a run of these files.
pub fn report_file(
    alloc: Global,
    federation: &str,
    inputs: &str,
    node: Option<usize>,
    flaw: Flaw,
) -> Option<Vec<u8>> {
    let digests = FileDigests::new(federation.as_bytes(), inputs.as_bytes());
    let mut file = with_loaded(alloc, federation, inputs, |federation| {
        honest_file(alloc, federation, &digests, node, flaw)
    })?;
    spoil(&mut file, flaw)?;
    Some(file)
}

// The file before its bytes are made wrong.
fn honest_file(
    alloc: Global,
    federation: &Federation,
    digests: &FileDigests,
    node: Option<usize>,
    flaw: Flaw,
) -> Option<Vec<u8>> {
    let report = report_after(alloc, federation, node, flaw)?;
    write_report(alloc, digests, &report).ok()
}

/// What a node says after a run.
pub fn report_after(
    alloc: Global,
    federation: &Federation,
    node: Option<usize>,
    flaw: Flaw,
) -> Option<NodeReport> {
    let plan = federation.plan();
    match Player::new(alloc, plan, federation.programs(), federation.inputs()) {
        Ok(mut player) => report_played(alloc, &mut player, node, flaw),
        Err(_) => None,
    }
}

// The same where this one plays the run.
fn report_played(
    alloc: Global,
    player: &mut Player<'_>,
    node: Option<usize>,
    flaw: Flaw,
) -> Option<NodeReport> {
    let rounds = match flaw {
        Flaw::Rounds(rounds) => rounds,
        _ => ALL_ROUNDS,
    };
    play(alloc, player, rounds)?;
    report_of(alloc, player.world(), node, flaw)
}

// Plays so many rounds, or until the coordinator says that all is finished.
fn play(alloc: Global, player: &mut Player<'_>, rounds: usize) -> Option<()> {
    let line = ScheduleLine {
        number: 1,
        command: Command::Round,
    };
    let mut refused = Vec::new(alloc);
    for _round in 0..rounds {
        if player.world().finished() {
            break;
        }
        player.obey(&mut refused, line).ok()?;
    }
    Some(())
}

// What a node says of a world. One that isn't there says that nothing came to it.
fn report_of(
    alloc: Global,
    world: &World<'_>,
    node: Option<usize>,
    flaw: Flaw,
) -> Option<NodeReport> {
    match node {
        Some(federate) => Some(NodeReport::Federate(Report {
            federate,
            rows: rows_of(alloc, world, federate, flaw)?,
            journal: journal_of(alloc, world, node)?,
        })),
        None => Some(NodeReport::Coordinator(journal_of(alloc, world, node)?)),
    }
}

// The rows that a federate reports.
fn rows_of(alloc: Global, world: &World<'_>, federate: usize, flaw: Flaw) -> Option<Rows> {
    match (flaw, world.rows(federate)) {
        (Flaw::Rowless, _) | (_, None) => Some(Rows::new(alloc)),
        (_, Some(rows)) => copy_of(alloc, rows),
    }
}

// The same rows.
fn copy_of(alloc: Global, rows: &Rows) -> Option<Rows> {
    let mut copy = Rows::new(alloc);
    for place in 0..rows.len() {
        let row = rows.row(place);
        copy.push(row.federate(), row.tag(), row.inputs(), row.outputs())
            .ok()?;
    }
    Some(copy)
}

// All that came to a node of a world.
fn journal_of(alloc: Global, world: &World<'_>, node: Option<usize>) -> Option<Journal> {
    let mut journal = Journal::new(alloc);
    for place in 0..world.steps().len() {
        let step = world.steps().get(place)?;
        if let Some(event) = event_at(world, node, step) {
            journal.push(&event, None).ok()?;
        }
    }
    Some(journal)
}

// What a step brings to a node, if it is one of this node.
fn event_at(world: &World<'_>, node: Option<usize>, step: Step) -> Option<Event> {
    match step {
        Step::Announce(federate) if node == Some(federate) => Some(Event::Announce),
        Step::Advance(federate) if node == Some(federate) => Some(Event::Advance),
        Step::Deliver(Dir::Up(federate), k) if node.is_none() => {
            frame_from(world, federate, Dir::Up(federate), k)
        }
        Step::Deliver(Dir::Down(federate), k) if node == Some(federate) => {
            frame_from(world, 0, Dir::Down(federate), k)
        }
        _ => None,
    }
}

// The k-th frame of a direction, as it comes from this peer.
fn frame_from(world: &World<'_>, peer: usize, dir: Dir, k: usize) -> Option<Event> {
    let frame = world.frame(dir, k)?;
    Some(Event::Frame(peer, frame))
}

// Makes the file wrong.
fn spoil(file: &mut Vec<u8>, flaw: Flaw) -> Option<()> {
    match flaw {
        Flaw::Changed(place) => change(file, place),
        Flaw::Cut => {
            file.pop();
            Some(())
        }
        _ => Some(()),
    }
}

// Makes a byte of a file one more, under a digest that fits.
fn change(file: &mut Vec<u8>, place: usize) -> Option<()> {
    let byte = file.get_mut(place)?;
    *byte = byte.wrapping_add(1);
    file.truncate(said(file));
    let digest = Sha256::digest(file.as_slice());
    file.extend_from_slice(&digest).ok()
}

/// How many bytes a file has before its digest.
pub fn said(file: &[u8]) -> usize {
    file.len().saturating_sub(SEAL)
}

/// A file of which a byte is one more, under a digest that fits.
pub fn changed(alloc: Global, file: &[u8], place: usize) -> Option<Vec<u8>> {
    let mut bytes = Vec::from_slice(alloc, file).ok()?;
    change(&mut bytes, place)?;
    Some(bytes)
}

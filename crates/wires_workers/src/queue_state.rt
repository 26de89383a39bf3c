//! What waits for a writer behind the lock of its queue, and whether who put it there or the writer sends it.
//!
//! An Ack says nothing that its peer waits for. So Acks alone, while they are few, are left until other frames are put
//! for the same peer or the writer has waited a little; and they don't wake a writer that looks soon by itself. Who
//! sends the rest is `specs/Sending`.
ghost use Rattle.std.specs.Prelude.{◌≡◌, ◌↔◌, ◌+◌, ◌≤◌, length, IsTrue, None, Some, [], ◌++◌, ◌&&◌, not, is_some};
ghost use Rattle.std.specs.Prelude.{true, false, if◌then◌else◌, OnOk, OnErr, IfOk, IfErr};
ghost use Rattle.signal.specs.declared.wire.TheConstants.{FIRST_VERSION};
ghost use Rattle.wires_workers.specs.LoneAcks.{is_ack, is_data, are_acks, are_few_acks, is_left};
ghost use Rattle.wires_workers.specs.Sending.{task_of, waits};
ghost use Rattle.wires_workers.specs.declared.queue_state.TheConstants.{WAITING_MOST};

use crate::side::Side;
use node::Outgoing;
use signal::Frame;
use signal::wire::FIRST_VERSION;
use std::alloc::{AllocError, Global};
use std::mem;

/// How many Acks are sent without other frames at once.
pub(crate) const ACKS_AT_ONCE: usize = 64;

/// How many frames wait for a writer, at most: four times what an end keeps. A peer that greets over and over and
/// doesn't read has the same signals put again with each Hello.
pub(crate) const WAITING_MOST: usize = 16_384;

/// What waits for a writer.
#[derive(Drop)]
pub(crate) struct QueueState<T: Drop, C: Drop> {
    // The connection on which it writes from now on, if that is a new one.
    side: Option<Side<T, C>>,
    // The version of the last Hello that came on the connection, or the first version before one came.
    peer: u8,
    // Whether all signals that the peer hasn't acknowledged were put since the connection began.
    is_caught_up: bool,
    // What is to be written, oldest first.
    frames: Vec<Outgoing>,
    // How many Acks were left out of that, since these say all that they said.
    left_out: usize,
    // Whether the writer looks soon by itself: something waited when it looked last.
    looks_soon: bool,
    // Whether the peer was behind when frames were put last: then a send may have to wait until it reads.
    is_behind: bool,
}

/// What is to be done about what waits.
#[derive(Clone, Copy, PartialEq, Eq)]
pub(crate) enum Task {
    /// Nothing now: nothing waits, or Acks alone at which the writer looks soon.
    Leave,
    /// The writer is to look.
    Notify,
    /// Whoever made the steps writes it, if nobody writes.
    Write,
}

/// What a writer is asked beside the frames.
#[derive(Drop)]
pub(crate) struct Asked<T: Drop, C: Drop> {
    /// The connection on which it writes from now on, if that is a new one.
    pub side: Option<Side<T, C>>,
    /// The version of the last Hello that came on the connection, or the first version before one came.
    pub peer: u8,
}

impl<T: Drop, C: Drop> QueueState<T, C> {
    /// Nothing waits, and no Hello has come.
    pub fn new(alloc: Global) -> QueueState<T, C>
        ensures side { result.side ≡ None }
        ensures peer { result.peer ≡ FIRST_VERSION }
        ensures frames { result.frames.items ≡ [] }
        ensures caught_up { result.is_caught_up ≡ false }
        ensures left_out { result.left_out ≡ 0 }
    {
        QueueState {
            side: None,
            peer: FIRST_VERSION,
            is_caught_up: false,
            frames: Vec::new(alloc),
            left_out: 0,
            looks_soon: false,
            is_behind: false,
        }
    }

    /// A new connection, on which this is sent first. What was not yet sent is dropped: the ends send it again when
    /// they are greeted.
    pub fn begin(&mut self, side: Side<T, C>, greeting: Vec<Outgoing>)
        ensures side { self.new.side ≡ Some side }
        ensures peer { self.new.peer ≡ FIRST_VERSION }
        ensures frames { self.new.frames.items ≡ greeting.items }
        ensures caught_up { self.new.is_caught_up ≡ false }
        ensures left_out { self.new.left_out ≡ 0 }
    {
        self.side = Some(side);
        self.peer = FIRST_VERSION;
        self.is_caught_up = false;
        self.frames = greeting;
        self.left_out = 0;
    }

    /// What is put next has all signals that the peer hasn't acknowledged.
    pub fn catch_up(&mut self)
        ensures side { self.new.side ≡ self.old.side }
        ensures peer { self.new.peer ≡ self.old.peer }
        ensures frames { self.new.frames.items ≡ self.old.frames.items }
        ensures left_out { self.new.left_out ≡ self.old.left_out }
        ensures caught_up { self.new.is_caught_up ≡ true }
    {
        self.is_caught_up = true;
    }

    /// Whether all signals that the peer hasn't acknowledged were put since the connection began. One that went before
    /// would come ahead of its turn, where an earlier one was lost with an earlier connection.
    pub fn is_caught_up(&self) -> bool
        ensures { result ≡ self.now.is_caught_up }
    {
        self.is_caught_up
    }

    /// The peer's last Hello has this version.
    pub fn hear(&mut self, version: u8)
        ensures side { self.new.side ≡ self.old.side }
        ensures peer { self.new.peer ≡ version }
        ensures frames { self.new.frames.items ≡ self.old.frames.items }
        ensures left_out { self.new.left_out ≡ self.old.left_out }
    {
        self.peer = version;
    }

    /// Whether this many more frames may wait.
    pub fn has_room(&self, more: usize) -> bool
        ensures { IsTrue result ↔ length self.now.frames.items + more ≤ WAITING_MOST }
    {
        let waiting = self.frames.len();
        waiting <= WAITING_MOST && more <= WAITING_MOST - waiting
    }

    /// Adds frames behind those that wait, of which this many Acks were left out, and notes whether their peer is
    /// behind.
    pub fn add(
        &mut self,
        frames: &[Outgoing],
        left_out: usize,
        is_behind: bool,
    ) -> Result<(), AllocError>
        ensures side { self.new.side ≡ self.old.side }
        ensures peer { self.new.peer ≡ self.old.peer }
        ensures frames { OnOk result (self.new.frames.items ≡ self.old.frames.items ++ frames.now) }
        ensures unchanged { OnErr result (self.new.frames.items ≡ self.old.frames.items) }
        ensures left_out { self.old.left_out + left_out ≤ usize.MAX
            → self.new.left_out ≡ self.old.left_out + left_out }
        ensures behind { self.new.is_behind ≡ is_behind }
        ensures soon { self.new.looks_soon ≡ self.old.looks_soon }
        ensures caught_up { self.new.is_caught_up ≡ self.old.is_caught_up }
    {
        self.is_behind = is_behind;
        self.left_out = self.left_out.saturating_add(left_out);
        self.frames.extend_from_slice(frames)
    }

    // Whether all that waits may wait for more: there is no new connection, and of frames Acks alone, and few.
    fn may_wait(&self) -> bool
        ensures { result ≡ not (is_some self.now.side) && are_few_acks self.now.left_out self.now.frames.items }
    {
        self.side.is_none() && are_few_acks(self.left_out, &self.frames)
    }

    /// What is to be done about what waits.
    pub fn task(&self) -> Task
        ensures { result ≡ task_of (is_some self.now.side) self.now.is_behind self.now.looks_soon self.now.left_out
            self.now.frames.items }
    {
        if self.may_wait() {
            if self.looks_soon || self.frames.is_empty() {
                Task::Leave
            } else {
                Task::Notify
            }
        } else if self.side.is_some() || self.is_behind {
            Task::Notify
        } else {
            Task::Write
        }
    }

    /// The writer looks. Returns whether it is to look again soon, as something waits. `task` goes by the same.
    pub fn look(&mut self) -> bool
        ensures side { self.new.side ≡ self.old.side }
        ensures peer { self.new.peer ≡ self.old.peer }
        ensures frames { self.new.frames.items ≡ self.old.frames.items }
        ensures left_out { self.new.left_out ≡ self.old.left_out }
        ensures behind { self.new.is_behind ≡ self.old.is_behind }
        ensures soon { result ≡ waits (is_some self.old.side) self.old.frames.items }
        ensures noted { self.new.looks_soon ≡ result }
    {
        self.looks_soon = self.side.is_some() || !self.frames.is_empty();
        self.looks_soon
    }

    /// Takes all that waits, where whoever asks is to write it; else answers what is to be done.
    pub fn take_to_write(&mut self, frames: &mut Vec<Outgoing>) -> Result<Asked<T, C>, Task>
        requires { frames.old.items ≡ [] }
        ensures write { IfOk result (λ _. task_of (is_some self.old.side) self.old.is_behind self.old.looks_soon
            self.old.left_out self.old.frames.items ≡ Task.Write) }
        ensures taken { OnOk result (frames.new.items ≡ self.old.frames.items) }
        ensures other { IfErr result (λ task. task_of (is_some self.old.side) self.old.is_behind self.old.looks_soon
            self.old.left_out self.old.frames.items ≡ task) }
        ensures unchanged { OnErr result (self.new.frames.items ≡ self.old.frames.items) }
    {
        match self.task() {
            Task::Write => Ok(self.take(false, frames)),
            task => Err(task),
        }
    }

    /// Takes all that waits, in exchange for room without frames, for the writer. What may wait longer is left, unless
    /// it is late.
    pub fn take(&mut self, is_late: bool, frames: &mut Vec<Outgoing>) -> Asked<T, C>
        requires { frames.old.items ≡ [] }
        ensures side { result.side ≡ self.old.side }
        ensures peer { result.peer ≡ self.old.peer }
        ensures frames { frames.new.items ≡ (if is_left is_late (is_some self.old.side) self.old.left_out
            self.old.frames.items then [] else self.old.frames.items) }
        ensures no_side { self.new.side ≡ None }
        ensures same_peer { self.new.peer ≡ self.old.peer }
        ensures left { self.new.frames.items ≡ (if is_left is_late (is_some self.old.side) self.old.left_out
            self.old.frames.items then self.old.frames.items else []) }
        ensures left_out { self.new.left_out ≡ (if is_left is_late (is_some self.old.side) self.old.left_out
            self.old.frames.items then self.old.left_out else 0) }
    {
        let stays = !is_late && self.may_wait();
        let asked = Asked {
            side: self.side.take(),
            peer: self.peer,
        };
        if !stays {
            mem::swap(&mut self.frames, frames);
            self.left_out = 0;
        }
        asked
    }
}

// Whether they are Acks alone, and with this many that were left out fewer than are sent without other frames.
fn are_few_acks(left_out: usize, frames: &[Outgoing]) -> bool
    ensures { result ≡ are_few_acks left_out frames.now }
{
    frames.len() < ACKS_AT_ONCE && left_out < ACKS_AT_ONCE - frames.len() && are_acks(frames)
}

// Whether they are Acks alone.
fn are_acks(frames: &[Outgoing]) -> bool
    ensures { result ≡ are_acks frames.now }
{
    frames.iter().all(|outgoing| is_ack(&outgoing.frame))
}

// Whether it is an Ack.
fn is_ack(frame: &Frame) -> bool
    ensures { result ≡ is_ack frame.now }
{
    matches!(frame, Frame::Ack { .. })
}

/// Whether it is a signal.
pub(crate) fn is_data(frame: &Frame) -> bool
    ensures { result ≡ is_data frame.now }
{
    matches!(frame, Frame::Data { .. })
}

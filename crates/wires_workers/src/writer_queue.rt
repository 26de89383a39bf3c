//! What a writer is asked.
//!
//! The frames wait in one list under a lock, which the writer exchanges for an empty one: frame by frame through a
//! channel, the two would wait for each other's locks at each frame, those of the channel and of memory.
//!
//! Who made the steps writes what waits, where nobody writes and the peer isn't behind: to wake a thread takes longer
//! than a send. The writer does all else: new connections, Acks alone, what goes to a peer that is behind, what comes
//! while somebody writes, and the end. `queue_state` decides it.
//!
//! Of the two locks the active writer's is taken first, and the list's is never held over a send. Whoever put frames
//! looks at the list once more, and where somebody else writes notifies the writer, which waits for it: so nothing
//! stays that nobody looks at.
ghost use Rattle.std.specs.Prelude.{◌≡◌, ◌<◌, []};

use crate::queue_state::{Asked, QueueState, Task, is_data};
use crate::side::Side;
use crate::writer::Writer;
use crossbeam_channel::{Receiver, Sender, unbounded};
use node::Outgoing;
use std::alloc::{AllocError, Global};
use std::sync::atomic::{AtomicBool, Ordering};
use std::sync::{Mutex, Wait};
use std::time::{Clock, Duration};
use wires_traffic::Traffic;
use wires_transports::times::{ACK_WAIT_MS, WRITER_WAIT_MS};
use wires_transports::{Cut, Transport};

/// What a writer is asked, and a notifier that wakes it. However often it is asked before it looks, it is notified
/// once: to wake a thread takes longer than to ask it.
#[derive(Drop)]
pub struct WriterQueue<T: Drop, C: Drop> {
    waiting: Mutex<QueueState<T, C>>,
    // Whoever writes has it. None before the writer begins.
    active: Mutex<Option<ActiveWriter<T, C>>>,
    notifier: Sender<()>,
    notifications: Receiver<()>,
    // Whether the writer was notified since it last looked.
    is_notified: AtomicBool,
}

// A writer, with room for the frames that it is asked to write.
#[derive(Drop)]
struct ActiveWriter<T: Drop, C: Drop> {
    writer: Writer<T, C>,
    frames: Vec<Outgoing>,
}

impl<T: Drop, C: Drop> WriterQueue<T, C> {
    /// Nothing is asked.
    pub fn new(alloc: Global) -> Result<WriterQueue<T, C>, AllocError> {
        let (notifier, notifications) = unbounded(alloc)?;
        Ok(WriterQueue {
            waiting: Mutex::new(QueueState::new(alloc)),
            active: Mutex::new(None),
            notifier,
            notifications,
            is_notified: AtomicBool::new(false),
        })
    }

    /// Asks the writer to write on this connection from now on, where the greeting is sent first. What was not yet sent
    /// is dropped: the ends send it again when they are greeted.
    pub fn begin<R: Wait>(&self, rt: &R, side: Side<T, C>, greeting: Vec<Outgoing>) {
        let mut waiting = self.waiting.lock(rt);
        waiting.begin(side, greeting);
        drop(waiting);
        self.notify(rt);
    }

    /// Says which version the peer's Hello on this connection has: what is written from now on, and waits already, may
    /// be of it.
    pub fn hear<R: Wait>(&self, rt: &R, version: u8) {
        let mut waiting = self.waiting.lock(rt);
        waiting.hear(version);
    }

    /// What is put next has all signals that the peer hasn't acknowledged, as what a node says to a Hello or to a
    /// Resend. Called under the desk's lock, right before that is put.
    pub fn catch_up<R: Wait>(&self, rt: &R) {
        let mut waiting = self.waiting.lock(rt);
        waiting.catch_up();
    }

    /// Puts frames behind those that wait. Where there is no memory for them, or too many wait, they are lost, as on a
    /// line that loses frames. So are signals before it caught up on this connection: then they are all put again.
    /// Whether the peer is behind is said of the frames that it hasn't acknowledged. They wait until `send` or the
    /// writer sends them.
    pub fn put<R: Wait>(&self, rt: &R, frames: &[Outgoing], is_behind: bool) {
        self.put_without(rt, frames, 0, is_behind);
    }

    /// The same where this many Acks were left out, which these cover: how long Acks alone wait goes by all of them.
    pub fn put_without<R: Wait>(
        &self,
        rt: &R,
        frames: &[Outgoing],
        left_out: usize,
        is_behind: bool,
    ) {
        let mut waiting = self.waiting.lock(rt);
        if waiting.is_caught_up() {
            put_all(&mut waiting, frames, left_out, is_behind);
        } else {
            // These are few, and Acks among them wait no longer than a little.
            for outgoing in frames {
                if !is_data(&outgoing.frame) {
                    put_all(&mut waiting, &[*outgoing], 0, is_behind);
                }
            }
        }
    }

    /// Wakes the writer. Where there is no memory for it, the writer sees a little later by itself what it is asked.
    pub fn notify<R: Wait>(&self, rt: &R) {
        if !self.is_notified.swap(true, Ordering::SeqCst) {
            let _ = self.notifier.send(rt, ());
        }
    }

    /// The writer is about to look: what it is asked from now on notifies it again.
    pub(crate) fn look(&self) {
        self.is_notified.store(false, Ordering::SeqCst);
    }

    /// Waits to be notified, but not too long, and only a little where it is to look soon. Returns whether it was.
    pub(crate) fn wait<R: Wait + Clock>(&self, rt: &R, looks_soon: bool) -> bool {
        let millis = if looks_soon {
            ACK_WAIT_MS
        } else {
            WRITER_WAIT_MS
        };
        self.notifications
            .recv_timeout(rt, Duration::from_millis(millis))
            .is_ok()
    }
}

impl<T: Transport, C: Cut> WriterQueue<T, C> {
    /// The writer begins. It writes this version of frames, 1 or more.
    pub fn open<R: Wait>(&self, rt: &R, alloc: Global, own: u8)
        requires { 0 < own }
    {
        let active = ActiveWriter {
            writer: Writer::new(alloc, own),
            frames: Vec::new(alloc),
        };
        let mut place = self.active.lock(rt);
        *place = Some(active);
    }

    /// Sends what waits, where nobody does and the peer isn't behind; else the writer sends it. Acks alone, while they
    /// are few, wait a little for other frames.
    pub fn send<R: Wait>(&self, rt: &R) {
        let needs_writer = match self.active.try_lock() {
            Some(mut place) => self.leaves_some(rt, &mut place),
            None => self.task(rt) != Task::Leave,
        };
        if needs_writer {
            self.notify(rt);
        }
    }

    // What is to be done about what waits.
    fn task<R: Wait>(&self, rt: &R) -> Task {
        let waiting = self.waiting.lock(rt);
        waiting.task()
    }

    // Writes what waits, if whoever asks is to write it. Returns whether something is left to the writer. All is left
    // to it before it begins, and after its end.
    fn leaves_some<R: Wait>(&self, rt: &R, place: &mut Option<ActiveWriter<T, C>>) -> bool {
        match place {
            Some(active) => {
                active.frames.clear();
                match self.take_to_write(rt, &mut active.frames) {
                    Ok(asked) => {
                        active.send(rt, asked);
                        false
                    }
                    Err(task) => task == Task::Notify,
                }
            }
            None => true,
        }
    }

    // All that waits, in exchange for room without frames, if whoever asks is to write it. Else what is to be done.
    fn take_to_write<R: Wait>(
        &self,
        rt: &R,
        frames: &mut Vec<Outgoing>,
    ) -> Result<Asked<T, C>, Task>
        requires { frames.old.items ≡ [] }
    {
        let mut waiting = self.waiting.lock(rt);
        waiting.take_to_write(frames)
    }

    /// The writer looks, and sends all that waits, once nobody else does. A few Acks alone stay until it is late,
    /// unless the connection is new. Returns whether the writer is to look again soon.
    pub fn send_all<R: Wait>(&self, rt: &R, is_late: bool) -> bool {
        let mut active = self.active.lock(rt);
        match &mut *active {
            Some(active) => {
                active.frames.clear();
                let (asked, looks_soon) = self.look_and_take(rt, is_late, &mut active.frames);
                active.send(rt, asked);
                looks_soon
            }
            None => false,
        }
    }

    // What the writer is asked, and whether it is to look again soon.
    fn look_and_take<R: Wait>(
        &self,
        rt: &R,
        is_late: bool,
        frames: &mut Vec<Outgoing>,
    ) -> (Asked<T, C>, bool)
        requires { frames.old.items ≡ [] }
    {
        let mut waiting = self.waiting.lock(rt);
        let looks_soon = waiting.look();
        (waiting.take(is_late, frames), looks_soon)
    }

    /// The writer ends what is sent, and lets the connection go: nobody sends any more. Returns what was sent.
    pub fn finish<R: Wait>(&self, rt: &R) -> Traffic {
        let mut place = self.active.lock(rt);
        match place.take() {
            Some(mut active) => {
                active.writer.finish(rt);
                active.writer.sent()
            }
            None => Traffic::none(),
        }
    }
}

impl<T: Transport, C: Cut> ActiveWriter<T, C> {
    // Sends its frames, on the connection that is asked.
    fn send<R: Wait>(&mut self, rt: &R, asked: Asked<T, C>) {
        let Asked { side, peer } = asked;
        if let Some(side) = side {
            self.writer.begin(side);
        }
        self.writer.hear(peer);
        self.writer.add_all(&self.frames);
        self.writer.flush(rt);
    }
}

// Puts frames behind those that wait, where there is room for all of them.
fn put_all<T: Drop, C: Drop>(
    waiting: &mut QueueState<T, C>,
    frames: &[Outgoing],
    left_out: usize,
    is_behind: bool,
) {
    if waiting.has_room(frames.len()) {
        let _ = waiting.add(frames, left_out, is_behind);
    }
}

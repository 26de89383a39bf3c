ghost use Rattle.std.specs.Prelude.{◌≡◌, ◌≢◌, ℕ, ◌+◌, ◌≤◌, ◌<◌, List, [], ◌∷◌, map, option_map, slice_get, false, Some};
ghost use Rattle.std.specs.Prelude.{Ok, Err, if◌then◌else◌, nat_eq, OnOk, OnErr, IsOk, IfSome, length, ◌++◌, slice_set};
ghost use Rattle.link.specs.Image.{Image, EndView, after_close, answer_of};
ghost use Rattle.node.specs.Mail.{Mail, posted, all_posted, count_for, lacks_at, lacks_room, with_frame};
ghost use Rattle.node.specs.Step.{received, received_at};
ghost use Rattle.node.specs.Box.{HasMemory, NoneLost, IsReadyFor, IsReady, reserved_at, images, reserves};
ghost use Rattle.node.specs.declared.fault.NodeFault.TheVariants as Faults;

use crate::fault::NodeFault;
use crate::memory::Memory;
use crate::outgoing::Outgoing;
use link::LinkEnd;
use protocol::Post;
use signal::{Frame, Signal};
use std::alloc::Global;
use std::marker::Model;
use std::mem;

/// The link ends of a node, and the frames that go out in one step.
///
/// A node reserves first, all that it will send, and then puts: what is reserved can be put without memory. A signal
/// for a closed end, or for a peer that isn't there, is dropped.
#[derive(Drop)]
pub struct Outbox {
    alloc: Global,
    ends: Vec<LinkEnd>,
    frames: Vec<Outgoing>,
    places: usize,
}

impl Model for Outbox {
    ghost use Rattle.std.specs.Prelude.{◌+◌, ◌≤◌, vec_len};
    ghost use Rattle.std.specs.Vec.{vec_capacity};
    ghost use Rattle.node.specs.Box as box;

    ghost Value = { box.Outbox };

    ghost view = { λ b. record {
      mail = record { ends = box.images b.ends.items; frames = b.frames.items };
      reserved = box.reserves b.ends.items;
      places = b.places;
    } };

    ghost invariant = { λ b. vec_len b.frames + b.places ≤ vec_capacity b.frames };
}

impl Outbox {
    /// An outbox with nothing to send; peer p's end stands at place p.
    pub fn new(alloc: Global, ends: Vec<LinkEnd>) -> Outbox
        ensures ends { result.mail.ends ≡ images ends.items }
        ensures frames { result.mail.frames ≡ [] }
    {
        Outbox {
            alloc,
            ends,
            frames: Vec::new(alloc),
            places: 0,
        }
    }

    /// A peer's end.
    pub fn end(&self, peer: usize) -> Option<&LinkEnd>
        ensures image { option_map (λ e. e.now.image) result ≡ slice_get self.now.mail.ends peer }
        ensures there { IfSome result (λ _. peer < length self.now.mail.ends) }
    {
        self.ends.get(peer)
    }

    /// The end of a peer that is there.
    pub(crate) fn at(&self, peer: usize) -> &LinkEnd
        requires { peer < length self.now.mail.ends }
        ensures { slice_get self.now.mail.ends peer ≡ Some result.now.image }
    {
        &self.ends[peer]
    }

    /// Sees that this many signals for a peer can be put: there is room at its end, and memory is taken. It is called
    /// once for each peer, with the count of all signals for it.
    pub fn reserve(&mut self, peer: usize, count: usize) -> Result<(), NodeFault>
        ensures answer { result ≢ Err Faults.Memory
            → result ≡ (if lacks_at peer count self.old.mail.ends then Err Faults.NoRoom else Ok tt) }
        ensures ready { OnOk result (IsReadyFor self.new peer count) }
        ensures places { OnOk result (self.new.places ≡ self.old.places + count) }
        ensures none_lost { NoneLost self.old.reserved self.new.reserved }
        ensures mail { self.new.mail ≡ self.old.mail }
    {
        reserve_end(&mut self.ends, peer, count)?;
        self.reserve_places(count)
    }

    /// Sees that all these posts can be put.
    pub fn reserve_all(&mut self, posts: &[Post]) -> Result<(), NodeFault>
        ensures answer { result ≢ Err Faults.Memory
            → result ≡ (if lacks_room self.old.mail.ends posts.now then Err Faults.NoRoom else Ok tt) }
        ensures ready { OnOk result (IsReady self.new posts.now) }
        ensures mail { self.new.mail ≡ self.old.mail }
    {
        if posts.is_empty() {
            return Ok(());
        }
        reserve_ends(&mut self.ends, posts)?;
        self.reserve_places(posts.len())
    }

    /// Puts a signal for a peer.
    pub fn put(&mut self, peer: usize, signal: Signal)
        requires ready { IsReadyFor self.old peer 1 }
        requires place { 1 ≤ self.old.places }
        ensures put { self.new.mail ≡ posted self.old.mail (record { peer = peer; signal = signal }) }
        ensures one_used { (p : ℕ) → reserved_at self.old.reserved p
            ≤ reserved_at self.new.reserved p + (if nat_eq p peer then 1 else 0) }
        ensures place_used { self.new.places + 1 ≡ self.old.places }
    {
        self.places -= 1;
        if let Some(frame) = offer_at(&mut self.ends, peer, signal) {
            self.frames.push_reserved(Outgoing { peer, frame });
        }
    }

    /// Puts all these, in order.
    pub fn put_all(&mut self, posts: &[Post])
        requires { IsReady self.old posts.now }
        ensures { self.new.mail ≡ all_posted self.old.mail posts.now }
    {
        for post in posts {
            self.put(post.peer, post.signal);
        }
    }

    /// Where its memory comes from.
    pub(crate) fn alloc(&self) -> Global {
        self.alloc
    }

    /// The frame that goes out before those of the node.
    pub(crate) fn begin(&mut self, peer: usize, frame: Frame) -> Result<(), Memory>
        ensures begun { OnOk result (self.new.mail
            ≡ record {
              ends = self.old.mail.ends;
              frames = self.old.mail.frames
                  ++ record { peer = peer; frame = frame } ∷ [];
            }) }
        ensures refused { OnErr result (self.new.mail ≡ self.old.mail) }
    {
        self.places = 0;
        self.frames.reserve(1)?;
        self.frames.push_reserved(Outgoing { peer, frame });
        Ok(())
    }

    /// Another frame in place of the first.
    pub(crate) fn replace_first(&mut self, peer: usize, frame: Frame)
        requires { 0 < length self.old.mail.frames }
        ensures { self.new.mail ≡ record {
          ends = self.old.mail.ends;
          frames = slice_set self.old.mail.frames 0
              (record { peer = peer; frame = frame });
        } }
    {
        self.frames[0] = Outgoing { peer, frame };
    }

    /// Takes in a frame at a peer's end, which doesn't refuse it.
    pub(crate) fn receive(&mut self, peer: usize, frame: &Frame)
        requires { (e : Image) → slice_get self.old.mail.ends peer ≡ Some e → IsOk (answer_of e frame.now) }
        ensures { self.new.mail ≡ received peer frame.now self.old.mail }
    {
        receive_at(&mut self.ends, peer, frame);
    }

    /// Closes a peer's end.
    pub(crate) fn close(&mut self, peer: usize)
        ensures frames { self.new.mail.frames ≡ self.old.mail.frames }
        ensures ends { (e : Image) → slice_get self.old.mail.ends peer ≡ Some e
            → self.new.mail.ends ≡ slice_set self.old.mail.ends peer (after_close e) }
    {
        close_at(&mut self.ends, peer);
    }

    /// The frames, which are gone from here.
    pub(crate) fn take_frames(&mut self) -> Vec<Outgoing>
        ensures taken { result.items ≡ self.old.mail.frames }
        ensures left { self.new.mail ≡ record { ends = self.old.mail.ends; frames = [] } }
    {
        self.places = 0;
        mem::replace(&mut self.frames, Vec::new(self.alloc))
    }

    /// Drops the frames, and keeps their room.
    pub(crate) fn clear_frames(&mut self)
        ensures { self.new.mail ≡ record { ends = self.old.mail.ends; frames = [] } }
    {
        self.places = 0;
        self.frames.clear();
    }

    /// Takes back the room of frames that were taken, where there is no frame. Of two rooms the larger one stays: a
    /// reply that says nothing has none.
    pub(crate) fn reuse(&mut self, mut frames: Vec<Outgoing>)
        requires { self.old.mail.frames ≡ [] }
        ensures { self.new.mail ≡ self.old.mail }
    {
        if self.frames.capacity() < frames.capacity() {
            frames.clear();
            self.places = 0;
            self.frames = frames;
        }
    }

    // Memory for this many more frames.
    fn reserve_places(&mut self, count: usize) -> Result<(), NodeFault>
        ensures answer { result ≢ Err Faults.Memory → result ≡ Ok tt }
        ensures places { OnOk result (self.new.places ≡ self.old.places + count) }
        ensures reserved { self.new.reserved ≡ self.old.reserved }
        ensures mail { self.new.mail ≡ self.old.mail }
    {
        let Some(places) = self.places.checked_add(count) else {
            return Err(NodeFault::Memory);
        };
        self.frames.reserve(places)?;
        self.places = places;
        Ok(())
    }
}

// Takes in a frame at a peer's end.
fn receive_at(ends: &mut Vec<LinkEnd>, peer: usize, frame: &Frame)
    requires { (e : Image) → slice_get (images ends.old.items) peer ≡ Some e → IsOk (answer_of e frame.now) }
    ensures { images ends.new.items
        ≡ received_at (images ends.old.items) peer frame.now (slice_get (images ends.old.items) peer) }
{
    if let Some(end) = ends.get_mut(peer) {
        end.receive(frame);
    }
}

// Closes a peer's end.
fn close_at(ends: &mut Vec<LinkEnd>, peer: usize)
    ensures { (e : Image) → slice_get (images ends.old.items) peer ≡ Some e
        → images ends.new.items ≡ slice_set (images ends.old.items) peer (after_close e) }
{
    if let Some(end) = ends.get_mut(peer) {
        end.close();
    }
}

// How many posts are for a peer.
fn count_for(posts: &[Post], peer: usize) -> usize
    ensures { result ≡ count_for peer posts.now }
{
    posts.iter().filter(|post| post.peer == peer).count()
}

// Room and memory at a peer's end.
fn reserve_end(ends: &mut Vec<LinkEnd>, peer: usize, count: usize) -> Result<(), NodeFault>
    ensures answer { result ≢ Err Faults.Memory
        → result ≡ (if lacks_at peer count (images ends.old.items) then Err Faults.NoRoom else Ok tt) }
    ensures memory { OnOk result (HasMemory (images ends.new.items) (reserves ends.new.items) peer count) }
    ensures none_lost { NoneLost (reserves ends.old.items) (reserves ends.new.items) }
    ensures images { images ends.new.items ≡ images ends.old.items }
{
    if count == 0 {
        return Ok(());
    }
    let Some(end) = ends.get_mut(peer) else {
        return Ok(());
    };
    if end.is_closed() {
        return Ok(());
    }
    if end.room_left() < count {
        return Err(NodeFault::NoRoom);
    }
    if end.reserve(count).is_err() {
        return Err(NodeFault::Memory);
    }
    Ok(())
}

// Room and memory at each end, for the posts to it. Mostly there are few posts, and many ends at the coordinator.
fn reserve_ends(ends: &mut Vec<LinkEnd>, posts: &[Post]) -> Result<(), NodeFault>
    ensures answer { result ≢ Err Faults.Memory
        → result ≡ (if lacks_room (images ends.old.items) posts.now then Err Faults.NoRoom else Ok tt) }
    ensures memory { OnOk result ((p : ℕ)
        → HasMemory (images ends.new.items) (reserves ends.new.items) p (count_for p posts.now)) }
    ensures images { images ends.new.items ≡ images ends.old.items }
{
    if posts.len() < ends.len() {
        reserve_by_post(ends, posts)
    } else {
        reserve_by_end(ends, posts)
    }
}

// The same post by post. Where a peer comes again, nothing is left to reserve at its end.
fn reserve_by_post(ends: &mut Vec<LinkEnd>, posts: &[Post]) -> Result<(), NodeFault>
    ensures answer { result ≢ Err Faults.Memory
        → result ≡ (if lacks_room (images ends.old.items) posts.now then Err Faults.NoRoom else Ok tt) }
    ensures memory { OnOk result ((p : ℕ)
        → HasMemory (images ends.new.items) (reserves ends.new.items) p (count_for p posts.now)) }
    ensures images { images ends.new.items ≡ images ends.old.items }
{
    for post in posts {
        reserve_end(ends, post.peer, count_for(posts, post.peer))?;
    }
    Ok(())
}

// The same end by end.
fn reserve_by_end(ends: &mut Vec<LinkEnd>, posts: &[Post]) -> Result<(), NodeFault>
    ensures answer { result ≢ Err Faults.Memory
        → result ≡ (if lacks_room (images ends.old.items) posts.now then Err Faults.NoRoom else Ok tt) }
    ensures memory { OnOk result ((p : ℕ)
        → HasMemory (images ends.new.items) (reserves ends.new.items) p (count_for p posts.now)) }
    ensures images { images ends.new.items ≡ images ends.old.items }
{
    for peer in 0..ends.len() {
        reserve_end(ends, peer, count_for(posts, peer))?;
    }
    Ok(())
}

// Offers a signal at a peer's end.
fn offer_at(ends: &mut Vec<LinkEnd>, peer: usize, signal: Signal) -> Option<Frame>
    requires { (e : EndView) → slice_get ends.old.items peer ≡ Some e → e.image.closed ≡ false → 0 < e.reserved }
    ensures posted { (frames : List Outgoing)
        → posted (record { ends = images ends.old.items; frames = frames }) (record { peer = peer; signal = signal })
        ≡ record { ends = images ends.new.items; frames = with_frame frames peer result } }
    ensures one_used { (p : ℕ) → reserved_at (reserves ends.old.items) p
        ≤ reserved_at (reserves ends.new.items) p + (if nat_eq p peer then 1 else 0) }
{
    match ends.get_mut(peer)?.offer(signal) {
        Ok(frame) => Some(frame),
        Err(_) => None,
    }
}

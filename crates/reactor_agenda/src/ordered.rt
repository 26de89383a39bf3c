ghost use Rattle.std.specs.Prelude.{◌≡◌, ◌<◌, ◌++◌, ◌∷◌, true, false, IfOk, IfNone, IfSome, OnOk, OnErr, Some, None};
ghost use Rattle.std.specs.Prelude.{[], drop};
ghost use Rattle.std.specs.List.{HoldsAt};
ghost use Rattle.std.specs.Ordering.{is_eq, is_lt};
ghost use Rattle.std.specs.VecDeque.{deque_capacity, deque_len};
ghost use Rattle.network.specs.Undone.{put, Rises};
ghost use Rattle.reactor_agenda.specs.Agenda.{least_in};
ghost use Rattle.reactor_agenda.specs.Invariant.{held_at, held_in, key_cmp, to_first, to_last, undo_to, AreOthers};

use crate::key::Key;
use crate::memory::Memory;
use std::alloc::Global;
use std::cmp::Ordering;
use std::collections::{BTreeMap, VecDeque};
use std::marker::Model;
use tag::Tag;

/// What was put, in order. As long as each event comes after all that are there, or before them, only the queue is
/// used.
#[derive(Drop)]
pub struct Puts {
    /// The events that come first; there is one where there are others.
    pub front: VecDeque<(Key, i64), Global>,
    /// The others, all later.
    pub rest: BTreeMap<Key, i64, Global>,
}

impl Model for Puts {
    ghost use Rattle.std.specs.Prelude.{◌++◌, List};
    ghost use Rattle.network.specs.Undone.{PendingEvent};
    ghost use Rattle.reactor_agenda.specs.Invariant.{held_in, IsQueued};

    ghost Value = { List PendingEvent };

    ghost view = { λ p. held_in (p.front.items ++ p.rest.entries) };

    ghost invariant = { λ p. IsQueued p.front.items p.rest.entries };
}

impl Puts {
    pub fn new(alloc: Global) -> Puts
        ensures { result ≡ [] }
    {
        Puts {
            front: VecDeque::new(alloc),
            rest: BTreeMap::new(alloc),
        }
    }

    /// Puts a value, and gives the one that it replaces.
    pub fn insert(&mut self, key: Key, value: i64) -> Result<Option<i64>, Memory>
        ensures put { OnOk result (self.new ≡ put (held_at (key, value)) self.old) }
        ensures was { IfOk result (λ was. undo_to key was self.new ≡ self.old) }
        ensures err { OnErr result (self.new ≡ self.old) }
    {
        // The queue has room for all that follows.
        self.front.reserve(1)?;
        if first_cmp(&self.front, &key).is_lt() {
            self.front.push_front_reserved((key, value));
            return Ok(None);
        }
        move_later(&mut self.front, &mut self.rest, &key)?;
        if let Some(was) = take_last(&mut self.front, &key) {
            self.front.push_back_reserved((key, value));
            return Ok(Some(was));
        }
        if self.rest.is_empty() {
            self.front.push_back_reserved((key, value));
            return Ok(None);
        }
        Ok(self.rest.insert(key, value)?)
    }

    /// Takes out what is there for a slot at a tag. It needs no memory.
    pub fn remove(&mut self, key: &Key)
        ensures { self.new ≡ undo_to key.now None self.old }
    {
        match place_of(&self.front, key) {
            Some(place) => {
                self.front.remove(place);
                refill(&mut self.front, &mut self.rest);
            }
            None => {
                self.rest.remove(key);
            }
        }
    }

    /// Gives a slot at a tag another value, where it has one. It needs no memory.
    pub fn replace(&mut self, key: Key, value: i64)
        ensures { self.new ≡ undo_to key (Some value) self.old }
    {
        match place_of(&self.front, &key) {
            Some(place) => self.front[place] = (key, value),
            None => replace_in(&mut self.rest, key, value),
        }
    }

    /// Lets go of the first.
    pub fn drop_first(&mut self)
        ensures { self.new ≡ drop 1 self.old }
    {
        if self.front.pop_front().is_some() {
            refill(&mut self.front, &mut self.rest);
        }
    }

    /// The tag of the first, or FOREVER where nothing was put.
    pub fn first_tag(&self) -> Tag
        ensures { result ≡ least_in self.now }
    {
        match self.front.front() {
            Some((key, _)) => key.tag.tag(),
            None => Tag::FOREVER,
        }
    }

    /// For the prover: what was put is in order.
    pub fn in_order(&self)
        ensures { Rises self.now }
    {
        let _front = &self.front;
    }
}

// How a key stands to the first, or `Less` where there is none.
fn first_cmp(front: &VecDeque<(Key, i64), Global>, key: &Key) -> Ordering
    ensures { result ≡ to_first key.now front.now.items }
{
    match front.front() {
        Some((first, _)) => key.cmp(first),
        None => Ordering::Less,
    }
}

// How a key stands to the last, or `Greater` where there is none.
fn last_cmp(front: &VecDeque<(Key, i64), Global>, key: &Key) -> Ordering
    ensures { result ≡ to_last key.now front.now.items }
{
    match front.back() {
        Some((last, _)) => key.cmp(last),
        None => Ordering::Greater,
    }
}

// Moves those later than a key to the others, the last first; after `Memory` what was moved stays there.
fn move_later(
    front: &mut VecDeque<(Key, i64), Global>,
    rest: &mut BTreeMap<Key, i64, Global>,
    key: &Key,
) -> Result<(), Memory>
    requires rises { Rises (held_in (front.old.items ++ rest.old.entries)) }
    requires first { is_lt (to_first key.now front.old.items) ≡ false }
    requires room { deque_len front.old < deque_capacity front.old }
    ensures all { front.new.items ++ rest.new.entries ≡ front.old.items ++ rest.old.entries }
    ensures first { to_first key.now front.new.items ≡ to_first key.now front.old.items }
    ensures last { OnOk result (is_lt (to_last key.now front.new.items) ≡ false) }
    ensures room { deque_len front.new < deque_capacity front.new }
{
    while last_cmp(front, key).is_lt() {
        let Some((last, value)) = front.pop_back() else {
            return Ok(());
        };
        match rest.insert(last, value) {
            Ok(_) => {}
            Err(refused) => {
                front.push_back_reserved(refused.value);
                return Err(Memory);
            }
        }
    }
    Ok(())
}

// Takes out the last, where it is for a key.
fn take_last(front: &mut VecDeque<(Key, i64), Global>, key: &Key) -> Option<i64>
    ensures taken { IfSome result (λ value. front.old.items ≡ front.new.items ++ (key.now, value) ∷ []) }
    ensures other { IfNone result ((front.new.items ≡ front.old.items)
        × (is_eq (to_last key.now front.old.items) ≡ false)) }
    ensures room { deque_len front.old < deque_capacity front.old → deque_len front.new < deque_capacity front.new }
{
    if !last_cmp(front, key).is_eq() {
        return None;
    }
    match front.pop_back() {
        Some((_, value)) => Some(value),
        None => None,
    }
}

// Moves the first of the others to the front, where that is empty.
fn refill(front: &mut VecDeque<(Key, i64), Global>, rest: &mut BTreeMap<Key, i64, Global>)
    requires { deque_len front.old < deque_capacity front.old }
    ensures all { front.new.items ++ rest.new.entries ≡ front.old.items ++ rest.old.entries }
    ensures next { front.new.items ≡ [] → rest.new.entries ≡ [] }
{
    if !front.is_empty() {
        return;
    }
    if let Some(first) = rest.pop_first() {
        front.push_back_reserved(first);
    }
}

// Where the value for a key is.
fn place_of(front: &VecDeque<(Key, i64), Global>, key: &Key) -> Option<usize>
    requires { Rises (held_in front.now.items) }
    ensures found { IfSome result (λ place. place < deque_len front.now) }
    ensures key { IfSome result (HoldsAt (λ e. key_cmp e.0 key.now ≡ Ordering.Equal) front.now.items) }
    ensures none { IfNone result (AreOthers key.now front.now.items) }
{
    front.binary_search_by_key(key, |&(other, _)| other).ok()
}

// Gives a slot at a tag another value, where it has one. That takes no memory.
fn replace_in(rest: &mut BTreeMap<Key, i64, Global>, key: Key, value: i64)
    ensures { held_in rest.new.entries ≡ undo_to key (Some value) (held_in rest.old.entries) }
{
    if rest.contains_key(&key) {
        match rest.insert(key, value) {
            Ok(_was) => {}
            Err(_refused) => {}
        }
    }
}

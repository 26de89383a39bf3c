//! The frames of all directions from or to the coordinator, by federate.
ghost use Rattle.std.specs.Prelude.{◌≡◌, ℕ, ◌+◌, ◌<◌, ◌≤◌, ◌++◌, ◌∷◌, [], if◌then◌else◌, nat_eq, length, map, set};
ghost use Rattle.std.specs.Prelude.{get_or, slice_get, replicate, option_map, OnOk, IfOk};
ghost use Rattle.world_stations.specs.World.{sent_out, frame_at};
ghost use Rattle.world_stations.specs.Room.{most_to, most_ever_to, frames_of_each, spare_at, AllSpare, IsReserved};
ghost use Rattle.world_stations.specs.Room.{NoneLost, Fits};

use crate::memory::Memory;
use crate::sent::Sent;
use node::{Node, Outgoing, Station};
use signal::Frame;
use std::alloc::Global;

// How many frames a station sends to a peer in one step at most.
fn most_to<N: Node>(station: &Station<N>, peer: usize) -> Result<usize, Memory>
    ensures { IfOk result (λ most. most ≡ most_to (slice_get station.now.ends peer)) }
{
    let Some(end) = station.end(peer) else {
        return Ok(0);
    };
    end.room_left()
        .max(end.unacked())
        .checked_add(1)
        .ok_or(Memory)
}

// How many frames a station sends to a peer at most in any step to come.
fn most_ever_to<N: Node>(station: &Station<N>, peer: usize) -> Result<usize, Memory>
    ensures { IfOk result (λ most. most ≡ most_ever_to (slice_get station.now.ends peer)) }
{
    let Some(end) = station.end(peer) else {
        return Ok(0);
    };
    end.room().max(end.unacked()).checked_add(1).ok_or(Memory)
}

// How many frames a station sends to one of its first peers at most in any step to come.
fn most_ever<N: Node>(station: &Station<N>, peers: usize) -> Result<usize, Memory>
    ensures { IfOk result (λ most. (j : ℕ) → j < peers → most_ever_to (slice_get station.now.ends j) ≤ most) }
{
    let mut most = 0;
    for peer in 0..peers {
        most = most_ever_to(station, peer)?.max(most);
    }
    Ok(most)
}

/// Memory for this many frames in each direction. Where there is less, it is taken twice over, so that it is seldom
/// asked for. The answer is for how many there is now.
pub(crate) fn reserve_ahead(
    sent: &mut Vec<Sent>,
    most: usize,
    spare: usize,
) -> Result<usize, Memory>
    requires { AllSpare spare sent.old.items }
    ensures enough { IfOk result (λ count. most ≤ count) }
    ensures memory { IfOk result (λ count. AllSpare count sent.new.items) }
    ensures none_lost { NoneLost sent.old.items sent.new.items }
    ensures frames { frames_of_each sent.new.items ≡ frames_of_each sent.old.items }
    ensures len { length sent.new.items ≡ length sent.old.items }
{
    if most <= spare {
        return Ok(spare);
    }
    let count = most.checked_add(most).ok_or(Memory)?;
    reserve_each(sent, count)?;
    Ok(count)
}

// Memory for this many frames in each direction.
fn reserve_each(sent: &mut Vec<Sent>, count: usize) -> Result<(), Memory>
    ensures memory { OnOk result (AllSpare count sent.new.items) }
    ensures none_lost { NoneLost sent.old.items sent.new.items }
    ensures frames { frames_of_each sent.new.items ≡ frames_of_each sent.old.items }
    ensures len { length sent.new.items ≡ length sent.old.items }
{
    for place in 0..sent.len() {
        reserve_at(sent, place, count)?;
    }
    Ok(())
}

/// Memory for this many frames in one direction.
pub(crate) fn reserve_at(sent: &mut Vec<Sent>, place: usize, count: usize) -> Result<(), Memory>
    ensures spare { OnOk result (place < length sent.new.items → count ≤ spare_at sent.new.items place) }
    ensures none_lost { NoneLost sent.old.items sent.new.items }
    ensures frames { frames_of_each sent.new.items ≡ frames_of_each sent.old.items }
    ensures len { length sent.new.items ≡ length sent.old.items }
{
    if let Some(direction) = sent.get_mut(place) {
        direction.reserve(count)?;
    }
    Ok(())
}

/// Memory for all that the station may send to its first peer in one step.
pub(crate) fn reserve_first<N: Node>(
    sent: &mut Vec<Sent>,
    place: usize,
    station: &Station<N>,
) -> Result<(), Memory>
    ensures spare { OnOk result (place < length sent.new.items
        → most_to (slice_get station.now.ends 0) ≤ spare_at sent.new.items place) }
    ensures frames { frames_of_each sent.new.items ≡ frames_of_each sent.old.items }
    ensures len { length sent.new.items ≡ length sent.old.items }
{
    reserve_at(sent, place, most_to(station, 0)?)
}

// A frame in a direction, if that is there.
fn append(sent: &mut Vec<Sent>, place: usize, frame: Frame)
    requires { place < length sent.old.items → 0 < spare_at sent.old.items place }
    ensures frames { frames_of_each sent.new.items
        ≡ set (frames_of_each sent.old.items) place (get_or (frames_of_each sent.old.items) place [] ++ frame ∷ []) }
    ensures one_used { (j : ℕ) → spare_at sent.old.items j
        ≤ spare_at sent.new.items j + (if nat_eq place j then 1 else 0) }
    ensures len { length sent.new.items ≡ length sent.old.items }
{
    if let Some(direction) = sent.get_mut(place) {
        direction.put(frame);
    }
}

/// Each frame in the direction of its peer.
pub(crate) fn append_each(sent: &mut Vec<Sent>, outgoing: &[Outgoing])
    requires { Fits outgoing.now sent.old.items }
    ensures frames { frames_of_each sent.new.items ≡ sent_out (frames_of_each sent.old.items) outgoing.now }
    ensures few_used { (j : ℕ) → spare_at sent.old.items j ≤ spare_at sent.new.items j + length outgoing.now }
    ensures len { length sent.new.items ≡ length sent.old.items }
{
    for out in outgoing {
        append(sent, out.peer, out.frame);
    }
}

/// All frames in one direction.
pub(crate) fn append_all(sent: &mut Vec<Sent>, place: usize, outgoing: &[Outgoing])
    requires { place < length sent.old.items → length outgoing.now ≤ spare_at sent.old.items place }
    ensures { frames_of_each sent.new.items
        ≡ set (frames_of_each sent.old.items) place
        (get_or (frames_of_each sent.old.items) place [] ++ map (λ out. out.frame) outgoing.now) }
{
    for out in outgoing {
        append(sent, place, out.frame);
    }
}

/// All directions of a world, by federate.
#[derive(Drop)]
pub(crate) struct Directions {
    pub(crate) up: Vec<Sent>,
    pub(crate) down: Vec<Sent>,
    /// No step of the coordinator sends more frames to one federate.
    pub(crate) most: usize,
}

/// No frame in each direction from and to this many federates.
pub(crate) fn none_used<N: Node>(
    alloc: Global,
    coordinator: &Station<N>,
    count: usize,
) -> Result<Directions, Memory>
    ensures up { IfOk result (λ directions. frames_of_each directions.up.items ≡ replicate count []) }
    ensures down { IfOk result (λ directions. frames_of_each directions.down.items ≡ replicate count []) }
    ensures reserved { IfOk result
        (λ directions. IsReserved coordinator.now.ends directions.down.items directions.most 0) }
{
    let most = most_ever(coordinator, count)?;
    let up = none_sent(alloc, count)?;
    let down = none_sent(alloc, count)?;
    Ok(Directions { up, down, most })
}

// No frame in each of this many directions.
fn none_sent(alloc: Global, count: usize) -> Result<Vec<Sent>, Memory>
    ensures { IfOk result (λ sent. frames_of_each sent.items ≡ replicate count []) }
{
    let mut sent = Vec::with_capacity(alloc, count)?;
    for _ in 0..count {
        sent.push_reserved(Sent::new(alloc));
    }
    Ok(sent)
}

/// The k-th frame in a direction, counted from 1.
pub(crate) fn nth(sent: &[Sent], place: usize, k: usize) -> Option<&Frame>
    ensures { option_map (λ frame. frame.now) result ≡ frame_at (get_or (frames_of_each sent.now) place []) k }
{
    sent.get(place)?.nth(k)
}

/// How many frames were sent in a direction.
pub(crate) fn count(sent: &[Sent], place: usize) -> usize
    ensures { result ≡ length (get_or (frames_of_each sent.now) place []) }
{
    match sent.get(place) {
        Some(direction) => direction.count(),
        None => 0,
    }
}

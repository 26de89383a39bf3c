ghost use Rattle.std.specs.Prelude.{◌≡◌, ◌+◌, ◌<◌, ◌≤◌, ◌++◌, ◌∷◌, [], length, option_map, OnOk};
ghost use Rattle.world_stations.specs.World.{frame_at};

use crate::memory::Memory;
use signal::{Frame, Signal};
use std::alloc::Global;
use std::marker::{Model, PhantomData};

/// All frames ever sent in one direction, oldest first.
#[derive(Drop)]
pub struct Sent {
    frames: Vec<Frame>,
    // For the prover: it looks here for what a frame carries.
    carries: PhantomData<Signal>,
}

impl Model for Sent {
    ghost use Rattle.std.specs.Prelude.{◌-◌, vec_len};
    ghost use Rattle.std.specs.Vec.{vec_capacity};
    ghost use Rattle.world_stations.specs.Room.{SentView};

    ghost Value = { SentView };

    ghost view = { λ s. record { frames = s.frames.items; spare = vec_capacity s.frames - vec_len s.frames } };
}

impl Sent {
    /// No frame.
    pub(crate) fn new(alloc: Global) -> Sent
        ensures { result.frames ≡ [] }
    {
        Sent {
            frames: Vec::new(alloc),
            carries: PhantomData,
        }
    }

    /// How many frames were sent.
    pub fn count(&self) -> usize
        ensures { result ≡ length self.now.frames }
    {
        self.frames.len()
    }

    /// The k-th frame, counted from 1.
    pub fn nth(&self, k: usize) -> Option<&Frame>
        ensures { option_map (λ frame. frame.now) result ≡ frame_at self.now.frames k }
    {
        let before = k.checked_sub(1)?;
        self.frames.get(before)
    }

    /// Sees that this many frames can be put without memory.
    pub(crate) fn reserve(&mut self, count: usize) -> Result<(), Memory>
        ensures spare { OnOk result (count ≤ self.new.spare) }
        ensures none_lost { self.old.spare ≤ self.new.spare }
        ensures frames { self.new.frames ≡ self.old.frames }
    {
        self.frames.reserve(count)?;
        Ok(())
    }

    /// Puts a frame after all others.
    pub(crate) fn put(&mut self, frame: Frame)
        requires { 0 < self.old.spare }
        ensures frames { self.new.frames ≡ self.old.frames ++ frame ∷ [] }
        ensures one_used { self.new.spare + 1 ≡ self.old.spare }
    {
        self.frames.push_reserved(frame);
    }
}

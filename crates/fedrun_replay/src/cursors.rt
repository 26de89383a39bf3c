ghost use Rattle.std.specs.Prelude.{◌≡◌, get_or, set, replicate, IfOk};
ghost use Rattle.world_progress.specs.Rounds.{cursor_in, moved_to};
ghost use Rattle.fedrun_replay.specs.Play.{unmoved};

use std::alloc::{AllocError, Global};
use std::marker::Model;
use world_stations::Dir;

/// How many frames of each direction rounds have gone past.
#[derive(Drop)]
pub struct Cursors {
    up: Vec<usize>,
    down: Vec<usize>,
}

impl Model for Cursors {
    ghost use Rattle.world_progress.specs.Rounds.{Cursors as CursorsOf};

    ghost Value = { CursorsOf };

    ghost view = { λ c. record { up = c.up.items; down = c.down.items } };
}

impl Cursors {
    /// Of this many federates; none was gone past.
    pub fn new(alloc: Global, federates: usize) -> Result<Cursors, AllocError>
        ensures { IfOk result (λ cursors. cursors ≡ unmoved federates) }
    {
        let up = zeros(alloc, federates)?;
        let down = zeros(alloc, federates)?;
        Ok(Cursors { up, down })
    }

    /// How many of a direction.
    pub fn at(&self, dir: Dir) -> usize
        ensures { result ≡ cursor_in self.now dir }
    {
        match dir {
            Dir::Up(federate) => number_at(&self.up, federate),
            Dir::Down(federate) => number_at(&self.down, federate),
        }
    }

    /// Rounds have gone past this many of a direction.
    pub fn go_to(&mut self, dir: Dir, count: usize)
        ensures { self.new ≡ moved_to self.old dir count }
    {
        match dir {
            Dir::Up(federate) => put_at(&mut self.up, federate, count),
            Dir::Down(federate) => put_at(&mut self.down, federate, count),
        }
    }
}

fn zeros(alloc: Global, count: usize) -> Result<Vec<usize>, AllocError>
    ensures { IfOk result (λ zeros. zeros.items ≡ replicate count 0) }
{
    let mut zeros = Vec::new(alloc);
    zeros.resize(count, 0)?;
    Ok(zeros)
}

fn number_at(numbers: &[usize], place: usize) -> usize
    ensures { result ≡ get_or numbers.now place 0 }
{
    match numbers.get(place) {
        Some(number) => *number,
        None => 0,
    }
}

fn put_at(numbers: &mut [usize], place: usize, number: usize)
    ensures { numbers.new ≡ set numbers.old place number }
{
    if place < numbers.len() {
        numbers[place] = number;
    }
}

ghost use Rattle.std.specs.Prelude.{◌≡◌, ◌∷◌, [], ◌-◌, OnOk, IfOk, IfErr};
ghost use Rattle.std.specs.Io.KnownBytes.{Appends};
ghost use Rattle.plan.specs.External.{AreInputsOf};
ghost use Rattle.reactor_programs.specs.Programs.{AreProgramsOf};
ghost use Rattle.world_stations.specs.declared.dir.Dir.TheVariants as Dirs;
ghost use Rattle.world_progress.specs.Rounds.{makes, brings, cursor_in, moved_to, sent_in, delivers, for_each};
ghost use Rattle.world_progress.specs.Rounds.{turn_tasks, resend_tasks, round_tasks, closing_round_tasks};
ghost use Rattle.fedrun_replay.specs.Play.{unasked_player, count_in, playing_of, tasks_of, made_by, after_lines, told};
ghost use Rattle.fedrun_replay.specs.Play.{HasPlayed, HasTried, HasDone};
ghost use Rattle.fedrun_replay.specs.Closing.{IsClosing, IsPlaying};

use crate::cursors::Cursors;
use crate::fault::ReplayFault;
use fedrun_progress::Progress;
use files_script::{Command, ScheduleLine, Script};
use plan::{Inputs, Plan};
use reactor_programs::Programs;
use std::alloc::Global;
use std::io::Write;
use std::marker::Model;
use world::{Memory, World};
use world_stations::{Dir, Outcome, Step};

/// A world, and how many frames of each direction rounds have gone past.
#[derive(Drop)]
pub struct Player<'a> {
    world: World<'a>,
    cursors: Cursors,
}

impl<'a> Model for Player<'a> {
    ghost use Rattle.fedrun_replay.specs.Play.{PlayerView};

    ghost Value = { PlayerView };

    ghost view = { λ p. record { world = p.world; cursors = p.cursors } };
}

impl<'a> Player<'a> {
    /// A player of a world of which nothing was asked.
    pub fn new(
        alloc: Global,
        plan: &'a Plan,
        programs: &'a Programs,
        inputs: &'a Inputs,
    ) -> Result<Player<'a>, Memory>
        requires programs { AreProgramsOf plan.now programs.now }
        requires inputs { AreInputsOf plan.now inputs.now }
        ensures { IfOk result (λ player. player ≡ unasked_player plan.now programs.now inputs.now) }
    {
        let cursors = Cursors::new(alloc, plan.federate_count())?;
        let world = World::new(alloc, plan, programs, inputs)?;
        Ok(Player { world, cursors })
    }

    /// The world, with the steps made so far.
    pub fn world(&self) -> &World<'a>
        ensures { result.now ≡ self.now.world }
    {
        &self.world
    }

    /// Does what a schedule asks for; then closing rounds, for the line after its last, where they are asked for.
    pub fn play_on<W: Write, P: Progress>(
        &mut self,
        out: &mut W,
        script: &Script,
        closing: Option<u32>,
        progress: &P,
    ) -> Result<(), ReplayFault>
        ensures { IsPlaying result script.now closing self.old self.new (W.contents out.old) (W.contents out.new) }
    {
        self.play(out, script.lines(), progress)?;
        match closing {
            Some(most) => self.close(out, script.line_after(), most, progress),
            None => Ok(()),
        }
    }

    // Does what the lines of a schedule ask for, one after the other.
    fn play<W: Write, P: Progress>(
        &mut self,
        out: &mut W,
        lines: &[ScheduleLine],
        progress: &P,
    ) -> Result<(), ReplayFault>
        ensures { HasPlayed result (made_by (count_in self.old) lines.now (playing_of self.old))
            (after_lines (count_in self.old) lines.now (playing_of self.old)) self.old self.new (W.contents out.old)
            (W.contents out.new) }
    {
        for line in lines {
            self.obey(out, *line)?;
            progress.steps(self.world.steps().len());
        }
        Ok(())
    }

    /// Makes closing rounds for a line until the world is stuck, or this many were made.
    pub fn close<W: Write, P: Progress>(
        &mut self,
        out: &mut W,
        line: usize,
        most: u32,
        progress: &P,
    ) -> Result<(), ReplayFault>
        ensures { IsClosing result line most self.old self.new (W.contents out.old) (W.contents out.new) }
    {
        for _made in 0..most {
            if self.world.stuck() {
                return Ok(());
            }
            self.closing_round(out, line)?;
            progress.steps(self.world.steps().len());
        }
        Ok(())
    }

    /// Does what a line asks for.
    pub fn obey<W: Write>(&mut self, out: &mut W, line: ScheduleLine) -> Result<(), ReplayFault>
        ensures { HasDone result line.number (tasks_of (count_in self.old) line.command) self.old self.new
            (W.contents out.old) (W.contents out.new) }
    {
        match line.command {
            Command::Make(step) => self.make(out, line.number, step),
            Command::Skip(dir) => {
                self.skip(dir);
                Ok(())
            }
            Command::Round => self.round(out, line.number),
        }
    }

    // Rounds go past all frames sent in a direction so far.
    fn skip(&mut self, dir: Dir)
        ensures world { self.new.world ≡ self.old.world }
        ensures cursors { self.new.cursors ≡ moved_to self.old.cursors dir (sent_in (playing_of self.old) dir) }
    {
        let count = self.world.sent(dir);
        self.cursors.go_to(dir, count);
    }

    // At each link is sent again what isn't acknowledged, and a round is made.
    fn closing_round<W: Write>(&mut self, out: &mut W, line: usize) -> Result<(), ReplayFault>
        ensures { HasDone result line (closing_round_tasks (count_in self.old)) self.old self.new (W.contents out.old)
            (W.contents out.new) }
    {
        self.resend_each(out, line)?;
        self.round(out, line)
    }

    // At each federate's link in order, both senders send again what isn't acknowledged.
    fn resend_each<W: Write>(&mut self, out: &mut W, line: usize) -> Result<(), ReplayFault>
        ensures { HasDone result line (for_each resend_tasks (count_in self.old)) self.old self.new (W.contents out.old)
            (W.contents out.new) }
    {
        let count = self.world.federate_count();
        for federate in 0..count {
            self.resend(out, line, federate)?;
        }
        Ok(())
    }

    // Both senders of a link send again what isn't acknowledged.
    fn resend<W: Write>(
        &mut self,
        out: &mut W,
        line: usize,
        federate: usize,
    ) -> Result<(), ReplayFault>
        ensures { HasDone result line (resend_tasks federate) self.old self.new (W.contents out.old)
            (W.contents out.new) }
    {
        self.make(out, line, Step::Resend(Dir::Up(federate)))?;
        self.make(out, line, Step::Resend(Dir::Down(federate)))
    }

    // Each federate announces and advances; then what was sent comes, of all federates and then to all of them.
    fn round<W: Write>(&mut self, out: &mut W, line: usize) -> Result<(), ReplayFault>
        ensures { HasDone result line (round_tasks (count_in self.old)) self.old self.new (W.contents out.old)
            (W.contents out.new) }
    {
        self.turn_each(out, line)?;
        self.deliver_from_each(out, line)?;
        self.deliver_to_each(out, line)
    }

    // Each federate in order announces and advances.
    fn turn_each<W: Write>(&mut self, out: &mut W, line: usize) -> Result<(), ReplayFault>
        ensures { HasDone result line (for_each turn_tasks (count_in self.old)) self.old self.new (W.contents out.old)
            (W.contents out.new) }
    {
        let count = self.world.federate_count();
        for federate in 0..count {
            self.turn(out, line, federate)?;
        }
        Ok(())
    }

    // A federate announces and advances.
    fn turn<W: Write>(
        &mut self,
        out: &mut W,
        line: usize,
        federate: usize,
    ) -> Result<(), ReplayFault>
        ensures { HasDone result line (turn_tasks federate) self.old self.new (W.contents out.old)
            (W.contents out.new) }
    {
        self.make(out, line, Step::Announce(federate))?;
        self.make(out, line, Step::Advance(federate))
    }

    // What was sent by each federate in order comes to the coordinator.
    fn deliver_from_each<W: Write>(&mut self, out: &mut W, line: usize) -> Result<(), ReplayFault>
        ensures { HasDone result line (for_each (λ federate. brings (Dirs.Up federate) ∷ []) (count_in self.old))
            self.old self.new (W.contents out.old) (W.contents out.new) }
    {
        let count = self.world.federate_count();
        for sender in 0..count {
            self.deliver(out, line, Dir::Up(sender))?;
        }
        Ok(())
    }

    // What was sent to each federate in order comes to it.
    fn deliver_to_each<W: Write>(&mut self, out: &mut W, line: usize) -> Result<(), ReplayFault>
        ensures { HasDone result line (for_each (λ federate. brings (Dirs.Down federate) ∷ []) (count_in self.old))
            self.old self.new (W.contents out.old) (W.contents out.new) }
    {
        let count = self.world.federate_count();
        for receiver in 0..count {
            self.deliver(out, line, Dir::Down(receiver))?;
        }
        Ok(())
    }

    // What was sent in a direction, and rounds haven't gone past, comes in order. What is sent meanwhile waits.
    fn deliver<W: Write>(&mut self, out: &mut W, line: usize, dir: Dir) -> Result<(), ReplayFault>
        ensures { HasDone result line (brings dir ∷ []) self.old self.new (W.contents out.old) (W.contents out.new) }
    {
        let sent = self.world.sent(dir);
        self.deliver_until(out, line, dir, sent)?;
        self.cursors.go_to(dir, sent);
        Ok(())
    }

    // The frames of a direction above its cursor come, up to this number.
    fn deliver_until<W: Write>(
        &mut self,
        out: &mut W,
        line: usize,
        dir: Dir,
        sent: usize,
    ) -> Result<(), ReplayFault>
        ensures { HasTried result line
            (delivers dir (cursor_in self.old.cursors dir) (sent - cursor_in self.old.cursors dir)) self.old self.new
            (W.contents out.old) (W.contents out.new) }
    {
        for gone in self.cursors.at(dir)..sent {
            self.make(out, line, Step::Deliver(dir, gone + 1))?;
        }
        Ok(())
    }

    // Makes a step for a line, and prints where it is refused.
    fn make<W: Write>(&mut self, out: &mut W, line: usize, step: Step) -> Result<(), ReplayFault>
        ensures { HasDone result line (makes step ∷ []) self.old self.new (W.contents out.old) (W.contents out.new) }
    {
        let outcome = match self.world.apply(step) {
            Ok(outcome) => outcome,
            Err(memory) => return Err(ReplayFault::World(memory)),
        };
        write_outcome(out, line, outcome)
    }
}

// Prints a step that was refused.
fn write_outcome<W: Write>(out: &mut W, line: usize, outcome: Outcome) -> Result<(), ReplayFault>
    ensures ok { OnOk result (Appends (W.contents out.old) (W.contents out.new) (told line outcome)) }
    ensures err { IfErr result (λ fault. fault ≡ ReplayFault.CannotWrite) }
{
    match outcome {
        Outcome::Refused(number) => writeln!(out, "step {line} refused {number}").map_err(
            |_| ReplayFault::CannotWrite,
        ),
        _ => Ok(()),
    }
}

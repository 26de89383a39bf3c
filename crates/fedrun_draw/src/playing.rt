//! What is drawn of a schedule, step by step.
ghost use Rattle.std.specs.Prelude.{◌≡◌, ◌+◌, ◌∷◌, [], ◌++◌, IfOk, OnOk, length, vec_len};
ghost use Rattle.plan.specs.External.{AreInputsOf};
ghost use Rattle.reactor_programs.specs.Programs.{AreProgramsOf};
ghost use Rattle.fedrun_draw.specs.Drawn.{moment_lines, made_lines};

use crate::fault::OutOfMemory;
use crate::ways::{dir_of, forgets, is_frame, is_shown, outcome_ink, refusal, way_of};
use crate::wording::{frame_ink, frame_text, row_text, step_text};
use fedrun_frames::MadeStep;
use files_pictures::history::{Arrival, History, Moment, RowMark, Sending};
use files_pictures::shapes::{number_at, put_number, zeros};
use files_text::federate_name;
use plan::{Inputs, Plan};
use reactor::Rows;
use reactor_programs::Programs;
use std::alloc::{AllocError, Global};
use tag::Tag;
use world::{Dir, Outcome, Step, World};

/// What is seen of a world's steps, and how much of it was seen before.
#[derive(Drop)]
struct Recording<'a> {
    plan: &'a Plan,
    history: History,
    /// How many frames of each federate were seen, and to each.
    up: Vec<usize>,
    down: Vec<usize>,
    /// How many rows of each federate were seen.
    rows: Vec<usize>,
    /// The latest tag of a row that was seen.
    latest: Option<Tag>,
    /// The frames that came before the steps that are drawn.
    came: Vec<Came>,
}

/// A frame that came: the number-th from a federate, or to it.
#[derive(Clone, Copy, Debug, PartialEq, Eq)]
struct Came {
    federate: usize,
    is_up: bool,
    number: usize,
}

/// Makes steps in a world of its own, one after the other, and says what is drawn of those that are to be.
pub(crate) fn history_of(
    alloc: Global,
    plan: &Plan,
    programs: &Programs,
    inputs: &Inputs,
    before: &[MadeStep],
    drawn: &[MadeStep],
    after: &[MadeStep],
) -> Result<History, OutOfMemory>
    requires programs { AreProgramsOf plan.now programs.now }
    requires inputs { AreInputsOf plan.now inputs.now }
    ensures each { IfOk result (λ history. vec_len history.steps ≡ length drawn.now) }
    ensures lines { IfOk result (λ history. moment_lines history.steps.items ≡ made_lines drawn.now) }
{
    let mut world = World::new(alloc, plan, programs, inputs)?;
    let mut recording = Recording::new(alloc, plan)?;
    recording.pass_all(&mut world, before)?;
    recording.make_all(alloc, &mut world, drawn)?;
    recording.look_at_all(&mut world, after)?;
    Ok(recording.into_history())
}

impl<'a> Recording<'a> {
    // Nothing was seen.
    fn new(alloc: Global, plan: &'a Plan) -> Result<Recording<'a>, AllocError>
        ensures empty { IfOk result (λ recording. vec_len recording.history.steps ≡ 0) }
        ensures lines { IfOk result (λ recording. moment_lines recording.history.steps.items ≡ []) }
    {
        let count = plan.federate_count();
        let mut history = History::new(alloc);
        history.names = names(alloc, plan)?;
        let up = zeros(alloc, count)?;
        let down = zeros(alloc, count)?;
        let rows = zeros(alloc, count)?;
        Ok(Recording {
            plan,
            history,
            up,
            down,
            rows,
            latest: None,
            came: Vec::new(alloc),
        })
    }

    // What was seen, taken out.
    fn into_history(self) -> History
        ensures { result ≡ self.entry.history }
    {
        self.history
    }

    // The step that was made last.
    fn last_step(&self) -> usize {
        self.history.steps.len().saturating_sub(1)
    }

    // Makes steps before those that are drawn.
    fn pass_all(&mut self, world: &mut World<'_>, made: &[MadeStep]) -> Result<(), OutOfMemory>
        ensures { self.new.history.steps ≡ self.old.history.steps }
    {
        for one in made {
            self.pass(world, one.step())?;
        }
        Ok(())
    }

    // Makes a step before those that are drawn: nothing of it is new any more.
    fn pass(&mut self, world: &mut World<'_>, step: Step) -> Result<(), OutOfMemory>
        ensures { self.new.history.steps ≡ self.old.history.steps }
    {
        let _outcome = world.apply(step)?;
        self.history.gone = self.history.gone.saturating_add(1);
        self.note_arrival(world, step)?;
        self.pass_each(world);
        Ok(())
    }

    // All frames so far, and all rows, are seen.
    fn pass_each(&mut self, world: &World<'_>)
        ensures { self.new.history ≡ self.old.history }
    {
        for federate in 0..self.plan.federate_count() {
            self.set_seen(federate, true, world.sent(Dir::Up(federate)));
            self.set_seen(federate, false, world.sent(Dir::Down(federate)));
            self.pass_rows(world, federate);
        }
    }

    // Notes the frame that a step brought.
    fn note_arrival(&mut self, world: &World<'_>, step: Step) -> Result<(), AllocError>
        ensures { self.new.history ≡ self.old.history }
    {
        if let Step::Deliver(dir, number) = step {
            let (federate, is_up) = way_of(dir);
            if number <= world.sent(dir) {
                self.came.push(Came {
                    federate,
                    is_up,
                    number,
                })?;
            }
        }
        Ok(())
    }

    // The rows of a federate so far are seen.
    fn pass_rows(&mut self, world: &World<'_>, federate: usize)
        ensures { self.new.history ≡ self.old.history }
    {
        let Some(rows) = world.rows(federate) else {
            return;
        };
        if let Some(last) = rows.len().checked_sub(1) {
            let tag = rows.row(last).tag();
            if is_later(tag, self.latest) {
                self.latest = Some(tag);
            }
        }
        put_number(&mut self.rows, federate, rows.len());
    }

    // Makes the steps that are drawn, and looks at what each changed.
    fn make_all(
        &mut self,
        alloc: Global,
        world: &mut World<'_>,
        made: &[MadeStep],
    ) -> Result<(), OutOfMemory>
        ensures each { OnOk result (vec_len self.new.history.steps
            ≡ vec_len self.old.history.steps + length made.now) }
        ensures lines { OnOk result (moment_lines self.new.history.steps.items
            ≡ moment_lines self.old.history.steps.items ++ made_lines made.now) }
    {
        for one in made {
            self.make(alloc, world, *one)?;
        }
        Ok(())
    }

    // Makes steps after those that are drawn: they bring what was sent.
    fn look_at_all(&mut self, world: &mut World<'_>, made: &[MadeStep]) -> Result<(), OutOfMemory>
        ensures { self.new.history.steps ≡ self.old.history.steps }
    {
        for one in made {
            self.look_at(world, one.step())?;
        }
        Ok(())
    }

    // Makes a step after those that are drawn: a frame of these that it brings, and that didn't come, comes late.
    fn look_at(&mut self, world: &mut World<'_>, step: Step) -> Result<(), OutOfMemory>
        ensures { self.new.history.steps ≡ self.old.history.steps }
    {
        let _outcome = world.apply(step)?;
        if let Step::Deliver(dir, number) = step {
            self.see_late(dir, number)?;
        }
        Ok(())
    }

    // A frame that is brought after the steps that are drawn comes late, if it didn't come in these.
    fn see_late(&mut self, dir: Dir, number: usize) -> Result<(), AllocError>
        ensures { self.new.history.steps ≡ self.old.history.steps }
    {
        let Some(place) = self.place_of(dir, number) else {
            return Ok(());
        };
        if self.has_come(place) {
            return Ok(());
        }
        self.history.set_late(place)
    }

    // Makes a step, and looks at what it changed.
    fn make(
        &mut self,
        alloc: Global,
        world: &mut World<'_>,
        made: MadeStep,
    ) -> Result<(), OutOfMemory>
        ensures more { OnOk result (vec_len self.new.history.steps ≡ vec_len self.old.history.steps + 1) }
        ensures line { OnOk result (moment_lines self.new.history.steps.items
            ≡ moment_lines self.old.history.steps.items ++ made.line ∷ []) }
    {
        let step = made.step();
        let outcome = world.apply(step)?;
        self.see_step(alloc, made, outcome)?;
        self.see_arrival(alloc, world, step, outcome)?;
        self.see_each(alloc, world)
    }

    // Adds what is written beside the step.
    fn see_step(
        &mut self,
        alloc: Global,
        made: MadeStep,
        outcome: Outcome,
    ) -> Result<(), OutOfMemory>
        ensures more { OnOk result (vec_len self.new.history.steps ≡ vec_len self.old.history.steps + 1) }
        ensures line { OnOk result (moment_lines self.new.history.steps.items
            ≡ moment_lines self.old.history.steps.items ++ made.line ∷ []) }
    {
        let step = made.step();
        let text = step_text(alloc, self.plan, step, outcome)?;
        let moment = Moment {
            line: made.line(),
            text,
            ink: outcome_ink(outcome),
            is_shown: is_shown(step, outcome),
            forgets: forgets(step, outcome),
        };
        self.history.add_step(moment)?;
        Ok(())
    }

    // Adds the frame that a step brought.
    fn see_arrival(
        &mut self,
        alloc: Global,
        world: &World<'_>,
        step: Step,
        outcome: Outcome,
    ) -> Result<(), AllocError>
        ensures { self.new.history.steps ≡ self.old.history.steps }
    {
        let Step::Deliver(dir, number) = step else {
            return Ok(());
        };
        let Some(frame) = self.arriving(alloc, world, dir, number)? else {
            return Ok(());
        };
        let arrival = Arrival {
            frame,
            step: self.last_step(),
            refused: refusal(outcome),
            is_again: self.has_come(frame) || self.came_before(dir, number),
        };
        self.history.add_arrival(arrival)
    }

    // The place among all frames of one that comes: where it was sent before what is drawn, it is added.
    fn arriving(
        &mut self,
        alloc: Global,
        world: &World<'_>,
        dir: Dir,
        number: usize,
    ) -> Result<Option<usize>, AllocError>
        ensures { self.new.history.steps ≡ self.old.history.steps }
    {
        let found = self.place_of(dir, number);
        if found.is_some() {
            return Ok(found);
        }
        let place = self.history.frames.len();
        self.see_frame(alloc, world, dir, number, None)?;
        if place < self.history.frames.len() {
            Ok(Some(place))
        } else {
            Ok(None)
        }
    }

    // Whether a frame came before the steps that are drawn.
    fn came_before(&self, dir: Dir, number: usize) -> bool {
        let (federate, is_up) = way_of(dir);
        for came in self.came.as_slice() {
            if came.federate == federate && came.is_up == is_up && came.number == number {
                return true;
            }
        }
        false
    }

    // The place among all frames of one of a direction.
    fn place_of(&self, dir: Dir, number: usize) -> Option<usize> {
        let (federate, is_up) = way_of(dir);
        for place in 0..self.history.frames.len() {
            if let Some(frame) = self.history.frames.get(place) {
                if is_frame(frame, federate, is_up, number) {
                    return Some(place);
                }
            }
        }
        None
    }

    // Whether a frame came before.
    fn has_come(&self, frame: usize) -> bool {
        for arrival in self.history.arrivals.as_slice() {
            if arrival.frame == frame {
                return true;
            }
        }
        false
    }

    // Adds the frames and rows that weren't seen before, of each federate.
    fn see_each(&mut self, alloc: Global, world: &World<'_>) -> Result<(), OutOfMemory>
        ensures { self.new.history.steps ≡ self.old.history.steps }
    {
        for federate in 0..self.plan.federate_count() {
            self.see_frames(alloc, world, federate, true)?;
            self.see_frames(alloc, world, federate, false)?;
            self.see_rows(alloc, world, federate)?;
        }
        Ok(())
    }

    // Adds the frames of a direction that weren't seen before.
    fn see_frames(
        &mut self,
        alloc: Global,
        world: &World<'_>,
        federate: usize,
        is_up: bool,
    ) -> Result<(), AllocError>
        ensures { self.new.history.steps ≡ self.old.history.steps }
    {
        let dir = dir_of(federate, is_up);
        let sent = world.sent(dir);
        for before in self.seen(federate, is_up)..sent {
            let step = self.last_step();
            self.see_frame(alloc, world, dir, before.saturating_add(1), Some(step))?;
        }
        self.set_seen(federate, is_up, sent);
        Ok(())
    }

    // How many frames of a direction were seen.
    fn seen(&self, federate: usize, is_up: bool) -> usize {
        if is_up {
            number_at(self.up.as_slice(), federate)
        } else {
            number_at(self.down.as_slice(), federate)
        }
    }

    // This many frames of a direction are seen.
    fn set_seen(&mut self, federate: usize, is_up: bool, count: usize)
        ensures { self.new.history ≡ self.old.history }
    {
        if is_up {
            put_number(&mut self.up, federate, count);
        } else {
            put_number(&mut self.down, federate, count);
        }
    }

    // Adds a frame, if it is there, which this step sent, or one before those that are drawn.
    fn see_frame(
        &mut self,
        alloc: Global,
        world: &World<'_>,
        dir: Dir,
        number: usize,
        step: Option<usize>,
    ) -> Result<(), AllocError>
        ensures { self.new.history.steps ≡ self.old.history.steps }
    {
        let Some(frame) = world.frame(dir, number) else {
            return Ok(());
        };
        let (federate, is_up) = way_of(dir);
        let text = frame_text(alloc, self.plan, number, &frame)?;
        let sending = Sending {
            federate,
            is_up,
            number,
            step,
            ink: frame_ink(&frame),
            text,
            is_late: false,
        };
        self.history.add_frame(sending)
    }

    // Adds the rows of a federate that weren't seen before.
    fn see_rows(
        &mut self,
        alloc: Global,
        world: &World<'_>,
        federate: usize,
    ) -> Result<(), OutOfMemory>
        ensures { self.new.history.steps ≡ self.old.history.steps }
    {
        let Some(rows) = world.rows(federate) else {
            return Ok(());
        };
        for place in number_at(self.rows.as_slice(), federate)..rows.len() {
            self.see_row(alloc, rows, federate, place)?;
        }
        put_number(&mut self.rows, federate, rows.len());
        Ok(())
    }

    // Adds a row that the last step made.
    fn see_row(
        &mut self,
        alloc: Global,
        rows: &Rows,
        federate: usize,
        place: usize,
    ) -> Result<(), OutOfMemory>
        ensures { self.new.history.steps ≡ self.old.history.steps }
    {
        let text = row_text(alloc, self.plan, rows, place)?;
        let begins = self.begun_tag(alloc, rows, place)?;
        let row = RowMark {
            federate,
            step: self.last_step(),
            text,
            begins,
        };
        self.history.add_row(row)?;
        Ok(())
    }

    // The tag of a row as text, where it is later than that of each row before.
    fn begun_tag(
        &mut self,
        alloc: Global,
        rows: &Rows,
        place: usize,
    ) -> Result<Option<String>, AllocError>
        ensures { self.new.history ≡ self.old.history }
    {
        if place >= rows.len() {
            return Ok(None);
        }
        let tag = rows.row(place).tag();
        if !is_later(tag, self.latest) {
            return Ok(None);
        }
        self.latest = Some(tag);
        let text = format!(in alloc; "{tag}")?;
        Ok(Some(text))
    }
}

// Whether a tag is later than this one, where there is one.
fn is_later(tag: Tag, latest: Option<Tag>) -> bool {
    match latest {
        Some(latest) => latest < tag,
        None => true,
    }
}

// The names of the federates.
fn names(alloc: Global, plan: &Plan) -> Result<Vec<String>, AllocError> {
    let mut names = Vec::new(alloc);
    for number in 0..plan.federate_count() {
        names.push(String::from_str(alloc, federate_name(plan, number))?)?;
    }
    Ok(names)
}

//! What is odd in files that are taken.
use crate::oddity::{Oddity, Why};
use crate::tree::Tree;
use crate::uses::{has_repeated, is_used, reads, reads_no_value, schedules, schedules_behind};
use crate::walk::tree_of;
use plan::{Federate, Input, Plan, Slots};
use plan_names::{Named, Text};
use plan_paths::Connection;
use reactor_program::{Operand, Program, Reaction};
use std::alloc::{AllocError, Global};

/// The most that is told of two files.
const MOST_ODD: usize = 200;

/// What is odd in a federation file that is this plan, and in a file of these inputs.
pub fn odd_of(
    alloc: Global,
    federation: &[u8],
    inputs: &[u8],
    plan: &Plan,
    programs: &[Program],
    recorded: &[Input],
) -> Result<Vec<Oddity>, AllocError> {
    let mut survey = Survey::new(alloc);
    survey.look_at_federation_file(federation, plan, programs)?;
    survey.look_at_input_file(inputs, plan, recorded)?;
    survey.into_odd()
}

/// What is odd, as it is found. An allocation that fails is noted; what was found is then not given out.
#[derive(Drop)]
pub(crate) struct Survey {
    alloc: Global,
    odd: Vec<Oddity>,
    /// Whether recorded inputs are looked at.
    is_recorded: bool,
    is_lost: bool,
}

/// A federate that is looked at.
#[derive(Clone, Copy)]
struct At<'a> {
    tree: &'a Tree<'a>,
    place: usize,
    name: &'a Text,
}

impl Survey {
    pub(crate) fn new(alloc: Global) -> Survey {
        Survey {
            alloc,
            odd: Vec::new(alloc),
            is_recorded: false,
            is_lost: false,
        }
    }

    pub(crate) fn into_odd(self) -> Result<Vec<Oddity>, AllocError> {
        if self.is_lost {
            Err(AllocError)
        } else {
            Ok(self.odd)
        }
    }

    // Looks at the file of a federation.
    fn look_at_federation_file(
        &mut self,
        federation: &[u8],
        plan: &Plan,
        programs: &[Program],
    ) -> Result<(), AllocError> {
        let tree = tree_of(self.alloc, federation)?;
        self.look_at_plan(&tree, plan, programs);
        Ok(())
    }

    // Looks at the file of recorded inputs.
    fn look_at_input_file(
        &mut self,
        inputs: &[u8],
        plan: &Plan,
        recorded: &[Input],
    ) -> Result<(), AllocError> {
        let tree = tree_of(self.alloc, inputs)?;
        self.look_at_inputs(&tree, plan, recorded);
        Ok(())
    }

    /// Looks at a federation.
    pub(crate) fn look_at_plan<'x>(
        &mut self,
        tree: &'x Tree<'x>,
        plan: &'x Plan,
        programs: &[Program],
    ) {
        let mut names = Vec::new(self.alloc);
        let mut place = tree.first_of(Tree::ROOT, "federate");
        for (number, federate) in plan.federates().iter().enumerate() {
            if is_alike_to_one(names.as_slice(), &federate.name) {
                let name = String::from_str(self.alloc, federate.name.as_str());
                self.add(tree.line(tree.child(place, "name")), name, Why::Alike);
            }
            self.note(names.push(&federate.name).is_ok());
            let at = At {
                tree,
                place,
                name: &federate.name,
            };
            self.look_at_slots(&at, number, federate, plan);
            if let Some(program) = programs.get(number) {
                self.look_at_program(&at, program, plan.stop_time().nanoseconds());
            }
            place = tree.node(place).next;
        }
        self.look_at_delays(tree, plan);
    }

    /// Looks at recorded inputs.
    pub(crate) fn look_at_inputs<'x>(
        &mut self,
        tree: &'x Tree<'x>,
        plan: &Plan,
        inputs: &'x [Input],
    ) {
        self.is_recorded = true;
        let stop = plan.stop();
        let mut place = tree.first_of(Tree::ROOT, "input");
        for input in inputs {
            if stop < input.tag.tag() {
                let at = At {
                    tree,
                    place,
                    name: &input.federate,
                };
                self.add_name(&at, place, &input.action, Why::NeverRuns);
            }
            place = tree.node(place).next;
        }
    }

    // Notes that an allocation failed, if it did.
    fn note(&mut self, is_done: bool) {
        self.is_lost = self.is_lost || !is_done;
    }

    fn add(&mut self, line: usize, name: Result<String, AllocError>, why: Why) {
        let Ok(name) = name else {
            self.is_lost = true;
            return;
        };
        if self.odd.len() < MOST_ODD {
            let is_recorded = self.is_recorded;
            let added = self.odd.push(Oddity {
                is_recorded,
                line,
                name,
                why,
            });
            self.is_lost = self.is_lost || added.is_err();
        }
    }

    // Adds a name of a federate, which stands at this node.
    fn add_name(&mut self, at: &At<'_>, place: usize, name: &Text, why: Why) {
        let federate = at.name.as_str();
        let name = name.as_str();
        let name = format!(in self.alloc; "{federate}.{name}");
        self.add(at.tree.line(place), name, why);
    }

    // Looks at what a federate has by name.
    fn look_at_slots(&mut self, at: &At<'_>, number: usize, federate: &Federate, plan: &Plan) {
        let slots = &federate.slots;
        let connections = plan.connections();
        let inputs = slots.inputs.as_slice();
        let outputs = slots.outputs.as_slice();
        self.look_at_ports(at, "inputs", inputs, Why::Unconnected, connections, number);
        self.look_at_ports(at, "outputs", outputs, Why::Unread, connections, number);
        self.look_at_timers(at, slots, plan.stop_time().nanoseconds());
        let mut names = Vec::new(self.alloc);
        self.look_at_names(at, "inputs", inputs, &mut names);
        self.look_at_names(at, "outputs", outputs, &mut names);
        self.look_at_names(at, "timers", slots.timers.as_slice(), &mut names);
        self.look_at_names(at, "actions", slots.actions.as_slice(), &mut names);
        self.look_at_names(at, "physical", slots.physical.as_slice(), &mut names);
    }

    // Looks for ports of a federate at which no connection ends, or begins.
    fn look_at_ports(
        &mut self,
        at: &At<'_>,
        key: &str,
        names: &[Text],
        why: Why,
        connections: &[Connection],
        federate: usize,
    ) {
        let mut place = at.tree.first_of(at.place, key);
        for (port, name) in names.iter().enumerate() {
            if !is_connected(connections, federate, port, why) {
                self.add_name(at, place, name, why);
            }
            place = at.tree.node(place).next;
        }
    }

    fn look_at_timers(&mut self, at: &At<'_>, slots: &Slots, stop: u64) {
        let mut place = at.tree.first_of(at.place, "timers");
        for timer in slots.timers.as_slice() {
            if timer.offset > stop {
                self.add_name(at, place, &timer.name, Why::NeverFires);
            }
            place = at.tree.node(place).next;
        }
    }

    // Looks for names that differ from one of those before them by case alone, and adds them to these.
    fn look_at_names<'n, T: Named>(
        &mut self,
        at: &At<'_>,
        key: &str,
        named: &'n [T],
        before: &mut Vec<&'n Text>,
    ) {
        let mut place = at.tree.first_of(at.place, key);
        for each in named {
            let name = each.name();
            if is_alike_to_one(before.as_slice(), name) {
                self.add_name(at, place, name, Why::Alike);
            }
            self.note(before.push(name).is_ok());
            place = at.tree.node(place).next;
        }
    }

    // Looks for connections over which nothing arrives.
    fn look_at_delays<'x>(&mut self, tree: &'x Tree<'x>, plan: &'x Plan) {
        let stop = plan.stop_time().nanoseconds();
        let mut place = tree.first_of(Tree::ROOT, "connection");
        for connection in plan.connections() {
            if connection.delay().time() > stop {
                self.add_target(tree, place, plan, connection);
            }
            place = tree.node(place).next;
        }
    }

    // Adds the input at which a connection ends, which stands at this node.
    fn add_target(&mut self, tree: &Tree<'_>, place: usize, plan: &Plan, connection: &Connection) {
        let Some(target) = plan.federates().get(connection.target()) else {
            return;
        };
        let port = connection.slot().saturating_sub(Slots::FIRST_INPUT);
        if let Some(name) = target.slots.inputs.as_slice().get(port) {
            let at = At {
                tree,
                place,
                name: &target.name,
            };
            self.add_name(&at, place, name, Why::NeverArrives);
        }
    }

    // Looks at a federate's states and reactions, and at what these use.
    fn look_at_program(&mut self, at: &At<'_>, program: &Program, stop: u64) {
        self.look_at_state_names(at, program);
        self.look_at_states(at, program);
        self.look_at_used_timers(at, program);
        self.look_at_used_actions(at, program);
        let mut place = at.tree.first_of(at.place, "reaction");
        for (before, reaction) in program.reactions().iter().enumerate() {
            let number = before.saturating_add(1);
            if reaction.body.as_slice().is_empty() {
                self.add_reaction(at, place, number, Why::WithoutBody);
            }
            if has_repeated(reaction.triggers.as_slice()) {
                let triggers = at.tree.child(place, "triggers");
                self.add_reaction(at, triggers, number, Why::TriggeredTwice);
            }
            let lines = At { place, ..*at };
            self.look_at_lines(&lines, reaction, number, stop);
            self.look_at_values(&lines, reaction, number, program.slots());
            place = at.tree.node(place).next;
        }
    }

    // Looks for states whose names differ by case alone.
    fn look_at_state_names(&mut self, at: &At<'_>, program: &Program) {
        let mut names = Vec::new(self.alloc);
        self.look_at_names(at, "state", program.states(), &mut names);
    }

    // Looks for states that no line reads.
    fn look_at_states(&mut self, at: &At<'_>, program: &Program) {
        let mut place = at.tree.first_of(at.place, "state");
        for (number, state) in program.states().iter().enumerate() {
            if !reads(program, Operand::State(number)) {
                self.add_name(at, place, &state.name, Why::UnusedState);
            }
            place = at.tree.node(place).next;
        }
    }

    // Looks for timers that no reaction uses.
    fn look_at_used_timers(&mut self, at: &At<'_>, program: &Program) {
        let slots = program.slots();
        let mut place = at.tree.first_of(at.place, "timers");
        for (number, timer) in slots.timers.as_slice().iter().enumerate() {
            if !is_used(program, slots.first_timer().saturating_add(number)) {
                self.add_name(at, place, &timer.name, Why::UnusedTimer);
            }
            place = at.tree.node(place).next;
        }
    }

    // Looks for actions that no reaction uses, and for such that none schedules.
    fn look_at_used_actions(&mut self, at: &At<'_>, program: &Program) {
        let slots = program.slots();
        let mut place = at.tree.first_of(at.place, "actions");
        for (number, name) in slots.actions.as_slice().iter().enumerate() {
            let slot = slots.first_action().saturating_add(number);
            if !schedules(program, slot) {
                self.add_name(at, place, name, Why::NeverScheduled);
            } else if !is_used(program, slot) {
                self.add_name(at, place, name, Why::UnusedAction);
            }
            place = at.tree.node(place).next;
        }
    }

    // Looks at the lines of a reaction of this number, whose table stands at this place.
    fn look_at_lines(&mut self, at: &At<'_>, reaction: &Reaction, number: usize, stop: u64) {
        let mut place = at.tree.first_of(at.place, "body");
        for (before, line) in reaction.body.as_slice().iter().enumerate() {
            if schedules_behind(line, stop) {
                self.add_line(at, place, number, before, Why::NeverComes);
            }
            place = at.tree.node(place).next;
        }
    }

    // Looks for lines of a reaction of this number, whose table stands at this place, that read a value which isn't
    // there.
    fn look_at_values(&mut self, at: &At<'_>, reaction: &Reaction, number: usize, slots: &Slots) {
        let mut place = at.tree.first_of(at.place, "body");
        for before in 0..reaction.body.as_slice().len() {
            match reads_no_value(self.alloc, at.tree.said(place), slots) {
                Ok(true) => self.add_line(at, place, number, before, Why::ReadsNoValue),
                Ok(false) => {}
                Err(_) => self.is_lost = true,
            }
            place = at.tree.node(place).next;
        }
    }

    // Adds a reaction of this number, at this node.
    fn add_reaction(&mut self, at: &At<'_>, place: usize, number: usize, why: Why) {
        let federate = at.name.as_str();
        let name = format!(in self.alloc; "{federate} {number}");
        self.add(at.tree.line(place), name, why);
    }

    // Adds a line of a reaction of this number, behind as many lines before it, at this node.
    fn add_line(&mut self, at: &At<'_>, place: usize, number: usize, before: usize, why: Why) {
        let federate = at.name.as_str();
        let line = before.saturating_add(1);
        let name = format!(in self.alloc; "{federate} {number} {line}");
        self.add(at.tree.line(place), name, why);
    }
}

// Whether a name differs from one of these by case alone.
fn is_alike_to_one(names: &[&Text], name: &Text) -> bool {
    for other in names {
        if other.as_str().eq_ignore_ascii_case(name.as_str()) {
            return true;
        }
    }
    false
}

// Whether a connection ends at the input of this number of a federate, or, of an output, begins there.
fn is_connected(connections: &[Connection], federate: usize, port: usize, why: Why) -> bool {
    for connection in connections {
        let is_there = match why {
            Why::Unconnected => {
                connection.target() == federate
                    && connection.slot() == Slots::FIRST_INPUT.saturating_add(port)
            }
            _ => connection.source() == federate && connection.port() == port,
        };
        if is_there {
            return true;
        }
    }
    false
}

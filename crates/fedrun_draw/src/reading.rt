//! What is drawn of a plan.
ghost use Rattle.std.specs.Prelude.{◌≡◌, IfOk, length, vec_len};
ghost use Rattle.plan.specs.Federation.{connections_of, federate_count};

use crate::reactions::reaction_text;
use files_pictures::figures::{Figure, Figures, Part, Wire};
use files_pictures::shapes::Sign;
use plan::{Federate, Plan, Slots, Timer};
use plan_names::Text;
use plan_paths::Connection;
use reactor_program::Program;
use reactor_programs::Programs;
use std::alloc::{AllocError, Global};
use tag::{Delay, Time};

/// A plan's federates and connections, as they are drawn. Where its programs are passed, with all reactions.
pub fn figures_of(
    alloc: Global,
    plan: &Plan,
    programs: Option<&Programs>,
) -> Result<Figures, AllocError>
    ensures figures { IfOk result (λ all. vec_len all.figures ≡ federate_count plan.now) }
    ensures wires { IfOk result (λ all. vec_len all.wires ≡ length (connections_of plan.now)) }
{
    let figures = all_figures(alloc, plan, programs)?;
    let wires = all_wires(alloc, plan.connections())?;
    let caption = caption(alloc, plan)?;
    Ok(Figures {
        figures,
        wires,
        caption,
    })
}

// Its federates.
fn all_figures(
    alloc: Global,
    plan: &Plan,
    programs: Option<&Programs>,
) -> Result<Vec<Figure>, AllocError>
    ensures { IfOk result (λ figures. vec_len figures ≡ federate_count plan.now) }
{
    let mut figures = Vec::new(alloc);
    for number in 0..plan.federate_count() {
        let program = program_of(programs, number);
        let figure = figure_of(alloc, &plan.federates()[number], plan.rank(number), program)?;
        figures.push(figure)?;
    }
    Ok(figures)
}

// The program of a federate, where programs are passed.
fn program_of(programs: Option<&Programs>, number: usize) -> Option<&Program> {
    programs?.as_slice().get(number)
}

// Connections.
fn all_wires(alloc: Global, connections: &[Connection]) -> Result<Vec<Wire>, AllocError>
    ensures { IfOk result (λ wires. vec_len wires ≡ length connections.now) }
{
    let mut wires = Vec::new(alloc);
    for connection in connections {
        let wire = wire_of(alloc, *connection)?;
        wires.push(wire)?;
    }
    Ok(wires)
}

// What is written below all.
fn caption(alloc: Global, plan: &Plan) -> Result<String, AllocError> {
    let stop = plan.stop_time();
    format!(in alloc; "stop {stop}")
}

// A federate, as it is drawn.
fn figure_of(
    alloc: Global,
    federate: &Federate,
    rank: usize,
    program: Option<&Program>,
) -> Result<Figure, AllocError> {
    let name = String::from_str(alloc, federate.name.as_str())?;
    let inputs = texts(alloc, federate.slots.inputs.as_slice())?;
    let outputs = texts(alloc, federate.slots.outputs.as_slice())?;
    let mut parts = parts(alloc, &federate.slots)?;
    if let Some(program) = program {
        add_reactions(alloc, &mut parts, program)?;
    }
    Ok(Figure {
        name,
        rank,
        inputs,
        outputs,
        parts,
    })
}

// These names.
fn texts(alloc: Global, names: &[Text]) -> Result<Vec<String>, AllocError> {
    let mut texts = Vec::new(alloc);
    for name in names {
        texts.push(String::from_str(alloc, name.as_str())?)?;
    }
    Ok(texts)
}

// What a federate has beside its ports.
fn parts(alloc: Global, slots: &Slots) -> Result<Vec<Part>, AllocError> {
    let mut parts = Vec::new(alloc);
    if slots.startup {
        add_part(
            &mut parts,
            Sign::Startup,
            String::from_str(alloc, "startup")?,
        )?;
    }
    add_timers(alloc, &mut parts, slots.timers.as_slice())?;
    add_actions(alloc, &mut parts, Sign::Action, slots.actions.as_slice())?;
    add_actions(alloc, &mut parts, Sign::Physical, slots.physical.as_slice())?;
    Ok(parts)
}

fn add_part(parts: &mut Vec<Part>, sign: Sign, text: String) -> Result<(), AllocError> {
    parts.push(Part { sign, text })?;
    Ok(())
}

// Adds timers.
fn add_timers(alloc: Global, parts: &mut Vec<Part>, timers: &[Timer]) -> Result<(), AllocError> {
    for timer in timers {
        let text = timer_text(alloc, timer)?;
        add_part(parts, Sign::Timer, text)?;
    }
    Ok(())
}

// Adds actions, or physical ones.
fn add_actions(
    alloc: Global,
    parts: &mut Vec<Part>,
    sign: Sign,
    names: &[Text],
) -> Result<(), AllocError> {
    for name in names {
        let text = String::from_str(alloc, name.as_str())?;
        add_part(parts, sign, text)?;
    }
    Ok(())
}

// Adds reactions, counted from 1.
fn add_reactions(
    alloc: Global,
    parts: &mut Vec<Part>,
    program: &Program,
) -> Result<(), AllocError> {
    for place in 0..program.reactions().len() {
        if let Some(reaction) = program.reactions().get(place) {
            let number = place.saturating_add(1);
            let text = reaction_text(alloc, program.slots(), number, reaction)?;
            add_part(parts, Sign::Reaction, text)?;
        }
    }
    Ok(())
}

// A timer: its name and when it fires.
fn timer_text(alloc: Global, timer: &Timer) -> Result<String, AllocError> {
    let name = timer.name.as_str();
    let offset = time_of(timer.offset);
    let period = time_of(timer.period);
    if timer.period == 0 {
        format!(in alloc; "{name} at {offset}")
    } else {
        format!(in alloc; "{name} at {offset}, each {period}")
    }
}

// A time in ns; of those that are no time, 0.
fn time_of(nanoseconds: u64) -> Time {
    match Time::new(nanoseconds) {
        Some(time) => time,
        None => Time::zero(),
    }
}

// A connection, as it is drawn.
fn wire_of(alloc: Global, connection: Connection) -> Result<Wire, AllocError> {
    let delay = delay_text(alloc, connection.delay())?;
    Ok(Wire {
        source: connection.source(),
        output: connection.port(),
        target: connection.target(),
        input: connection.slot().saturating_sub(Slots::FIRST_INPUT),
        delay,
    })
}

// A delay as the file of the federation has it; None where there is none.
fn delay_text(alloc: Global, delay: Delay) -> Result<Option<String>, AllocError> {
    if delay.is_none() {
        return Ok(None);
    }
    let time = time_of(delay.time());
    let text = format!(in alloc; "after {time}")?;
    Ok(Some(text))
}

ghost use Rattle.std.specs.Prelude.{◌≡◌, ◌⊎◌, map, IfOk, IfErr, codes};
ghost use Rattle.loadfed_tables.specs.Sections.{members_of};
ghost use Rattle.loadfed.specs.Shape.{SaysFederateName, SaysFederate, SaysProgram, SaysFederates, SaysFederation};
ghost use Rattle.loadfed_tables.specs.TableFaults.{IsWrongAt};
ghost use Rattle.loadfed.specs.ShapeFaults.{HasFederateFault, HasTablesFault, HasShapeFault};

use crate::arrays::{FromTable, read_each};
use crate::connection_shape::connections_shape;
use crate::program_draft::ProgramDraft;
use crate::slots_shape::slots_shape;
use loadfed_tables::{Section, TableFault};
use plan::{Draft, Federate, Federates};
use plan_names::Text;
use std::alloc::Global;

/// What a file declares: a draft, and states and reactions of each of its federates, in their order.
#[derive(Drop)]
pub struct Shape {
    pub draft: Draft,
    pub programs: Vec<ProgramDraft>,
}

/// The federation in a file's table.
pub fn federation_shape(alloc: Global, file: &Section<'_>) -> Result<Shape, TableFault>
    ensures ok { IfOk result (λ shape. SaysFederation (members_of file.now) shape.draft shape.programs.items) }
    ensures refused { IfErr result (λ fault. (fault ≡ TableFault.Memory) ⊎ HasShapeFault (members_of file.now) fault) }
{
    file.has_only(&["stop", "federate", "connection"])?;
    let stop = file.needed_duration("stop")?;
    let (federates, programs) = federates(alloc, file)?;
    let connections = connections_shape(alloc, file)?;
    let draft = Draft {
        stop,
        federates,
        connections,
    };
    Ok(Shape { draft, programs })
}

// The federates in a file's table, and their programs.
fn federates(
    alloc: Global,
    file: &Section<'_>,
) -> Result<(Federates, Vec<ProgramDraft>), TableFault>
    ensures ok { IfOk result (λ made. SaysFederates (members_of file.now) made.0 made.1.items) }
    ensures refused { IfErr result
        (λ fault. (fault ≡ TableFault.Memory)
        ⊎ HasTablesFault HasFederateFault (codes "federate") (members_of file.now) fault) }
{
    let shapes = read_each(alloc, file, "federate")?;
    parted(alloc, shapes)
}

// The federates, and their programs.
fn parted(
    alloc: Global,
    shapes: Vec<FederateShape>,
) -> Result<(Federates, Vec<ProgramDraft>), TableFault>
    ensures ok { IfOk result (λ made. (made.0 ≡ map (λ shape. shape.federate) shapes.items)
        × (made.1.items ≡ map (λ shape. shape.program) shapes.items)) }
    ensures refused { IfErr result (λ fault. fault ≡ TableFault.Memory) }
{
    let mut federates = Vec::new(alloc);
    let mut programs = Vec::new(alloc);
    for shape in shapes {
        federates.push(shape.federate)?;
        programs.push(shape.program)?;
    }
    Ok((Federates::new(federates), programs))
}

/// A federate as a file has it, and its program.
#[derive(Drop)]
struct FederateShape {
    federate: Federate,
    program: ProgramDraft,
}

impl FromTable for FederateShape {
    ghost says = { λ members shape. SaysFederate members shape.federate × SaysProgram members shape.program };

    ghost has_fault = { HasFederateFault };

    fn from_table(alloc: Global, table: &Section<'_>) -> Result<FederateShape, TableFault> {
        table.has_only(&[
            "name", "inputs", "outputs", "actions", "physical", "timers", "state", "reaction",
        ])?;
        let name = federate_name(alloc, table)?;
        let program = ProgramDraft::read(alloc, table)?;
        let slots = slots_shape(alloc, table, program.reactions())?;
        Ok(FederateShape {
            federate: Federate { name, slots },
            program,
        })
    }
}

// A federate's name, which isn't that of the coordinator.
fn federate_name(alloc: Global, section: &Section<'_>) -> Result<Text, TableFault>
    ensures ok { IfOk result (SaysFederateName (members_of section.now)) }
    ensures refused { IfErr result
        (λ fault. (fault ≡ TableFault.Memory)
        ⊎ IsWrongAt (codes "name") (SaysFederateName (members_of section.now)) fault) }
{
    let name = section.name("name")?;
    if name.is("coordinator") {
        return Err(TableFault::wrong_shape(alloc, "name"));
    }
    Ok(name)
}

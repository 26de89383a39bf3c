ghost use Rattle.std.specs.Prelude.{◌≡◌, ◌↔◌, IsTrue, IsSome, IfSome};
ghost use Rattle.reactor_programs.specs.Programs.{AreProgramsOf, HaveProgramsOf, HaveSlotsOf};

use plan::{Federate, Plan};
use reactor_program::Program;
use std::marker::Model;

/// A program for each federate of a plan, in their order. Contracts see the list of them.
#[derive(Drop)]
pub struct Programs {
    programs: Vec<Program>,
}

impl Model for Programs {
    ghost use Rattle.std.specs.Prelude.{List};
    ghost use Rattle.reactor_program.specs.Behaviour.{Behaviour};

    ghost Value = { List Behaviour };

    ghost view = { λ p. p.programs.items };
}

impl Programs {
    /// None where their number or a program's slots aren't the plan's.
    pub fn new(plan: &Plan, programs: Vec<Program>) -> Option<Programs>
        ensures fitting { IsSome result ↔ HaveSlotsOf plan.now.federates programs.items }
        ensures same { IfSome result (λ made. made ≡ programs.items) }
        ensures well_formed { IfSome result (AreProgramsOf plan.now) }
    {
        if have_slots(plan.federates(), programs.as_slice()) {
            Some(Programs { programs })
        } else {
            None
        }
    }

    pub fn as_slice(&self) -> &[Program]
        ensures { result.now ≡ self.now }
    {
        self.programs.as_slice()
    }
}

fn have_slots(federates: &[Federate], programs: &[Program]) -> bool
    ensures fitting { IsTrue result ↔ HaveSlotsOf federates.now programs.now }
    ensures well_formed { IsTrue result → HaveProgramsOf federates.now programs.now }
{
    match federates {
        [federate, federates @ ..] => match programs {
            [program, programs @ ..] => {
                // For the prover: the program is well formed.
                program.invariant();
                federate.slots.is_same(program.slots()) && have_slots(federates, programs)
            }
            [] => false,
        },
        [] => programs.is_empty(),
    }
}

//! A legal plan, with its programs and inputs, is a network that the laws of networks hold of.

ghost use Rattle.std.specs.Prelude.{List};
ghost use Rattle.network.specs.Tables.{IsLawfulWith};
ghost use Rattle.plan.specs.declared.draft.Draft.{Draft};
ghost use Rattle.plan.specs.declared.input.Input.{Input};
ghost use Rattle.plan.specs.External.{AreInputsOf};
ghost use Rattle.plan.specs.Least.{least_of};
ghost use Rattle.plan.specs.Legal.{IsLegal};
ghost use Rattle.reactor_program.specs.Behaviour.{Behaviour};
ghost use Rattle.plan_network.specs.Network.{network_of};
ghost use Rattle.reactor_programs.specs.Programs.{AreProgramsOf};

/// The network of a legal federation with a program for each federate and recorded inputs is lawful, and the plan's
/// least delays are its least delays, which keep the two facts that grants use.
#[tactic(auto, using(crate::proofs::LawfulNetwork::gives_lawful_with))]
pub fn plans_give_lawful_networks()
    ensures { (d : Draft) (programs : List Behaviour) (inputs : List Input) → IsLegal d → AreProgramsOf d programs
        → AreInputsOf d inputs → IsLawfulWith (network_of d programs inputs) (least_of d) }
{}

//! Steps as text, written as they are asked for: no memory is needed.
ghost use Rattle.std.specs.Prelude.{◌≡◌, ◌++◌, OnOk, codes};
ghost use Rattle.std.specs.Fmt.{decimal};
ghost use Rattle.std.specs.Io.KnownBytes.{Appends};
ghost use Rattle.world_stations.specs.World.{federate_of};
ghost use Rattle.files_text.specs.PlanText.{federate_name};
ghost use Rattle.files_record.specs.StepText.{way_of, step_text, printed_step, printed_steps};

use files_text::federate_name;
use plan::Plan;
use std::io;
use std::io::Write;
use world_stations::{Dir, Step};

/// Writes steps as a schedule file, each on a line of its own. Where the writer refuses, some of them may have been
/// written.
pub fn write_steps<W: Write>(out: &mut W, plan: &Plan, steps: &[Step]) -> io::Result<()>
    ensures { OnOk result (Appends (W.contents out.old) (W.contents out.new) (printed_steps plan.now steps.now)) }
{
    for step in steps {
        write_step(out, plan, *step)?;
    }
    Ok(())
}

// Writes a step and the end of its line.
fn write_step<W: Write>(out: &mut W, plan: &Plan, step: Step) -> io::Result<()>
    ensures { OnOk result (Appends (W.contents out.old) (W.contents out.new) (printed_step plan.now step)) }
{
    write_text(out, plan, step)?;
    out.write_all(b"\n")
}

// Writes the words of a step.
fn write_text<W: Write>(out: &mut W, plan: &Plan, step: Step) -> io::Result<()>
    ensures { OnOk result (Appends (W.contents out.old) (W.contents out.new) (step_text plan.now step)) }
{
    match step {
        Step::Deliver(dir, k) => write_delivery(out, way_of(dir), name_of(plan, dir), k),
        Step::Resend(dir) => write!(out, "resend {} {}", way_of(dir), name_of(plan, dir)),
        Step::Reconnect(dir) => write!(out, "reconnect {} {}", way_of(dir), name_of(plan, dir)),
        Step::Announce(federate) => write!(out, "announce {}", federate_name(plan, federate)),
        Step::Advance(federate) => write!(out, "advance {}", federate_name(plan, federate)),
        Step::Forget(federate) => write!(out, "forget {}", federate_name(plan, federate)),
    }
}

// Writes that a frame comes.
fn write_delivery<W: Write>(out: &mut W, way: &str, name: &str, k: usize) -> io::Result<()>
    ensures { OnOk result (Appends (W.contents out.old) (W.contents out.new)
        (codes "deliver " ++ (way.now ++ (codes " " ++ (name.now ++ (codes " " ++ decimal k)))))) }
{
    write!(out, "deliver {way} {name} {k}")
}

// The word of a direction.
fn way_of(dir: Dir) -> &'static str
    ensures { result.now ≡ way_of dir }
{
    match dir {
        Dir::Up(_) => "up",
        Dir::Down(_) => "down",
    }
}

// The name of a direction's federate, or an empty text where there is none.
fn name_of(plan: &Plan, dir: Dir) -> &str
    ensures { result.now ≡ federate_name plan.now (federate_of dir) }
{
    match dir {
        Dir::Up(federate) | Dir::Down(federate) => federate_name(plan, federate),
    }
}

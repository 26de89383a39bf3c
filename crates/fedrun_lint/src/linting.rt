ghost use Rattle.std.specs.Prelude.{◌≡◌, ◌≢◌, ◌⊎◌, true, false, None, IfOk, MatchOption, option_copied};
ghost use Rattle.loadfed.specs.declared.fault.LoadFault.TheVariants.{UnknownAction, RepeatedInput};
ghost use Rattle.fedrun_lint.specs.Reports.{IsReport, IsTaken, IsFirst, IsRefused, AgreesOnInputs, AgreesOnShape};
ghost use Rattle.fedrun_lint.specs.Answered.{IsReportOn, IsReportOnOne, IsReportOnInputs};

use crate::report::Report;
use fedrun_lint_findings::{Refusal, odd_of, refusal_of_federation, refusal_of_inputs};
use loadfed::{LoadFault, load, load_inputs};
use plan::Plan;
use reactor_programs::Programs;
use std::alloc::{AllocError, Global};

/// A federation whose recorded inputs stand for those of one that is refused: of theirs the shape alone is looked at.
const ANY_FEDERATION: &str = "stop = \"0\"\nfederate = [{ name = \"a\", physical = [\"p\"] }]";

/// What there is to say of two files, of which one that is too long has no bytes here.
pub(crate) fn report_on(
    alloc: Global,
    federation: Option<&[u8]>,
    inputs: Option<&[u8]>,
) -> Result<Report, AllocError>
    ensures { IfOk result (IsReportOn (option_copied federation.entry) (option_copied inputs.entry)) }
{
    let Some(federation) = federation else {
        return of_long_federation(alloc, inputs);
    };
    match inputs {
        Some(inputs) => lint(alloc, federation, inputs),
        None => of_long_inputs(alloc, federation),
    }
}

// The report where the federation file is too long.
fn of_long_federation(alloc: Global, inputs: Option<&[u8]>) -> Result<Report, AllocError>
    ensures { IfOk result (IsReportOn None (option_copied inputs.entry)) }
{
    let inputs = refusal_if_few(alloc, inputs)?;
    Ok(Report {
        federation: Some(Refusal::too_long(alloc)),
        inputs,
        odd: Vec::new(alloc),
    })
}

// Why a file of recorded inputs of a refused federation is refused, if it is: for its length, where it has no bytes
// here, and else for its shape.
fn refusal_if_few(alloc: Global, inputs: Option<&[u8]>) -> Result<Option<Refusal>, AllocError>
    ensures { IfOk result (IsReportOnInputs (option_copied inputs.entry)) }
{
    match inputs {
        Some(bytes) => refusal_of_shapes(alloc, bytes),
        None => Ok(Some(Refusal::too_long(alloc))),
    }
}

// The report where the file of recorded inputs is too long.
fn of_long_inputs(alloc: Global, federation: &[u8]) -> Result<Report, AllocError>
    ensures { IfOk result (IsReportOnOne federation.now) }
{
    let refusal = refusal_if_any(alloc, federation)?;
    Ok(Report {
        federation: refusal,
        inputs: Some(Refusal::too_long(alloc)),
        odd: Vec::new(alloc),
    })
}

// Why a federation file is refused, if it is.
fn refusal_if_any(alloc: Global, federation: &[u8]) -> Result<Option<Refusal>, AllocError>
    ensures { IfOk result (λ refused. MatchOption refused (IsTaken federation.now) (IsRefused federation.now)) }
{
    match load(alloc, federation) {
        Ok(_) => Ok(None),
        Err(LoadFault::Memory) => Err(AllocError),
        Err(fault) => Ok(Some(refusal_of_federation(alloc, federation, fault)?)),
    }
}

/// What there is to say of a federation file and of a file of recorded inputs, which has no bytes where nothing is
/// recorded.
#[tactic(auto, using(crate::proofs::Agreement::of_taken))]
pub fn lint(alloc: Global, federation: &[u8], inputs: &[u8]) -> Result<Report, AllocError>
    ensures { IfOk result (IsReport federation.now inputs.now) }
{
    match load(alloc, federation) {
        Ok((plan, programs)) => of_taken(alloc, federation, inputs, &plan, &programs),
        Err(LoadFault::Memory) => Err(AllocError),
        Err(fault) => of_refused(alloc, federation, inputs, fault),
    }
}

// The report where the federation file has this fault.
fn of_refused(
    alloc: Global,
    federation: &[u8],
    inputs: &[u8],
    fault: LoadFault,
) -> Result<Report, AllocError>
    ensures federation { IfOk result (λ report. IsFirst fault report.federation) }
    ensures inputs { IfOk result (λ report. AgreesOnShape inputs.now report.inputs) }
{
    let refusal = refusal_of_federation(alloc, federation, fault)?;
    let inputs = refusal_of_shapes(alloc, inputs)?;
    Ok(Report {
        federation: Some(refusal),
        inputs,
        odd: Vec::new(alloc),
    })
}

// The report where the federation file is this plan.
#[tactic(auto, using(crate::proofs::Agreement::inputs_refused))]
fn of_taken(
    alloc: Global,
    federation: &[u8],
    inputs: &[u8],
    plan: &Plan,
    programs: &Programs,
) -> Result<Report, AllocError>
    ensures taken { IfOk result (λ report. report.federation ≡ None) }
    ensures inputs { IfOk result (λ report. AgreesOnInputs plan.now inputs.now report.inputs) }
{
    match load_inputs(alloc, inputs, plan) {
        Ok(recorded) => {
            let odd = odd_of(
                alloc,
                federation,
                inputs,
                plan,
                programs.as_slice(),
                recorded.as_slice(),
            )?;
            Ok(Report {
                federation: None,
                inputs: None,
                odd,
            })
        }
        Err(LoadFault::Memory) => Err(AllocError),
        Err(fault) => {
            let refusal = refusal_of_inputs(alloc, inputs, plan, true, fault)?;
            Ok(Report {
                federation: None,
                inputs: Some(refusal),
                odd: Vec::new(alloc),
            })
        }
    }
}

// Why a file of recorded inputs of a refused federation is refused, for its shape.
fn refusal_of_shapes(alloc: Global, inputs: &[u8]) -> Result<Option<Refusal>, AllocError>
    ensures { IfOk result (AgreesOnShape inputs.now) }
{
    match load(alloc, ANY_FEDERATION.as_bytes()) {
        Ok((plan, _programs)) => refusal_of_shapes_by(alloc, inputs, &plan),
        Err(_) => Err(AllocError),
    }
}

// The same, where this plan stands for the federation's.
#[tactic(auto, using(crate::proofs::Agreement::records_some, crate::proofs::Agreement::taken_are_some, crate::proofs::Agreement::shape_refused))]
fn refusal_of_shapes_by(
    alloc: Global,
    inputs: &[u8],
    plan: &Plan,
) -> Result<Option<Refusal>, AllocError>
    ensures { IfOk result (AgreesOnShape inputs.now) }
{
    let fault = match load_inputs(alloc, inputs, plan) {
        Ok(_) => return Ok(None),
        Err(LoadFault::Memory) => return Err(AllocError),
        Err(fault) => fault,
    };
    if is_about_actions(&fault) {
        return Ok(None);
    }
    Ok(Some(refusal_of_inputs(alloc, inputs, plan, false, fault)?))
}

// Whether a fault of recorded inputs is about the actions that they are for, and so not about their shape.
fn is_about_actions(fault: &LoadFault) -> bool
    ensures about { result ≡ true → (fault.now ≡ UnknownAction) ⊎ (fault.now ≡ RepeatedInput) }
    ensures other { result ≡ false → (fault.now ≢ UnknownAction) × (fault.now ≢ RepeatedInput) }
{
    matches!(fault, LoadFault::UnknownAction | LoadFault::RepeatedInput)
}

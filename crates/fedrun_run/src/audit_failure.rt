ghost use Rattle.std.specs.Prelude.{◌≡◌, IfOk};
ghost use Rattle.files_text.specs.PlanText.{federate_name};
ghost use Rattle.fedrun_run.specs.AuditFailures.{node_name, failure_of, number_of, IsFailureOf};

use node::NodeId;
use plan::Plan;
use plan_names::Text;
use recorder_reports::Unproved;
use std::alloc::{AllocError, Global};
use std::fmt;

/// Why an audit doesn't believe what a run's nodes reported, with the plan's names in place of numbers: see
/// `recorder_reports::Unproved`. Nothing is printed.
#[derive(Debug, Drop)]
pub enum AuditFailure {
    /// A report is of a federate that isn't there.
    Stranger,
    /// A federate has two reports.
    Double,
    /// The federate of this name has no report.
    Missing(Text),
    /// No further event of any journal can be placed: this node's journal isn't used up, and this is its next event,
    /// counted from 1. The node is `coordinator`, or a federate by its name.
    Stuck { node: Text, event: usize },
    /// The journals agree, but the rows of the federate of this name aren't what it computed: the first place, counted
    /// from 1, at which they differ.
    Mismatch { federate: Text, row: usize },
    /// No memory for the audit, or for the name that is to be printed. The same run may be made again.
    Memory,
}

impl AuditFailure {
    /// What an audit answers, with the plan's names. Without memory for a name it is `Memory`.
    pub fn new(alloc: Global, plan: &Plan, unproved: Unproved) -> AuditFailure
        ensures { IsFailureOf plan.now unproved result }
    {
        match failure_of(alloc, plan, unproved) {
            Ok(failure) => failure,
            Err(_) => AuditFailure::Memory,
        }
    }

    /// The number by which it is printed: the audit's.
    pub fn number(&self) -> u16
        ensures { result ≡ number_of self.now }
    {
        let unproved = match self {
            AuditFailure::Stranger => Unproved::Stranger,
            AuditFailure::Double => Unproved::Double,
            AuditFailure::Missing(_) => Unproved::Missing(0),
            AuditFailure::Stuck { node: _, event: _ } => Unproved::Stuck(NodeId::Coordinator, 0),
            AuditFailure::Mismatch {
                federate: _,
                row: _,
            } => Unproved::Mismatch(0, 0),
            AuditFailure::Memory => Unproved::Memory,
        };
        unproved.number()
    }
}

impl fmt::Display for AuditFailure {
    ghost use Rattle.std.specs.Prelude.{Some};
    ghost use Rattle.fedrun_run.specs.AuditFailures.{printed_failure};

    ghost output = { λ failure. Some (printed_failure failure) };

    fn fmt<W: fmt::Write>(&self, f: &mut fmt::Formatter<W>) -> fmt::Result {
        let number = self.number();
        match self {
            AuditFailure::Stranger => write!(f, "{number} Stranger"),
            AuditFailure::Double => write!(f, "{number} Double"),
            AuditFailure::Missing(federate) => write!(f, "{number} Missing {}", federate.as_str()),
            AuditFailure::Stuck { node, event } => write!(
                f,
                "{number} Stuck {} {event}",
                node.as_str()
            ),
            AuditFailure::Mismatch { federate, row } => {
                write!(f, "{number} Mismatch {} {row}", federate.as_str())
            }
            AuditFailure::Memory => write!(f, "{number} Memory"),
        }
    }
}

// What an audit answers, with the plan's names.
fn failure_of(alloc: Global, plan: &Plan, unproved: Unproved) -> Result<AuditFailure, AllocError>
    ensures { IfOk result (λ failure. failure ≡ failure_of plan.now unproved) }
{
    let failure = match unproved {
        Unproved::Stranger => AuditFailure::Stranger,
        Unproved::Double => AuditFailure::Double,
        Unproved::Missing(federate) => AuditFailure::Missing(federate_name(alloc, plan, federate)?),
        Unproved::Stuck(node, event) => AuditFailure::Stuck {
            node: node_name(alloc, plan, node)?,
            event,
        },
        Unproved::Mismatch(federate, row) => AuditFailure::Mismatch {
            federate: federate_name(alloc, plan, federate)?,
            row,
        },
        Unproved::Memory => AuditFailure::Memory,
    };
    Ok(failure)
}

// A node's name.
fn node_name(alloc: Global, plan: &Plan, node: NodeId) -> Result<Text, AllocError>
    ensures { IfOk result (λ name. name ≡ node_name plan.now node) }
{
    match node {
        NodeId::Coordinator => Ok(Text::new(String::from_str(alloc, "coordinator")?)),
        NodeId::Federate(federate) => federate_name(alloc, plan, federate),
    }
}

// A federate's name, or an empty text where there is none.
fn federate_name(alloc: Global, plan: &Plan, federate: usize) -> Result<Text, AllocError>
    ensures { IfOk result (λ name. name ≡ federate_name plan.now federate) }
{
    match plan.federates().get(federate) {
        Some(federate) => federate.name.clone(),
        None => Ok(Text::new(String::new(alloc))),
    }
}

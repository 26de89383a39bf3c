//! What the nodes of a run are given.
ghost use Rattle.plan.specs.External.{AreInputsOf};
ghost use Rattle.reactor_programs.specs.Programs.{AreProgramsOf};

use crate::cases::Case;
use coordinator::Coordinator;
use desk::Shared;
use federate::Federate;
use fedrun_files::Sources;
use fedrun_reports::RULES;
use fedrun_run::{coordinator_desk, federate_desk};
use files_logs::LogHead;
use files_reports::FileDigests;
use files_reports::layout::COORDINATOR;
use loadfed::{load, load_inputs};
use node::NodeId;
use std::alloc::Global;
use std::marker::Model;

/// A case, loaded from its two files.
#[derive(Drop)]
pub(crate) struct Given {
    sources: Sources,
    digests: FileDigests,
    rows: &'static str,
}

impl Model for Given {
    ghost use Rattle.plan.specs.External.{AreInputsOf};
    ghost use Rattle.reactor_programs.specs.Programs.{AreProgramsOf};
    ghost use Rattle.fedrun_files.specs.declared.reading.Sources.{Sources};

    ghost Value = { Sources };

    ghost view = { λ g. g.sources };

    ghost invariant = { λ g. AreProgramsOf g.sources.plan g.sources.programs
        × AreInputsOf g.sources.plan g.sources.inputs };
}

impl Given {
    /// None where it can't be loaded.
    pub(crate) fn load(alloc: Global, case: &Case) -> Option<Given> {
        let (plan, programs) = load(alloc, case.federation.as_bytes()).ok()?;
        let inputs = load_inputs(alloc, case.inputs.as_bytes(), &plan).ok()?;
        Some(Given {
            sources: Sources {
                plan,
                programs,
                inputs,
            },
            digests: FileDigests::new(case.federation.as_bytes(), case.inputs.as_bytes()),
            rows: case.rows,
        })
    }

    /// The federation with its programs and its recorded inputs.
    pub(crate) fn sources(&self) -> &Sources
        ensures programs { AreProgramsOf result.now.plan result.now.programs }
        ensures inputs { AreInputsOf result.now.plan result.now.inputs }
    {
        &self.sources
    }

    /// Of its two files.
    pub(crate) fn digests(&self) -> &FileDigests {
        &self.digests
    }

    /// The rows that it must have, federate by federate.
    pub(crate) fn rows(&self) -> &str {
        self.rows
    }

    /// How many federates it has.
    pub(crate) fn count(&self) -> usize {
        self.sources.plan.federate_count()
    }

    /// The head of a node's log; of more federates than a log can say, the coordinator's.
    pub(crate) fn head(&self, who: NodeId) -> LogHead {
        let number = match who {
            NodeId::Coordinator => None,
            NodeId::Federate(number) => u16::try_from(number).ok(),
        };
        LogHead {
            files: self.digests,
            who: number.unwrap_or(COORDINATOR),
            rules: RULES,
        }
    }

    /// A desk of the coordinator, to which nothing came; None, here and below, where there is no memory.
    pub(crate) fn coordinator(&self, alloc: Global) -> Option<Shared<Coordinator<'_>>> {
        Some(Shared::new(coordinator_desk(alloc, &self.sources.plan).ok()?))
    }

    /// A desk of a federate, to which nothing came; None, too, where there is no such federate.
    pub(crate) fn federate(&self, alloc: Global, number: usize) -> Option<Shared<Federate<'_>>> {
        let sources = self.sources();
        if number >= sources.plan.federate_count() {
            return None;
        }
        let desk = federate_desk(
            alloc,
            &sources.plan,
            &sources.programs,
            &sources.inputs,
            number,
        );
        Some(Shared::new(desk.ok()?))
    }
}

ghost use Rattle.std.specs.Prelude.{◌≡◌, ◌+◌, length, map, IfOk, IfErr};
ghost use Rattle.plan.specs.External.{AreInputsOf};
ghost use Rattle.plan.specs.Federation.{federate_count};
ghost use Rattle.plan.specs.Legal.{IsLegal};
ghost use Rattle.reactor_programs.specs.Programs.{AreProgramsOf};
ghost use Rattle.recorder_search.specs.Journals.{IsFound};
ghost use Rattle.recorder_search.specs.Reading.{IsReading};
ghost use Rattle.world.specs.World.{WorldView};
ghost use Rattle.recorder.specs.Placing.{initial_of, world_motion};
ghost use Rattle.recorder_reports.specs.Reports.{AreComplete};
ghost use Rattle.recorder.specs.Audited.{HasEnded, HasSearched, IsUnproved, claim_of};
ghost use Rattle.recorder_reports.specs.declared.unproved.Unproved.TheVariants as Faults;

use crate::Auditor;
use crate::audited_run::AuditedRun;
use crate::judging::judge;
use crate::known::{add_to, are_prefixes, none_known, references_to};
use node::NodeId;
use node_journal::Journal;
use plan::{Inputs, Plan};
use reactor_programs::Programs;
use recorder_reports::{Report, Unproved, all_journals, refuse_incomplete};
use recorder_search::growing::{longer_journals_are_read, nothing_is_read};
use recorder_search::{Found, Reading};
use std::alloc::{AllocError, Global};
use std::marker::Model;

/// An audit that is begun while the nodes of a federation still write their journals. Contracts see the world of the
/// federation that it is about, before the first step.
#[derive(Drop)]
pub struct IncrementalAudit<'a> {
    plan: &'a Plan,
    programs: &'a Programs,
    inputs: &'a Inputs,
    auditor: Auditor<'a>,
    reading: Reading,
    // What is known of the journals: the coordinator's, then the federates' by number.
    known: Vec<Journal>,
    // Whether steps were lost: then all of them are made again at the end.
    is_given_up: bool,
}

impl<'a> Model for IncrementalAudit<'a> {
    ghost use Rattle.world.specs.World.{WorldView};
    ghost use Rattle.recorder.specs.Placing.{initial_of};
    ghost use Rattle.recorder.specs.Incremental.{IsIncremental};

    ghost Value = { WorldView };

    ghost view = { λ a. initial_of a.plan.now a.programs.now a.inputs.now };

    ghost invariant = { λ a. IsIncremental (initial_of a.plan.now a.programs.now a.inputs.now) a.auditor a.reading
        a.known.items a.is_given_up };
}

impl<'a> IncrementalAudit<'a> {
    /// Of no journal anything is known.
    pub fn new(
        alloc: Global,
        plan: &'a Plan,
        programs: &'a Programs,
        inputs: &'a Inputs,
    ) -> Result<IncrementalAudit<'a>, Unproved>
        requires programs { AreProgramsOf plan.now programs.now }
        requires inputs { AreInputsOf plan.now inputs.now }
        ensures begun { IfOk result (λ audit. audit ≡ initial_of plan.now programs.now inputs.now) }
        ensures memory { IfErr result (λ fault. fault ≡ Faults.Memory) }
    {
        // For the prover: there are few federates, and before the first step nothing is read.
        plan.invariant();
        nothing_is_read::<Auditor<'a>>();
        let count = plan.federate_count() + 1;
        let reading = Reading::new(alloc, count)?;
        let known = none_known(alloc, count)?;
        let auditor = Auditor::new(alloc, plan, programs, inputs)?;
        Ok(IncrementalAudit {
            plan,
            programs,
            inputs,
            auditor,
            reading,
            known,
            is_given_up: false,
        })
    }

    /// Whether steps were lost: then nothing more that is added is of use.
    pub fn is_given_up(&self) -> bool {
        self.is_given_up
    }

    /// How many events of a node are known.
    pub fn known(&self, node: NodeId) -> usize {
        match self.known.get(place_of(node)) {
            Some(journal) => journal.len(),
            None => 0,
        }
    }

    /// A node's journal goes on with these events. Without memory they aren't known, and nothing is lost: they may come
    /// again.
    pub fn add(&mut self, node: NodeId, events: &Journal) -> Result<(), AllocError>
        ensures { self.new ≡ self.old }
    {
        // For the prover: what is read stays read.
        longer_journals_are_read::<Auditor<'a>>();
        add_to(&mut self.known, place_of(node), events)
    }

    /// Makes steps for what is known, as far as guesses go. Without memory those steps are lost, and are made again at
    /// the end.
    pub fn go_on(&mut self, alloc: Global)
        ensures { self.new ≡ self.old }
    {
        if self.is_given_up {
            return;
        }
        let Ok(journals) = references_to(alloc, &self.known) else {
            return;
        };
        if self
            .reading
            .read_ahead(&mut self.auditor, &journals)
            .is_err()
        {
            self.is_given_up = true;
        }
    }

    /// Now that all journals are there: what `audit_run` says of them. Only what wasn't read yet is read, unless what
    /// is known isn't a prefix of them, or steps were lost.
    pub fn conclude(
        self,
        alloc: Global,
        reports: &[Report],
        coordinator: &Journal,
    ) -> Result<AuditedRun, Unproved>
        ensures ended { IfOk result (HasEnded (claim_of self.entry reports.now coordinator.now)) }
        ensures unproved { IfErr result (IsUnproved (claim_of self.entry reports.now coordinator.now)) }
    {
        match refuse_incomplete(self.federate_count(), reports) {
            Ok(()) => self.conclude_complete(alloc, reports, coordinator),
            Err(fault) => Err(fault),
        }
    }

    /// What it says of complete reports.
    pub(crate) fn conclude_complete(
        self,
        alloc: Global,
        reports: &[Report],
        coordinator: &Journal,
    ) -> Result<AuditedRun, Unproved>
        requires complete { AreComplete (federate_count self.draft) reports.now }
        ensures ended { IfOk result (HasEnded (claim_of self.entry reports.now coordinator.now)) }
        ensures unproved { IfErr result (IsUnproved (claim_of self.entry reports.now coordinator.now)) }
    {
        // For the prover: the plan is legal, and its programs and inputs are its own.
        self.fits();
        let (auditor, found) = self.search_on(alloc, reports, coordinator)?;
        judge(auditor.into_world(), reports, found)
    }

    // How many federates there are.
    fn federate_count(&self) -> usize
        ensures { result ≡ federate_count self.now.draft }
    {
        self.plan.federate_count()
    }

    // For the prover: the plan is legal, and its programs and inputs are its own.
    fn fits(&self)
        ensures legal { IsLegal self.now.draft }
        ensures programs { AreProgramsOf self.now.draft self.now.programs }
        ensures inputs { AreInputsOf self.now.draft self.now.inputs }
    {
        self.plan.invariant();
    }

    // The world in which the search for all journals ended, and how.
    fn search_on(
        self,
        alloc: Global,
        reports: &[Report],
        coordinator: &Journal,
    ) -> Result<(Auditor<'a>, Found), Unproved>
        ensures searched { IfOk result
            (λ ended. HasSearched (claim_of self.entry reports.now coordinator.now) ended.0 ended.1) }
        ensures memory { IfErr result (λ fault. fault ≡ Faults.Memory) }
    {
        let empty = Journal::new(alloc);
        let journals = all_journals(
            alloc,
            self.plan.federate_count(),
            reports,
            coordinator,
            &empty,
        )?;
        self.search_all(alloc, &journals)
    }

    // The same of journals, one for each node: it goes on where it stands, or begins again.
    fn search_all(
        self,
        alloc: Global,
        journals: &[&Journal],
    ) -> Result<(Auditor<'a>, Found), Unproved>
        requires sized { length journals.now ≡ federate_count self.draft + 1 }
        ensures searched { IfOk result
            (λ ended. IsFound world_motion self.entry (map (λ j. j.now) journals.now) ended.0 ended.1) }
        ensures memory { IfErr result (λ fault. fault ≡ Faults.Memory) }
    {
        if self.is_given_up || !are_prefixes(&self.known, journals) {
            return self.search_anew(alloc, journals);
        }
        // For the prover: what is read stays read.
        longer_journals_are_read::<Auditor<'a>>();
        read_to_end(self.auditor, self.reading, journals)
    }

    // The same of a second world. Before it is made, the first one goes, and all that was made for it.
    fn search_anew(
        self,
        alloc: Global,
        journals: &[&Journal],
    ) -> Result<(Auditor<'a>, Found), Unproved>
        ensures searched { IfOk result
            (λ ended. IsFound world_motion self.entry (map (λ j. j.now) journals.now) ended.0 ended.1) }
        ensures memory { IfErr result (λ fault. fault ≡ Faults.Memory) }
    {
        let (plan, programs, inputs) = (self.plan, self.programs, self.inputs);
        drop(self);
        search_from_initial(alloc, plan, programs, inputs, journals)
    }
}

// The world in which a search for these journals ended, and how, where it began before the first step.
fn search_from_initial<'a>(
    alloc: Global,
    plan: &'a Plan,
    programs: &'a Programs,
    inputs: &'a Inputs,
    journals: &[&Journal],
) -> Result<(Auditor<'a>, Found), Unproved>
    requires programs { AreProgramsOf plan.now programs.now }
    requires inputs { AreInputsOf plan.now inputs.now }
    ensures searched { IfOk result
        (λ ended. IsFound world_motion (initial_of plan.now programs.now inputs.now) (map (λ j. j.now) journals.now)
        ended.0 ended.1) }
    ensures memory { IfErr result (λ fault. fault ≡ Faults.Memory) }
{
    // For the prover: before the first step nothing is read.
    nothing_is_read::<Auditor<'a>>();
    let reading = Reading::new(alloc, journals.len())?;
    let auditor = Auditor::new(alloc, plan, programs, inputs)?;
    read_to_end(auditor, reading, journals)
}

// The world in which a search ended that had read so far, and how.
fn read_to_end<'a>(
    mut auditor: Auditor<'a>,
    reading: Reading,
    journals: &[&Journal],
) -> Result<(Auditor<'a>, Found), Unproved>
    requires sized { length reading ≡ length journals.now }
    ensures found { IfOk result (λ ended. (initial : WorldView)
        → IsReading world_motion initial (map (λ j. j.now) journals.now)
        (record { state = auditor.entry; read = reading })
        → IsFound world_motion initial (map (λ j. j.now) journals.now) ended.0 ended.1) }
    ensures memory { IfErr result (λ fault. fault ≡ Faults.Memory) }
{
    let found = reading.finish(&mut auditor, journals)?;
    Ok((auditor, found))
}

// A node's place among the journals.
fn place_of(node: NodeId) -> usize {
    match node {
        NodeId::Coordinator => 0,
        NodeId::Federate(federate) => federate.saturating_add(1),
    }
}

use crate::draft::Draft;
use crate::finding::{Finding, advice_of};
use crate::form::limit_of;
use crate::tree::Tree;
use loadfed::{LoadFault, load, load_inputs};
use plan::{Plan, PlanFault};
use reactor_program::ProgramFault;
use std::alloc::{AllocError, Global};

/// The most faults that are looked for in a file.
const MOST_FINDINGS: usize = 100;

/// How many bytes of small files are loaded for one file at most.
const MOST_ASKED: usize = 33_554_432;

/// The same, to guess what is meant by names that aren't there.
const MOST_GUESSED: usize = 4_194_304;

/// What the loading of a file costs beside its bytes, as this many of them.
const COST: usize = 256;

/// What a fault is about.
#[derive(Clone, Copy)]
pub(crate) enum About {
    /// A table's shape, which is looked at before anything else.
    Shape,
    /// The same: too much of something.
    Count,
    /// Too many names, federates or connections.
    Limit,
    /// A name that isn't there.
    Name,
    Other,
}

/// A look at a refused file: where its values stand, the loader, and what was found.
///
/// An allocation that fails is noted, and ends the look: what was found is then not given out.
#[derive(Drop)]
pub(crate) struct Look<'a> {
    pub(crate) alloc: Global,
    pub(crate) tree: &'a Tree<'a>,
    /// The plan whose recorded inputs stand in the file; none where it is a federation file.
    pub(crate) plan: Option<&'a Plan>,
    /// How many bytes the loader is still asked about.
    left: usize,
    /// The same, to guess.
    left_to_guess: usize,
    findings: Vec<Finding>,
    /// Whether there may be more.
    is_cut: bool,
    is_lost: bool,
    /// The fault of the file that was asked about last, if it was refused, and what it is about.
    fault: Option<LoadFault>,
    about: About,
    /// Whether all names were kept that are in reach where it is looked, so that an unknown one is a fault.
    pub(crate) is_whole: bool,
    /// Whether it was told already that there are too many of what is looked at.
    pub(crate) is_counted: bool,
    /// The federate that is looked at, by its node, and the number of its reaction.
    pub(crate) federate: usize,
    pub(crate) reaction: usize,
}

impl<'a> Look<'a> {
    pub(crate) fn new(alloc: Global, tree: &'a Tree<'a>, plan: Option<&'a Plan>) -> Look<'a> {
        Look {
            alloc,
            tree,
            plan,
            left: MOST_ASKED,
            left_to_guess: MOST_GUESSED,
            findings: Vec::new(alloc),
            is_cut: false,
            is_lost: false,
            fault: None,
            about: About::Other,
            is_whole: true,
            is_counted: false,
            federate: 0,
            reaction: 0,
        }
    }

    /// The faults, and whether there may be more.
    pub(crate) fn into_found(self) -> Result<(Vec<Finding>, bool), AllocError> {
        if self.is_lost {
            Err(AllocError)
        } else {
            Ok((self.findings, self.is_cut))
        }
    }

    /// How many faults were found.
    pub(crate) fn len(&self) -> usize {
        self.findings.len()
    }

    /// Notes that an allocation failed.
    pub(crate) fn lose(&mut self) {
        self.is_lost = true;
    }

    /// Whether enough was found; then there may be more.
    pub(crate) fn is_over(&mut self) -> bool {
        if self.findings.len() >= MOST_FINDINGS {
            self.is_cut = true;
        }
        self.is_lost || self.findings.len() >= MOST_FINDINGS
    }

    /// Whether the loader refuses a small file; not where enough was found or asked.
    pub(crate) fn refuses(&mut self, file: &Draft) -> bool {
        self.fault = None;
        if file.is_lost() {
            self.is_lost = true;
        }
        if self.is_over() || !self.may_ask(file.as_slice().len()) {
            return false;
        }
        self.ask(file.as_slice())
    }

    /// The same, for its shape.
    pub(crate) fn refuses_shape(&mut self, file: &Draft) -> bool {
        self.refuses(file) && self.is_about_shape()
    }

    // Whether the loader is asked about this many bytes more; then they are counted, and else there may be more faults.
    fn may_ask(&mut self, count: usize) -> bool {
        let cost = count.saturating_add(COST);
        let may = cost <= self.left;
        self.left = self.left.saturating_sub(cost);
        if !may {
            self.is_cut = true;
        }
        may
    }

    /// Whether the loader takes a small file, in which a guess stands; not where enough was found or guessed.
    pub(crate) fn takes(&mut self, file: &Draft) -> bool {
        if file.is_lost() {
            self.is_lost = true;
        }
        let cost = file.as_slice().len().saturating_add(COST);
        if self.is_over() || !self.may_guess(cost) {
            return false;
        }
        !self.ask(file.as_slice()) && !self.is_lost
    }

    /// Whether so much more may be guessed, as bytes that are loaded; then they are counted.
    pub(crate) fn may_guess(&mut self, cost: usize) -> bool {
        match self.left_to_guess.checked_sub(cost) {
            Some(left) => {
                self.left_to_guess = left;
                true
            }
            None => false,
        }
    }

    fn ask(&mut self, file: &[u8]) -> bool {
        match fault_of(self.alloc, self.plan, file) {
            None => false,
            Some(LoadFault::Memory) => {
                self.is_lost = true;
                false
            }
            Some(fault) => {
                self.about = subject_of(&fault);
                self.fault = Some(fault);
                true
            }
        }
    }

    /// What the last fault is about.
    pub(crate) fn about(&self) -> About {
        self.about
    }

    /// Whether the last fault is about a table's shape.
    pub(crate) fn is_about_shape(&self) -> bool {
        matches!(self.about, About::Shape | About::Count)
    }

    /// The last fault.
    pub(crate) fn fault(&self) -> &Option<LoadFault> {
        &self.fault
    }

    /// Takes the last fault, so that more may be asked.
    pub(crate) fn take(&mut self) -> (Option<LoadFault>, About) {
        (self.fault.take(), self.about)
    }

    /// Puts it back.
    pub(crate) fn put_back(&mut self, fault: Option<LoadFault>, about: About) {
        self.fault = fault;
        self.about = about;
    }

    /// Makes the last fault one of this line of the reaction that is looked at.
    pub(crate) fn number(&mut self, line: usize) {
        let reaction = self.reaction;
        if let Some(LoadFault::Program { federate: _, fault }) = &mut self.fault {
            *fault = at(*fault, reaction, line);
        }
    }

    /// Adds the last fault, at this line, with what to do about any of its kind.
    pub(crate) fn add(&mut self, line: usize) {
        let advice = self.advice();
        self.put(line, "", advice);
    }

    /// The same, with what is told of it.
    pub(crate) fn add_made(&mut self, line: usize, what: Result<String, AllocError>) {
        let advice = self.advice();
        self.put_made(line, what, advice);
    }

    // What to do about any fault of the last one's kind.
    fn advice(&self) -> &'static str {
        match &self.fault {
            Some(fault) => advice_of(fault),
            None => "",
        }
    }

    /// Adds the last fault, at this line: that an array has too many entries.
    pub(crate) fn add_count(&mut self, line: usize, array: usize) {
        let count = self.tree.count(array);
        match limit_of(self.tree.key(array)) {
            Some((most, advice)) if count > most => {
                let what = format!(in self.alloc; "{count} stand here; ");
                self.put_made(line, what, advice);
            }
            _ => self.add(line),
        }
    }

    /// Adds the last fault, at this line, with what is wrong and what to do.
    pub(crate) fn put(&mut self, line: usize, what: &str, advice: &'static str) {
        let what = String::from_str(self.alloc, what);
        self.put_made(line, what, advice);
    }

    /// The same, where what is wrong was made for it.
    pub(crate) fn put_made(
        &mut self,
        line: usize,
        what: Result<String, AllocError>,
        advice: &'static str,
    ) {
        match what {
            Ok(what) => self.put_text(line, what, advice),
            Err(_) => self.is_lost = true,
        }
    }

    fn put_text(&mut self, line: usize, what: String, advice: &'static str) {
        if self.is_over() {
            return;
        }
        if let Some(fault) = self.fault.take() {
            self.push(Finding {
                line,
                fault,
                what,
                advice,
            });
        }
    }

    fn push(&mut self, finding: Finding) {
        if self.findings.push(finding).is_err() {
            self.is_lost = true;
        }
    }
}

// The fault of a file, if it is refused: of recorded inputs of a plan, or else of a federation.
fn fault_of(alloc: Global, plan: Option<&Plan>, file: &[u8]) -> Option<LoadFault> {
    match plan {
        Some(plan) => load_inputs(alloc, file, plan).err(),
        None => load(alloc, file).err(),
    }
}

// What a fault is about.
fn subject_of(fault: &LoadFault) -> About {
    match fault {
        LoadFault::NotToml | LoadFault::WrongShape(_) => About::Shape,
        LoadFault::OverLimit => About::Count,
        LoadFault::Plan(PlanFault::OverLimit) => About::Limit,
        LoadFault::Plan(PlanFault::UnknownName(_))
        | LoadFault::Program {
            federate: _,
            fault: ProgramFault::UnknownOperand { .. },
        } => About::Name,
        _ => About::Other,
    }
}

// A program's fault, as one of this reaction and line.
fn at(fault: ProgramFault, reaction: usize, line: usize) -> ProgramFault {
    match fault {
        ProgramFault::BadLine { .. } => ProgramFault::BadLine { reaction, line },
        ProgramFault::UnknownOperand { .. } => ProgramFault::UnknownOperand { reaction, line },
        fault => fault,
    }
}

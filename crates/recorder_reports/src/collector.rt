ghost use Rattle.std.specs.Prelude.{◌≡◌, ◌++◌, ◌∷◌, [], MatchOption, OnOk, OnErr, IfErr};
ghost use Rattle.plan.specs.Federation.{federate_count};
ghost use Rattle.recorder_reports.specs.Reports.{IsFirst, IsRefusedFor};

use crate::complete::count_of;
use crate::report::Report;
use crate::report_fault::{Refused, ReportFault};
use plan::Plan;
use std::alloc::Global;
use std::marker::Model;

/// The reports of a plan's federates, as they come: at most one of each.
#[derive(Drop)]
pub struct Collector<'a> {
    plan: &'a Plan,
    reports: Vec<Report>,
}

impl<'a> Model for Collector<'a> {
    ghost use Rattle.plan.specs.Federation.{federate_count};
    ghost use Rattle.recorder_reports.specs.Reports.{Collecting};

    ghost Value = { Collecting };

    ghost view = { λ c. record { count = federate_count c.plan.now; reports = c.reports.items } };
}

impl<'a> Collector<'a> {
    /// No report yet.
    pub fn new(alloc: Global, plan: &'a Plan) -> Collector<'a>
        ensures { result ≡ record { count = federate_count plan.now; reports = [] } }
    {
        Collector {
            plan,
            reports: Vec::new(alloc),
        }
    }

    /// The reports taken, oldest first.
    pub fn reports(&self) -> &[Report]
        ensures { result.now ≡ self.now.reports }
    {
        &self.reports
    }

    /// Takes the first report of a federate that is there. Any other is handed back, and nothing has changed.
    pub fn add(&mut self, report: Report) -> Result<(), Refused>
        ensures first { OnOk result (IsFirst self.old report) }
        ensures taken { OnOk result (self.new ≡ record self.old { reports = self.old.reports ++ report ∷ [] }) }
        ensures refused { IfErr result (λ refused. IsRefusedFor self.old report refused.fault) }
        ensures handed_back { IfErr result (λ refused. refused.report ≡ report) }
        ensures unchanged { OnErr result (self.new ≡ self.old) }
    {
        let fault = match self.fault_of(&report) {
            Some(fault) => fault,
            None => match self.reports.reserve(1) {
                Ok(()) => {
                    self.reports.push_reserved(report);
                    return Ok(());
                }
                Err(_) => ReportFault::Memory,
            },
        };
        Err(Refused { report, fault })
    }

    // Why the report isn't taken, out of memory aside.
    fn fault_of(&self, report: &Report) -> Option<ReportFault>
        ensures { MatchOption result (IsFirst self.now report.now) (IsRefusedFor self.now report.now) }
    {
        if report.federate >= self.plan.federate_count() {
            Some(ReportFault::Stranger)
        } else if count_of(&self.reports, report.federate) > 0 {
            Some(ReportFault::Double)
        } else {
            None
        }
    }
}

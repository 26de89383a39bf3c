//! All that is wrong in the files of a federation, and what is odd in files that are taken, each with its line.
//!
//! Promise to the layer above: where the loader refuses a file, the report has its very fault, and where it takes the
//! file, the report has none of it (`specs/Reports`); so it is with a schedule and its reader, where the federation is
//! taken (`specs/Schedules`). What a writer gains is the report's text, and something is said to be wrong exactly where
//! the files aren't taken (`specs/Full`). What else is wrong beside the loader's own fault, and what is odd, is found in
//! `fedrun_lint_findings`, and the bad lines of a schedule in `fedrun_lint_schedule`. Begin with `print_report`, then
//! `full_report` and `report`, `linting` and `scheduling`.
#![tactic(auto)]

pub mod full_report;
pub mod linting;
pub mod printing;
pub mod report;
mod scheduling;

pub use fedrun_lint_findings::{Finding, Oddity, Refusal, Why};
pub use full_report::{FullReport, FullReportLines};
pub use linting::lint;
pub use printing::{LintFault, NamedFile, print_report};
pub use report::{Report, ReportLines};

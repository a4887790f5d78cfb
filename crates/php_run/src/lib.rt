// The command: from words, a shelf and two sinks to a report.
#![tactic(auto)]

mod answer;
mod check;
mod limits;
mod message;
mod report;
mod run;
mod status;
mod today;
mod words;

pub use report::{Kind, Refusal, Report};
pub use run::run_php;

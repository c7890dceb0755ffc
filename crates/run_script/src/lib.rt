//! Runs a script: from its bytes to those of its report.
#![tactic(auto)]

mod asking;
mod chips;
mod lines;
mod reporting;
mod session;

pub use reporting::report;

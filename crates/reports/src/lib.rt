// The report: a line for each named task and a closing line, written into a buffer of the caller's.
#![tactic(auto)]

mod page;
mod report;

pub use report::{Ending, Roster, Row, Wait, write_report};

// What the programs do at their edges: an input is read up to a limit, and the report of a tape is printed.
#![tactic(auto)]

mod printing;
mod reading;

pub use printing::print_report;
pub use reading::read_at_most;

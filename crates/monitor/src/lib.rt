// The monitor: it is told what tasks do, and names those that can never go on.
#![tactic(auto)]

mod bench;
mod law;
mod monitor;
mod playing;
mod questions;
mod report;
mod tell;
mod tickets;

pub use bench::report_of_tape;
pub use law::names_are_exact_in_every_run;
pub use monitor::Monitor;
pub use reports::Ending;
pub use tickets::{Refused, Running, RunningTicket, Ticket, Tickets, Told, Waiting, WaitingTicket};

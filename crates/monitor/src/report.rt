// The report of a monitor.
ghost use Rattle.std.specs.Prelude.{◌≡◌};
ghost use Rattle.reports.specs.Report.{report_text, rows_below, Written};
ghost use Rattle.rules.specs.Limits.{most_tasks};
ghost use Rattle.monitor.specs.Of.{state_of};
ghost use Rattle.monitor.specs.Report.{named_row, wait_with};
ghost use Rattle.rules.specs.Picture.{status};

use crate::monitor::Monitor;
use refusals::Refusal;
use reports::{Ending, Roster, Row, Wait, write_report};
use rules::Status;

impl Monitor {
    // What a task waits for, if it waits.
    fn wait_of(&self, task: u8) -> Option<Wait>
        ensures { result ≡ wait_with (state_of self.now).picture task (status (state_of self.now).picture task) }
    {
        let book = &self.tasks.watch.book;
        let wait = match self.status(u16::from(task)) {
            Status::Queued { server, .. } => Wait::Queued { server },
            Status::Engaged { server } => Wait::Engaged { server },
            Status::Accepting { mask } => Wait::Accepting { mask },
            Status::Leaving => {
                let unfinished = book.unfinished_in_block(task);
                Wait::Leaving { unfinished }
            }
            Status::Completed => {
                let unfinished = book.unfinished_in_all(task);
                Wait::Completed { unfinished }
            }
            Status::NotBegun | Status::Running | Status::Terminated => return None,
        };
        Some(wait)
    }

    // Writes the report into the buffer: a line for each named task, the lowest first, and the closing line of a tape that
    // ended so. Answers the length.
    pub fn report(&self, ending: Ending, buffer: &mut [u8]) -> Result<usize, Refusal>
        ensures { Written (report_text (rows_below (named_row (state_of self.now)) most_tasks) ending) buffer.old result buffer.new }
    {
        write_report(buffer, self, ending)
    }
}

impl Roster for Monitor {
    ghost rows = { λ m. named_row (state_of m) };

    fn row(&self, task: u8) -> Option<Row> {
        if !self.names.contains(usize::from(task)) {
            return None;
        }
        self.wait_of(task).map(|wait| Row { task, wait })
    }
}

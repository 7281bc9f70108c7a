// The report of the named tasks, written into a lent buffer.
ghost use Rattle.std.specs.Prelude.{◌≡◌, ℕ, ◌+◌, ◌*◌, ◌^◌, ◌<◌, ◌≤◌, true, false, cond, List, [], ◌∷◌, ◌++◌, length, Option};
ghost use Rattle.reports.specs.Layout.{Puts};
ghost use Rattle.reports.specs.Report.{wait_letter, wait_other, ending_letter, lines_told, report_text, rows_below, Written};
ghost use Rattle.reports.specs.declared.report.Row.{Row};

use crate::page::Page;
use refusals::Refusal;

// What a named task waits for.
#[derive(Clone, Copy, Debug, PartialEq, Eq)]
pub enum Wait {
    Queued { server: u8 },
    Engaged { server: u8 },
    Accepting { mask: u8 },
    Leaving { unfinished: u8 },
    Completed { unfinished: u8 },
}

impl Wait {
    pub fn letter(self) -> char
        ensures { result ≡ wait_letter self }
    {
        match self {
            Wait::Queued { .. } => 'Q',
            Wait::Engaged { .. } => 'R',
            Wait::Accepting { .. } => 'A',
            Wait::Leaving { .. } => 'L',
            Wait::Completed { .. } => 'W',
        }
    }

    pub fn other(self) -> u8
        ensures { result ≡ wait_other self }
    {
        match self {
            Wait::Queued { server } | Wait::Engaged { server } => server,
            Wait::Accepting { mask } => mask,
            Wait::Leaving { unfinished } | Wait::Completed { unfinished } => unfinished,
        }
    }
}

#[derive(Clone, Copy, Debug, PartialEq, Eq)]
pub struct Row {
    pub task: u8,
    pub wait: Wait,
}

// How the telling of a tape ended, after so many lines.
#[derive(Clone, Copy, Debug, PartialEq, Eq)]
pub enum Ending {
    Whole { told: u64 },
    Stopped { told: u64 },
}

impl Ending {
    pub fn letter(self) -> char
        ensures { result ≡ ending_letter self }
    {
        match self {
            Ending::Whole { .. } => 'T',
            Ending::Stopped { .. } => 'S',
        }
    }

    pub fn told(self) -> u64
        ensures { result ≡ lines_told self }
    {
        match self {
            Ending::Whole { told } | Ending::Stopped { told } => told,
        }
    }
}

// Whose named tasks are reported.
pub trait Roster {
    ghost rows: { Self → ℕ → Option Row };

    // The row of a task that is named.
    fn row(&self, task: u8) -> Option<Row>
        ensures { result ≡ rows self.now task };
}

// Answers the length. By task: a `for` over `filter_map` did not prove here, where `R` is generic.
fn put_report<R: Roster>(buf: &mut [u8], roster: &R, ending: Ending) -> usize
    ensures { Puts buf.old 0 (report_text (rows_below (R.rows roster.now) 64) ending) buf.new result }
{
    let mut page = Page { buf, at: 0 };
    let mut names = 0;
    for task in 0..64 {
        if let Some(row) = roster.row(task) {
            page.put_row(row);
            names += 1;
        }
    }
    page.put_closing(ending, names);
    page.at
}

// Writes the report into `buf`, and answers its length; what lies behind it stays.
pub fn write_report<R: Roster>(buf: &mut [u8], roster: &R, ending: Ending) -> Result<usize, Refusal>
    ensures { Written (report_text (rows_below (R.rows roster.now) 64) ending) buf.old result buf.new }
{
    let mut none = [0; 0];
    if put_report(&mut none, roster, ending) > buf.len() {
        return Err(Refusal::ReportTooLong);
    }
    Ok(put_report(buf, roster, ending))
}

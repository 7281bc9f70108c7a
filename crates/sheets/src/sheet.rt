// A wait sheet: for each of 96 parties, how many of which parties it waits for.
ghost use Rattle.std.specs.Prelude.{◌≡◌, ℕ, Bool, Some};
ghost use Rattle.books.specs.Points.{has};
ghost use Rattle.sheets.specs.Sheets.{follow, row_follow, NoRows};
ghost use Rattle.sheets.specs.Limits.{parties};
ghost use Rattle.sheets.specs.Meaning.{follow_grows, follow_beyond};
ghost use Rattle.std.proofs.Common.{rules};

use books::{PointSet, WaitBook};

// How many parties a sheet has; they are numbered from 0.
pub(crate) const PARTIES: usize = 96;

// A party follows when at least `needs` of those listed are in the set.
#[derive(Clone, Copy)]
pub(crate) struct Row {
    pub(crate) needs: usize,
    pub(crate) listed: PointSet,
}

impl Row {
    fn is_met(&self, s: &PointSet) -> bool
        ensures { result ≡ row_follow (Some self.now) (has s.now) }
    {
        self.needs <= self.listed.intersection(s).len()
    }
}

// A party with no row always follows.
#[derive(Drop)]
pub struct WaitSheet {
    pub(crate) rows: [Option<Row>; PARTIES],
}

impl WaitBook for WaitSheet {
    const POINTS: usize = PARTIES;

    ghost POINTS = { parties };

    ghost meaning = { follow };

    ghost few = { Prim.search rules };

    ghost grows = { follow_grows };

    ghost beyond = { follow_beyond };

    fn follows(&self, p: usize, s: &PointSet) -> bool {
        let Some(kept) = self.rows.get(p) else {
            return false;
        };
        kept.as_ref().is_none_or(|row| row.is_met(s))
    }
}

impl WaitSheet {
    // A sheet with no row.
    pub fn new() -> Self
        ensures { NoRows (follow result) }
    {
        WaitSheet {
            rows: [None; PARTIES],
        }
    }
}

// The lines of a sheet, and the rows that they put in.
ghost use Rattle.std.specs.Prelude.{◌≡◌, ℕ, Bool, true, false, ◌&&◌, MatchResult, count_by};
ghost use Rattle.refusals.specs.declared.Refusal.TheVariants.{ListedTwice};
ghost use Rattle.books.specs.Points.{has};
ghost use Rattle.books.specs.Shut.{size};
ghost use Rattle.sheets.specs.Rows.{known, counted, AllParties, SomeOther, Once, Again, RowAnswer, LineAnswer, ToldApart};
ghost use Rattle.std.proofs.Common.{rules};

use crate::sheet::{PARTIES, Row, WaitSheet};
use books::PointSet;
use lines::{Alphabet, read_line};
use refusals::Refusal;

// How many parties a row may list.
const LISTED: usize = 8;

// The letter of a sheet's lines: W, with a party, how many it needs, and those listed.
pub struct SheetLetters;

impl Alphabet for SheetLetters {
    ghost known = { known };

    ghost counted = { counted };

    ghost comma = { Prim.search rules };

    fn knows(letter: char) -> bool {
        letter == 'W'
    }

    fn counts(_letter: char, numbers: usize) -> bool {
        numbers >= 2
    }
}

// Whether each number is that of a party.
fn are_parties(listed: &[u16]) -> bool
    ensures { elim result [ true ↦ AllParties listed.now | false ↦ SomeOther listed.now ] }
{
    listed.iter().all(|q| usize::from(*q) < PARTIES)
}

// The set of the parties listed, unless one is listed twice.
fn gather(listed: &[u16]) -> Result<PointSet, Refusal>
    requires { AllParties listed.now }
    ensures { MatchResult result (λ s. Once listed.now × ((S : ℕ → Bool) → size 128 (λ q. has s q && S q) ≡ count_by S listed.now)) (λ e. (e ≡ ListedTwice) × Again listed.now) }
{
    let mut set = PointSet::empty();
    for q in listed {
        if !set.insert(usize::from(*q)) {
            return Err(Refusal::ListedTwice);
        }
    }
    Ok(set)
}

impl WaitSheet {
    // Puts in the row by which `party` follows when at least `needs` of those listed are in the set, in the place of its
    // former row.
    fn set_row(&mut self, party: u16, needs: u16, listed: &[u16]) -> Result<(), Refusal>
        ensures { RowAnswer self.old self.new party needs listed.now result }
    {
        let party = usize::from(party);
        let needs = usize::from(needs);
        if party >= PARTIES {
            return Err(Refusal::UnknownParty);
        }
        if listed.len() > LISTED {
            return Err(Refusal::TooManyListed);
        }
        if needs > listed.len() {
            return Err(Refusal::NeedsTooMany);
        }
        if !are_parties(listed) {
            return Err(Refusal::UnknownListed);
        }
        let listed = gather(listed)?;
        self.rows[party] = Some(Row { needs, listed });
        Ok(())
    }

    // Takes the line W,party,needs,p1,p2,.. to the sheet.
    pub fn take_line(&mut self, line: &[u8]) -> Result<(), Refusal>
        ensures { LineAnswer self.old self.new line.now result }
    {
        let fields = read_line::<SheetLetters>(line)?;
        let numbers = fields.numbers();
        self.set_row(numbers[0], numbers[1], &numbers[2..])
    }
}

// No line is both taken and refused, and none spells two rows.
pub fn lines_are_told_apart()
    ensures { ToldApart }
{}

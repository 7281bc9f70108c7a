// Reading a line, by the letters that a reader knows.
ghost use Rattle.std.specs.Prelude.{◌≡◌, ℕ, ◌≤◌, List, length, MatchBool};
ghost use Rattle.refusals.specs.declared.Refusal.TheVariants.{NotANumber};
ghost use Rattle.lines.specs.Lines.{Sized, numbers, Reads, ReadsBack, ReadsLetter, ReadsNumbers};

use crate::fields::{Fields, LINE_ROOM};
use crate::numbers::read_number;
use crate::pieces::{piece, separators};
use refusals::Refusal;

// The letters that a reader knows, each with how many numbers may follow it.
pub trait Alphabet {
    // The letters, as bytes.
    ghost known: { ℕ → Type 0 };

    // How many numbers may follow a letter.
    ghost counted: { ℕ → ℕ → Type 0 };

    fn knows(letter: char) -> bool
        ensures { MatchBool result (known letter) (known letter → ⊥) };

    fn counts(letter: char, numbers: usize) -> bool
        ensures { MatchBool result (counted letter numbers) (counted letter numbers → ⊥) };

    ghost comma: { known 44 → ⊥ };
}

impl Fields {
    pub fn letter(&self) -> char
        ensures { result ≡ self.now.letter }
    {
        self.letter
    }

    // The numbers, in the order of the line.
    pub fn numbers(&self) -> &[u16]
        ensures { result.now ≡ numbers self.now }
    {
        &self.values[..self.count]
    }
}

// Whether the line is neither empty nor too long.
fn is_sized(line: &[u8]) -> bool
    ensures { MatchBool result (Sized line.now) (Sized line.now → ⊥) }
{
    !line.is_empty() && line.len() <= LINE_ROOM
}

// The letter of a line that has its length, a known letter and a right count of fields.
fn read_letter<A: Alphabet>(line: &[u8]) -> Result<char, Refusal>
    ensures { ReadsLetter A.known A.counted line.now result }
{
    if !is_sized(line) {
        return Err(Refusal::LineLength);
    }
    let [first] = piece(line, b',', 0) else {
        return Err(Refusal::UnknownLetter);
    };
    let letter = char::from(*first);
    if !A::knows(letter) {
        return Err(Refusal::UnknownLetter);
    }
    if !A::counts(letter, separators(line, b',')) {
        return Err(Refusal::FieldCount);
    }
    Ok(letter)
}

// A field after the letter that is no number: its place, counted with the letter as 1.
#[derive(Clone, Copy, Debug, PartialEq, Eq)]
struct BadField {
    place: usize,
}

impl From<BadField> for Refusal {
    ghost from_gives = { λ _ r. r ≡ NotANumber };

    fn from(_: BadField) -> Self {
        Refusal::NotANumber
    }
}

// The numbers in the fields after the letter; or the first of these that is no number.
fn read_numbers(line: &[u8]) -> Result<[u16; LINE_ROOM], BadField>
    requires { length line.now ≤ 32 }
    ensures { ReadsNumbers line.now result }
{
    let mut values = [0; LINE_ROOM];
    for (i, field) in line.split(|b| *b == b',').skip(1).enumerate() {
        values[i] = read_number(field).ok_or(BadField { place: i + 2 })?;
    }
    Ok(values)
}

// The letter and the numbers that a line spells.
pub fn read_line<A: Alphabet>(line: &[u8]) -> Result<Fields, Refusal>
    ensures reads { Reads A.known A.counted line.now result }
    ensures back { ReadsBack A.known A.counted line.now result }
{
    let letter = read_letter::<A>(line)?;
    let values = read_numbers(line)?;
    let count = separators(line, b',');
    Ok(Fields {
        letter,
        count,
        values,
    })
}

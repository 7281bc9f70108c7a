// What is printed of a sheet.
ghost use Rattle.std.specs.Prelude.{◌≡◌, ℕ, ◌+◌, ◌≤◌, [], ◌∷◌, ◌++◌, length, IfOk, string_bytes, OnOk};
ghost use Rattle.std.specs.List.{flat_map};
ghost use Rattle.books.specs.Points.{has};
ghost use Rattle.lines.specs.Pieces.{lines_of};
ghost use Rattle.sheets.specs.Limits.{parties, input_room};
ghost use Rattle.sheets.specs.Page.{Page, TakesLines, refusal_line, party_line, closing_line, whole_refusal_line, members};
ghost use Rattle.sheets.specs.Sheets.{Meaning, follow};

use crate::sheet::{PARTIES, WaitSheet};
use books::{PointSet, Watch};
use lines::lines;
use refusals::Refusal;
use std::alloc::{AllocError, Global};

// The most bytes that the lines of a sheet may have together.
pub const INPUT_ROOM: usize = 65_536;

// Takes the lines of the input to the sheet, and puts a line into `text` for each that is refused. Answers how many were
// taken.
fn take_lines(sheet: &mut WaitSheet, input: &[u8], text: &mut String) -> Result<usize, AllocError>
    requires { length input.now ≤ input_room }
    ensures { IfOk result (λ taken. TakesLines sheet.old input.now (string_bytes text.old) sheet.new taken (string_bytes text.new)) }
{
    let mut taken = 0;
    for (i, line) in lines(input).enumerate() {
        match sheet.take_line(line) {
            Ok(()) => taken += 1,
            Err(refusal) => writeln!(text, "X,{},{}", i + 1, refusal.number())?,
        }
    }
    Ok(taken)
}

// Puts a line into `text` for each party that is left out, the lowest first.
fn put_parties(out: &PointSet, text: &mut String) -> Result<(), AllocError>
    ensures { OnOk result (string_bytes text.new ≡ string_bytes text.old ++ flat_map party_line (members parties (has out.now))) }
{
    // By number: the set's own iterator gives the even points first.
    for party in (0..PARTIES).filter(|party| out.contains(*party)) {
        writeln!(text, "O,{party}")?;
    }
    Ok(())
}

// What is printed of the sheet whose lines are the input: a line for each line refused, one for each party left out by
// judging, and how many lines were taken and parties left out.
pub fn judged_page(heap: Global, input: &[u8]) -> Result<String, AllocError>
    ensures { IfOk result (λ page. Page input.now (string_bytes page)) }
{
    if input.len() > INPUT_ROOM {
        return format!(in heap; "X,{}\n", Refusal::InputTooLong.number());
    }
    let mut watch = Watch::new(WaitSheet::new());
    let mut page = String::new(heap);
    let taken = take_lines(&mut watch.book, input, &mut page)?;
    watch.judge();
    let out = watch.left_out();
    put_parties(&out, &mut page)?;
    writeln!(page, "J,{taken},{}", out.len())?;
    Ok(page)
}

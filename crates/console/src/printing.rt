// Printing the report of a tape.
ghost use Rattle.std.specs.Prelude.{◌≡◌, ℕ, List, OnOk};
ghost use Rattle.std.specs.Io.KnownBytes.{Appends};
ghost use Rattle.console.specs.Printed.{Printed, refusal_line};

use arrayvec::ArrayString;
use itoa::Buffer;
use monitor::report_of_tape;
use refusals::Refusal;
use std::io::{self, Write};

// Enough for 64 named tasks and the closing line.
const REPORT_ROOM: usize = 1024;

// Enough for the line of any refusal.
const REFUSAL_ROOM: usize = 8;

// The line of a refusal: X and its number.
fn refusal_text(refusal: Refusal) -> ArrayString<REFUSAL_ROOM>
    ensures { result.bytes ≡ refusal_line refusal }
{
    let mut line = ArrayString::new();
    line.push_str("X,");
    line.push_str(Buffer::new().format(refusal.number()));
    line.push_str("\n");
    line
}

// Plays the tape on a new monitor and prints the report, or X and the number of the refusal. Either is written by one call, so
// that who reads along gets it whole.
pub fn print_report<W: Write>(out: &mut W, tape: &[u8]) -> io::Result<()>
    ensures { OnOk result ((page : List ℕ) × Printed tape.now page × Appends (W.contents out.old) (W.contents out.new) page) }
{
    let mut page = [0; REPORT_ROOM];
    match report_of_tape(tape, &mut page) {
        Ok(length) => out.write_all(&page[..length]),
        Err(refusal) => out.write_all(refusal_text(refusal).as_str().as_bytes()),
    }
}

// The lines of an input, each ended by byte 10.
ghost use Rattle.std.specs.Prelude.{◌≡◌, ℕ, ◌≤◌, List, length};
ghost use Rattle.lines.specs.Pieces.{lines_of, Lines as AreLinesOf, NextLine};

use crate::pieces::cut;
use crate::walk::Lines;

// The first line, without its end, and what follows it; none where nothing is left.
pub fn next_line(input: &[u8]) -> Option<(&[u8], &[u8])>
    ensures { NextLine input.now result }
{
    if input.is_empty() {
        return None;
    }
    let (line, rest) = cut(input, b'\n');
    Some((line, rest.unwrap_or(&input[input.len()..])))
}

// The lines of an input, one after another.
pub fn lines(input: &[u8]) -> Lines<'_>
    ensures value { result ≡ lines_of input.now }
    ensures few { length result ≤ length input.now }
{
    Lines { rest: input }
}

// The lines of every input are what stands between its ends.
pub fn lines_are_whole()
    ensures { (input : List ℕ) → AreLinesOf input (lines_of input) }
{}

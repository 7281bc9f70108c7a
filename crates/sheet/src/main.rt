// Reads the lines of a wait sheet from standard input, judges it, and prints what was done.
#![tactic(auto)]

use console::read_at_most;
use sheets::{INPUT_ROOM, judged_page};
use std::io;

fn main(rt: HostRuntime) -> io::Result<()> {
    // One byte more than may come tells that too much came.
    let input = read_at_most(rt.alloc(), rt.stdin(), INPUT_ROOM as u64 + 1)?;
    let page = judged_page(rt.alloc(), &input)?;
    rt.print(page.as_str())
}

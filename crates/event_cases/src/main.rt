// Reads event lines from standard input, and prints for each the event that it spells, or the refusal's number and sentence.
#![tactic(auto)]

use console::read_at_most;
use lines::{lines, read_event};
use std::io;

// How many bytes of the input are read; what comes after them is left.
const INPUT_ROOM: u64 = 65_536;

fn main(rt: HostRuntime) -> io::Result<()> {
    let input = read_at_most(rt.alloc(), rt.stdin(), INPUT_ROOM)?;
    for line in lines(&input) {
        match read_event(line) {
            Ok(event) => println!(rt; "{event:?}")?,
            Err(refusal) => println!(rt; "{}: {refusal}", refusal.number())?,
        }
    }
    Ok(())
}

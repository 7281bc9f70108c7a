// Judges each stored sheet that is named, and prints its name and its page; then two inputs at the limit of their length.
#![tactic(auto)]

use sheets::{INPUT_ROOM, judged_page};
use std::alloc::Global;
use std::{env, fs, io};

fn print_one_line(rt: &HostRuntime, heap: Global, length: usize) -> io::Result<()> {
    let input = vec![in heap; b'W'; length]?;
    let page = judged_page(heap, &input)?;
    println!(rt; "one line of {length} bytes")?;
    rt.print(page.as_str())
}

fn main(rt: HostRuntime) -> io::Result<()> {
    let heap = rt.alloc();
    for name in env::args(&rt)?.skip(1) {
        let path = format!(in heap; "{name}.sheet")?;
        let input = fs::read(&rt, path.as_str())?;
        let page = judged_page(heap, &input)?;
        println!(rt; "{name}")?;
        rt.print(page.as_str())?;
    }
    print_one_line(&rt, heap, INPUT_ROOM)?;
    print_one_line(&rt, heap, INPUT_ROOM + 1)
}

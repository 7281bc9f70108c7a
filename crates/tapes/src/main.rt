// Plays every stored tape, in the order of their names, and prints the name and the report of each.
#![tactic(auto)]

use console::print_report;
use std::{fs, io};

// The names of the tapes that lie beside the program.
fn names(rt: &HostRuntime) -> io::Result<Vec<String>> {
    let heap = rt.alloc();
    let mut names = Vec::new(heap);
    for entry in fs::read_dir(rt, ".")? {
        let entry = entry?;
        if let Some(name) = entry.file_name().strip_suffix(".tape") {
            names.push(String::from_str(heap, name)?)?;
        }
    }
    names.sort()?;
    Ok(names)
}

fn main(rt: HostRuntime) -> io::Result<()> {
    let heap = rt.alloc();
    for name in names(&rt)? {
        println!(rt; "{name}")?;
        let path = format!(in heap; "{name}.tape")?;
        let tape = fs::read(&rt, path.as_str())?;
        print_report(&mut rt.stdout(), &tape)?;
    }
    Ok(())
}

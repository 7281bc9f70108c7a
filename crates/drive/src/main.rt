// Drives a monitor through 100,000 events of a mixed script over 64 tasks, and prints only counts, so that the time of an event
// can be measured from outside.
#![tactic(auto)]

use monitor::Monitor;
use std::alloc::{AllocError, Global};
use std::io;

// How many tasks there are, task 0 among them.
const TASKS: usize = 64;

// Task 0 begins all others; every third of them has two entries.
fn beginning(heap: Global) -> Result<String, AllocError> {
    let mut tape = String::new(heap);
    for child in 1..TASKS {
        let entries = if child % 3 == 1 { 2 } else { 0 };
        writeln!(tape, "N,0,{child},{entries}")?;
    }
    Ok(tape)
}

// Ten events around the server and the two tasks after it: a call that waits and one that meets, an accept of either kind, a
// block inside a rendezvous and one outside. After them all tasks run and no frame is open.
fn round(heap: Global, server: usize) -> Result<String, AllocError> {
    let near = server.wrapping_add(1);
    let far = server.wrapping_add(2);
    format!(in heap;
        "C,{near},{server},1\nA,{server},3\nE,{server}\n\
         B,{near}\nL,{near}\n\
         A,{server},1\nC,{far},{server},0\nB,{server}\nL,{server}\nE,{server}\n"
    )
}

fn main(rt: HostRuntime) -> io::Result<()> {
    let heap = rt.alloc();
    let (mut monitor, _ticket) = Monitor::new();
    let tape = beginning(heap)?;
    let mut told = monitor.play(tape.as_bytes()).unwrap_or(0);
    for turn in 0..10_000usize {
        let server = 1 + 3 * (turn % 20);
        let tape = round(heap, server)?;
        told = told.saturating_add(monitor.play(tape.as_bytes()).unwrap_or(0));
    }
    let named = monitor.named_count();
    println!(rt; "{told} events told, {named} tasks named")
}

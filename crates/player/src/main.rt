// Reads a tape from standard input, plays it on a new monitor, and prints the report. What stopped a tape is said on standard
// error, for people.
#![tactic(auto)]

use console::{print_report, read_at_most};
use lines::{lines, read_event};
use monitor::Monitor;
use refusals::Refusal;
use std::io;
use tape::{PlayRefusal, TAPE_ROOM};

// Says which line was refused, and why: how it is written, or what its task is doing.
fn explain_line(rt: &HostRuntime, monitor: &Monitor, tape: &[u8], told: usize) -> io::Result<()> {
    let number = told.saturating_add(1);
    match lines(tape).nth(told).map(|line| read_event(line)) {
        Some(Ok(event)) => {
            let actor = event.actor;
            let status = monitor.status(actor);
            eprintln!(rt;
                "line {number} is refused: it cannot happen here; task {actor} is {status:?}"
            )?;
        }
        Some(Err(refusal)) => eprintln!(rt; "line {number} is refused: {refusal}")?,
        None => {}
    }
    eprintln!(rt; "the {told} lines before it are told; nothing after it was read")
}

// Says what stopped the tape, if anything did.
fn explain(rt: &HostRuntime, tape: &[u8]) -> io::Result<()> {
    let (mut monitor, _ticket) = Monitor::new();
    match monitor.play(tape) {
        Ok(_) => Ok(()),
        Err(PlayRefusal::LineRefused { told }) => explain_line(rt, &monitor, tape, told),
        Err(PlayRefusal::TapeTooLong) => {
            eprintln!(rt; "{}; no line of it was read", Refusal::InputTooLong)
        }
    }
}

fn main(rt: HostRuntime) -> io::Result<()> {
    // One byte more than a tape may have tells that it has too many.
    let tape = read_at_most(rt.alloc(), rt.stdin(), TAPE_ROOM as u64 + 1)?;
    print_report(&mut rt.stdout(), &tape)?;
    // The report is what counts: that nothing could be said on standard error ends nothing.
    let _ = explain(&rt, &tape);
    Ok(())
}

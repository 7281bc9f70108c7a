// Two stories of tracking boxes, told through tickets: each event, its outcome, and the tasks that it gets named.
#![tactic(auto)]

use monitor::{Monitor, Refused, RunningTicket, Tickets, WaitingTicket};
use rules::{Action, Outcome};
use std::io;
use task_book::NameSet;

// A monitor, and where the answers to its events are printed.
#[derive(Drop)]
struct Story<'a> {
    rt: &'a HostRuntime,
    monitor: Monitor,
}

impl<'a> Story<'a> {
    // The program begins the store and one task more. Answers the story and the tickets of these two.
    fn start(
        rt: &'a HostRuntime,
        title: &str,
        second: &str,
    ) -> io::Result<(Story<'a>, RunningTicket, RunningTicket)> {
        println!(rt; "{title}")?;
        let (monitor, program) = Monitor::new();
        let mut story = Story { rt, monitor };
        let (program, store) = story.begins(program, "the program begins store, task 1", 1, 1)?;
        let (_program, second) = story.begins(program, second, 2, 0)?;
        Ok((story, store, second))
    }

    fn print_answer(&self, what: &str, outcome: Outcome, added: NameSet) -> io::Result<()> {
        let number = outcome.number();
        print!(self.rt; "{what}: outcome {number}, names")?;
        if added.is_empty() {
            print!(self.rt; " none")?;
        }
        for task in added {
            print!(self.rt; " {task}")?;
        }
        println!(self.rt; "")
    }

    // Tells an event, and prints what came of it.
    fn tell(&mut self, ticket: RunningTicket, what: &str, action: Action) -> io::Result<Tickets> {
        match self.monitor.tell(ticket, action) {
            Ok(told) => {
                self.print_answer(what, told.outcome, told.added)?;
                Ok(told.tickets)
            }
            Err(Refused { ticket, refusal }) => {
                let number = refusal.number();
                println!(self.rt; "{what}: refused {number}")?;
                Ok(Tickets::Runs(ticket))
            }
        }
    }

    // Tells an event after which the task runs on.
    fn runs(
        &mut self,
        ticket: RunningTicket,
        what: &str,
        action: Action,
    ) -> io::Result<RunningTicket> {
        match self.tell(ticket, what, action)? {
            Tickets::Runs(ticket) => Ok(ticket),
            _ => Err(astray()),
        }
    }

    // Tells an event after which the task waits.
    fn waits(
        &mut self,
        ticket: RunningTicket,
        what: &str,
        action: Action,
    ) -> io::Result<WaitingTicket> {
        match self.tell(ticket, what, action)? {
            Tickets::Waits(ticket) => Ok(ticket),
            _ => Err(astray()),
        }
    }

    // Begins a task, and hands on the tickets of its creator and its own.
    fn begins(
        &mut self,
        creator: RunningTicket,
        what: &str,
        child: u16,
        entries: u16,
    ) -> io::Result<(RunningTicket, RunningTicket)> {
        match self.tell(creator, what, Action::Begin { child, entries })? {
            Tickets::Begun { creator, child } => Ok((creator, child)),
            _ => Err(astray()),
        }
    }
}

// The error of a story that goes another way than it is told here.
fn astray() -> io::Error {
    io::Error::other("the story went astray")
}

// The upload stands queued at the store; the store waits to leave a block until its helper ends; the helper calls the store.
fn trailer(rt: &HostRuntime) -> io::Result<()> {
    let (mut story, store, upload) = Story::start(
        rt,
        "The trailer's box",
        "the program begins upload, task 2",
    )?;
    let store = story.runs(store, "store opens a block", Action::OpenBlock)?;
    let (store, helper) = story.begins(store, "store begins a helper, task 3", 3, 0)?;
    let call = Action::Call {
        server: 1,
        entry: 0,
    };
    story.tell(upload, "upload calls store", call)?;
    story.tell(store, "store leaves the block", Action::LeaveBlock)?;
    story.tell(helper, "the helper calls store", call)?;
    Ok(())
}

// The store takes the sampler's call, opens a block inside that rendezvous and begins a helper there, which calls itself.
fn van(rt: &HostRuntime) -> io::Result<()> {
    let (mut story, store, sampler) = Story::start(
        rt,
        "The van's box",
        "the program begins sampler, task 2",
    )?;
    let accept = Action::Accept { mask: 1 };
    let store = story.waits(store, "store accepts a call", accept)?;
    let call = Action::Call {
        server: 1,
        entry: 0,
    };
    story.tell(sampler, "sampler calls store", call)?;
    let store = story.monitor.exchange(store).map_err(|_| astray())?;
    let store = story.runs(store, "store opens a block", Action::OpenBlock)?;
    let (_store, helper) = story.begins(store, "store begins a helper, task 3", 3, 1)?;
    let call = Action::Call {
        server: 3,
        entry: 0,
    };
    story.tell(helper, "the helper calls itself", call)?;
    let named = story.monitor.named_count();
    println!(rt;
        "{named} tasks are named though store runs; one that trusted a running store would name the helper alone"
    )
}

fn main(rt: HostRuntime) -> io::Result<()> {
    trailer(&rt)?;
    println!(rt; "")?;
    van(&rt)
}

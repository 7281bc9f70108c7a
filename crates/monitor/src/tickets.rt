// Tickets: the right to tell one event of a task.
ghost use Rattle.std.specs.Prelude.{◌≡◌};
ghost use Rattle.monitor.specs.Of.{state_of};
ghost use Rattle.monitor.specs.State.{New};
ghost use Rattle.monitor.specs.Tickets.{TicketTold, TicketAfter, Exchanged};

use crate::monitor::Monitor;
use crate::tell::Accepted;
use refusals::Refusal;
use rules::{Action, Event, Outcome, Status};
use std::marker::PhantomData;
use task_book::NameSet;

// The state of a task that may tell an event.
pub struct Running;

// The state of a task that waits.
pub struct Waiting;

// The ticket of a task in the state `S`. It is moved and never copied, so a told event spends it.
#[derive(Drop)]
pub struct Ticket<S> {
    task: u8,
    state: PhantomData<S>,
}

// The right to tell one event of a Running task.
pub type RunningTicket = Ticket<Running>;

// What a task has in its place while it waits.
pub type WaitingTicket = Ticket<Waiting>;

impl<S> Ticket<S> {
    fn of(task: u8) -> Ticket<S>
        ensures { result.task ≡ task }
    {
        Ticket {
            task,
            state: PhantomData,
        }
    }
}

// What became of a told event: its outcome, the names that it added, and the tickets that there are now.
#[derive(Drop)]
pub struct Told {
    pub outcome: Outcome,
    pub added: NameSet,
    pub tickets: Tickets,
}

// The tickets that there are after an event of a task.
#[derive(Drop)]
pub enum Tickets {
    // The task is Running.
    Runs(RunningTicket),
    // The task is Running, and so is the one that it has begun.
    Begun {
        creator: RunningTicket,
        child: RunningTicket,
    },
    // The task waits.
    Waits(WaitingTicket),
    // The task has finished, and has no ticket any more.
    Finished,
}

// Why an event was refused: nothing has changed, and the ticket comes back.
#[derive(Drop)]
pub struct Refused {
    pub ticket: RunningTicket,
    pub refusal: Refusal,
}

impl Monitor {
    // A monitor of a program that has just begun, and the ticket of its task 0.
    pub fn new() -> (Monitor, RunningTicket)
        ensures monitor { New (state_of result.0) }
        ensures ticket { result.1.task ≡ 0 }
    {
        (Monitor::of_new_program(), Ticket::of(0))
    }

    // Tells what the ticket's task is about to do.
    pub fn tell(&mut self, ticket: RunningTicket, action: Action) -> Result<Told, Refused>
        ensures { TicketTold self.old ticket.task action result self.new }
    {
        let actor = u16::from(ticket.task);
        let Accepted { outcome, added } = match self.tell_event(Event { actor, action }) {
            Ok(accepted) => accepted,
            Err(refusal) => return Err(Refused { ticket, refusal }),
        };
        let tickets = match action {
            Action::Finish => Tickets::Finished,
            Action::Begin { child, .. } => {
                let child = Ticket::of(child as u8);
                Tickets::Begun {
                    creator: ticket,
                    child,
                }
            }
            _ => self.ticket_after(ticket),
        };
        Ok(Told {
            outcome,
            added,
            tickets,
        })
    }

    // The ticket that the task has now.
    fn ticket_after(&self, ticket: RunningTicket) -> Tickets
        ensures { TicketAfter self.now ticket.task result }
    {
        match self.exchange(Ticket::of(ticket.task)) {
            Ok(running) => Tickets::Runs(running),
            Err(waiting) => Tickets::Waits(waiting),
        }
    }

    // A running ticket for a waiting one, once the picture shows the task Running; otherwise the ticket comes back.
    pub fn exchange(&self, ticket: WaitingTicket) -> Result<RunningTicket, WaitingTicket>
        ensures { Exchanged self.now ticket.task result }
    {
        if self.status(u16::from(ticket.task)) == Status::Running {
            Ok(Ticket::of(ticket.task))
        } else {
            Err(ticket)
        }
    }
}

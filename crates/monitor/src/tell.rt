// Telling a monitor what a task is about to do.
ghost use Rattle.monitor.specs.Of.{EventTold, state_of};
ghost use Rattle.monitor.specs.State.{New};

use crate::monitor::Monitor;
use refusals::Refusal;
use rules::{Event, Outcome};
use task_book::{NameSet, TaskWatch};
use tasks::Picture;

// The outcome of an accepted event, and the names that it added.
#[derive(Drop)]
pub(crate) struct Accepted {
    pub(crate) outcome: Outcome,
    pub(crate) added: NameSet,
}

impl Monitor {
    // A monitor of a program that has just begun: only task 0 runs.
    pub(crate) fn of_new_program() -> Monitor
        ensures { New (state_of result) }
    {
        Monitor {
            tasks: TaskWatch::new(Picture::new()),
            names: NameSet::empty(),
        }
    }

    // Tells an event, whoever its actor is.
    pub(crate) fn tell_event(&mut self, event: Event) -> Result<Accepted, Refusal>
        ensures { EventTold self.old event result self.new }
    {
        let outcome = self.tasks.tell(event)?;
        if !self.tasks.watch.book.may_make_dead(event, outcome) {
            return Ok(Accepted {
                outcome,
                added: NameSet::empty(),
            });
        }
        let names = self.tasks.judge();
        let added = names.difference(self.names);
        self.names = names;
        Ok(Accepted { outcome, added })
    }
}

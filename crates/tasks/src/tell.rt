// New tables, and telling them an event.
ghost use Rattle.std.specs.Prelude.{◌≡◌};
ghost use Rattle.rules.specs.Picture.{fresh};
ghost use Rattle.tasks.specs.View.{view};
ghost use Rattle.tasks.specs.Promises.{IsReached, Answered};

use crate::record::TaskRecord;
use crate::tables::Tables;
use arrayvec::ArrayVec;
use refusals::Refusal;
use rules::{Action, Event, Outcome, Status};
use std::array;

impl Tables {
    /// Only task 0 has begun.
    pub(crate) fn new() -> Tables
        ensures { view result ≡ fresh }
    {
        let mut tasks = array::from_fn(|_| TaskRecord::new(Status::NotBegun, 0, None));
        tasks[0].set_status(Status::Running);
        Tables {
            tasks,
            begun: 1,
            arrivals: ArrayVec::new(),
        }
    }

    /// The event is a step of the rules, or it is refused and nothing changes.
    pub(crate) fn tell(&mut self, event: Event) -> Result<Outcome, Refusal>
        requires { IsReached (view self.old) }
        ensures { Answered self.old event result self.new }
    {
        let actor = self.acting(event.actor)?;
        match event.action {
            Action::Begin { child, entries } => self.begin(actor, child, entries),
            Action::OpenBlock => self.open_block(actor),
            Action::LeaveBlock => self.leave_block(actor),
            Action::Call { server, entry } => self.call(actor, server, entry),
            Action::Accept { mask } => self.accept(actor, mask),
            Action::EndRendezvous => self.end_rendezvous(actor),
            Action::Finish => self.finish(actor),
        }
    }
}

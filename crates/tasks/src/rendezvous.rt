// What a Running task may do with calls: first the checks, in the order of their numbers, then the change.
ghost use Rattle.std.specs.Prelude.{◌<◌};
ghost use Rattle.rules.specs.declared.vocabulary.Action.TheVariants.{Call, Accept, EndRendezvous};
ghost use Rattle.rules.specs.Rules.{Acts};
ghost use Rattle.tasks.specs.View.{view};
ghost use Rattle.tasks.specs.Promises.{IsReached, Did};

use crate::ids::{Entry, TaskId};
use crate::limits::FRAME_ROOM;
use crate::open_set::OpenSet;
use crate::tables::Tables;
use refusals::Refusal;
use rules::{Outcome, Status};

impl Tables {
    /// The actor calls an entry of the server: a rendezvous begins, or the actor waits in the entry's queue.
    pub(crate) fn call(
        &mut self,
        actor: TaskId,
        server: u16,
        entry: u16,
    ) -> Result<Outcome, Refusal>
        requires acts { Acts (view self.old) actor.number }
        requires reached { IsReached (view self.old) }
        ensures { Did self.old actor.number (Call server entry) result self.new }
    {
        let s = self.known(server).ok_or(Refusal::ServerNotBegun)?;
        let task = self.task(s);
        if entry >= u16::from(task.entries) {
            return Err(Refusal::NoSuchEntry);
        }
        if task.has_finished() {
            return Ok(Outcome::TaskingError);
        }
        let called = Entry {
            server: s,
            number: entry as u8,
        };
        if task.accepts(called.number) {
            self.engage(actor, called);
            return Ok(Outcome::Rendezvous);
        }
        self.join(actor, called);
        Ok(Outcome::Waits)
    }

    /// The actor takes the first caller of an open entry, or waits for one.
    pub(crate) fn accept(&mut self, actor: TaskId, mask: u16) -> Result<Outcome, Refusal>
        requires acts { Acts (view self.old) actor.number }
        ensures { Did self.old actor.number (Accept mask) result self.new }
    {
        let task = self.task(actor);
        let open_set = OpenSet::new(mask, task.entries).ok_or(Refusal::BadOpenSet)?;
        if usize::from(task.open_frames()) >= FRAME_ROOM {
            return Err(Refusal::NoRoomForRendezvous);
        }
        let Some(caller) = self.first_caller(actor, open_set) else {
            self.mark(
                actor,
                Status::Accepting {
                    mask: open_set.mask,
                },
            );
            return Ok(Outcome::Waits);
        };
        self.leave_queue(caller.task);
        self.engage(caller.task, caller.entry);
        Ok(Outcome::Rendezvous)
    }

    /// The innermost frame, a rendezvous, closes, and its caller goes on.
    pub(crate) fn end_rendezvous(&mut self, actor: TaskId) -> Result<Outcome, Refusal>
        requires acts { Acts (view self.old) actor.number }
        requires reached { IsReached (view self.old) }
        ensures { Did self.old actor.number EndRendezvous result self.new }
    {
        let partner = self
            .task(actor)
            .partner()
            .ok_or(Refusal::NoRendezvousToEnd)?;
        let caller = TaskId { number: partner };
        self.leave_frame(actor);
        self.mark(caller, Status::Running);
        Ok(Outcome::GoesOn)
    }
}

// How tasks begin and finish: first the checks, in the order of their numbers, then the change.
ghost use Rattle.std.specs.Prelude.{◌≡◌, ◌<◌, ◌≤◌};
ghost use Rattle.rules.specs.declared.vocabulary.Action.TheVariants.{Begin, Finish};
ghost use Rattle.rules.specs.declared.vocabulary.Status.TheVariants.{Running};
ghost use Rattle.rules.specs.Limits.{most_tasks, most_entries};
ghost use Rattle.rules.specs.Changes.{birth, dismiss};
ghost use Rattle.rules.specs.Rules.{Acts};
ghost use Rattle.tasks.specs.View.{view};
ghost use Rattle.tasks.specs.Promises.{IsReached, Did};

use crate::changes::record_of;
use crate::ids::TaskId;
use crate::limits::{ENTRIES, TASKS};
use crate::record::TaskRecord;
use crate::tables::Tables;
use refusals::Refusal;
use rules::{Outcome, Status};

impl Tables {
    /// The actor begins a task, with the next number.
    pub(crate) fn begin(
        &mut self,
        actor: TaskId,
        child: u16,
        entries: u16,
    ) -> Result<Outcome, Refusal>
        requires acts { Acts (view self.old) actor.number }
        ensures { Did self.old actor.number (Begin child entries) result self.new }
    {
        if usize::from(self.begun) >= TASKS {
            return Err(Refusal::AllTasksBegun);
        }
        if child != u16::from(self.begun) {
            return Err(Refusal::ChildNotNext);
        }
        if entries > u16::from(ENTRIES) {
            return Err(Refusal::TooManyEntries);
        }
        self.add(actor, entries as u8);
        Ok(Outcome::GoesOn)
    }

    /// A new task, under the innermost open block of its creator, or under the creator's body.
    fn add(&mut self, creator: TaskId, entries: u8)
        requires room { (view self.old).begun < most_tasks }
        requires few { entries ≤ most_entries }
        ensures { view self.new ≡ birth (view self.old) creator.number entries }
    {
        let level = self.task(creator).innermost_block();
        let master = Some(creator.block(level));
        self.tasks[usize::from(self.begun)] = TaskRecord::new(Status::Running, entries, master);
        self.begun += 1;
    }

    /// The actor finishes: its callers go on, and it is Terminated, or waits for its dependents.
    pub(crate) fn finish(&mut self, actor: TaskId) -> Result<Outcome, Refusal>
        requires acts { Acts (view self.old) actor.number }
        requires reached { IsReached (view self.old) }
        ensures { Did self.old actor.number Finish result self.new }
    {
        if self.task(actor).open_frames() > 0 {
            return Err(Refusal::FrameOpen);
        }
        let over = self.all_over(actor);
        self.dismiss(actor);
        if !over {
            self.mark(actor, Status::Completed);
            return Ok(Outcome::Waits);
        }
        self.mark(actor, Status::Terminated);
        self.settle(actor);
        Ok(Outcome::Terminated)
    }

    /// All callers queued at the server leave its queues and go on.
    fn dismiss(&mut self, server: TaskId)
        ensures { view self.new ≡ dismiss (view self.old) server.number }
    {
        let tasks = &self.tasks;
        self.arrivals
            .retain(|caller| !record_of(tasks, *caller).waits_for(server));
        for task in &mut self.tasks[..] {
            task.dismiss(server);
        }
    }
}

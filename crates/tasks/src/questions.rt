// What events ask of the tables.
ghost use Rattle.std.specs.Prelude.{◌≡◌, ◌<◌, ◌≤◌, length, take, MatchOption, MatchResult};
ghost use Rattle.rules.specs.Picture.{Over, AllOver};
ghost use Rattle.rules.specs.Rules.{Acts};
ghost use Rattle.tasks.specs.Says.{Says};
ghost use Rattle.tasks.specs.View.{view};
ghost use Rattle.tasks.specs.Promises.{IsReached, Unready, Closes, Ends};

use crate::ids::TaskId;
use crate::record::TaskRecord;
use crate::tables::Tables;
use refusals::Refusal;
use rules::{Master, Status};

impl Tables {
    /// The task of that number, if it can act.
    pub(crate) fn acting(&self, actor: u16) -> Result<TaskId, Refusal>
        requires { IsReached (view self.now) }
        ensures { MatchResult result (λ t. (t.number ≡ actor) × Acts (view self.now) t.number) (λ n. Unready (view self.now) actor n) }
    {
        let t = self.known(actor).ok_or(Refusal::ActorNotBegun)?;
        if self.task(t).status != Status::Running {
            return Err(Refusal::ActorNotRunning);
        }
        Ok(t)
    }

    /// The task of that number, if it has begun.
    pub(crate) fn known(&self, number: u16) -> Option<TaskId>
        ensures { MatchOption result (self.now.begun ≤ number) (λ t. (t.number ≡ number) × number < self.now.begun) }
    {
        if number >= u16::from(self.begun) {
            return None;
        }
        Some(TaskId {
            number: number as u8,
        })
    }

    /// What is kept of the tasks that have begun.
    fn begun(&self) -> &[TaskRecord]
        ensures records { result.now ≡ take self.now.begun self.now.tasks }
        ensures all { length result.now ≡ self.now.begun }
    {
        &self.tasks[..usize::from(self.begun)]
    }

    // These two differ in their test alone; a method that took the test would need a clause as long as both.

    /// Whether every dependent of that block or body is Terminated.
    pub(crate) fn block_is_over(&self, block: Master) -> bool
        ensures { Says result (Over (view self.now) block.creator block.level) }
    {
        self.begun().iter().all(|task| !task.depends_on(block) || task.status == Status::Terminated)
    }

    /// Whether every dependent of the task, at any level, is Terminated.
    pub(crate) fn all_over(&self, t: TaskId) -> bool
        ensures { Says result (AllOver (view self.now) t.number) }
    {
        self.begun().iter().all(|task| !task.depends_at_all(t) || task.status == Status::Terminated)
    }

    /// Whether the task waits to leave its block at that level, and need not wait any more.
    pub(crate) fn closes(&self, t: TaskId, level: u8) -> bool
        ensures { Says result (Closes (view self.now) t.number level) }
    {
        let task = self.task(t);
        task.status == Status::Leaving
            && task.open_frames() == level
            && self.block_is_over(t.block(level))
    }

    /// Whether the task has finished, and need not wait for its dependents any more.
    pub(crate) fn ends(&self, t: TaskId) -> bool
        ensures { Says result (Ends (view self.now) t.number) }
    {
        self.task(t).status == Status::Completed && self.all_over(t)
    }
}

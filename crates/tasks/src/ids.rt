// How the code names a task, and an entry of it.
ghost use Rattle.std.specs.Prelude.{◌≡◌, ◌<◌};
ghost use Rattle.rules.specs.declared.vocabulary.Status.TheVariants.{Queued};
ghost use Rattle.rules.specs.Limits.{most_tasks};

use rules::{Master, Status};

/// The number of a task.
#[derive(Clone, Copy, Debug, PartialEq, Eq)]
pub struct TaskId {
    pub(crate) number: u8,
    ghost small: { number < most_tasks },
}

/// An entry of a task.
#[derive(Clone, Copy)]
pub(crate) struct Entry {
    pub(crate) server: TaskId,
    pub(crate) number: u8,
}

impl TaskId {
    /// The block of the task at that level, or at level 0 its body, as what others depend on.
    pub(crate) fn block(self, level: u8) -> Master
        ensures { result ≡ record { creator = self.number; level = level } }
    {
        Master {
            creator: self.number,
            level,
        }
    }
}

impl Entry {
    /// What a task does that waits in the queue of the entry.
    pub(crate) fn queued(self) -> Status
        ensures { result ≡ Queued self.server.number self.number }
    {
        Status::Queued {
            server: self.server.number,
            entry: self.number,
        }
    }
}

impl Default for TaskId {
    ghost is_default = { λ task. task.number ≡ 0 };

    fn default() -> TaskId {
        TaskId { number: 0 }
    }
}

impl From<TaskId> for usize {
    ghost from_gives = { λ task index. index ≡ task.number };

    fn from(task: TaskId) -> usize {
        usize::from(task.number)
    }
}

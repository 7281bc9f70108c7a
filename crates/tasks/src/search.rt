// The search for the caller that an accept takes.
ghost use Rattle.std.specs.Prelude.{◌≡◌, ℕ, List, [], ◌∷◌, MatchOption};
ghost use Rattle.rules.specs.Picture.{queue};
ghost use Rattle.rules.specs.Rules.{In, Takes};
ghost use Rattle.tasks.specs.View.{view};

use crate::ids::{Entry, TaskId};
use crate::open_set::OpenSet;
use crate::tables::Tables;

/// A queued task, and the entry that it calls.
#[derive(Clone, Copy)]
pub struct Caller {
    pub(crate) task: TaskId,
    pub(crate) entry: Entry,
}

impl Tables {
    /// The caller at the head of the lowest-numbered open entry that has one.
    pub(crate) fn first_caller(&self, server: TaskId, set: OpenSet) -> Option<Caller>
        ensures { MatchOption result ((e : ℕ) → In e set.mask → queue (view self.now) server.number e ≡ []) (λ c. (c.entry.server ≡ server) × Takes (view self.now) server.number set.mask c.task.number c.entry.number) }
    {
        (set.lowest()..set.entries).find_map(|number| self.caller_at(set, Entry { server, number }))
    }

    /// The caller at the head of the queue of that entry, if the entry is open and has one.
    fn caller_at(&self, set: OpenSet, entry: Entry) -> Option<Caller>
        ensures { MatchOption result (In entry.number set.mask → queue (view self.now) entry.server.number entry.number ≡ []) (λ c. (c.entry ≡ entry) × In entry.number set.mask × (rest : List ℕ) × (queue (view self.now) entry.server.number entry.number ≡ c.task.number ∷ rest)) }
    {
        if !set.contains(entry.number) {
            return None;
        }
        let task = self.first_at(entry)?;
        Some(Caller { task, entry })
    }

    /// The caller at the head of the queue of the entry.
    fn first_at(&self, entry: Entry) -> Option<TaskId>
        ensures { MatchOption result (queue (view self.now) entry.server.number entry.number ≡ []) (λ t. (rest : List ℕ) × (queue (view self.now) entry.server.number entry.number ≡ t.number ∷ rest)) }
    {
        self.arrivals
            .iter()
            .copied()
            .find(|task| self.task(*task).waits_at(entry))
    }
}

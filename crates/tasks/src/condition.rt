// What a task is doing, and what it depends on.
ghost use Rattle.std.specs.Prelude.{◌≡◌, ℕ, ◌≤◌, ◌≢◌, ◌⊎◌, [], cond, MatchBool, MatchOption};
ghost use Rattle.rules.specs.declared.vocabulary.Status.TheVariants.{Accepting, Completed, Running, Terminated};
ghost use Rattle.rules.specs.Limits.{most_entries};
ghost use Rattle.rules.specs.Picture.{under, queued_at, queued_at_server};
ghost use Rattle.rules.specs.Changes.{with_status, with_master, freed};
ghost use Rattle.rules.specs.Rules.{In, IsOpenSet};
ghost use Rattle.tasks.specs.Says.{Says};
ghost use Rattle.tasks.specs.View.{task_of};

use crate::ids::{Entry, TaskId};
use crate::open_set::OpenSet;
use crate::record::TaskRecord;
use arrayvec::ArrayVec;
use rules::{Master, Status};

impl TaskRecord {
    /// A task with no open frame.
    pub(crate) fn new(status: Status, entries: u8, master: Option<Master>) -> TaskRecord
        requires { entries ≤ most_entries }
        ensures { task_of result ≡ record { status = status; entries = entries; master = master; frames = [] } }
    {
        TaskRecord {
            status,
            entries,
            master,
            frames: ArrayVec::new(),
        }
    }

    pub(crate) fn set_status(&mut self, status: Status)
        ensures { task_of self.new ≡ with_status (task_of self.old) status }
    {
        self.status = status;
    }

    /// Whether it has finished, and so takes no call any more.
    pub(crate) fn has_finished(&self) -> bool
        ensures { MatchBool result ((self.now.status ≡ Completed) ⊎ (self.now.status ≡ Terminated)) ((self.now.status ≢ Completed) × (self.now.status ≢ Terminated)) }
    {
        matches!(self.status, Status::Completed | Status::Terminated)
    }

    /// The open entries at which it waits for a caller.
    pub(crate) fn open_entries(&self) -> Option<OpenSet>
        ensures { MatchOption result ((m : ℕ) → self.now.status ≡ Accepting m → IsOpenSet self.now.entries m → ⊥) (λ o. self.now.status ≡ Accepting o.mask) }
    {
        match self.status {
            Status::Accepting { mask } => OpenSet::new(u16::from(mask), self.entries),
            _ => None,
        }
    }

    /// Whether it waits for a caller at that entry.
    pub(crate) fn accepts(&self, entry: u8) -> bool
        ensures { MatchBool result ((m : ℕ) × (self.now.status ≡ Accepting m) × In entry m) ((m : ℕ) → self.now.status ≡ Accepting m → IsOpenSet self.now.entries m → In entry m → ⊥) }
    {
        self.open_entries()
            .is_some_and(|open_set| open_set.contains(entry))
    }

    /// Whether it is queued at that entry.
    pub(crate) fn waits_at(&self, entry: Entry) -> bool
        ensures { result ≡ queued_at entry.server.number entry.number self.now.status }
    {
        self.status == entry.queued()
    }

    /// Whether it is queued at any entry of the server.
    pub(crate) fn waits_for(&self, server: TaskId) -> bool
        ensures { result ≡ queued_at_server server.number self.now.status }
    {
        matches!(self.status, Status::Queued { server: at, .. } if at == server.number)
    }

    /// Whether it depends on that block or body.
    pub(crate) fn depends_on(&self, block: Master) -> bool
        ensures { Says result (self.now.master ≡ under block.creator block.level) }
    {
        self.master == Some(block)
    }

    /// Whether it depends on the creator, at any level.
    pub(crate) fn depends_at_all(&self, creator: TaskId) -> bool
        ensures { Says result ((l : ℕ) × (self.now.master ≡ under creator.number l)) }
    {
        self.master
            .is_some_and(|block| block.creator == creator.number)
    }

    /// The block has closed: what depended on it depends on its creator's body.
    pub(crate) fn let_go(&mut self, block: Master)
        ensures { task_of self.new ≡ with_master (task_of self.old) (freed block.creator block.level self.old.master) }
    {
        if self.depends_on(block) {
            self.master = Some(Master { level: 0, ..block });
        }
    }

    /// The server has finished: who was queued at it goes on.
    pub(crate) fn dismiss(&mut self, server: TaskId)
        ensures { task_of self.new ≡ cond (queued_at_server server.number self.old.status) (with_status (task_of self.old) Running) (task_of self.old) }
    {
        if self.waits_for(server) {
            self.status = Status::Running;
        }
    }
}

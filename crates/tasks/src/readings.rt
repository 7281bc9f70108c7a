// What a picture tells of its tasks besides their statuses: no change, and an answer for every number.
ghost use Rattle.std.specs.Prelude.{◌≡◌, ◌≤◌, length, slice_index_or, MatchOption};
ghost use Rattle.rules.specs.Limits.{most_tasks};
ghost use Rattle.rules.specs.Picture.{frames, rendezvous_level};
ghost use Rattle.tasks.specs.View.{blank, frames_of, view};

use crate::picture::Picture;
use crate::record::TaskRecord;
use rules::{Frame, Master};

impl TaskRecord {
    /// The level of the innermost rendezvous with that caller, 0 where there is none.
    pub(crate) fn rendezvous_level(&self, caller: u8) -> u8
        ensures { result ≡ rendezvous_level caller (frames_of self.now) }
    {
        self.level_of(|frame| matches!(frame, Frame::Rendezvous { caller: c, .. } if *c == caller))
    }
}

impl Picture {
    /// What is kept of the task of that number, if a task can have it.
    pub(crate) fn record(&self, task: usize) -> Option<&TaskRecord>
        ensures { MatchOption result (slice_index_or self.now.tables.tasks task blank ≡ blank) (λ r. r.now ≡ slice_index_or self.now.tables.tasks task blank) }
    {
        self.tables.tasks.get(task)
    }

    /// How many tasks have begun: those with the lowest numbers.
    pub fn begun(&self) -> u8
        ensures all { result ≡ (view self.now.tables).begun }
        ensures few { result ≤ most_tasks }
    {
        self.tables.begun
    }

    /// What the task depends on, if anything.
    pub fn master(&self, task: u8) -> Option<Master>
        ensures { result ≡ ((view self.now.tables).task task).master }
    {
        self.record(usize::from(task))
            .and_then(|known| known.master)
    }

    /// How many frames of the task are open.
    pub fn open_frames(&self, task: u8) -> u8
        ensures { result ≡ length (frames (view self.now.tables) task) }
    {
        self.record(usize::from(task))
            .map_or(0, |known| known.open_frames())
    }

    /// The level of the server's innermost rendezvous with that caller, 0 where there is none.
    pub fn rendezvous_level(&self, server: u8, caller: u8) -> u8
        ensures { result ≡ rendezvous_level caller (frames (view self.now.tables) server) }
    {
        self.record(usize::from(server))
            .map_or(0, |known| known.rendezvous_level(caller))
    }
}

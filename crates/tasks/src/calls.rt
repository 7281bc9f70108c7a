// A new picture, telling it an event, and what its tasks are doing.
ghost use Rattle.std.specs.Prelude.{◌≡◌, ◌<◌};
ghost use Rattle.rules.specs.Picture.{fresh, status};
ghost use Rattle.tasks.specs.Sets.{open_entries};
ghost use Rattle.tasks.specs.Telling.{shown, Told};

use crate::picture::Picture;
use crate::record::TaskRecord;
use crate::tables::Tables;
use refusals::Refusal;
use rules::{Event, Outcome, Status};

impl Picture {
    /// A new picture: task 0 is Running, and no other task has begun.
    pub fn new() -> Picture
        ensures { shown result ≡ fresh }
    {
        Picture {
            tables: Tables::new(),
        }
    }

    /// Tells the picture what a task is about to do. The event is a step of the rules, or it is refused and nothing changes.
    pub fn tell(&mut self, event: Event) -> Result<Outcome, Refusal>
        ensures { Told self.old event result self.new }
    {
        self.tables.tell(event)
    }

    /// At how many entries the task waits for a caller.
    pub fn open_entries(&self, task: u16) -> u32
        ensures { result ≡ open_entries (status (shown self.now) task) }
    {
        self.record(usize::from(task))
            .and_then(TaskRecord::open_entries)
            .map_or(0, |open_set| open_set.len())
    }

    /// What the task is doing: NotBegun for a number that no task can have.
    pub fn status(&self, task: u16) -> Status
        ensures { result ≡ status (shown self.now) task }
    {
        self.record(usize::from(task))
            .map_or(Status::NotBegun, |known| known.status)
    }
}

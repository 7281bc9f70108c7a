// What the tables of a picture are.
ghost use Rattle.std.specs.Prelude.{◌≤◌};
ghost use Rattle.rules.specs.Limits.{most_tasks};

use crate::ids::TaskId;
use crate::limits::TASKS;
use crate::record::TaskRecord;
use arrayvec::ArrayVec;

/// The tables of a picture, fixed in size.
#[derive(Drop)]
pub struct Tables {
    pub(crate) tasks: [TaskRecord; TASKS],
    /// How many tasks have begun: those with the lowest numbers.
    pub(crate) begun: u8,
    /// The tasks that are queued at any entry, in the order in which they joined.
    pub(crate) arrivals: ArrayVec<TaskId, TASKS>,
    ghost few: { begun ≤ most_tasks },
}

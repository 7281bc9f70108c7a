// The record of a task.
ghost use Rattle.std.specs.Prelude.{◌≤◌};
ghost use Rattle.rules.specs.Limits.{most_entries};

use crate::limits::FRAME_ROOM;
use arrayvec::ArrayVec;
use rules::{Frame, Master, Status};

/// What is kept of one task.
#[derive(Drop)]
pub struct TaskRecord {
    pub(crate) status: Status,
    /// How many entries it has.
    pub(crate) entries: u8,
    pub(crate) master: Option<Master>,
    /// The open frames, the outermost first.
    pub(crate) frames: ArrayVec<Frame, FRAME_ROOM>,
    ghost few: { entries ≤ most_entries },
}

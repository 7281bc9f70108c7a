// Dependents of a task, by the level of the block that they depend on.
ghost use Rattle.std.specs.Prelude.{◌≡◌};
ghost use Rattle.task_book.specs.Levels.{level_in, among};

use rules::Master;

/// Which levels of a task's open frames are asked about. No closure: contracts need the answer as a function, `level_in`.
#[derive(Clone, Copy)]
pub(crate) enum Levels {
    /// The body, and each block.
    Every,
    /// Each block inside the frame at that level.
    Above(u8),
    /// One block.
    At(u8),
}

/// The dependents of a creator at some levels of its open frames.
#[derive(Clone, Copy)]
pub(crate) struct Dependents {
    creator: u8,
    levels: Levels,
}

impl Levels {
    /// The creator's dependents at these levels.
    pub(crate) fn of(self, creator: u8) -> Dependents
        ensures creator { result.creator ≡ creator }
        ensures levels { result.levels ≡ self }
    {
        Dependents {
            creator,
            levels: self,
        }
    }

    fn contain(self, level: u8) -> bool
        ensures { result ≡ level_in self level }
    {
        match self {
            Levels::Every => true,
            Levels::Above(frame) => frame < level,
            Levels::At(block) => level == block,
        }
    }
}

impl Dependents {
    /// Whether a task with that master is one of them.
    pub(crate) fn include(self, master: Option<Master>) -> bool
        ensures { result ≡ among self master }
    {
        master.is_some_and(|m| m.creator == self.creator && self.levels.contain(m.level))
    }
}

// How many dependents of a task have not ended.
ghost use Rattle.std.specs.Prelude.{◌≡◌};
ghost use Rattle.task_book.specs.Book.{picture_of};
ghost use Rattle.task_book.specs.Levels.{level_in};
ghost use Rattle.task_book.specs.Meaning.{any_level, innermost};
ghost use Rattle.task_book.specs.Unfinished.{unfinished};

use crate::book::TaskBook;
use crate::levels::{Dependents, Levels};

impl TaskBook {
    /// How many of those dependents are not Terminated.
    fn unfinished(&self, which: Dependents) -> u8
        ensures { result ≡ unfinished (picture_of self.now) which.creator (level_in which.levels) }
    {
        let tasks = self.dependents(which).intersection(self.not_terminated());
        tasks.len() as u8
    }

    /// How many dependents of the task's innermost block are not Terminated.
    pub fn unfinished_in_block(&self, task: u8) -> u8
        ensures { result ≡ unfinished (picture_of self.now) task (innermost (picture_of self.now) task) }
    {
        self.unfinished(self.innermost_block_of(task))
    }

    /// How many dependents of the task are not Terminated.
    pub fn unfinished_in_all(&self, task: u8) -> u8
        ensures { result ≡ unfinished (picture_of self.now) task any_level }
    {
        self.unfinished(Levels::Every.of(task))
    }
}

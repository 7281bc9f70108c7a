// Sets of tasks of a picture.
ghost use Rattle.std.specs.Prelude.{◌≡◌, not};
ghost use Rattle.rules.specs.Picture.{status};
ghost use Rattle.task_book.specs.Book.{picture_of};
ghost use Rattle.task_book.specs.Levels.{among};
ghost use Rattle.task_book.specs.Masks.{Marks, Tested};
ghost use Rattle.task_book.specs.Names.{ended_status};

use crate::book::TaskBook;
use crate::levels::Dependents;
use books::Members;
use rules::Status;

// The most tasks that a picture can have.
const MOST_TASKS: u8 = 64;

impl TaskBook {
    /// The tasks that have begun and pass the test.
    fn tasks_that<F: Fn(u8) -> bool>(&self, passes: F) -> Members
        requires { F.IsAlwaysCallable passes }
        ensures { Tested (F.post passes) (picture_of self.now).begun result }
    {
        // No chain: a `for` over `filter` is refused here, and with `filter` and `fold` the proof did not close.
        let mut tasks = Members::empty();
        // `begun` promises that there are no more; written out, it spares a check of each number.
        for t in 0..self.picture.begun().min(MOST_TASKS) {
            if passes(t) {
                tasks.insert(usize::from(t));
            }
        }
        tasks
    }

    /// Those dependents that have begun.
    pub(crate) fn dependents(&self, which: Dependents) -> Members
        ensures { Marks result (picture_of self.now).begun (λ d. among which ((picture_of self.now).task d).master) }
    {
        self.tasks_that(|d| which.include(self.picture.master(d)))
    }

    /// The tasks that have begun and are not Terminated.
    pub(crate) fn not_terminated(&self) -> Members
        ensures { Marks result (picture_of self.now).begun (λ t. not (ended_status (status (picture_of self.now) t))) }
    {
        self.tasks_that(|t| self.picture.status(u16::from(t)) != Status::Terminated)
    }
}

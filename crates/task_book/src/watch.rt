// The names that judging the task book leaves.
ghost use Rattle.std.specs.Prelude.{◌≡◌};
ghost use Rattle.books.specs.Points.{has};
ghost use Rattle.tasks.specs.Telling.{Told};
ghost use Rattle.task_book.specs.Book.{picture_of};
ghost use Rattle.task_book.specs.Names.{HoldsDead, HoldsNamed, left_out};

use crate::book::TaskBook;
use crate::names::NameSet;
use books::{PointSet, Watch};
use refusals::Refusal;
use rules::{Event, Outcome};
use tasks::Picture;

impl TaskBook {
    /// The tasks named where those points are left out. A task is named if it has begun, is not Terminated, and both its
    /// points are left out.
    pub fn names(&self, out: &PointSet) -> NameSet
        ensures { HoldsNamed result (picture_of self.now) (left_out (has out.now)) }
    {
        self.not_terminated().intersection(out.pairs())
    }
}

/// A picture under watch: its task book, and the points that the last judging left out.
#[derive(Drop)]
pub struct TaskWatch {
    pub watch: Watch<TaskBook>,
}

impl TaskWatch {
    pub fn new(picture: Picture) -> Self
        ensures { result.watch.book.picture ≡ picture }
    {
        TaskWatch {
            watch: Watch::new(TaskBook { picture }),
        }
    }

    /// Tells the picture what a task is about to do. What is left out stays until the next judging.
    pub fn tell(&mut self, event: Event) -> Result<Outcome, Refusal>
        ensures told { Told self.old.watch.book.picture event result self.new.watch.book.picture }
        ensures kept { self.new.watch.out ≡ self.old.watch.out }
    {
        self.watch.book.picture.tell(event)
    }

    /// The tasks named by the last judging, of the picture as it is now.
    pub fn names(&self) -> NameSet
        ensures { HoldsNamed result (picture_of self.now.watch.book) (left_out (has self.now.watch.out)) }
    {
        self.watch.book.names(&self.watch.left_out())
    }

    /// Judges the picture as it is now, and answers the tasks named, which are exactly the dead.
    pub fn judge(&mut self) -> NameSet
        ensures same { self.new.watch.book ≡ self.old.watch.book }
        ensures dead { HoldsDead result (picture_of self.old.watch.book) }
        ensures kept { HoldsNamed result (picture_of self.new.watch.book) (left_out (has self.new.watch.out)) }
    {
        self.watch.judge();
        self.names()
    }
}

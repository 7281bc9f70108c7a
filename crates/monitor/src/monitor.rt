// What a monitor holds.
ghost use Rattle.task_book.specs.Book.{picture_of};
ghost use Rattle.task_book.specs.Names.{HoldsDead};

use task_book::{NameSet, TaskWatch};

// The tasks under watch, and the names: exactly the tasks that are dead in the picture.
#[derive(Drop)]
pub struct Monitor {
    pub(crate) tasks: TaskWatch,
    pub(crate) names: NameSet,
    ghost exact: { ∥ (HoldsDead names (picture_of tasks.watch.book)) ∥₁ },
}

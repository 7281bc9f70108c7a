// Whether an event can have made a task dead, answered without judging.
ghost use Rattle.std.specs.Prelude.{◌≡◌, ℕ, ◌<◌, true, false, MatchBool, ◌≢◌};
ghost use Rattle.rules.specs.declared.vocabulary.Status.TheVariants.{Running};
ghost use Rattle.rules.specs.Book.{Able};
ghost use Rattle.rules.specs.Picture.{status};
ghost use Rattle.rules.specs.Theorems.{Harmless};
ghost use Rattle.task_book.specs.Book.{picture_of};

use crate::book::TaskBook;
use rules::{Action, Event, Outcome, Status};

// A chain of queues that comes back to itself is left after so many steps.
const MOST_STEPS: u8 = 64;

impl TaskBook {
    /// Whether some task is Running.
    fn some_task_runs(&self) -> bool
        ensures { MatchBool result ((u : ℕ) × (status (picture_of self.now) u ≡ Running)) ((u : ℕ) → u < (picture_of self.now).begun → status (picture_of self.now) u ≢ Running) }
    {
        (0..self.picture.begun()).any(|u| self.picture.status(u16::from(u)) == Status::Running)
    }

    /// Whether the task plainly is able: it runs, or it is queued, directly or through further queues, at a task that runs or
    /// that accepts while some task runs. A yes is sure; after a no only judging can tell.
    fn is_plainly_able(&self, task: u16) -> bool
        ensures { result ≡ true → Able (picture_of self.now) task }
    {
        let mut t = task;
        for _ in 0..MOST_STEPS {
            match self.picture.status(t) {
                Status::Running => return true,
                Status::Queued { server, .. } => t = u16::from(server),
                Status::Accepting { .. } => return self.some_task_runs(),
                _ => return false,
            }
        }
        false
    }

    /// Whether the event, which came out so and made this picture, can have made a task dead. A no is sure: the event was
    /// harmless.
    pub fn may_make_dead(&self, event: Event, outcome: Outcome) -> bool
        ensures { result ≡ false → Harmless (picture_of self.now) event outcome }
    {
        match outcome {
            Outcome::GoesOn | Outcome::Rendezvous | Outcome::TaskingError => false,
            Outcome::Terminated => true,
            Outcome::Waits => event.action == Action::Finish || !self.is_plainly_able(event.actor),
        }
    }
}

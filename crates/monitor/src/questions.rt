// The questions to a monitor.
ghost use Rattle.std.specs.Prelude.{◌≡◌, Decides};
ghost use Rattle.rules.specs.Dead.{Dead};
ghost use Rattle.rules.specs.Picture.{status};
ghost use Rattle.monitor.specs.Answers.{DeadCount, LowestDead};
ghost use Rattle.monitor.specs.Of.{state_of};

use crate::monitor::Monitor;
use rules::Status;

impl Monitor {
    // What a task is doing; a number above 63 has not begun.
    pub fn status(&self, task: u16) -> Status
        ensures { result ≡ status (state_of self.now).picture task }
    {
        self.tasks.watch.book.picture.status(task)
    }

    // Whether a task is named: it can never go on.
    #[tactic(auto, using(crate::proofs::Exactly::exact_names))]
    pub fn is_named(&self, task: u16) -> bool
        ensures { Decides result (Dead (state_of self.now).picture task) }
    {
        self.names.contains(usize::from(task))
    }

    // How many tasks are named.
    pub fn named_count(&self) -> usize
        ensures { DeadCount (state_of self.now).picture result }
    {
        self.names.len()
    }

    // The lowest named task from a number on.
    #[tactic(auto, using(crate::proofs::Exactly::exact_names, crate::proofs::QuestionsAnswered::lowest))]
    pub fn lowest_named(&self, from: u16) -> Option<usize>
        ensures { LowestDead (state_of self.now).picture from result }
    {
        self.names.lowest(usize::from(from))
    }
}

// The theorems on the task book: each is what a function promises, which does nothing else.
ghost use Rattle.task_book.specs.Theorems.{BookIsTheRules, LeftOutIsLargest, LeftOutAreDead};

/// The task book is the rules' own: the same points follow from every set, from every larger one too, and none past the last.
pub fn book_is_the_rules()
    ensures { BookIsTheRules }
{}

/// What judging leaves out is the rules' largest shut set.
pub fn left_out_is_largest()
    ensures { LeftOutIsLargest }
{}

/// A task whose points are both left out, and that is not Terminated, is dead; and no other is.
pub fn left_out_are_dead()
    ensures { LeftOutAreDead }
{}

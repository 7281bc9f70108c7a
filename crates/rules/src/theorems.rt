// The theorems on the task rules: each is what a function promises, which does nothing else.
ghost use Rattle.rules.specs.Runs.{RunsHold};
ghost use Rattle.rules.specs.Theorems.{BookKeepsTheLaw, LargestShutSetsExist, NamesAreExact, NamesAreNeverWithdrawn, GoingOnAddsNoName, HarmlessEventsMakeNobodyDead, AcceptedUnlessRefused, OneOutcomeAndOnePicture, LimitsAreKept};

/// The tasks named are exactly the dead ones: those that no further events make Running or Terminated.
pub fn names_are_exact()
    ensures { NamesAreExact }
{}

/// A task once named is named after every further event.
pub fn names_are_never_withdrawn()
    ensures { NamesAreNeverWithdrawn }
{}

/// An event with outcome 0, 2 or 3 adds no name.
pub fn going_on_adds_no_name()
    ensures { GoingOnAddsNoName }
{}

/// An event with outcome 0, 2 or 3, or one after which its actor waits and is able, makes nobody dead.
pub fn harmless_events_make_nobody_dead()
    ensures { HarmlessEventsMakeNobodyDead }
{}

/// An event is accepted exactly when no check refuses it.
pub fn accepted_unless_refused()
    ensures { AcceptedUnlessRefused }
{}

/// An accepted event has one outcome and makes one picture.
#[tactic(auto, using(crate::proofs::OneResult::one_result))]
pub fn one_outcome_and_one_picture()
    ensures { OneOutcomeAndOnePicture }
{}

/// Every run of the table has the outcome, the names and the statuses that its row states.
#[tactic(auto, using(crate::proofs::Runs::runs_hold))]
pub fn runs_hold()
    ensures { RunsHold }
{}

/// In every picture that is reached, tasks, entries and open frames are within the limits.
pub fn limits_are_kept()
    ensures { LimitsAreKept }
{}

/// Every picture has a largest shut set.
#[tactic(auto, using(crate::proofs::Judging::Judge::largest_shut_sets_exist))]
pub fn largest_shut_sets_exist()
    ensures { LargestShutSetsExist }
{}

/// What follows from a set of points follows from every larger one.
#[tactic(auto, using(crate::proofs::Judging::Law::runs_law, crate::proofs::Judging::Law::ends_law))]
pub fn book_keeps_the_law()
    ensures { BookKeepsTheLaw }
{}

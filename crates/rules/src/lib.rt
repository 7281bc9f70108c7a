// The task rules: the words of the subject, and the theorems on what tasks do and which of them can never go on.
#![tactic(auto)]

mod theorems;
mod vocabulary;

pub use theorems::{
    accepted_unless_refused, book_keeps_the_law, going_on_adds_no_name,
    harmless_events_make_nobody_dead, largest_shut_sets_exist, limits_are_kept, names_are_exact,
    names_are_never_withdrawn, one_outcome_and_one_picture, runs_hold,
};
pub use vocabulary::{Action, Event, Frame, Master, Outcome, Status};

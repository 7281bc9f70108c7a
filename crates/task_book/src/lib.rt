// The task book: a wait book over the tasks of a picture, and the names that judging it leaves.
#![tactic(auto)]

mod able;
mod book;
mod levels;
mod names;
mod sets;
mod theorems;
mod unfinished;
mod watch;

pub use book::TaskBook;
pub use names::NameSet;
pub use theorems::{book_is_the_rules, left_out_are_dead, left_out_is_largest};
pub use watch::TaskWatch;

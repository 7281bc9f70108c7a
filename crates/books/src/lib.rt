// Wait books, sets of their points, and judging: one text for every kind of book.
#![tactic(auto)]

mod book;
mod members;
mod points;
mod watch;

pub use book::WaitBook;
pub use members::{MemberIter, Members};
pub use points::{PointIter, PointSet};
pub use watch::Watch;

// Tapes: lines in a row, told one after another until one is refused.
#![tactic(auto)]

mod tape;

pub use tape::{PlayRefusal, TAPE_ROOM, Teller, play};

// Lines: a letter and decimal numbers, parted by commas; read as the inverse of how they are written.
#![tactic(auto)]

mod events;
mod fields;
mod numbers;
mod pieces;
mod reader;
mod tape;
mod walk;

pub use events::{EventLetters, Kind, read_event};
pub use fields::Fields;
pub use numbers::read_number;
pub use pieces::{cut, piece};
pub use reader::{Alphabet, read_line};
pub use tape::{lines, lines_are_whole, next_line};
pub use walk::Lines;

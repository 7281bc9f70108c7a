// Wait sheets: their rows, the lines that write them, and what is printed of a judged sheet.
#![tactic(auto)]

mod page;
mod rows;
mod sheet;

pub use page::{INPUT_ROOM, judged_page};
pub use rows::{SheetLetters, lines_are_told_apart};
pub use sheet::WaitSheet;

// Why the project refuses a line, a row, an event, a tape or a report: one table for all crates.
#![tactic(auto)]

ghost use Rattle.std.specs.Prelude.{◌≡◌};
ghost use Rattle.refusals.specs.Table.{number_of};

use thiserror::Error;

// A refusal leaves everything as it was. Programs report it by its number.
#[derive(Clone, Copy, Debug, PartialEq, Eq, Error)]
pub enum Refusal {
    #[error("the line is empty or longer than 32 bytes")]
    LineLength = 1,
    #[error("the first field is not one letter that is known here")]
    UnknownLetter = 2,
    #[error("the line has the wrong number of fields")]
    FieldCount = 3,
    #[error("a field is not a number from 0 to 999 without leading zeros")]
    NotANumber = 4,
    #[error("the acting task has not begun")]
    ActorNotBegun = 5,
    #[error("the acting task is not running")]
    ActorNotRunning = 6,
    #[error("all 64 tasks have begun already")]
    AllTasksBegun = 7,
    #[error("the new task's number is not the next one")]
    ChildNotNext = 8,
    #[error("a task cannot have more than eight entries")]
    TooManyEntries = 9,
    #[error("a block cannot open over eight or more open frames")]
    NoRoomForBlock = 10,
    #[error("no block is the innermost open frame")]
    NoBlockToLeave = 11,
    #[error("the called task has not begun")]
    ServerNotBegun = 12,
    #[error("the called task does not have that entry")]
    NoSuchEntry = 13,
    #[error("the open set is empty or has an entry that the task does not have")]
    BadOpenSet = 14,
    #[error("twelve frames are open, so no rendezvous can begin")]
    NoRoomForRendezvous = 15,
    #[error("no rendezvous is the innermost open frame")]
    NoRendezvousToEnd = 16,
    #[error("a task cannot finish while one of its frames is open")]
    FrameOpen = 17,
    #[error("the report is longer than the buffer")]
    ReportTooLong = 18,
    #[error("a line of the tape was refused")]
    LineRefused = 19,
    #[error("the input is longer than 65536 bytes")]
    InputTooLong = 20,
    #[error("the party's number is over 95")]
    UnknownParty = 21,
    #[error("more than eight parties are listed")]
    TooManyListed = 22,
    #[error("more parties are needed than are listed")]
    NeedsTooMany = 23,
    #[error("a listed party's number is over 95")]
    UnknownListed = 24,
    #[error("a party is listed twice")]
    ListedTwice = 25,
}

impl Refusal {
    pub fn number(self) -> u8
        ensures { result ≡ number_of self }
    {
        self as u8
    }
}

#[cfg(test)]
mod tests {
    use super::*;
    use std::test::Fail;

    #[test]
    fn a_refusal_has_a_sentence(rt: HostRuntime) -> Result<(), Fail> {
        let text = Refusal::ListedTwice.to_string(rt.alloc())?;
        assert!(rt; text.as_str() == "a party is listed twice");
        Ok(())
    }
}

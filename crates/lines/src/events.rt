// Event lines: the letter of what a task does, the actor, and the other numbers.
ghost use Rattle.std.specs.Prelude.{◌≡◌, ℕ, length, MatchBool};
ghost use Rattle.rules.specs.declared.vocabulary.Event.{Event};
ghost use Rattle.lines.specs.Events.{letter, arity, kind, numbers, known, counted, StandsFor, ReadsEvent, ReadsEveryEvent};
ghost use Rattle.std.proofs.Common.{rules};

use crate::reader::{Alphabet, read_line};
use refusals::Refusal;
use rules::{Action, Event};

// What the letter of an event line stands for.
#[derive(Clone, Copy, Debug, PartialEq, Eq)]
pub enum Kind {
    Begin,
    OpenBlock,
    LeaveBlock,
    Call,
    Accept,
    EndRendezvous,
    Finish,
}

impl TryFrom<char> for Kind {
    type Error = Refusal;

    ghost try_from_gives = { StandsFor };

    fn try_from(letter: char) -> Result<Self, Refusal> {
        match letter {
            'N' => Ok(Kind::Begin),
            'B' => Ok(Kind::OpenBlock),
            'L' => Ok(Kind::LeaveBlock),
            'C' => Ok(Kind::Call),
            'A' => Ok(Kind::Accept),
            'E' => Ok(Kind::EndRendezvous),
            'F' => Ok(Kind::Finish),
            _ => Err(Refusal::UnknownLetter),
        }
    }
}

impl Kind {
    // How many numbers follow the letter.
    pub fn arity(self) -> usize
        ensures { result ≡ arity self }
    {
        match self {
            Kind::Begin | Kind::Call => 3,
            Kind::Accept => 2,
            Kind::OpenBlock | Kind::LeaveBlock | Kind::EndRendezvous | Kind::Finish => 1,
        }
    }

    // The event of this kind with these numbers.
    fn event(self, ns: &[u16]) -> Event
        requires { length ns.now ≡ arity self }
        ensures kind { kind result.action ≡ self }
        ensures numbers { numbers result ≡ ns.now }
    {
        let actor = ns[0];
        let action = match self {
            Kind::Begin => Action::Begin {
                child: ns[1],
                entries: ns[2],
            },
            Kind::OpenBlock => Action::OpenBlock,
            Kind::LeaveBlock => Action::LeaveBlock,
            Kind::Call => Action::Call {
                server: ns[1],
                entry: ns[2],
            },
            Kind::Accept => Action::Accept { mask: ns[1] },
            Kind::EndRendezvous => Action::EndRendezvous,
            Kind::Finish => Action::Finish,
        };
        Event { actor, action }
    }
}

// The letters of event lines.
pub struct EventLetters;

impl Alphabet for EventLetters {
    ghost known = { known };

    ghost counted = { counted };

    ghost comma = { Prim.search rules };

    fn knows(letter: char) -> bool {
        Kind::try_from(letter).is_ok()
    }

    fn counts(letter: char, numbers: usize) -> bool {
        Kind::try_from(letter).is_ok_and(|kind| kind.arity() == numbers)
    }
}

// The event that a line spells.
pub fn read_event(line: &[u8]) -> Result<Event, Refusal>
    ensures reads { ReadsEvent line.now result }
    ensures every { ReadsEveryEvent line.now result }
{
    let fields = read_line::<EventLetters>(line)?;
    let kind = Kind::try_from(fields.letter())?;
    Ok(kind.event(fields.numbers()))
}

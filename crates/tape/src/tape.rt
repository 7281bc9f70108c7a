// Playing a tape to whatever is told its lines.
ghost use Rattle.std.specs.Prelude.{◌≡◌, ℕ, ◌+◌, ◌≤◌, List, length, Result};
ghost use Rattle.refusals.specs.declared.Refusal.{Refusal as Cause};
ghost use Rattle.tape.specs.Tapes.{Told, Played, reported, play_number};

use lines::lines;
use refusals::Refusal;

// The most bytes that a tape may have.
pub const TAPE_ROOM: usize = 65_536;

// What lines are told to.
pub trait Teller {
    // What a line may make of a value: the next value, or a refusal.
    ghost steps: { Self → List ℕ → Result Self Cause → Type 0 };

    fn tell_line(&mut self, line: &[u8]) -> Result<(), Refusal>
        ensures { Told steps self.old line.now result self.new };
}

// Why a tape was not told whole.
#[derive(Clone, Copy, Debug, PartialEq, Eq)]
pub enum PlayRefusal {
    // The line after the first `told` was refused; those stay told.
    LineRefused { told: usize },
    // The tape is too long, and no line of it was read.
    TapeTooLong,
}

impl PlayRefusal {
    pub fn number(self) -> u8
        ensures { result ≡ play_number self }
    {
        Refusal::from(self).number()
    }
}

impl From<PlayRefusal> for Refusal {
    ghost from_gives = { λ refusal r. r ≡ reported refusal };

    fn from(refusal: PlayRefusal) -> Self {
        match refusal {
            PlayRefusal::LineRefused { .. } => Refusal::LineRefused,
            PlayRefusal::TapeTooLong => Refusal::InputTooLong,
        }
    }
}

// Tells the lines of a tape in order, up to the first that is refused, and answers how many it told.
pub fn play<T: Teller>(teller: &mut T, tape: &[u8]) -> Result<usize, PlayRefusal>
    ensures { Played T.steps teller.old tape.now result teller.new }
{
    if tape.len() > TAPE_ROOM {
        return Err(PlayRefusal::TapeTooLong);
    }
    // Not by `try_fold`: its closure would write `teller`, of which a proof then knows nothing.
    let mut told = 0;
    for line in lines(tape) {
        if let Err(_) = teller.tell_line(line) {
            return Err(PlayRefusal::LineRefused { told });
        }
        told += 1;
    }
    Ok(told)
}

// Playing a tape to a monitor.
ghost use Rattle.std.specs.Prelude.{◌≡◌};
ghost use Rattle.monitor.specs.Of.{state_of};
ghost use Rattle.monitor.specs.Plays.{MonitorLine};
ghost use Rattle.monitor.specs.State.{TapePlayed};

use crate::monitor::Monitor;
use lines::read_event;
use refusals::Refusal;
use tape::{PlayRefusal, Teller};

impl Teller for Monitor {
    ghost steps = { MonitorLine };

    fn tell_line(&mut self, line: &[u8]) -> Result<(), Refusal> {
        let event = read_event(line)?;
        self.tell_event(event)?;
        Ok(())
    }
}

impl Monitor {
    // Tells the events of a tape, line by line up to the first that is refused, and answers how many lines it told. Played
    // events need no ticket.
    #[tactic(auto, using(crate::proofs::PlaysAs::plays_as))]
    pub fn play(&mut self, tape: &[u8]) -> Result<usize, PlayRefusal>
        ensures { TapePlayed (state_of self.old) tape.now result (state_of self.new) }
    {
        tape::play(self, tape)
    }
}

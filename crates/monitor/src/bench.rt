// A whole tape on a new monitor, from its bytes to the bytes of the report.
ghost use Rattle.std.specs.Prelude.{◌≤◌, length, IfOk};
ghost use Rattle.monitor.specs.Bench.{TapeReported};

use crate::monitor::Monitor;
use refusals::Refusal;
use reports::Ending;
use tape::PlayRefusal;

// Plays the tape on a new monitor and writes the report into the buffer. Answers the length; a tape that is too long, and a
// report longer than the buffer, are refused and leave the buffer as it was.
pub fn report_of_tape(tape: &[u8], buffer: &mut [u8]) -> Result<usize, Refusal>
    ensures reported { TapeReported tape.now buffer.old result buffer.new }
    ensures within { IfOk result (λ n. n ≤ length buffer.old) }
{
    let (mut monitor, _ticket) = Monitor::new();
    let ending = match monitor.play(tape) {
        Ok(told) => Ending::Whole { told: told as u64 },
        Err(PlayRefusal::LineRefused { told }) => Ending::Stopped { told: told as u64 },
        Err(PlayRefusal::TapeTooLong) => return Err(Refusal::InputTooLong),
    };
    monitor.report(ending, buffer)
}

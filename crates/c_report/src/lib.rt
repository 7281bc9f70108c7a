// The monitor for callers in C, Ada and Rust: numbers and byte slices, a slice being a pointer and then a length.
#![tactic(auto)]

ghost use Rattle.std.specs.Prelude.{ℕ, Result};
ghost use Rattle.refusals.specs.declared.Refusal.{Refusal as Cause};
ghost use Rattle.monitor.specs.Bench.{TapeReported};
ghost use Rattle.c_report.specs.Answers.{Answers};

use monitor::report_of_tape;

// Plays the tape on a new monitor, writes the report into the buffer and its length to `length`, and answers 0. A tape or a
// report that is too long is refused: the answer is the number of the refusal, and buffer and length stay as they were.
#[unsafe(no_mangle)]
pub extern "C" fn cerbuntza_report_of_tape(tape: &[u8], buffer: &mut [u8], length: &mut usize) -> u8
    ensures { (a : Result ℕ Cause) × TapeReported tape.now buffer.old a buffer.new × Answers a result length.old length.new }
{
    match report_of_tape(tape, buffer) {
        Ok(written) => {
            *length = written;
            0
        }
        Err(refusal) => refusal.number(),
    }
}

// The numbers of a line.
ghost use Rattle.std.specs.Prelude.{MatchBool};
ghost use Rattle.lines.specs.Numbers.{LeadingZero, ReadsNumber};

// The most digits of a number.
const MOST_DIGITS: usize = 3;

// Whether `s` has a zero in front of other bytes.
fn has_leading_zero(s: &[u8]) -> bool
    ensures { MatchBool result (LeadingZero s.now) (LeadingZero s.now → ⊥) }
{
    matches!(s, [b'0', _, ..])
}

// The number that `s` writes: decimal, 0 to 999, without leading zeros.
pub fn read_number(s: &[u8]) -> Option<u16>
    ensures { ReadsNumber s.now result }
{
    if s.is_empty() || s.len() > MOST_DIGITS {
        return None;
    }
    if has_leading_zero(s) {
        return None;
    }
    // No `try_fold`: that `n * 10` fits did not prove in its closure.
    let mut n = 0;
    for b in s {
        if !b.is_ascii_digit() {
            return None;
        }
        n = n * 10 + u16::from(*b - b'0');
    }
    Some(n)
}

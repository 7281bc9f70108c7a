// What stands between two separators.
ghost use Rattle.std.specs.Prelude.{◌≡◌, ◌+◌, ◌≤◌, [], length, slice_index_or};
ghost use Rattle.lines.specs.Pieces.{Cut, pieces};

// What stands before the first `sep`, and what follows it where there is one.
pub fn cut(s: &[u8], sep: u8) -> (&[u8], Option<&[u8]>)
    ensures { Cut sep s.now result }
{
    match s.iter().position(|b| *b == sep) {
        Some(i) => (&s[..i], Some(&s[i + 1..])),
        None => (s, None),
    }
}

// The piece at place `k`, from 0, of those between the bytes `sep`; empty past the last.
pub fn piece(s: &[u8], sep: u8, k: usize) -> &[u8]
    ensures { result.now ≡ slice_index_or (pieces sep s.now) k [] }
{
    s.split(|b| *b == sep).nth(k).unwrap_or(&s[..0])
}

// How many bytes `sep` there are: one fewer than pieces.
pub(crate) fn separators(s: &[u8], sep: u8) -> usize
    ensures pieces { result + 1 ≡ length (pieces sep s.now) }
    ensures few { result ≤ length s.now }
{
    s.iter().filter(|b| **b == sep).count()
}

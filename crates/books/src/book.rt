// What a wait book is.
ghost use Rattle.std.specs.Prelude.{◌≡◌, ℕ, ◌≤◌, Bool, false};
ghost use Rattle.books.specs.Points.{has};
ghost use Rattle.books.specs.Shut.{Grows};

use crate::PointSet;

// A wait book has a fixed number of points, numbered from 0, and answers one question: does a point follow from a set of
// points?
pub trait WaitBook {
    // How many points the book has.
    const POINTS: usize;

    ghost POINTS: { ℕ };

    // The book's answer for every point and every set.
    ghost meaning: { Self → ℕ → (ℕ → Bool) → Bool };

    // Whether `p` follows from `s`.
    fn follows(&self, p: usize, s: &PointSet) -> bool
        ensures { result ≡ meaning self.now p (has s.now) };

    ghost few: { POINTS ≤ 128 };

    ghost grows: { (b : Self) → Grows (meaning b) };

    ghost beyond: { (b : Self) (p : ℕ) (S : ℕ → Bool) → POINTS ≤ p → meaning b p S ≡ false };
}

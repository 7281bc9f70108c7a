// A wait book under watch, and judging.
ghost use Rattle.std.specs.Prelude.{◌≡◌, ℕ, ◌+◌, ◌<◌, ◌≤◌, Bool, true, false, not, ◌&&◌};
ghost use Rattle.books.specs.Passes.{Reached, Settled};
ghost use Rattle.books.specs.Points.{has};
ghost use Rattle.books.specs.Shut.{LargestShut, outside, size};

use crate::{PointSet, WaitBook};

// A wait book of any kind, with the points last left out: none before the first judging.
#[derive(Drop)]
pub struct Watch<B> {
    pub book: B,
    out: PointSet,
}

// Whether `p` is not reached yet and follows from the points that are.
fn is_next<B: WaitBook>(book: &B, p: usize, reached: &PointSet) -> bool
    ensures { result ≡ (not (has reached.now p) && B.meaning book.now p (has reached.now)) }
{
    !reached.contains(p) && book.follows(p, reached)
}

// The points of the book that are not reached yet.
fn unreached<B: WaitBook>(reached: &PointSet) -> PointSet
    ensures { (q : ℕ) → has result q ≡ outside B.POINTS (has reached.now) q }
{
    PointSet::below(B::POINTS).difference(reached)
}

// Asks once about each point that is not reached yet, and adds those that follow. Answers whether it added one.
fn pass<B: WaitBook>(book: &B, reached: &mut PointSet) -> bool
    requires { Reached B.POINTS (B.meaning book.now) (has reached.old) }
    ensures sound { Reached B.POINTS (B.meaning book.now) (has reached.new) }
    ensures more { result ≡ true → size B.POINTS (has reached.old) < size B.POINTS (has reached.new) }
    ensures done { result ≡ false → Settled B.POINTS (B.meaning book.now) (has reached.new) }
{
    let mut grew = false;
    for p in unreached::<B>(reached) {
        if is_next(book, p, reached) {
            reached.insert(p);
            grew = true;
        }
    }
    grew
}

// The largest shut set of the book, and how many passes over its points it took to find it.
fn largest_shut<B: WaitBook>(book: &B) -> (PointSet, usize)
    ensures judged { LargestShut B.POINTS (B.meaning book.now) (has result.0) }
    ensures passes { result.1 ≤ B.POINTS + 1 }
{
    let mut reached = PointSet::empty();
    // Counted by hand: how many passes there will be is not known before.
    let mut passes = 1;
    while pass(book, &mut reached) {
        passes += 1;
    }
    (unreached::<B>(&reached), passes)
}

impl<B: WaitBook> Watch<B> {
    pub fn new(book: B) -> Self
        ensures book { result.book ≡ book }
        ensures none { (q : ℕ) → has result.out q ≡ false }
    {
        Watch {
            book,
            out: PointSet::empty(),
        }
    }

    // Judges the book as it is now: the points left out become its largest shut set. Answers how many passes over the
    // points that took, each of which asks the book at most once about each point.
    pub fn judge(&mut self) -> usize
        ensures same { self.new.book ≡ self.old.book }
        ensures judged { LargestShut B.POINTS (B.meaning self.old.book) (has self.new.out) }
        ensures passes { result ≤ B.POINTS + 1 }
    {
        let (out, passes) = largest_shut(&self.book);
        self.out = out;
        passes
    }

    // The points last left out.
    pub fn left_out(&self) -> PointSet
        ensures { result ≡ self.now.out }
    {
        self.out
    }
}

// A set of points, which are numbered from 0 to 127.
ghost use Rattle.std.specs.Prelude.{◌≡◌, ℕ, ◌+◌, ◌*◌, ◌<◌, Bool, true, false, not, ◌&&◌, ◌||◌, ◌≢◌, Decides, ◌==◌, nat_lt};
ghost use Rattle.std.specs.Iterator.{at_most};
ghost use Rattle.books.specs.Points.{has, member};
ghost use Rattle.books.specs.Shut.{size};
ghost use Rattle.books.specs.Taking.{TakesPoint};

use crate::Members;

// Even and odd points are kept apart, point 2t and point 2t + 1 each as t, so that a question about all even or all odd
// points is one operation on a word.
#[derive(Clone, Copy, Debug, PartialEq, Eq)]
pub struct PointSet {
    even: Members,
    odd: Members,
}

impl PointSet {
    // The set with no point.
    pub fn empty() -> Self
        ensures { (q : ℕ) → has result q ≡ false }
    {
        PointSet {
            even: Members::empty(),
            odd: Members::empty(),
        }
    }

    // The set of all points below `n`.
    pub fn below(n: usize) -> Self
        ensures { (q : ℕ) → has result q ≡ (nat_lt q n && nat_lt q 128) }
    {
        PointSet {
            even: Members::below(n / 2 + n % 2),
            odd: Members::below(n / 2),
        }
    }

    // Whether `p` is in the set; a number above 127 is in none.
    pub fn contains(&self, p: usize) -> bool
        ensures { result ≡ has self.now p }
    {
        let half = if p % 2 == 0 { self.even } else { self.odd };
        half.contains(p / 2)
    }

    // Puts `p` in, and answers whether it is new there; a number above 127 is not put in.
    pub fn insert(&mut self, p: usize) -> bool
        ensures new { result ≡ (nat_lt p 128 && not (has self.old p)) }
        ensures after { (q : ℕ) → has self.new q ≡ ((nat_lt p 128 && q == p) || has self.old q) }
    {
        if p % 2 == 0 {
            self.even.insert(p / 2)
        } else {
            self.odd.insert(p / 2)
        }
    }

    // Takes a point out of the set, and answers it: the lowest even one, or if there is none the lowest odd one.
    pub fn take(&mut self) -> Option<usize>
        ensures { TakesPoint self.old result self.new }
    {
        if let Some(t) = self.even.take_lowest() {
            return Some(2 * usize::from(t));
        }
        self.odd.take_lowest().map(|t| 2 * usize::from(t) + 1)
    }

    // The points of this set that are not in the other.
    pub fn difference(&self, other: &PointSet) -> Self
        ensures { (q : ℕ) → has result q ≡ (has self.now q && not (has other.now q)) }
    {
        PointSet {
            even: self.even.difference(other.even),
            odd: self.odd.difference(other.odd),
        }
    }

    // The points of both sets.
    pub fn intersection(&self, other: &PointSet) -> Self
        ensures { (q : ℕ) → has result q ≡ (has self.now q && has other.now q) }
    {
        PointSet {
            even: self.even.intersection(other.even),
            odd: self.odd.intersection(other.odd),
        }
    }

    // How many points the set has.
    pub fn len(&self) -> usize
        ensures { result ≡ size 128 (has self.now) }
    {
        self.even.len() + self.odd.len()
    }

    // The numbers t of the pairs of points 2t and 2t + 1 that are both in the set.
    pub fn pairs(&self) -> Members
        ensures { (t : ℕ) → member result t ≡ (has self.now (2 * t) && has self.now (2 * t + 1)) }
    {
        self.even.intersection(self.odd)
    }

    // Whether some even point other than 2t is in the set.
    pub fn any_even_besides(&self, t: usize) -> bool
        ensures { Decides result ((u : ℕ) × (u < 64) × (u ≢ t) × (has self.now (2 * u) ≡ true)) }
    {
        let mut others = self.even;
        others.remove(t);
        !others.is_empty()
    }

    // Whether point 2t + 1 is in the set for every t in `tasks`.
    pub fn has_all_odd(&self, tasks: Members) -> bool
        ensures { Decides result ((t : ℕ) → member tasks t ≡ true → has self.now (2 * t + 1) ≡ true) }
    {
        tasks.difference(self.odd).is_empty()
    }
}

// The points of a set that are still to come, in the order of `take`. One iterator for both sets would need a trait longer than
// both.
#[derive(Drop)]
pub struct PointIter {
    left: PointSet,
}

impl Iterator for PointIter {
    type Item = usize;

    ghost next_gives = { λ s r t. TakesPoint s.left r t.left };

    ghost remaining = { λ s. at_most (size 128 (has s.left)) };

    fn next(&mut self) -> Option<usize> {
        self.left.take()
    }
}

impl IntoIterator for PointSet {
    type Item = usize;

    type IntoIter = PointIter;

    ghost into_iter_gives = { λ set it. it.left ≡ set };

    fn into_iter(self) -> PointIter {
        PointIter { left: self }
    }
}

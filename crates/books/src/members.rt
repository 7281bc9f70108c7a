// A word as a set of numbers.
ghost use Rattle.std.specs.Prelude.{◌≡◌, ℕ, ◌≤◌, ◌<◌, true, false, not, ◌&&◌, ◌||◌, MatchOption, ◌==◌, MatchBool, nat_lt};
ghost use Rattle.std.specs.Iterator.{at_most};
ghost use Rattle.books.specs.Members.{LowestMember, TakesLowest};
ghost use Rattle.books.specs.Points.{member};
ghost use Rattle.books.specs.Shut.{size};

// A set of numbers from 0 to 63: number k is in it where bit k is 1.
#[derive(Clone, Copy, Debug, PartialEq, Eq)]
pub struct Members(pub u64);

impl Members {
    // The set with no number.
    pub fn empty() -> Self
        ensures { (k : ℕ) → member result k ≡ false }
    {
        Members(0)
    }

    // The set of all numbers below `n`, of those from 0 to 63.
    pub fn below(n: usize) -> Self
        ensures { (k : ℕ) → member result k ≡ (nat_lt k n && nat_lt k 64) }
    {
        if n >= 64 {
            Members(u64::MAX)
        } else {
            Members((1u64 << n) - 1)
        }
    }

    // Whether `k` is in the set; a number above 63 is in none.
    pub fn contains(self, k: usize) -> bool
        ensures { result ≡ member self k }
    {
        k < 64 && (self.0 >> k) & 1 == 1
    }

    // How many numbers the set has.
    pub fn len(self) -> usize
        ensures { result ≡ size 64 (member self) }
    {
        self.0.count_ones() as usize
    }

    // Whether the set has no number.
    pub fn is_empty(self) -> bool
        ensures { MatchBool result ((k : ℕ) → member self k ≡ false) ((k : ℕ) × (k < 64) × (member self k ≡ true)) }
    {
        self.0 == 0
    }

    // The lowest number in the set from `from` on.
    pub fn lowest(self, from: usize) -> Option<usize>
        ensures { MatchOption result ((k : ℕ) → from ≤ k → member self k ≡ false) (LowestMember self from) }
    {
        if from >= 64 {
            return None;
        }
        let rest = self.0 >> from;
        if rest == 0 {
            return None;
        }
        Some(from + rest.trailing_zeros() as usize)
    }

    // Puts `k` in, and answers whether it is new there; a number above 63 is not put in.
    pub fn insert(&mut self, k: usize) -> bool
        ensures new { result ≡ (nat_lt k 64 && not (member self.old k)) }
        ensures after { (i : ℕ) → member self.new i ≡ ((nat_lt k 64 && i == k) || member self.old i) }
    {
        if k >= 64 {
            return false;
        }
        let is_new = !self.contains(k);
        self.0 |= 1u64 << k;
        is_new
    }

    // Takes `k` out, and answers whether it was in the set.
    pub fn remove(&mut self, k: usize) -> bool
        ensures old { result ≡ member self.old k }
        ensures after { (i : ℕ) → member self.new i ≡ (member self.old i && not (i == k)) }
    {
        let word = self.0;
        let was_in = self.contains(k);
        if k < 64 {
            self.0 = word & !(1u64 << k);
        }
        was_in
    }

    // Takes the lowest number out of the set, and answers it; none where the set is empty.
    pub fn take_lowest(&mut self) -> Option<u8>
        ensures { TakesLowest self.old result self.new }
    {
        let lowest = self.lowest(0)?;
        self.remove(lowest);
        Some(lowest as u8)
    }

    // The numbers of this set that are not in the other.
    pub fn difference(self, other: Self) -> Self
        ensures { (k : ℕ) → member result k ≡ (member self k && not (member other k)) }
    {
        Members(self.0 & !other.0)
    }

    // The numbers of both sets.
    pub fn intersection(self, other: Self) -> Self
        ensures { (k : ℕ) → member result k ≡ (member self k && member other k) }
    {
        Members(self.0 & other.0)
    }
}

// The numbers of a set that are still to come, the lowest first.
#[derive(Drop)]
pub struct MemberIter {
    left: Members,
}

impl Iterator for MemberIter {
    type Item = u8;

    ghost next_gives = { λ s r t. TakesLowest s.left r t.left };

    ghost remaining = { λ s. at_most (size 64 (member s.left)) };

    fn next(&mut self) -> Option<u8> {
        self.left.take_lowest()
    }
}

impl IntoIterator for Members {
    type Item = u8;

    type IntoIter = MemberIter;

    ghost into_iter_gives = { λ set it. it.left ≡ set };

    fn into_iter(self) -> MemberIter {
        MemberIter { left: self }
    }
}

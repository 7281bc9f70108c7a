// The set of entries at which an accept takes a caller.
ghost use Rattle.std.specs.Prelude.{◌≡◌, ℕ, ◌^◌, ◌<◌, ◌≤◌, MatchOption};
ghost use Rattle.rules.specs.Limits.{most_entries};
ghost use Rattle.rules.specs.Rules.{In, IsOpenSet};
ghost use Rattle.tasks.specs.Says.{Says};
ghost use Rattle.tasks.specs.Sets.{tally};

use crate::limits::ENTRIES;

/// The entries at which an accept takes a caller: never none, and only entries that the task has.
/// Entry e is in the set where the mask has 2 to the power of e.
#[derive(Clone, Copy)]
pub struct OpenSet {
    pub(crate) mask: u8,
    pub(crate) entries: u8,
    ghost some: { 0 < mask },
    ghost own: { mask < 2 ^ entries },
    ghost few: { entries ≤ most_entries },
}

impl OpenSet {
    /// The set with that mask, of a task with that many entries.
    pub(crate) fn new(mask: u16, entries: u8) -> Option<OpenSet>
        ensures { MatchOption result (entries ≤ most_entries → IsOpenSet entries mask → ⊥) (λ o. (o.mask ≡ mask) × (o.entries ≡ entries)) }
    {
        if mask == 0 || entries > ENTRIES || mask >> entries != 0 {
            return None;
        }
        Some(OpenSet {
            mask: mask as u8,
            entries,
        })
    }

    /// Whether the entry is in the set.
    pub(crate) fn contains(&self, entry: u8) -> bool
        ensures { Says result (In entry self.now.mask) }
    {
        entry < self.entries && (self.mask >> entry) % 2 == 1
    }

    /// How many entries are in the set.
    pub(crate) fn len(&self) -> u32
        ensures { result ≡ tally self.now.mask most_entries }
    {
        self.mask.count_ones()
    }

    /// The entry with the lowest number.
    pub(crate) fn lowest(&self) -> u8
        ensures { In result self.now.mask × ((e : ℕ) → e < result → In e self.now.mask → ⊥) }
    {
        self.mask.trailing_zeros() as u8
    }
}

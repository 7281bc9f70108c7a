// A wait book laid over any other: some of its points never follow, whatever the book below says. It answers what would be
// left out if these were lost.
#![tactic(auto)]

ghost use Rattle.std.specs.Prelude.{◌≡◌, not, ◌&&◌};
ghost use Rattle.books.specs.Points.{has};
ghost use Rattle.std.proofs.Common.{rules};

use books::{PointSet, WaitBook};

#[derive(Drop)]
pub struct Withholding<B> {
    pub below: B,
    pub withheld: PointSet,
}

impl<B: WaitBook> WaitBook for Withholding<B> {
    const POINTS: usize = B::POINTS;

    ghost POINTS = { B.WaitBook.POINTS };

    ghost meaning = { λ s p S. not (has s.withheld p) && B.WaitBook.meaning s.below p S };

    ghost few = { Prim.search rules };

    ghost grows = { Prim.search rules };

    ghost beyond = { Prim.search rules };

    fn follows(&self, p: usize, s: &PointSet) -> bool {
        !self.withheld.contains(p) && self.below.follows(p, s)
    }
}

#[cfg(test)]
mod tests {
    use super::*;
    use books::Watch;
    use sheets::WaitSheet;
    use std::test::Fail;

    fn only(party: usize) -> PointSet {
        let mut set = PointSet::empty();
        set.insert(party);
        set
    }

    // 4 needs 3, and 3 needs 2; nothing is left out until 2 is withheld, and then these three are.
    #[test]
    fn books_nest_by_value(rt: HostRuntime) -> Result<(), Fail> {
        let mut sheet = WaitSheet::new();
        sheet.take_line(b"W,3,1,2")?;
        sheet.take_line(b"W,4,1,3")?;
        let once = Withholding {
            below: sheet,
            withheld: PointSet::empty(),
        };
        let mut watch = Watch::new(Withholding {
            below: once,
            withheld: PointSet::empty(),
        });
        watch.judge();
        assert_eq!(rt; watch.left_out().len(), 0);
        watch.book.below.withheld = only(2);
        watch.judge();
        assert_eq!(rt; watch.left_out().len(), 3);
        assert!(rt; watch.left_out().contains(4));
        watch.book.withheld = only(90);
        watch.judge();
        assert_eq!(rt; watch.left_out().len(), 4);
        Ok(())
    }
}

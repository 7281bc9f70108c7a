// The task book of a picture.
ghost use Rattle.std.specs.Prelude.{◌≡◌, ℕ, ◌*◌};
ghost use Rattle.books.specs.Points.{has};
ghost use Rattle.rules.specs.Book.{phase};
ghost use Rattle.rules.specs.Picture.{status};
ghost use Rattle.task_book.specs.Book.{meaning_in, picture_of};
ghost use Rattle.task_book.specs.Levels.{level_in};
ghost use Rattle.task_book.specs.Meaning.{dependents_end, ends_in, innermost, inside_rendezvous, runs_with};
ghost use Rattle.task_book.specs.Bridge;
ghost use Rattle.tasks.proofs.Reach.{few_begun};
ghost use Rattle.std.proofs.Common.{rules};

use crate::levels::{Dependents, Levels};
use books::{PointSet, WaitBook};
use rules::Status;
use tasks::Picture;

/// The wait book of a picture: point 2t is "task t can run", and point 2t + 1 is "task t can end".
#[derive(Drop)]
pub struct TaskBook {
    pub picture: Picture,
}

/// Whether "task t can run" is in the set.
fn runs(s: &PointSet, t: u8) -> bool
    ensures { result ≡ has s.now (2 * t) }
{
    s.contains(2 * usize::from(t))
}

impl TaskBook {
    /// Whether each of those dependents can end.
    fn dependents_end(&self, which: Dependents, s: &PointSet) -> bool
        ensures { result ≡ dependents_end (picture_of self.now) (has s.now) which.creator (level_in which.levels) }
    {
        s.has_all_odd(self.dependents(which))
    }

    /// Whether every dependent of each block that the server opened inside its rendezvous with the caller can end.
    fn blocks_inside_end(&self, server: u8, caller: u8, s: &PointSet) -> bool
        ensures { result ≡ dependents_end (picture_of self.now) (has s.now) server (inside_rendezvous (picture_of self.now) server caller) }
    {
        let rendezvous = self.picture.rendezvous_level(server, caller);
        self.dependents_end(Levels::Above(rendezvous).of(server), s)
    }

    /// The dependents of the innermost block of task t.
    pub(crate) fn innermost_block_of(&self, t: u8) -> Dependents
        ensures creator { result.creator ≡ t }
        ensures levels { level_in result.levels ≡ innermost (picture_of self.now) t }
    {
        Levels::At(self.picture.open_frames(t)).of(t)
    }

    /// Whether task t, which has begun, can run.
    fn can_run(&self, t: u8, s: &PointSet) -> bool
        ensures { result ≡ runs_with (picture_of self.now) (has s.now) t (status (picture_of self.now) t) }
    {
        match self.picture.status(u16::from(t)) {
            Status::Running => true,
            Status::Queued { server, .. } => runs(s, server),
            Status::Engaged { server } => runs(s, server) && self.blocks_inside_end(server, t, s),
            Status::Accepting { .. } => s.any_even_besides(usize::from(t)),
            Status::Leaving => self.dependents_end(self.innermost_block_of(t), s),
            Status::NotBegun | Status::Completed | Status::Terminated => false,
        }
    }

    /// Whether task t, which has begun, can end.
    fn can_end(&self, t: u8, s: &PointSet) -> bool
        ensures { result ≡ ends_in (picture_of self.now) (has s.now) t (phase (status (picture_of self.now) t)) }
    {
        match self.picture.status(u16::from(t)) {
            Status::NotBegun => false,
            Status::Completed => self.dependents_end(Levels::Every.of(t), s),
            Status::Terminated => true,
            _ => runs(s, t) && self.dependents_end(Levels::Every.of(t), s),
        }
    }
}

impl WaitBook for TaskBook {
    // Two for each of 64 tasks.
    const POINTS: usize = 128;

    ghost POINTS = { 128 };

    ghost meaning = { meaning_in };

    ghost few = { Prim.search rules };

    ghost grows = { λ b. Bridge.grows (picture_of b) };

    ghost beyond = { λ b p S. Bridge.beyond (picture_of b) p S (few_begun b.picture.reached) };

    fn follows(&self, p: usize, s: &PointSet) -> bool {
        let t = p / 2;
        if t >= usize::from(self.picture.begun()) {
            return false;
        }
        let t = t as u8;
        if p % 2 == 0 {
            self.can_run(t, s)
        } else {
            self.can_end(t, s)
        }
    }
}

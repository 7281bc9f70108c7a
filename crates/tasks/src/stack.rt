// The frames of a task, as a stack.
ghost use Rattle.std.specs.Prelude.{◌≡◌, ℕ, ◌<◌, Bool, List, [], ◌∷◌, length, MatchBool, MatchOption};
ghost use Rattle.rules.specs.declared.vocabulary.Frame.{Frame as AFrame};
ghost use Rattle.rules.specs.declared.vocabulary.Frame.TheVariants.{Block, Rendezvous};
ghost use Rattle.rules.specs.declared.vocabulary.Status.TheVariants.{Running};
ghost use Rattle.rules.specs.Limits.{frame_room};
ghost use Rattle.rules.specs.Changes.{with_status, with_frames};
ghost use Rattle.rules.specs.Picture.{innermost_block};
ghost use Rattle.rules.specs.Refusals.{BlockInnermost, RendezvousInnermost};
ghost use Rattle.std.specs.Fn.{CalledAt};
ghost use Rattle.tasks.specs.Levels.{level_where};
ghost use Rattle.tasks.specs.View.{task_of, frames_of};

use crate::record::TaskRecord;
use rules::{Frame, Status};

impl TaskRecord {
    /// How many frames are open.
    pub(crate) fn open_frames(&self) -> u8
        ensures { result ≡ length (frames_of self.now) }
    {
        self.frames.len() as u8
    }

    /// The frame that was opened last, if any is open.
    pub(crate) fn innermost(&self) -> Option<Frame>
        ensures { MatchOption result (frames_of self.now ≡ []) (λ f. (fs : List AFrame) × (frames_of self.now ≡ f ∷ fs)) }
    {
        self.frames.last().copied()
    }

    /// Whether the innermost frame is a block.
    pub(crate) fn in_block(&self) -> bool
        ensures { MatchBool result ((fs : List AFrame) × (frames_of self.now ≡ Block ∷ fs)) (BlockInnermost (frames_of self.now) → ⊥) }
    {
        matches!(self.innermost(), Some(Frame::Block))
    }

    /// The caller of the innermost frame, if that is a rendezvous.
    pub(crate) fn partner(&self) -> Option<u8>
        ensures { MatchOption result (RendezvousInnermost (frames_of self.now) → ⊥) (λ c. (e : ℕ) × (fs : List AFrame) × (frames_of self.now ≡ Rendezvous c e ∷ fs)) }
    {
        match self.innermost()? {
            Frame::Rendezvous { caller, .. } => Some(caller),
            Frame::Block => None,
        }
    }

    /// The level of the innermost open block, 0 where no block is open.
    pub(crate) fn innermost_block(&self) -> u8
        ensures { result ≡ innermost_block (frames_of self.now) }
    {
        self.level_of(|frame| *frame == Frame::Block)
    }

    /// The level of the innermost frame that passes the test, 0 where none does.
    pub(crate) fn level_of<F: FnMut(&Frame) -> bool>(&self, test: F) -> u8
        requires { F.IsAlwaysCallable test }
        ensures { (passes : AFrame → Bool) → ((f : AFrame) (b : Bool) (after : F) → CalledAt F.FnMut test f b after → (after ≡ test) × (b ≡ passes f)) → result ≡ level_where passes (frames_of self.now) }
    {
        self.frames
            .iter()
            .rposition(test)
            .map_or(0, |place| place as u8 + 1)
    }

    /// It goes on in a new innermost frame.
    pub(crate) fn enter(&mut self, frame: Frame)
        requires { length (frames_of self.old) < frame_room }
        ensures { task_of self.new ≡ with_frames (with_status (task_of self.old) Running) (frame ∷ frames_of self.old) }
    {
        self.status = Status::Running;
        self.frames.push(frame);
    }

    /// Its innermost frame closes, and it goes on.
    pub(crate) fn leave(&mut self)
        ensures { (f : AFrame) (fs : List AFrame) → frames_of self.old ≡ f ∷ fs → task_of self.new ≡ with_frames (with_status (task_of self.old) Running) fs }
    {
        self.status = Status::Running;
        self.frames.pop();
    }
}

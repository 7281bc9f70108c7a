// What a Running task may do with its blocks: first the checks, in the order of their numbers, then the change.
ghost use Rattle.std.specs.Prelude.{◌<◌};
ghost use Rattle.rules.specs.declared.vocabulary.Action.TheVariants.{OpenBlock, LeaveBlock};
ghost use Rattle.rules.specs.Rules.{Acts};
ghost use Rattle.tasks.specs.View.{view};
ghost use Rattle.tasks.specs.Promises.{IsReached, Did};

use crate::ids::TaskId;
use crate::limits::BLOCK_ROOM;
use crate::tables::Tables;
use refusals::Refusal;
use rules::{Frame, Outcome, Status};

impl Tables {
    /// A block opens.
    pub(crate) fn open_block(&mut self, actor: TaskId) -> Result<Outcome, Refusal>
        requires acts { Acts (view self.old) actor.number }
        ensures { Did self.old actor.number OpenBlock result self.new }
    {
        if usize::from(self.task(actor).open_frames()) >= BLOCK_ROOM {
            return Err(Refusal::NoRoomForBlock);
        }
        self.enter(actor, Frame::Block);
        Ok(Outcome::GoesOn)
    }

    /// The innermost block closes, or the actor waits for its dependents.
    pub(crate) fn leave_block(&mut self, actor: TaskId) -> Result<Outcome, Refusal>
        requires acts { Acts (view self.old) actor.number }
        requires reached { IsReached (view self.old) }
        ensures { Did self.old actor.number LeaveBlock result self.new }
    {
        if !self.task(actor).in_block() {
            return Err(Refusal::NoBlockToLeave);
        }
        let level = self.task(actor).open_frames();
        if self.block_is_over(actor.block(level)) {
            self.close_block(actor);
            return Ok(Outcome::GoesOn);
        }
        self.mark(actor, Status::Leaving);
        Ok(Outcome::Waits)
    }
}

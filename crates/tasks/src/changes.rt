// The changes that events are made of.
ghost use Rattle.std.specs.Prelude.{◌≡◌, ◌<◌, List, ◌∷◌, length, slice_index_or};
ghost use Rattle.rules.specs.declared.vocabulary.Frame.{Frame as AFrame};
ghost use Rattle.rules.specs.declared.vocabulary.Status.TheVariants.{Running};
ghost use Rattle.rules.specs.Limits.{most_tasks, frame_room};
ghost use Rattle.rules.specs.Picture.{frames};
ghost use Rattle.rules.specs.Changes.{mark, turn, join, leave_queue, let_go, close, engage};
ghost use Rattle.tasks.specs.View.{view, blank};

use crate::ids::{Entry, TaskId};
use crate::limits::TASKS;
use crate::record::TaskRecord;
use crate::tables::Tables;
use arrayvec::ArrayVec;
use rules::{Frame, Master, Status};

/// The record of the task among all.
pub(crate) fn record_of(tasks: &[TaskRecord; TASKS], t: TaskId) -> &TaskRecord
    ensures { result.now ≡ slice_index_or tasks.now t.number blank }
{
    &tasks[usize::from(t)]
}

// One task changes by its record's method; one change that took a closure would say each method's contract again.
impl Tables {
    /// What is kept of the task.
    pub(crate) fn task(&self, t: TaskId) -> &TaskRecord
        ensures { result.now ≡ slice_index_or self.now.tasks t.number blank }
    {
        record_of(&self.tasks, t)
    }

    /// The task has that status now.
    pub(crate) fn mark(&mut self, t: TaskId, status: Status)
        ensures { view self.new ≡ mark (view self.old) t.number status }
    {
        self.tasks[usize::from(t)].set_status(status);
    }

    /// The task goes on in a new innermost frame.
    pub(crate) fn enter(&mut self, t: TaskId, frame: Frame)
        requires { length (frames (view self.old) t.number) < frame_room }
        ensures { view self.new ≡ turn (view self.old) t.number Running (frame ∷ frames (view self.old) t.number) }
    {
        self.tasks[usize::from(t)].enter(frame);
    }

    /// The innermost frame of the task closes, and it goes on.
    pub(crate) fn leave_frame(&mut self, t: TaskId)
        ensures { (f : AFrame) (fs : List AFrame) → frames (view self.old) t.number ≡ f ∷ fs → view self.new ≡ turn (view self.old) t.number Running fs }
    {
        self.tasks[usize::from(t)].leave();
    }

    /// The caller joins the end of the queue of the entry.
    pub(crate) fn join(&mut self, caller: TaskId, entry: Entry)
        requires { length (view self.old).arrivals < most_tasks }
        ensures { view self.new ≡ join (view self.old) caller.number entry.server.number entry.number }
    {
        self.tasks[usize::from(caller)].set_status(entry.queued());
        self.arrivals.push(caller);
    }

    /// The caller leaves its queue.
    pub(crate) fn leave_queue(&mut self, caller: TaskId)
        ensures { view self.new ≡ leave_queue (view self.old) caller.number }
    {
        // Not by `retain`, which swaps each that stays past the one that leaves, and takes a third longer.
        let mut others = ArrayVec::new();
        for other in self.arrivals.as_slice() {
            if *other != caller {
                others.push(*other);
            }
        }
        self.arrivals = others;
    }

    /// A rendezvous begins: the caller is Engaged, and the server goes on in it.
    pub(crate) fn engage(&mut self, caller: TaskId, entry: Entry)
        requires { length (frames (view self.old) entry.server.number) < frame_room }
        ensures { view self.new ≡ engage (view self.old) caller.number entry.server.number entry.number }
    {
        self.mark(
            caller,
            Status::Engaged {
                server: entry.server.number,
            },
        );
        self.enter(
            entry.server,
            Frame::Rendezvous {
                caller: caller.number,
                entry: entry.number,
            },
        );
    }

    /// The block has closed: its dependents depend on its creator's body.
    pub(crate) fn let_go(&mut self, block: Master)
        ensures { view self.new ≡ let_go (view self.old) block.creator block.level }
    {
        for task in &mut self.tasks[..] {
            task.let_go(block);
        }
    }

    /// The innermost frame of the task, a block, closes.
    pub(crate) fn close_block(&mut self, t: TaskId)
        ensures { (f : AFrame) (fs : List AFrame) → frames (view self.old) t.number ≡ f ∷ fs → view self.new ≡ close (view self.old) t.number fs }
    {
        let level = self.task(t).open_frames();
        self.let_go(t.block(level));
        self.leave_frame(t);
    }
}

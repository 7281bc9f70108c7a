// The cascade up the masters, when a task has ended.
ghost use Rattle.rules.specs.Rules.{Settles};
ghost use Rattle.tasks.specs.View.{view};
ghost use Rattle.tasks.specs.Promises.{Settling};

use crate::ids::TaskId;
use crate::tables::Tables;
use rules::Status;

impl Tables {
    /// The task has just ended: its master may go on or end, and then the master's own.
    pub(crate) fn settle(&mut self, ended: TaskId)
        requires { Settling (view self.old) ended.number }
        ensures { Settles (view self.old) ended.number (view self.new) }
    {
        let Some(master) = self.task(ended).master else {
            return;
        };
        let m = TaskId {
            number: master.creator,
        };
        if self.closes(m, master.level) {
            self.close_block(m);
            return;
        }
        if self.ends(m) {
            self.mark(m, Status::Terminated);
            self.settle(m);
        }
    }
}

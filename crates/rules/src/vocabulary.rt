// The words of the subject: what a task is doing, what it may do, and how an event comes out.
ghost use Rattle.std.specs.Prelude.{◌≡◌};
ghost use Rattle.rules.specs.Events.{outcome_number};

/// What a task is doing.
#[derive(Clone, Copy, Debug, PartialEq, Eq)]
pub enum Status {
    NotBegun,
    Running,
    /// It waits in the queue of an entry of the server.
    Queued { server: u8, entry: u8 },
    /// It is in rendezvous with the server.
    Engaged { server: u8 },
    /// It waits for a caller at one of its open entries: entry e is open where the mask has 2 to the power of e.
    Accepting { mask: u8 },
    /// It waits for the dependents of its innermost block.
    Leaving,
    /// It has finished, and waits for its dependents.
    Completed,
    Terminated,
}

/// An open frame of a task.
#[derive(Clone, Copy, Debug, Default, PartialEq, Eq)]
pub enum Frame {
    #[default]
    Block,
    Rendezvous { caller: u8, entry: u8 },
}

/// What a task depends on: a block of its creator, by its level, or the creator's body, which has level 0.
#[derive(Clone, Copy, Debug, PartialEq, Eq)]
pub struct Master {
    pub creator: u8,
    pub level: u8,
}

/// What a task is about to do.
#[derive(Clone, Copy, Debug, PartialEq, Eq)]
pub enum Action {
    Begin { child: u16, entries: u16 },
    OpenBlock,
    LeaveBlock,
    Call { server: u16, entry: u16 },
    Accept { mask: u16 },
    EndRendezvous,
    Finish,
}

/// A task and what it is about to do. Its numbers may be out of range: such an event is refused.
#[derive(Clone, Copy, Debug, PartialEq, Eq)]
pub struct Event {
    pub actor: u16,
    pub action: Action,
}

/// How an accepted event comes out for its actor.
#[derive(Clone, Copy, Debug, PartialEq, Eq)]
pub enum Outcome {
    /// It is Running, as before.
    GoesOn = 0,
    /// It waits.
    Waits = 1,
    /// A rendezvous has begun, with the actor as caller or as server.
    Rendezvous = 2,
    /// It called a task that has finished: nothing has changed.
    TaskingError = 3,
    Terminated = 4,
}

impl Outcome {
    /// The number by which programs report it.
    pub fn number(self) -> u8
        ensures { result ≡ outcome_number self }
    {
        self as u8
    }
}

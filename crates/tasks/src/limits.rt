// The limits of a picture, each once.

/// How many tasks may begin.
pub const TASKS: usize = 64;

/// How many entries a task may have.
pub const ENTRIES: u8 = 8;

/// A block opens over fewer open frames than this.
pub const BLOCK_ROOM: usize = 8;

/// A rendezvous opens over fewer open frames than this.
pub const FRAME_ROOM: usize = 12;

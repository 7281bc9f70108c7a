// What a line says.
ghost use Rattle.std.specs.Prelude.{◌≤◌};

// The most bytes that a line may have; so it has at most as many numbers.
pub const LINE_ROOM: usize = 32;

// The letter and the numbers of a line that was read. Callers may copy it, and an `ArrayVec` is not `Copy`.
#[derive(Clone, Copy, Debug)]
pub struct Fields {
    pub(crate) letter: char,
    pub(crate) count: usize,
    pub(crate) values: [u16; LINE_ROOM],
    ghost room: { count ≤ 32 },
}

// A page: bytes laid into a lent buffer, one after another. What has no place in it is only counted, so that a page over an
// empty buffer gives the length.
ghost use Rattle.std.specs.Prelude.{◌≡◌, ℕ, ◌+◌, ◌*◌, ◌^◌, ◌<◌, ◌≤◌, List, [], ◌∷◌, ◌++◌, length, decimal};
ghost use Rattle.reports.specs.Layout.{Takes};
ghost use Rattle.reports.specs.Report.{row_line, closing_line};

use crate::report::{Ending, Row};
use itoa::Buffer;

// A buffer, and how many bytes were put.
#[derive(Drop)]
pub(crate) struct Page<'a> {
    pub(crate) buf: &'a mut [u8],
    pub(crate) at: usize,
}

impl Page<'_> {
    fn put_byte(&mut self, b: u8)
        requires { self.old.at < 2 ^ 63 }
        ensures { Takes self.old (b ∷ []) self.new }
    {
        if self.at < self.buf.len() {
            self.buf[self.at] = b;
        }
        self.at += 1;
    }

    // Byte by byte: to copy slices, the archive for C would want `memcpy` from outside.
    fn put(&mut self, bytes: &[u8])
        requires { self.old.at + length bytes.now < 2 ^ 63 }
        ensures { Takes self.old bytes.now self.new }
    {
        for b in bytes {
            self.put_byte(*b);
        }
    }

    // `n` in decimal; `write!` leaves open when it fails.
    fn put_number(&mut self, n: u64)
        requires { self.old.at < 2 ^ 62 }
        ensures takes { Takes self.old (decimal n) self.new }
        ensures short { self.new.at ≤ self.old.at + 20 }
    {
        self.put(Buffer::new().format(n).as_bytes());
    }

    // A line `D,task,letter,other`.
    pub(crate) fn put_row(&mut self, row: Row)
        requires { self.old.at < 2 ^ 60 }
        ensures takes { Takes self.old (row_line row) self.new }
        ensures short { self.new.at ≤ self.old.at + 100 }
    {
        self.put(b"D,");
        self.put_number(u64::from(row.task));
        self.put(&[b',', row.wait.letter() as u8, b',']);
        self.put_number(u64::from(row.wait.other()));
        self.put(b"\n");
    }

    // A line `T,told,names`, or `S,told,names` where the tape was stopped.
    pub(crate) fn put_closing(&mut self, ending: Ending, names: u64)
        requires { self.old.at < 2 ^ 60 }
        ensures { Takes self.old (closing_line ending names) self.new }
    {
        self.put(&[ending.letter() as u8, b',']);
        self.put_number(ending.told());
        self.put(b",");
        self.put_number(names);
        self.put(b"\n");
    }
}

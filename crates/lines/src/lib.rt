// A line of an input, as it comes byte by byte.
#![tactic(auto)]

ghost use Rattle.std.specs.Prelude.{◌≡◌, [], ◌+◌, ◌≤◌, min};

// How many bytes of a line are kept.
const ROOM: usize = 4096;

// A line: its number, and its bytes as far as they are kept. The array is fixed, so that a line of any length takes no memory.
#[derive(Drop)]
pub struct Line {
    number: u64,
    bytes: [u8; ROOM],
    len: usize,
    ghost within: { len ≤ 4096 },
}

impl Line {
    ghost use Rattle.lines.specs.Kept.{kept, more};

    // The first line, of which nothing has come yet.
    pub fn first() -> Line
        ensures kept { kept result ≡ [] }
        ensures number { result.number ≡ 1 }
    {
        Line {
            number: 1,
            bytes: [0u8; ROOM],
            len: 0,
        }
    }

    // Keeps one more byte, if there is room for it.
    pub fn push(&mut self, b: u8)
        ensures kept { kept self.new ≡ more (kept self.old) b }
        ensures number { self.new.number ≡ self.old.number }
    {
        if self.len < ROOM {
            self.bytes[self.len] = b;
            self.len += 1;
        }
    }

    // The bytes that are kept.
    pub fn bytes(&self) -> &[u8]
        ensures { result.now ≡ kept self.now }
    {
        &self.bytes[..self.len]
    }

    // The line's number, from 1 on.
    pub fn number(&self) -> u64
        ensures { result ≡ self.now.number }
    {
        self.number
    }

    // Begins the next line. No input has so many that the number stops at the last.
    pub fn next(&mut self)
        ensures kept { kept self.new ≡ [] }
        ensures number { self.new.number ≡ min (self.old.number + 1) 18446744073709551615 }
    {
        self.number = self.number.saturating_add(1);
        self.len = 0;
    }
}

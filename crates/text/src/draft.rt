// Lent bytes that a text is written on, piece by piece. Nothing is written where there is no room, and the place stays.
ghost use Rattle.std.specs.Prelude.{◌≡◌, ◌+◌, ltb, length};
ghost use Rattle.text.specs.Put.{where_room, number, hex, wide_hex};
ghost use Rattle.text.specs.Written.{Wrote};

use crate::copied::lacks;
use crate::put::{put_hex, put_number, put_text, put_wide_hex};

// The bytes, and the place after what is written.
#[derive(Drop)]
pub struct Draft<'a> {
    pub bytes: &'a mut [u8],
    pub at: usize,
}

impl Draft<'_> {
    // Whether there is no room for so many bytes.
    pub fn lacks(&self, n: usize) -> bool
        ensures { result ≡ ltb (length self.now.bytes.now) (self.now.at + n) }
    {
        lacks(self.bytes.len(), self.at, n)
    }

    // A text as it stands.
    pub fn put(&mut self, text: &[u8])
        ensures { Wrote (length text.now) self.old
            (where_room (self.old.at + length text.now) (length self.old.bytes.now) text.now) self.new }
    {
        self.at = put_text(self.bytes, self.at, text);
    }

    // A number in decimal digits, and a byte after it, where there is room for the longest.
    pub fn put_number(&mut self, n: u64, end: u8)
        ensures { Wrote 21 self.old
            (where_room (self.old.at + 21) (length self.old.bytes.now) (number n end)) self.new }
    {
        self.at = put_number(self.bytes, self.at, n, end);
    }

    // A word in eight hexadecimal digits, and a byte after it.
    pub fn put_hex(&mut self, n: u32, end: u8)
        ensures { Wrote 9 self.old
            (where_room (self.old.at + 9) (length self.old.bytes.now) (hex n end)) self.new }
    {
        self.at = put_hex(self.bytes, self.at, n, end);
    }

    // A long word in sixteen hexadecimal digits, eight for each half, and a byte after it.
    pub fn put_wide_hex(&mut self, n: u64, end: u8)
        ensures { Wrote 17 self.old
            (where_room (self.old.at + 17) (length self.old.bytes.now) (wide_hex n end)) self.new }
    {
        self.at = put_wide_hex(self.bytes, self.at, n, end);
    }
}

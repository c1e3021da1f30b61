// A line, written from its front.
#![tactic(auto, using(crate::proofs::Appending::texts), unfolding(crate::specs::Line::word_text))]

ghost use Rattle.std.specs.Prelude.{◌+◌, ◌≤◌, ◌<◌, ◌≡◌, [], length, take};
ghost use Rattle.judge.specs.Line.{SIZE, line_of, decimal, hex as hex_lem, word_text};
ghost use Rattle.judge.specs.Work.{Extends};

use crate::digits::{digit, places};
use crate::hex;
use checker::Test;

// The bytes of a line and how many they are; the bytes past them are zero. There is no heap, so a line has room for the longest.
#[derive(Clone, Copy)]
pub struct Line {
    pub bytes: [u8; 128],
    pub len: usize,
}

// Each `put` is the line with more bytes behind those that it has, and asks for the room of its own text, which is no fact of the
// line alone.
impl Line {
    pub(crate) fn empty() -> Line
        ensures value { result ≡ line_of [] }
        ensures len_value { result.len ≡ 0 }
    {
        Line {
            bytes: [0; 128],
            len: 0,
        }
    }

    // The bytes that it has; all of them where a made-up length is past their end.
    pub fn text(&self) -> &[u8]
        ensures { result.now ≡ take self.now.len self.now.bytes }
    {
        let end = self.len.min(self.bytes.len());
        &self.bytes[..end]
    }

    pub(crate) fn put(mut self, text: &[u8]) -> Line
        requires { self.len + length text.now ≤ SIZE }
        ensures value { Extends self result text.now }
        ensures len_value { result.len ≡ self.len + length text.now }
    {
        // A local: the borrow checker takes only a variable as a bound of a part that is written.
        let start = self.len;
        let end = start + text.len();
        self.bytes[start..end].copy_from_slice(text);
        self.len = end;
        self
    }

    pub(crate) fn put_decimal(self, n: u32) -> Line
        requires { self.len + 10 ≤ SIZE }
        ensures value { Extends self result (decimal n) }
        ensures len_bound { result.len ≤ self.len + 10 }
    {
        let mut line = self;
        for place in (0..places(n)).rev() {
            line = line.put(&[digit(n, 10, place)]);
        }
        line
    }

    pub(crate) fn put_hex(self, n: u32) -> Line
        requires { self.len + 8 ≤ SIZE }
        ensures value { Extends self result (hex_lem n) }
        ensures len_value { result.len ≡ self.len + 8 }
    {
        self.put(&hex(n))
    }

    // The word of a violation: none for 21 and 22.
    pub(crate) fn put_word(self, number: u32, word: u32) -> Line
        requires { self.len + 8 ≤ SIZE }
        ensures value { Extends self result (word_text number word) }
        ensures len_bound { result.len ≤ self.len + 8 }
    {
        match number {
            MISALIGNED | OUTSIDE => self.put(b"-"),
            _ => self.put_hex(word),
        }
    }
}

// The violations that tell no word: DPC is no multiple of 4, or outside the code region.
const MISALIGNED: u32 = Test::Misaligned as u32;

const OUTSIDE: u32 = Test::Outside as u32;

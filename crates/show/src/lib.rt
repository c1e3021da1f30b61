// What the programs share: a card from standard input, text and numbers on standard output, the room for a card, the word of four
// bytes and the two words of a double word.
#![tactic(auto)]

ghost use Rattle.std.specs.Prelude.{◌≡◌, ◌+◌, ◌*◌, ◌/◌, ◌%◌, ◌^◌, ◌<◌, ◌≤◌, ◌++◌, length, take, OnOk, IfOk};
ghost use Rattle.std.specs.Fmt.{decimal};
ghost use Rattle.std.specs.Io.{ReadsAtMost};
ghost use Rattle.std.specs.Io.KnownBytes.{Appends, Consumes, IsAtEnd};
ghost use Rattle.judge.specs.Line.{line_of, text_of, hex as hex_lem};
ghost use Rattle.judge.specs.Because.{because_text};
ghost use Rattle.show.specs.Texts.{unended, behind_blank};

use checker::Explanation;
use judge::{Line, Ruling, because, hex, line};
use std::io;
use std::io::{Read, Write};

// Room for a card: one byte more than the longest that loads. What a longer card has past it cannot change the answer:
// proofs/Longer.antt of judge.
pub const ROOM: usize = card::LONGEST + 1;

// The general registers, and as many special ones.
pub const REGISTERS: usize = 32;

// Reads until the buffer is full or the input ends; how many bytes came. std's read_exact would refuse a card that is shorter than
// the buffer, and its read_to_end wants a heap.
pub fn read_full<R: Read>(input: &mut R, buffer: &mut [u8]) -> io::Result<usize>
    ensures bound { ReadsAtMost result buffer.new }
    ensures bytes { IfOk result (λ n. Consumes (R.remaining input.old) (R.remaining input.new) (take n buffer.new)) }
    ensures end { IfOk result (λ n. n < length buffer.new → IsAtEnd (R.remaining input.new)) }
{
    let mut done = 0;
    while done < buffer.len() {
        match input.read(&mut buffer[done..])? {
            0 => return Ok(done),
            n => done += n,
        }
    }
    Ok(done)
}

pub fn put<W: Write>(out: &mut W, text: &[u8]) -> io::Result<()>
    ensures { OnOk result (Appends (W.contents out.old) (W.contents out.new) text.now) }
{
    out.write_all(text)
}

// In decimal.
pub fn put_number<W: Write>(out: &mut W, n: u64) -> io::Result<()>
    ensures { OnOk result (Appends (W.contents out.old) (W.contents out.new) (decimal n)) }
{
    write!(out, "{n}")
}

// A number behind its name.
pub fn put_named<W: Write>(out: &mut W, name: &[u8], number: u32) -> io::Result<()>
    ensures { OnOk result (Appends (W.contents out.old) (W.contents out.new) (name.now ++ decimal number)) }
{
    put(out, name)?;
    put_number(out, u64::from(number))
}

// Eight capital hex digits.
pub fn put_word<W: Write>(out: &mut W, word: u32) -> io::Result<()>
    ensures { OnOk result (Appends (W.contents out.old) (W.contents out.new) (hex_lem word)) }
{
    put(out, &hex(word))
}

// The verdict line of a ruling, without its end.
pub fn put_ruling<W: Write>(out: &mut W, ruling: Ruling) -> io::Result<()>
    ensures { OnOk result (Appends (W.contents out.old) (W.contents out.new) (unended (line_of (text_of ruling)))) }
{
    put_unended(out, &line(ruling))
}

// A blank and the second line, that of an explanation, without its end; nothing where there is none.
pub fn put_because<W: Write>(out: &mut W, explanation: Option<Explanation>) -> io::Result<()>
    ensures { OnOk result (Appends (W.contents out.old) (W.contents out.new) (behind_blank (line_of (because_text explanation)))) }
{
    let line = because(explanation);
    if line.len == 0 {
        return Ok(());
    }
    put(out, b" ")?;
    put_unended(out, &line)
}

// A line without its last byte.
fn put_unended<W: Write>(out: &mut W, line: &Line) -> io::Result<()>
    requires { line.now.len ≤ length line.now.bytes }
    ensures { OnOk result (Appends (W.contents out.old) (W.contents out.new) (unended line.now)) }
{
    match line.text().split_last() {
        Some((_, front)) => put(out, front),
        None => Ok(()),
    }
}

// The word of four bytes, the lowest first.
pub fn word(a: u8, b: u8, c: u8, d: u8) -> u32
    ensures { result ≡ a + 2 ^ 8 * b + 2 ^ 16 * c + 2 ^ 24 * d }
{
    u32::from_le_bytes([a, b, c, d])
}

// The word at the lower address of a double word.
pub fn lower(double: u64) -> u32
    ensures { result ≡ double % 2 ^ 32 }
{
    (double % (1 << 32)) as u32
}

// The word at the higher address of a double word.
pub fn upper(double: u64) -> u32
    ensures { result ≡ double / 2 ^ 32 }
{
    (double >> 32) as u32
}

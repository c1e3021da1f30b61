// An explanation as text, value by value: the words of the second line, with each word of 32 bits as the format writes it.
use crate::changes::put_hex;
use checker::{At, Explanation, Source};
use show::{put, put_named};
use std::io;
use std::io::Write;

// Nothing where there is none. The text is the format's of the calls, so that a Display of `Explanation` would serve this program
// alone.
pub(crate) fn put_explanation<W: Write>(
    out: &mut W,
    explanation: Option<Explanation>,
) -> io::Result<()> {
    match explanation {
        None => Ok(()),
        Some(Explanation::Register(register, source)) => {
            put_register(out, b" because r", register, source)
        }
        Some(Explanation::Card) => put(out, b" because dpc from card"),
        Some(Explanation::RanOn) => put(out, b" because dpc ran on"),
        Some(Explanation::Transfer(at)) => put_transfer(out, at),
        Some(Explanation::Jr(at, register, source)) => {
            put_transfer(out, at)?;
            put_register(out, b", r", register, source)
        }
    }
}

fn put_transfer<W: Write>(out: &mut W, at: At) -> io::Result<()> {
    put(out, b" because dpc from")?;
    put_at(out, at)
}

// A register and its source, behind some text.
fn put_register<W: Write>(
    out: &mut W,
    before: &[u8],
    register: u8,
    source: Source,
) -> io::Result<()> {
    put_named(out, before, u32::from(register))?;
    put(out, b" from")?;
    match source {
        Source::Card => put(out, b" card"),
        Source::Zero => put(out, b" zero"),
        Source::Step(at) => put_at(out, at),
    }
}

// A step, its DPC and its word.
pub(crate) fn put_at<W: Write>(out: &mut W, at: At) -> io::Result<()> {
    put_named(out, b" step ", at.step)?;
    put(out, b" at ")?;
    put_hex(out, at.dpc)?;
    put(out, b" word ")?;
    put_hex(out, at.word)
}

// What a call left that is not as it was given.
use crate::places::{Places, put_place};
use show::{put, put_word};
use std::io;
use std::io::Write;

pub(crate) fn put_changes<W: Write>(out: &mut W, given: &Places, left: &Places) -> io::Result<()> {
    for (place, (before, now)) in given.iter().zip(left).enumerate() {
        if now != before {
            put_change(out, place, *now)?;
        }
    }
    Ok(())
}

fn put_change<W: Write>(out: &mut W, place: usize, now: u32) -> io::Result<()> {
    put(out, b" ")?;
    put_place(out, place)?;
    put(out, b"=")?;
    put_hex(out, now)
}

// A word as the format writes it.
pub(crate) fn put_hex<W: Write>(out: &mut W, word: u32) -> io::Result<()> {
    put(out, b"x")?;
    put_word(out, word)
}

// Runs the cards of a bundle on both machines, and writes a line for each card: its verdict line; where it was not refused,
// digests of what each machine left; and where there is an explanation, a blank and its text. A bundle has for each card its
// length in four bytes, the lowest first, and its bytes. `sim/simulate bundle` writes the same lines; sim/README.md says what
// a digest is of.
#![tactic(auto)]

mod digests;

use digests::put_digests;
use judge::{explain, judge};
use show::{ROOM, put, put_because, put_ruling, read_full, word};
use std::io;
use std::io::{Read, Write};

// A count that no bundle reaches: the loop ends with its input.
const CARDS: u64 = u64::MAX;

fn main(rt: HostRuntime) -> io::Result<()> {
    let mut card = [0u8; ROOM];
    all(&mut rt.stdin(), &mut rt.stdout(), &mut card)
}

// This loop and `cut` stand in calls too, each with the program's own text: a function for both would be public,
// and have nothing to promise.
fn all<R: Read, W: Write>(input: &mut R, out: &mut W, card: &mut [u8]) -> io::Result<()> {
    for _ in 0..CARDS {
        if !one(input, out, card)? {
            break;
        }
    }
    Ok(())
}

// Whether there was a card.
fn one<R: Read, W: Write>(input: &mut R, out: &mut W, card: &mut [u8]) -> io::Result<bool> {
    let mut length = [0u8; 4];
    let got = read_full(input, &mut length)?;
    if got == 0 {
        return Ok(false);
    }
    if got < 4 {
        return cut(out);
    }
    let [a, b, c, d] = length;
    let length = word(a, b, c, d) as usize;
    let kept = length.min(card.len());
    answer(input, out, &mut card[..kept], length - kept)
}

// A bundle that ends inside a card has to show in the output; nothing follows it.
fn cut<W: Write>(out: &mut W) -> io::Result<bool> {
    put(out, b"the bundle ends inside a card\n")?;
    Ok(false)
}

// Reads and answers a card that has so many bytes past the room; whether they were all there.
fn answer<R: Read, W: Write>(
    input: &mut R,
    out: &mut W,
    card: &mut [u8],
    past: usize,
) -> io::Result<bool> {
    if read_full(input, card)? < card.len() || !skip(input, past as u64)? {
        return cut(out);
    }
    put_ruling(out, judge(card))?;
    put_digests(out, card)?;
    put_because(out, explain(card))?;
    put(out, b"\n")?;
    Ok(true)
}

// Reads so many bytes; whether there were as many.
fn skip<R: Read>(input: &mut R, past: u64) -> io::Result<bool> {
    Ok(io::copy(&mut input.by_ref().take(past), &mut io::sink())? == past)
}

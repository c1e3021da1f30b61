// Reads one card from standard input and writes its verdict line and, where its violation has an explanation, the second line:
// where the bad address came from. What is said of the card, and in which words, is judge's.
#![tactic(auto)]

use judge::{because, explain, judge, line};
use show::{ROOM, put, read_full};
use std::io;
use std::io::{Read, Write};

fn main(rt: HostRuntime) -> io::Result<()> {
    let mut card = [0u8; ROOM];
    answer(&mut rt.stdin(), &mut rt.stdout(), &mut card)
}

fn answer<R: Read, W: Write>(input: &mut R, out: &mut W, card: &mut [u8]) -> io::Result<()> {
    let n = read_full(input, card)?;
    let card = &card[..n];
    put(out, line(judge(card)).text())?;
    put(out, because(explain(card)).text())
}

// Reads one card from standard input and writes its verdict line. What is said of the card, and in which words, is judge's.
#![tactic(auto)]

use judge::{judge, line};
use show::{ROOM, put, read_full};
use std::io;
use std::io::{Read, Write};

fn main(rt: HostRuntime) -> io::Result<()> {
    let mut card = [0u8; ROOM];
    answer(&mut rt.stdin(), &mut rt.stdout(), &mut card)
}

fn answer<R: Read, W: Write>(input: &mut R, out: &mut W, card: &mut [u8]) -> io::Result<()> {
    let n = read_full(input, card)?;
    put(out, line(judge(&card[..n])).text())
}

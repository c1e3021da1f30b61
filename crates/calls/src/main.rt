// Makes the calls that standard input asks for, and writes a line for each: its name, what it answered, and what it left that is
// not as the call gave it. docs/TESTS.md has the format. Nothing is decided here: each answer is a public call's own.
#![tactic(auto)]

mod calls;
mod changes;
mod checking;
mod inputs;
mod instructions;
mod loading;
mod memory;
mod names;
mod places;
mod reasons;
mod records;
mod sailing;
mod told;

use calls::perform;
use changes::put_changes;
use inputs::{number, take_inputs};
use places::{PLACES, Places};
use show::{put, read_full};
use std::io;
use std::io::{Read, Write};

// A count that no input reaches: the loop ends with its input.
const CALLS: u64 = u64::MAX;

// Room for a name.
const NAME: usize = 4096;

fn main(rt: HostRuntime) -> io::Result<()> {
    let mut name = [0u8; NAME];
    all(&mut rt.stdin(), &mut rt.stdout(), &mut name)
}

// This loop and `cut` stand in practice_test too, each with the program's own text: a function for both would be public,
// and have nothing to promise.
fn all<R: Read, W: Write>(input: &mut R, out: &mut W, name: &mut [u8]) -> io::Result<()> {
    for _ in 0..CALLS {
        if !one(input, out, name)? {
            break;
        }
    }
    Ok(())
}

// Whether there was a call. It begins with the length of its name and the number of its inputs.
fn one<R: Read, W: Write>(input: &mut R, out: &mut W, name: &mut [u8]) -> io::Result<bool> {
    let mut head = [0u8; 8];
    let got = read_full(input, &mut head)?;
    if got == 0 {
        return Ok(false);
    }
    let (numbers, _) = head.as_chunks::<4>();
    let length = number(numbers[0]) as usize;
    let inputs = number(numbers[1]);
    if got < 8 || length > name.len() {
        return cut(out);
    }
    named(input, out, &mut name[..length], inputs)
}

// An input that ends inside a call has to show in the output; nothing follows it.
fn cut<W: Write>(out: &mut W) -> io::Result<bool> {
    put(out, b"the input ends inside a call\n")?;
    Ok(false)
}

fn named<R: Read, W: Write>(
    input: &mut R,
    out: &mut W,
    name: &mut [u8],
    inputs: u32,
) -> io::Result<bool> {
    let mut given = [0u32; PLACES];
    if read_full(input, name)? < name.len() || !take_inputs(input, inputs, &mut given)? {
        return cut(out);
    }
    put(out, name)?;
    put_answer(out, &given)?;
    Ok(true)
}

fn put_answer<W: Write>(out: &mut W, given: &Places) -> io::Result<()> {
    let mut left = *given;
    perform(out, &mut left)?;
    put_changes(out, given, &left)?;
    put(out, b"\n")
}

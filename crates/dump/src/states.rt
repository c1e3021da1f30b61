// The state of a machine as text: its counters, its registers and the words that differ from those it started with.
ghost use Rattle.std.specs.Iterator.{IsFinite};

use machine::Machine;
use show::{REGISTERS, lower, put, put_word, upper};
use std::io;
use std::io::Write;

pub(crate) fn put_registers<W: Write>(out: &mut W, machine: &Machine) -> io::Result<()> {
    put(out, b"dpc ")?;
    put_word(out, machine.dpc)?;
    put(out, b" pc ")?;
    put_word(out, machine.pc)?;
    put(out, b"\n")?;
    put_values(out, b"gpr", &machine.gpr)?;
    put_values(out, b"spr", &machine.spr)
}

fn put_values<W: Write>(out: &mut W, name: &[u8], values: &[u32; REGISTERS]) -> io::Result<()> {
    put(out, name)?;
    for value in values {
        put(out, b" ")?;
        put_word(out, *value)?;
    }
    put(out, b"\n")
}

// The words of a double word, the lower first.
pub(crate) fn both(double: &u64) -> [u32; 2] {
    [lower(*double), upper(*double)]
}

// A line for each word that a run changed, in the order of the addresses, which begin at `start`: each pair is what the word
// was and what it is. The address is counted beside the pairs, since it may wrap, where a range would end.
pub(crate) fn put_changes<W: Write, I: Iterator<Item = (u32, u32)>>(
    out: &mut W,
    start: u32,
    words: I,
) -> io::Result<()>
    requires can { I.can_next words }
    requires ends { IsFinite (I.remaining words) }
{
    let mut address = start;
    for (before, after) in words {
        if before != after {
            put_change(out, address, after)?;
        }
        address = address.wrapping_add(4);
    }
    Ok(())
}

fn put_change<W: Write>(out: &mut W, address: u32, after: u32) -> io::Result<()> {
    put(out, b"word ")?;
    put_word(out, address)?;
    put(out, b" ")?;
    put_word(out, after)?;
    put(out, b"\n")
}

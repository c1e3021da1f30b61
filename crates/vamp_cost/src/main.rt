// Runs the run card on standard input on the VAMP machine and prints the steps taken, for tools/cost to count what a step
// costs. All that the machine works on comes from the card, so that the compiler knows none of it.
#![tactic(auto)]

use machine::Machine;
use show::read_full;
use std::io;

// Room for the card: more than that of tools/cost takes.
const ROOM: usize = 4096;

fn main(rt: HostRuntime) -> io::Result<()> {
    let mut bytes = [0u8; ROOM];
    let n = read_full(&mut rt.stdin(), &mut bytes)?;
    // The buffers have to live here: there is no heap.
    let mut code = [0u32; Machine::WORDS];
    let mut words = [0u32; Machine::WORDS];
    let mut memory = [0u64; Machine::DOUBLE_WORDS];
    let loaded = card::load(&bytes[..n], &mut code, &mut words, &mut memory);
    let ran = vamp::run(loaded.machine, &mut memory, loaded.machine.limit);
    let steps = ran.steps;
    println!(rt; "{steps}")
}

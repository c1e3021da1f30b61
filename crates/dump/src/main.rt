// Reads one card from standard input and writes what each machine did with it, each on its own from the same load: how its
// run ended, the counters, the registers, and the words that the run changed. `sim/simulate dump` writes the same text.
#![tactic(auto)]

mod states;

use card::load;
use checker::Verdict;
use judge::Ruling;
use machine::{Machine, Refusal};
use show::{ROOM, put, put_named, put_ruling, put_word, read_full};
use states::{both, put_changes, put_registers};
use std::io;
use std::io::{Read, Write};
use vamp::{Answer, Ran};

fn main(rt: HostRuntime) -> io::Result<()> {
    let mut card = [0u8; ROOM];
    dump(&mut rt.stdin(), &mut rt.stdout(), &mut card)
}

fn dump<R: Read, W: Write>(input: &mut R, out: &mut W, card: &mut [u8]) -> io::Result<()> {
    let n = read_full(input, card)?;
    // The buffers have to live here: there is no heap.
    let mut code = [0u32; Machine::WORDS];
    let mut words = [0u32; Machine::WORDS];
    let mut memory = [0u64; Machine::DOUBLE_WORDS];
    let loaded = load(&card[..n], &mut code, &mut words, &mut memory);
    match loaded.answer {
        Ok(()) => {
            put_checker(out, loaded.machine, &code, &words)?;
            put_vamp(out, loaded.machine, &memory)
        }
        Err(refusal) => put_refused(out, refusal),
    }
}

// The verdict line of a refusal.
fn put_refused<W: Write>(out: &mut W, refusal: Refusal) -> io::Result<()> {
    put_ruling(out, Ruling::Refused(refusal.number()))?;
    put(out, b"\n")
}

fn put_checker<W: Write>(
    out: &mut W,
    machine: Machine,
    code: &[u32; Machine::WORDS],
    before: &[u32; Machine::WORDS],
) -> io::Result<()> {
    let mut after = *before;
    let outcome = checker::check(machine, code, &mut after);
    put(out, b"assembler ")?;
    put_verdict(out, outcome.verdict)?;
    put_registers(out, &outcome.machine)?;
    // Past the card's words both buffers are zero, so that no line comes of these.
    put_changes(out, machine.data.start, before.iter().copied().zip(after))
}

// In the dump's text: not what `calls` writes, so that a Display would serve one of the two.
fn put_verdict<W: Write>(out: &mut W, verdict: Verdict) -> io::Result<()> {
    match verdict {
        // A loaded record is never refused: theorem loaded_passes of card.
        Verdict::Refused(refusal) => put_named(out, b"refused ", refusal.number())?,
        Verdict::Accepted(steps) => put_named(out, b"accepted ", steps)?,
        Verdict::Violation(violation) => {
            put_named(out, b"violation ", violation.test.number())?;
            put_named(out, b" step ", violation.at.step)?;
        }
    }
    put(out, b"\n")
}

fn put_vamp<W: Write>(
    out: &mut W,
    machine: Machine,
    before: &[u64; Machine::DOUBLE_WORDS],
) -> io::Result<()> {
    let mut after = *before;
    let ran = vamp::run(machine, &mut after, machine.limit);
    put(out, b"vamp ")?;
    put_end(out, &ran)?;
    put_named(out, b"masked ", ran.masked)?;
    put(out, b"\n")?;
    put_registers(out, &ran.machine)?;
    put_changes(
        out,
        0,
        before
            .iter()
            .flat_map(both)
            .zip(after.iter().flat_map(both)),
    )
}

// How a VAMP run ended: at the limit, or before a step with another answer than 0.
fn put_end<W: Write>(out: &mut W, ran: &Ran) -> io::Result<()> {
    match ran.answer {
        Answer::Stepped | Answer::Masked => put_named(out, b"stepped ", ran.steps)?,
        answer => {
            put_named(out, b"stopped ", answer.number())?;
            put(out, b" cause ")?;
            put_word(out, answer.cause())?;
            put_named(out, b" step ", ran.steps)?;
        }
    }
    put(out, b"\n")
}

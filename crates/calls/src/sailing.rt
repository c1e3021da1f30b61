// The calls of the VAMP machine.
use crate::changes::put_hex;
use crate::memory::{keep_memory, lent, take_memory};
use crate::places::{DOUBLE_WORDS, MEMORY_LENGTH, Places, STEPS};
use crate::records::{keep_record, record_of};
use machine::Machine;
use show::{put, put_named};
use std::io;
use std::io::Write;
use vamp::{Answer, run, step};

pub(crate) fn put_step<W: Write>(out: &mut W, places: &mut Places) -> io::Result<()> {
    let stepped = sail(step, places);
    keep_record(&stepped.machine, places);
    put_answer(out, stepped.answer)
}

pub(crate) fn put_run<W: Write>(out: &mut W, places: &mut Places) -> io::Result<()> {
    let steps = places[STEPS];
    let ran = sail(|machine, memory| run(machine, memory, steps), places);
    keep_record(&ran.machine, places);
    put_answer(out, ran.answer)?;
    put_named(out, b" steps ", ran.steps)?;
    put_named(out, b" masked ", ran.masked)
}

// What a call answers on the record and on as much of the memory as the places say, which keep what it left there.
fn sail<T, F: FnOnce(Machine, &mut [u64]) -> T>(call: F, places: &mut Places) -> T
    requires { F.IsAlwaysCallable call }
{
    let mut memory = take_memory(places);
    let m = lent(places[MEMORY_LENGTH], DOUBLE_WORDS);
    let answered = call(record_of(places), &mut memory[..m]);
    keep_memory(&memory, places);
    answered
}

// The text is the format's of the calls, so that a Display of `Answer` would serve this program alone.
fn put_answer<W: Write>(out: &mut W, answer: Answer) -> io::Result<()> {
    put_named(out, b"answer ", answer.number())?;
    put(out, b" cause ")?;
    put_hex(out, answer.cause())
}

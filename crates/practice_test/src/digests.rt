// What the machines leave, as digests: 64-bit FNV-1a over words, each taken as four bytes, the lowest first.
use card::load;
use checker::Verdict;
use machine::Machine;
use show::{lower, put, put_word, upper};
use std::io;
use std::io::Write;
use vamp::{Answer, Ran};

// What a digest starts with, and the prime that it is multiplied by.
const START: u64 = 0xCBF29CE484222325;

const PRIME: u64 = 0x100000001B3;

// Nothing for a card that is refused.
pub(crate) fn put_digests<W: Write>(out: &mut W, card: &[u8]) -> io::Result<()> {
    // The buffers have to live here: there is no heap.
    let mut code = [0u32; Machine::WORDS];
    let mut words = [0u32; Machine::WORDS];
    let mut memory = [0u64; Machine::DOUBLE_WORDS];
    let loaded = load(card, &mut code, &mut words, &mut memory);
    let machine = loaded.machine;
    if loaded.answer.is_ok() {
        let asm = checker_digest(machine, &code, &mut words);
        let vamp = vamp_digest(machine, &mut memory);
        put(out, b" asm ")?;
        put_double(out, asm)?;
        put(out, b" vamp ")?;
        put_double(out, vamp)?;
    }
    Ok(())
}

fn put_double<W: Write>(out: &mut W, double: u64) -> io::Result<()> {
    put_word(out, upper(double))?;
    put_word(out, lower(double))
}

// The steps taken, the answer, the registers, the code and the data.
fn checker_digest(machine: Machine, code: &[u32], words: &mut [u32]) -> u64 {
    let outcome = checker::check(machine, code, words);
    let after = &outcome.machine;
    let ended = with_registers(verdict_digest(outcome.verdict), after);
    let coded = with_words(ended, first(code, after.code.words));
    with_words(coded, first(words, after.data.words))
}

// So many words, or as many as there are.
fn first(words: &[u32], count: u32) -> &[u32] {
    words.get(..count as usize).unwrap_or(words)
}

fn verdict_digest(verdict: Verdict) -> u64 {
    match verdict {
        // A loaded record is never refused: theorem loaded_passes of card.
        Verdict::Refused(refusal) => with_words(START, &[0, refusal.number()]),
        Verdict::Accepted(steps) => with_words(START, &[steps, 0]),
        Verdict::Violation(violation) => {
            with_words(START, &[violation.at.step, violation.test.number()])
        }
    }
}

// The steps taken, the answer and the cause of the step that was not taken, the steps that reported a cause, the registers
// and memory.
fn vamp_digest(machine: Machine, memory: &mut [u64]) -> u64 {
    let ran = vamp::run(machine, memory, machine.limit);
    let ended = with_registers(end_digest(&ran), &ran.machine);
    memory.iter().fold(
        ended,
        |digest, double| with_bytes(digest, &double.to_le_bytes()),
    )
}

fn end_digest(ran: &Ran) -> u64 {
    let cause = match ran.answer {
        // A masked overflow is a step that is taken.
        Answer::Masked => 0,
        answer => answer.cause(),
    };
    let number = ran.answer.number();
    with_words(START, &[ran.steps, number, cause, ran.masked])
}

// The counters, the general and the special registers.
fn with_registers(digest: u64, machine: &Machine) -> u64 {
    let counted = with_words(digest, &[machine.dpc, machine.pc]);
    with_words(with_words(counted, &machine.gpr), &machine.spr)
}

fn with_words(digest: u64, words: &[u32]) -> u64 {
    words
        .iter()
        .fold(digest, |sum, word| with_bytes(sum, &word.to_le_bytes()))
}

fn with_bytes(digest: u64, bytes: &[u8]) -> u64 {
    bytes.iter().fold(
        digest,
        |sum, byte| (sum ^ u64::from(*byte)).wrapping_mul(PRIME),
    )
}

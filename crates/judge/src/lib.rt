// Card bytes to a ruling, and a ruling to its line: document 01, "The verdict line". With a violation where its bad address came
// from, and the second line that says so: document 02, request Seven.
#![tactic(auto)]

ghost use Rattle.std.specs.Prelude.{◌≤◌, ◌≡◌, length, IfOk};
ghost use Rattle.machine.specs.Record.{refused_no};
ghost use Rattle.judge.specs.Judging.{answer_of, judging, refused_by, explained_by};
ghost use Rattle.judge.specs.Line.{line_of, text_of, hex as hex_lem};
ghost use Rattle.judge.specs.Work.{program_of, ruling_of_lem};

mod digits;
mod lines;
mod reasons;

use card::load;
use checker::{At, Explanation, Outcome, Verdict, Violation, check, run};
use digits::digit;
pub use lines::Line;
use machine::{Machine, Refusal};
pub use reasons::because;

// What is said of a card. Its numbers are no enums of refusals and tests, since `line` promises a line for every number.
#[derive(Clone, Copy)]
pub enum Ruling {
    // The number of the refusal.
    Refused(u32),
    // The steps taken, and the DPC of the record that the run handed back.
    Accepted(u32, u32),
    // The number of the test, and the step that breaks it (its word is 0 for 21 and 22).
    Violation(u32, At),
}

// The record of a loaded card, in buffers that the caller has, since there is no heap; VAMP memory, which no ruling asks for, is
// this call's own.
fn loaded(
    card: &[u8],
    code: &mut [u32; Machine::WORDS],
    words: &mut [u32; Machine::WORDS],
) -> Result<Machine, Refusal>
    ensures refused { refused_no result ≡ refused_by card.now }
    ensures ok { IfOk result (λ machine. (machine, code.new, words.new) ≡ program_of card.now) }
{
    let mut memory = [0; Machine::DOUBLE_WORDS];
    let loaded = load(card, code, words, &mut memory);
    loaded.answer?;
    Ok(loaded.machine)
}

// Loads a card and runs it.
pub fn judge(card: &[u8]) -> Ruling
    ensures { answer_of result ≡ judging card.now }
{
    let mut code = [0; Machine::WORDS];
    let mut words = [0; Machine::WORDS];
    match loaded(card, &mut code, &mut words) {
        Ok(machine) => check(machine, &code, &mut words).into(),
        Err(refusal) => Ruling::Refused(refusal.number()),
    }
}

impl From<Outcome> for Ruling {
    ghost from_gives = { λ outcome ruling. answer_of ruling ≡ ruling_of_lem outcome.verdict outcome.machine.dpc };

    fn from(outcome: Outcome) -> Ruling {
        match outcome.verdict {
            Verdict::Refused(refusal) => Ruling::Refused(refusal.number()),
            Verdict::Accepted(steps) => Ruling::Accepted(steps, outcome.machine.dpc),
            Verdict::Violation(Violation { test, at }) => Ruling::Violation(test.number(), at),
        }
    }
}

// Loads a card and runs it for where the bad address of its violation came from.
pub fn explain(card: &[u8]) -> Option<Explanation>
    ensures { result ≡ explained_by card.now }
{
    let mut code = [0; Machine::WORDS];
    let mut words = [0; Machine::WORDS];
    match loaded(card, &mut code, &mut words) {
        Ok(machine) => run(machine, &code, &mut words).explanation,
        Err(_) => None,
    }
}

// The line of a ruling: a function, and no Display, since it cannot fail and promises all of the line (`line_of`). The second
// promise follows from the first; it stands here for `put_unended` of show. It is no invariant: a Line may be made up with any
// length.
#[tactic(auto, using(crate::proofs::Appending::texts), unfolding(crate::specs::Line::refused_text, crate::specs::Line::accepted_text, crate::specs::Line::violation_text))]
pub fn line(ruling: Ruling) -> Line
    ensures value { result ≡ line_of (text_of ruling) }
    ensures len_in_bounds { result.len ≤ length result.bytes }
{
    match ruling {
        Ruling::Refused(number) => Line::empty()
            .put(b"refused ")
            .put_decimal(number)
            .put(b"\n"),
        Ruling::Accepted(steps, dpc) => Line::empty()
            .put(b"accepted ")
            .put_decimal(steps)
            .put(b" next ")
            .put_hex(dpc)
            .put(b"\n"),
        Ruling::Violation(number, at) => Line::empty()
            .put(b"violation ")
            .put_decimal(number)
            .put(b" step ")
            .put_decimal(at.step)
            .put(b" at ")
            .put_hex(at.dpc)
            .put(b" word ")
            .put_word(number, at.word)
            .put(b"\n"),
    }
}

// The eight capital hex digits of a word.
pub fn hex(word: u32) -> [u8; 8]
    ensures { result ≡ hex_lem word }
{
    std::array::from_fn(|i| digit(word, 16, 7 - i as u32))
}

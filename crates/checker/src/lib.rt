// The assembler machine, the level drawing: a checked step and a run of them, over the record and two lent buffers.
#![tactic(auto)]

ghost use Rattle.std.specs.Prelude.{◌≡◌, length};
ghost use Rattle.checker.specs.Checks.{test_no};
ghost use Rattle.checker.specs.Runs.{verdict_answer, run_refusal, stepping, runs};
ghost use Rattle.checker.specs.Seven.{explaining};

mod admitted;
mod because;
mod checked;
mod refused;
mod retracing;
mod running;
mod touches;

use because::explain;
use machine::{Machine, Refusal};

// The tests of a checked step, by their numbers.
#[derive(Clone, Copy, Debug, PartialEq, Eq)]
pub enum Test {
    // DPC is not a multiple of 4.
    Misaligned = 21,
    // DPC lies outside the code region.
    Outside = 22,
    // The word is illegal.
    Illegal = 23,
    // The word is legal, but the assembler machine does not run it.
    Foreign = 24,
    // The address of a load or store is not a multiple of 4.
    Askew = 25,
    // The address lies outside the data region.
    Beyond = 26,
    // MODE takes another value than 0.
    Mode = 27,
}

impl Test {
    pub fn number(self) -> u32
        ensures { result ≡ test_no self }
    {
        self as u32
    }
}

// A step of a run, its DPC and its word (0 where tests 21 and 22 stop it, before the word is fetched).
#[derive(Clone, Copy, Debug, PartialEq, Eq)]
pub struct At {
    pub step: u32,
    pub dpc: u32,
    // 0, and no Option, says that there is no word: the promise gives 0 for 21 and 22 (`told`; `told_judged` of judge).
    pub word: u32,
}

// The first test that a run breaks, and where.
#[derive(Clone, Copy, Debug, PartialEq, Eq)]
pub struct Violation {
    pub test: Test,
    pub at: At,
}

// What a step or a run answers.
#[derive(Clone, Copy, Debug, PartialEq, Eq)]
pub enum Verdict {
    Refused(Refusal),
    // The steps taken.
    Accepted(u32),
    Violation(Violation),
}

// The verdict, and the record that is handed back.
#[derive(Clone, Copy)]
pub struct Outcome {
    pub verdict: Verdict,
    pub machine: Machine,
}

// Where a general register's value came from.
#[derive(Clone, Copy, Debug, PartialEq, Eq)]
pub enum Source {
    // The card: no step wrote it.
    Card,
    // R0, which is always 0.
    Zero,
    // The last step that wrote it.
    Step(At),
}

// Where the bad address of a violation came from.
#[derive(Clone, Copy, Debug, PartialEq, Eq)]
pub enum Explanation {
    // 25 and 26: the register RS1 and its source.
    Register(u8, Source),
    // 21 and 22: the counters of the card.
    Card,
    // 21 and 22: no transfer led there.
    RanOn,
    // 21 and 22: the step of the taken transfer that led there.
    Transfer(At),
    // The same of jr, with its register and that one's source.
    Jr(At, u8, Source),
}

// The same, with the explanation: none where the run is refused or accepted, or breaks another test than 21, 22, 25 and 26. No
// Outcome in it, since the promise of `run` names its verdict and its record.
#[derive(Clone, Copy)]
pub struct Explained {
    pub verdict: Verdict,
    pub machine: Machine,
    pub explanation: Option<Explanation>,
}

// One checked step. It ignores the record's limit.
#[tactic(auto, using(crate::proofs::Refusals::rooms))]
pub fn step(machine: Machine, code: &[u32], words: &mut [u32]) -> Outcome
    ensures { ◌≡◌ (verdict_answer result.verdict, result.machine, words.new) (stepping machine code.now words.old) }
{
    let refused = refused::of_step(&machine, code.len(), words.len());
    running::take(refused, &machine, 1, code, words)
}

// Steps until the limit or the first violation, without the explanation.
#[tactic(auto, using(crate::proofs::Refusals::run_rooms))]
pub fn check(machine: Machine, code: &[u32], words: &mut [u32]) -> Outcome
    ensures { ◌≡◌ (verdict_answer result.verdict, result.machine, words.new) (runs machine code.now words.old) }
{
    let refused = refused::of_run(&machine, code.len(), words.len());
    running::take(refused, &machine, machine.limit, code, words)
}

// The same, with the explanation.
pub fn run(machine: Machine, code: &[u32], words: &mut [u32]) -> Explained
    ensures ran { ◌≡◌ (verdict_answer result.verdict, result.machine, words.new) (runs machine code.now words.old) }
    ensures explained { result.explanation ≡ explaining machine code.now words.old (runs machine code.now words.old).0 }
{
    match refused::of_run(&machine, code.len(), words.len()) {
        Ok(()) => run_explained(&machine, code, words),
        Err(refusal) => Explained {
            verdict: Verdict::Refused(refusal),
            machine,
            explanation: None,
        },
    }
}

// A run that is not refused. What its explanation needs is found after it, by taking its steps once more from a copy of the data:
// a function of its own, since a refused run would pay for the room of the copy.
fn run_explained(machine: &Machine, code: &[u32], words: &mut [u32]) -> Explained
    requires { run_refusal machine.now (length code.now) (length words.old) ≡ 0 }
    ensures ran { ◌≡◌ (verdict_answer result.verdict, result.machine, words.new) (runs machine.now code.now words.old) }
    ensures explained { result.explanation ≡ explaining machine.now code.now words.old (runs machine.now code.now words.old).0 }
{
    let mut before = <[u32; Machine::WORDS]>::try_from(&words[..]);
    let Outcome {
        verdict,
        machine: left,
    } = running::take(Ok(()), machine, machine.limit, code, words);
    let explanation = match &mut before {
        Ok(data) => explain(*machine, verdict, code, data),
        // Data of another length are refused.
        Err(_) => None,
    };
    Explained {
        verdict,
        machine: left,
        explanation,
    }
}

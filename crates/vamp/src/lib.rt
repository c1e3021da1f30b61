// The VAMP machine: double-word memory, the events of a step in their order, the step and sequences of steps. What an
// instruction does is taken from `machine`.
#![tactic(auto)]

ghost use Rattle.std.specs.Prelude.{◌≡◌};
ghost use Rattle.vamp.specs.Steps.{answered, stepping, running};

mod course;
mod events;
mod lanes;

use machine::Machine;
use machine::refusals::not_zero;

// What a call answers: the document's number, and the cause word.
#[derive(Clone, Copy, Debug, PartialEq, Eq)]
pub enum Answer {
    // 0, stepped, with an empty cause word.
    Stepped,
    // 0, stepped, with bit 6: SR bit 6 is 0 and masks the overflow.
    Masked,
    // 31, interrupt, with bit 2: a fetch or an access that is not a multiple of its size.
    Misaligned,
    // 31, interrupt, with bit 1: an illegal word.
    Illegal,
    // 31, interrupt, with bit 5: a trap.
    Trap,
    // 31, interrupt, with bit 6: an overflow.
    Overflow,
    // 32: a fetch or an access past modelled memory.
    PastMemory,
    // 33: MODE would not be 0.
    Mode,
    // 1, refused: memory is not 2,048 double words.
    WrongLength,
    // 11, refused: R0, an unused special register or MODE is not 0.
    NotZero,
}

impl Answer {
    // The bits of the cause word.
    pub const ILLEGAL: u32 = 2;

    pub const MISALIGNED: u32 = 4;

    pub const TRAP: u32 = 32;

    pub const OVERFLOW: u32 = 64;

    // The document's number. Several answers share one, so no discriminants give it.
    pub fn number(self) -> u32
        ensures { result ≡ (answered self).0 }
    {
        match self {
            Answer::Stepped | Answer::Masked => 0,
            Answer::Misaligned | Answer::Illegal | Answer::Trap | Answer::Overflow => 31,
            Answer::PastMemory => 32,
            Answer::Mode => 33,
            Answer::WrongLength => 1,
            Answer::NotZero => 11,
        }
    }

    // The cause word. Several answers share one.
    pub fn cause(self) -> u32
        ensures { result ≡ (answered self).1 }
    {
        match self {
            Answer::Misaligned => Answer::MISALIGNED,
            Answer::Illegal => Answer::ILLEGAL,
            Answer::Trap => Answer::TRAP,
            Answer::Masked | Answer::Overflow => Answer::OVERFLOW,
            Answer::Stepped
            | Answer::PastMemory
            | Answer::Mode
            | Answer::WrongLength
            | Answer::NotZero => 0,
        }
    }
}

// What one step answers, and the machine after it: `step` is promised equal to `stepping`, which counts nothing as `Ran` does.
#[derive(Clone, Copy)]
pub struct Stepped {
    pub answer: Answer,
    pub machine: Machine,
}

// What a sequence of steps answers: the steps taken, the answer of the last step, how many of the steps taken reported a
// cause, and the machine after them.
#[derive(Clone, Copy)]
pub struct Ran {
    pub steps: u32,
    pub answer: Answer,
    pub masked: u32,
    pub machine: Machine,
}

// One step: a sequence of one.
pub fn step(machine: Machine, memory: &mut [u64]) -> Stepped
    ensures { (answered result.answer, result.machine, memory.new) ≡ stepping machine memory.old }
{
    let ran = run(machine, memory, 1);
    Stepped {
        answer: ran.answer,
        machine: ran.machine,
    }
}

// Up to `steps` steps, that stop before the first one whose answer is not 0.
#[tactic(auto, using(crate::proofs::Calls::run_length, crate::proofs::Calls::run_zero, crate::proofs::Calls::run_works))]
pub fn run(machine: Machine, memory: &mut [u64], steps: u32) -> Ran
    ensures { (result.steps, answered result.answer, result.masked, result.machine, memory.new) ≡ running machine memory.old steps }
{
    let Some(double_words) = memory.as_mut_array() else {
        return refused(Answer::WrongLength, machine);
    };
    if not_zero(&machine) {
        return refused(Answer::NotZero, machine);
    }
    course::go(machine, double_words, steps)
}

// A call that is refused takes no step.
fn refused(answer: Answer, machine: Machine) -> Ran
    ensures { result ≡ record { steps = 0; answer = answer; masked = 0; machine = machine } }
{
    Ran {
        steps: 0,
        answer,
        masked: 0,
        machine,
    }
}

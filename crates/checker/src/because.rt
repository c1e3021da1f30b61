// Where the bad address of a violation came from: the run's steps are taken once more, with the last writers noted.
ghost use Rattle.std.specs.Prelude.{◌≡◌};
ghost use Rattle.std.specs.Prelude.{ℕ, suc, List};
ghost use Rattle.machine.specs.declared.Machine.{Machine};
ghost use Rattle.machine.specs.Record.{state_of};
ghost use Rattle.checker.specs.Inner.{Answered, Retraces, noted_source};
ghost use Rattle.checker.specs.Runs.{verdict_answer};
ghost use Rattle.checker.specs.Seven.{explaining, led as led_lem, addressed as addressed_lem};

use crate::retracing::{Retraced, retrace};
use crate::touches::{Turn, turned};
use crate::{Explanation, Source, Test, Verdict, Violation};
use machine::Machine;
use words::Word;

// The step that made the PC' which a step fetches by is so many steps before it.
const DELAY: u32 = 2;

// The explanation that a run gives with its verdict. The data are those before the run.
pub(crate) fn explain(
    machine: Machine,
    verdict: Verdict,
    code: &[u32],
    words: &mut [u32],
) -> Option<Explanation>
    requires { Answered machine code.now words.old verdict }
    ensures { result ≡ explaining machine code.now words.old (verdict_answer verdict) }
{
    let Verdict::Violation(Violation { test, at }) = verdict else {
        return None;
    };
    match test {
        Test::Misaligned | Test::Outside => Some(match at.step.checked_sub(DELAY) {
            Some(back) => retrace(machine, back, code, words).led(),
            None => Explanation::Card,
        }),
        Test::Askew | Test::Beyond => Some(retrace(machine, at.step, code, words).addressed()),
        Test::Illegal | Test::Foreign | Test::Mode => None,
    }
}

impl Retraced {
    // What led to the DPC of the second step from there: for 21 and 22.
    fn led(&self) -> Explanation
        ensures { (m : Machine) (code ws : List ℕ) (j : ℕ) → Retraces m code ws j self.now → result ≡ led_lem m.code m.«data» code (state_of m, ws) (suc (suc j)) }
    {
        match turned(Word(self.next.word), &self.state) {
            Turn::On => Explanation::RanOn,
            Turn::Taken => Explanation::Transfer(self.next),
            Turn::By(number) => Explanation::Jr(self.next, number, self.source_of(number)),
        }
    }

    // What the address of the step that comes next is made of: for 25 and 26.
    fn addressed(&self) -> Explanation
        ensures { (m : Machine) (code ws : List ℕ) (j : ℕ) → Retraces m code ws j self.now → result ≡ addressed_lem m.code m.«data» code (state_of m, ws) j }
    {
        let number = Word(self.next.word).rs1();
        Explanation::Register(number, self.source_of(number))
    }

    // The source of a register's value.
    fn source_of(&self, number: u8) -> Source
        ensures { result ≡ noted_source self.now.writers number }
    {
        let register = (number % 32) as usize;
        if register == 0 {
            return Source::Zero;
        }
        match self.writers[register] {
            Some(at) => Source::Step(at),
            None => Source::Card,
        }
    }
}

// The loop of a run, on the counters and registers of a record: the step works on them in place.
ghost use Rattle.std.specs.Prelude.{◌≡◌};
ghost use Rattle.machine.specs.Record.{refused_no};
ghost use Rattle.checker.specs.Inner.{Rooms, Ended};
ghost use Rattle.checker.specs.Runs.{verdict_answer, taking};

use crate::checked::step;
use crate::{At, Outcome, Verdict, Violation};
use machine::{Machine, Refusal, State};

// The verdict of a run, and the general register that its last step wrote (0 for none, as its definition `target` has it:
// R0 is never written).
#[derive(Clone, Copy)]
pub(crate) struct Ran {
    pub verdict: Verdict,
    pub wrote: u8,
}

// Takes at most `limit` steps of a state in the regions of a record.
pub(crate) fn go(
    machine: &Machine,
    limit: u32,
    state: &mut State,
    code: &[u32],
    words: &mut [u32],
) -> Ran
    requires { Rooms machine.now code.now words.old }
    ensures { Ended machine.now code.now limit state.old words.old result state.new words.new }
{
    let mut wrote = 0;
    for taken in 0..limit {
        match step(machine, state, code, words) {
            Ok(register) => wrote = register,
            Err(stop) => {
                let violation = Violation {
                    test: stop.test,
                    at: At {
                        step: taken,
                        dpc: state.dpc,
                        word: stop.word,
                    },
                };
                return Ran {
                    verdict: Verdict::Violation(violation),
                    wrote,
                };
            }
        }
    }
    Ran {
        verdict: Verdict::Accepted(limit),
        wrote,
    }
}

// Takes at most `limit` steps of a record. Refused, nothing changes.
pub(crate) fn take(
    refused: Result<(), Refusal>,
    machine: &Machine,
    limit: u32,
    code: &[u32],
    words: &mut [u32],
) -> Outcome
    requires { refused_no refused ≡ 0 → Rooms machine.now code.now words.old }
    ensures { ◌≡◌ (verdict_answer result.verdict, result.machine, words.new) (taking (refused_no refused) limit machine.now code.now words.old) }
{
    if let Err(refusal) = refused {
        return Outcome {
            verdict: Verdict::Refused(refusal),
            machine: *machine,
        };
    }
    let mut state = machine.state();
    let ran = go(machine, limit, &mut state, code, words);
    Outcome {
        verdict: ran.verdict,
        machine: machine.with_state(state),
    }
}

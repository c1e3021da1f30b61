// A step and a sequence of steps.
ghost use Rattle.std.specs.Prelude.{◌≡◌};
ghost use Rattle.machine.specs.Record.{state_of};
ghost use Rattle.vamp.specs.Steps.{answered, vstep, onward, start};
ghost use Rattle.vamp.specs.Inner.{judged, passes, course_of};

use crate::lanes::{Address, Memory};
use crate::{Answer, Ran, events, lanes};
use machine::{Machine, State};

// The number of a step that is taken: a run goes on behind it.
const TAKEN: u32 = 0;

// Up to `limit` steps, that stop before the first one whose answer is not 0.
pub(crate) fn go(machine: Machine, memory: &mut Memory, limit: u32) -> Ran
    ensures { (result.steps, answered result.answer, result.masked, result.machine, memory.new) ≡ course_of machine (onward limit (start (state_of machine, memory.old))) }
{
    let mut state = machine.state();
    let mut answer = Answer::Stepped;
    let mut masked = 0;
    for taken in 0..limit {
        let said = told(one(&mut state, memory));
        if said.number() != TAKEN {
            return Ran {
                steps: taken,
                answer: said,
                masked,
                machine: machine.with_state(state),
            };
        }
        answer = said;
        masked += u32::from(said == Answer::Masked);
    }
    Ran {
        steps: limit,
        answer,
        masked,
        machine: machine.with_state(state),
    }
}

// What a step answers, taken or not.
fn told(said: Result<Answer, Answer>) -> Answer
    ensures { answered result ≡ (judged said).1 }
{
    let (Ok(answer) | Err(answer)) = said;
    answer
}

// One step: the events in their order, and what the word does where none stops it. `Ok` is the answer of a step that is taken;
// one that is not changes nothing.
fn one(state: &mut State, memory: &mut Memory) -> Result<Answer, Answer>
    ensures answer { judged result ≡ passes (vstep (state.old, memory.old)).0 }
    ensures left { (state.new, memory.new) ≡ (vstep (state.old, memory.old)).1 }
{
    events::access(state.dpc % 4 != 0, state.dpc)?;
    let word = lanes::read::<32>(memory, Address::of(state.dpc));
    let instruction = words::read(word).ok_or(Answer::Illegal)?;
    let act = state.meaning(instruction);
    let answer = events::of_effect(act.effect, &state.spr)?;
    let loaded = lanes::carry(act.effect, memory);
    state.apply(act.effect, loaded, act.next);
    Ok(answer)
}

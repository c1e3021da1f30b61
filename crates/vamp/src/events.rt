// The events of a step, but for the illegal word: tests of its fetch, and of the effect of its word. `Ok` is the answer of a
// step that is taken, `Err` that of one that is not.
ghost use Rattle.std.specs.Prelude.{◌&&◌, ◌∷◌, [], ◌≡◌};
ghost use Rattle.machine.specs.Effects.{mode_set};
ghost use Rattle.machine.specs.Record.{first};
ghost use Rattle.vamp.specs.Events.{overflow_masked, stepped, interrupt, mode, OVERFLOW};
ghost use Rattle.vamp.specs.Inner.{judged, passes, access_event, effect_event};

use crate::Answer;
use machine::sizes::askew;
use machine::{Effect, Machine};

// Events 4 to 8, of an effect.
#[tactic(auto, unfolding(crate::specs::Events::access_past, crate::specs::Events::overflowed, crate::specs::Events::trapped, crate::specs::Inner::access_event, crate::specs::Inner::effect_event, machine::specs::Effects::access, machine::specs::Effects::askew, machine::specs::Effects::mode_set))]
pub(crate) fn of_effect(effect: Effect, spr: &[u32; 32]) -> Result<Answer, Answer>
    ensures { judged result ≡ passes (effect_event effect spr.now) }
{
    match effect {
        Effect::PutSpecial(_, _) => special(effect),
        Effect::Sum(_, _, beyond) => sum(beyond, spr),
        Effect::Load(kind, _, address) => access(askew(kind, address), address),
        Effect::Store(kind, address, _) => access(askew(kind, address), address),
        Effect::Trap(_) => Err(Answer::Trap),
        Effect::Put(_, _) | Effect::Return | Effect::Nothing => Ok(Answer::Stepped),
    }
}

// Events 4 and 5, and so 1 and 2: an access at an address that may be askew.
#[tactic(auto, unfolding(crate::specs::Inner::access_event))]
pub(crate) fn access(askew: bool, address: u32) -> Result<Answer, Answer>
    ensures { judged result ≡ passes (access_event askew address) }
{
    if askew {
        Err(Answer::Misaligned)
    } else if Machine::MEMORY <= u64::from(address) {
        Err(Answer::PastMemory)
    } else {
        Ok(Answer::Stepped)
    }
}

// Event 7: a sum or difference that may lie beyond the words. SR bit 6 masks it where it is 0.
#[tactic(auto, using(crate::proofs::Tests::overflow_bit), unfolding(crate::specs::Events::overflow_masked, machine::specs::Effects::register))]
fn sum(beyond: bool, spr: &[u32; 32]) -> Result<Answer, Answer>
    ensures { judged result ≡ passes (first ((beyond && overflow_masked spr.now, stepped OVERFLOW) ∷ (beyond, interrupt OVERFLOW) ∷ []) (stepped 0)) }
{
    if !beyond {
        Ok(Answer::Stepped)
    } else if spr[Machine::SR] & Answer::OVERFLOW == 0 {
        Ok(Answer::Masked)
    } else {
        Err(Answer::Overflow)
    }
}

// Event 8: a value for a special register, that would set MODE.
fn special(effect: Effect) -> Result<Answer, Answer>
    ensures { judged result ≡ passes (first ((mode_set effect, mode) ∷ []) (stepped 0)) }
{
    if effect.sets_mode() {
        Err(Answer::Mode)
    } else {
        Ok(Answer::Stepped)
    }
}

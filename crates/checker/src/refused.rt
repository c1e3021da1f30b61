// The refusals of a record and its two buffers, in the table's order.
ghost use Rattle.std.specs.Prelude.{◌≡◌};
ghost use Rattle.machine.specs.Record.{refused_no};
ghost use Rattle.checker.specs.Runs.{step_refusal, run_refusal};

use machine::refusals::{self, over_limit, wrong_count};
use machine::{Machine, Refusal};

// The length of the buffer of code.
const CODE: usize = Machine::WORDS;

// Whether a step is refused.
#[tactic(auto, unfolding(crate::specs::Runs::step_refusal))]
pub(crate) fn of_step(machine: &Machine, code: usize, words: usize) -> Result<(), Refusal>
    ensures { refused_no result ≡ step_refusal machine.now code words }
{
    if code != CODE || words != Machine::WORDS {
        return Err(Refusal::WrongLength);
    }
    if wrong_count(machine) {
        return Err(Refusal::WrongCount);
    }
    refusals::of_regions(machine)
}

// Whether a run is refused: as a step, or for its limit.
#[tactic(auto, using(crate::proofs::Refusals::run_refusal_lem))]
pub(crate) fn of_run(machine: &Machine, code: usize, words: usize) -> Result<(), Refusal>
    ensures { refused_no result ≡ run_refusal machine.now code words }
{
    of_step(machine, code, words)?;
    if over_limit(machine) {
        return Err(Refusal::OverLimit);
    }
    Ok(())
}

// The run-card loader, document 01, "The run card": card bytes in; a machine record out, and three lent buffers filled.
#![tactic(auto)]

ghost use Rattle.std.specs.Prelude.{◌≡◌};
ghost use Rattle.card.specs.Card.{answer_of, loading};
ghost use Rattle.card.specs.Work.{told};

mod fields;
mod fills;
mod image;
mod table;

use fields::BODY;
use fills::fill_buffers;
use machine::{Machine, Refusal};
use table::accepted;

// The bytes of the longest card that loads.
pub const LONGEST: usize = BODY + 4 * (Machine::WORDS + Machine::WORDS);

// The answer, and the record: the card's, or one of zeros where the card was refused. It stands beside the answer, and not in its Ok
// alone, since a load that is refused hands back a record too (`loading_refused`).
#[derive(Clone, Copy)]
pub struct Loaded {
    pub answer: Result<(), Refusal>,
    pub machine: Machine,
}

// Loads a card. A refusal changes no buffer.
pub fn load(card: &[u8], code: &mut [u32], words: &mut [u32], memory: &mut [u64]) -> Loaded
    ensures { (answer_of result.answer, result.machine, code.new, words.new, memory.new) ≡ loading card.now code.old words.old memory.old }
{
    match filled(card, code, words, memory) {
        Ok(machine) => Loaded {
            answer: Ok(()),
            machine,
        },
        Err(refusal) => Loaded {
            answer: Err(refusal),
            machine: Machine::new(),
        },
    }
}

// The record of a card that no test refuses, the buffers filled.
fn filled(
    card: &[u8],
    code: &mut [u32],
    words: &mut [u32],
    memory: &mut [u64],
) -> Result<Machine, Refusal>
    ensures { ((told result).0, (told result).1, code.new, words.new, memory.new) ≡ loading card.now code.old words.old memory.old }
{
    let code = code.as_mut_array().ok_or(Refusal::WrongLength)?;
    let words = words.as_mut_array().ok_or(Refusal::WrongLength)?;
    let memory = memory.as_mut_array().ok_or(Refusal::WrongLength)?;
    let machine = accepted(card)?;
    fill_buffers(card, &machine, code, words, memory);
    Ok(machine)
}

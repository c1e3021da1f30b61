// What a step writes, and how a word leaves PC': for the explanation of a run. The words are looked at by their opcodes, not
// read: a second use of the reader would make the checked step dearer (tools/cost).
ghost use Rattle.std.specs.Prelude.{◌≡◌};
ghost use Rattle.checker.specs.Seven.{target, turn};

use machine::{Effect, State};
use words::Word;

// The opcodes of the transfers.
const JAL: u32 = 0x03;

const BEQZ: u32 = 0x04;

const BNEZ: u32 = 0x05;

const JR: u32 = 0x16;

// How a word leaves PC': on to the next word, by a taken transfer, or by jr, with its register.
#[derive(Clone, Copy, Debug, PartialEq, Eq)]
pub(crate) enum Turn {
    On,
    Taken,
    By(u8),
}

// The general register that an effect writes, or 0, as its definition `target` has it: R0 is never written, so an Option would say
// "none" in two ways.
#[tactic(auto, unfolding(crate::specs::Seven::target))]
pub(crate) fn written(effect: Effect) -> u8
    ensures { result ≡ target effect }
{
    match effect {
        Effect::Put(n, _) | Effect::Sum(n, _, _) | Effect::Load(_, n, _) => n % 32,
        Effect::PutSpecial(..)
        | Effect::Store(..)
        | Effect::Trap(_)
        | Effect::Return
        | Effect::Nothing => 0,
    }
}

// How a word leaves PC', by the general registers.
#[tactic(auto, unfolding(crate::specs::Seven::turn))]
pub(crate) fn turned(word: Word, state: &State) -> Turn
    ensures { result ≡ turn word.0 state.now.gpr }
{
    let rs1 = word.rs1();
    match word.opcode() {
        JAL => Turn::Taken,
        JR => Turn::By(rs1),
        BEQZ if state.general(rs1) == 0 => Turn::Taken,
        BNEZ if state.general(rs1) != 0 => Turn::Taken,
        _ => Turn::On,
    }
}

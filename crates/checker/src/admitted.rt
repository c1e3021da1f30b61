// The twenty instructions that the assembler machine runs.
ghost use Rattle.std.specs.Prelude.{◌≡◌};
ghost use Rattle.checker.specs.Checks.{admits};

use words::{Arithmetic, Comparison, Instruction, LoadKind, Shift, StoreKind};

#[tactic(auto, unfolding(crate::specs::Checks::admits))]
pub(crate) fn admits(instruction: Instruction) -> bool
    ensures { result ≡ admits instruction }
{
    matches!(
        instruction,
        Instruction::ShiftImmediate(Shift::Sll | Shift::Srl, ..)
            | Instruction::Movs2i(..)
            | Instruction::Movi2s(..)
            | Instruction::ArithmeticRegister(Arithmetic::Add | Arithmetic::Sub, ..)
            | Instruction::CompareRegister(Comparison::Sgr | Comparison::Sge | Comparison::Sne, ..)
            | Instruction::Jal(_)
            | Instruction::Beqz(..)
            | Instruction::Bnez(..)
            | Instruction::ArithmeticImmediate(
                Arithmetic::Add | Arithmetic::And | Arithmetic::Or | Arithmetic::Xor,
                ..,
            )
            | Instruction::Lhgi(..)
            | Instruction::Jr(_)
            | Instruction::Load(LoadKind::Lw, ..)
            | Instruction::Store(StoreKind::Sw, ..)
    )
}

// The reader decides over the opcode, and over the function of an R word.
#![tactic(auto, unfolding(crate::specs::Words::reading))]

ghost use Rattle.std.specs.Prelude.{◌≡◌};
ghost use Rattle.words.specs.Fields.{opcode};
ghost use Rattle.words.specs.Words.{reading, reading_answer};

use crate::fields::Word;
use crate::groups::{ARITHMETIC_REGISTER, COMPARE_REGISTER, SHIFT_REGISTER};
use crate::{Arithmetic, Comparison, Instruction, LoadKind, Numbered, Shift, StoreKind};

pub(crate) fn read(word: Word) -> Option<Instruction>
    ensures { reading_answer result ≡ reading word.0 }
{
    let number = word.opcode();
    let (rd, rs1, imm) = (word.second(), word.rs1(), word.immediate16());
    let instruction = match number {
        0x00 => return register(word),
        0x02 => Instruction::J(word.immediate26()),
        0x03 => Instruction::Jal(word.immediate26()),
        0x04 => Instruction::Beqz(rs1, imm),
        0x05 => Instruction::Bnez(rs1, imm),
        0x08..=0x0E => {
            let operation = Arithmetic::with_number(number)?;
            Instruction::ArithmeticImmediate(operation, rd, rs1, imm)
        }
        0x0F => Instruction::Lhgi(rd, imm),
        0x16 => Instruction::Jr(rs1),
        0x17 => Instruction::Jalr(rs1),
        0x18 => Instruction::Clri(rd),
        0x19..=0x1E => {
            let comparison = Comparison::with_number(number)?;
            Instruction::CompareImmediate(comparison, rd, rs1, imm)
        }
        0x1F => Instruction::Seti(rd),
        0x20..=0x25 => Instruction::Load(LoadKind::with_number(number)?, rd, rs1, imm),
        0x28..=0x2B => Instruction::Store(StoreKind::with_number(number)?, rs1, imm, rd),
        0x3E => Instruction::Trap(word.immediate26()),
        0x3F => Instruction::Rfe,
        _ => return None,
    };
    Some(instruction)
}

// Opcode 00: the R words.
fn register(word: Word) -> Option<Instruction>
    requires { opcode word.0 ≡ 0x00 }
    ensures { reading_answer result ≡ reading word.0 }
{
    let number = word.function();
    let (rd, rs1, rs2, sa) = (word.third(), word.rs1(), word.second(), word.amount());
    let instruction = match number {
        0x00..=0x03 => Instruction::ShiftImmediate(Shift::with_number(number)?, rd, rs1, sa),
        0x04..=0x07 => {
            let shift = Shift::with_number(number - SHIFT_REGISTER)?;
            Instruction::ShiftRegister(shift, rd, rs1, rs2)
        }
        0x10 => Instruction::Movs2i(rd, sa),
        0x11 => Instruction::Movi2s(sa, rs1),
        0x20..=0x26 => {
            let operation = Arithmetic::with_number(number - ARITHMETIC_REGISTER)?;
            Instruction::ArithmeticRegister(operation, rd, rs1, rs2)
        }
        0x27 => Instruction::Lhg(rd, rs1),
        0x28 => Instruction::Clr(rd),
        0x29..=0x2E => {
            let comparison = Comparison::with_number(number - COMPARE_REGISTER)?;
            Instruction::CompareRegister(comparison, rd, rs1, rs2)
        }
        0x2F => Instruction::Set(rd),
        _ => return None,
    };
    Some(instruction)
}

// What each instruction touches: document 02, request Six. Instructions that touch alike share a row.
ghost use Rattle.std.specs.Prelude.{◌≡◌};
ghost use Rattle.words.specs.Touches.{touches, touches_of_lem, writes_of, to};

use crate::{Instruction, LINK, Reads, Special, Touches};

pub fn touches_of(instruction: Instruction) -> Touches
    ensures { touches_of_lem result ≡ touches instruction }
{
    let (reads, writes, special) = match instruction {
        Instruction::ShiftImmediate(_, rd, rs1, _)
        | Instruction::Lhg(rd, rs1)
        | Instruction::ArithmeticImmediate(_, rd, rs1, _)
        | Instruction::CompareImmediate(_, rd, rs1, _)
        | Instruction::Load(_, rd, rs1, _) => (Reads::One(rs1), written(rd), Special::None),
        Instruction::ShiftRegister(_, rd, rs1, rs2)
        | Instruction::ArithmeticRegister(_, rd, rs1, rs2)
        | Instruction::CompareRegister(_, rd, rs1, rs2) => (
            Reads::Two(rs1, rs2),
            written(rd),
            Special::None,
        ),
        Instruction::Clr(rd)
        | Instruction::Set(rd)
        | Instruction::Lhgi(rd, _)
        | Instruction::Clri(rd)
        | Instruction::Seti(rd) => (Reads::None, written(rd), Special::None),
        Instruction::Store(_, rs1, _, rd) => (Reads::Two(rs1, rd), None, Special::None),
        Instruction::Beqz(rs1, _) | Instruction::Bnez(rs1, _) | Instruction::Jr(rs1) => (
            Reads::One(rs1),
            None,
            Special::None,
        ),
        Instruction::Jalr(rs1) => (Reads::One(rs1), Some(LINK), Special::None),
        Instruction::Jal(_) => (Reads::None, Some(LINK), Special::None),
        Instruction::J(_) | Instruction::Trap(_) => (Reads::None, None, Special::None),
        Instruction::Movs2i(rd, sa) => (Reads::None, written(rd), Special::Read(sa)),
        Instruction::Movi2s(sa, rs1) => (Reads::One(rs1), None, Special::Written(sa)),
        Instruction::Rfe => (Reads::None, None, Special::Return),
    };
    Touches {
        reads,
        writes,
        special,
    }
}

// RD as the register written: none where it is R0.
fn written(rd: u8) -> Option<u8>
    ensures { writes_of result ≡ to rd }
{
    (rd != 0).then_some(rd)
}

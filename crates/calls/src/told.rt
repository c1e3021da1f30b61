// An instruction value as text: its mnemonic, and its operands in the order of the syntax.
use crate::names::{arithmetic, comparison, load, shift, store};
use show::put;
use std::io;
use std::io::Write;
use words::Instruction;

pub(crate) fn put_instruction<W: Write>(out: &mut W, instruction: Instruction) -> io::Result<()> {
    match instruction {
        Instruction::ShiftImmediate(s, rd, rs1, sa) => write!(out, "{}i {rd} {rs1} {sa}", shift(s)),
        Instruction::ShiftRegister(s, rd, rs1, rs2) => write!(out, "{} {rd} {rs1} {rs2}", shift(s)),
        Instruction::Movs2i(rd, sa) => write!(out, "movs2i {rd} {sa}"),
        Instruction::Movi2s(sa, rs1) => write!(out, "movi2s {sa} {rs1}"),
        Instruction::ArithmeticRegister(a, rd, rs1, rs2) => {
            let (name, o) = arithmetic(a);
            write!(out, "{name}{o} {rd} {rs1} {rs2}")
        }
        Instruction::Lhg(rd, rs1) => write!(out, "lhg {rd} {rs1}"),
        Instruction::Clr(rd) => write!(out, "clr {rd}"),
        Instruction::CompareRegister(k, rd, rs1, rs2) => write!(
            out,
            "{} {rd} {rs1} {rs2}",
            comparison(k)
        ),
        Instruction::Set(rd) => write!(out, "set {rd}"),
        Instruction::J(imm) => write!(out, "j {imm}"),
        Instruction::Jal(imm) => write!(out, "jal {imm}"),
        Instruction::Trap(imm) => write!(out, "trap {imm}"),
        Instruction::Rfe => put(out, b"rfe"),
        Instruction::Beqz(rs1, imm) => write!(out, "beqz {rs1} {imm}"),
        Instruction::Bnez(rs1, imm) => write!(out, "bnez {rs1} {imm}"),
        Instruction::ArithmeticImmediate(a, rd, rs1, imm) => {
            let (name, o) = arithmetic(a);
            write!(out, "{name}i{o} {rd} {rs1} {imm}")
        }
        Instruction::Lhgi(rd, imm) => write!(out, "lhgi {rd} {imm}"),
        Instruction::Jr(rs1) => write!(out, "jr {rs1}"),
        Instruction::Jalr(rs1) => write!(out, "jalr {rs1}"),
        Instruction::Clri(rd) => write!(out, "clri {rd}"),
        Instruction::CompareImmediate(k, rd, rs1, imm) => write!(
            out,
            "{}i {rd} {rs1} {imm}",
            comparison(k)
        ),
        Instruction::Seti(rd) => write!(out, "seti {rd}"),
        Instruction::Load(k, rd, rs1, imm) => write!(out, "{} {rd} {rs1} {imm}", load(k)),
        Instruction::Store(k, rs1, imm, rd) => write!(out, "{} {rs1} {imm} {rd}", store(k)),
    }
}

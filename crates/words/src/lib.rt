// The instruction words of document 01, "Words": the 58 legal instructions, the reader of a word and the maker of one.
// Every number stands once more in specs/Words.antt, in the document's order, and what each instruction touches in
// specs/Touches.antt; the promises below hold them together.
#![tactic(auto)]

ghost use Rattle.std.specs.Prelude.{◌≡◌};
ghost use Rattle.words.specs.Words.{reading, reading_answer, making, made_answer};

mod fields;
mod groups;
mod layout;
mod maker;
mod reader;
mod touching;

pub use fields::Word;
pub use groups::Numbered;
use groups::{ARITHMETIC_REGISTER, COMPARE_REGISTER, SHIFT_REGISTER};
use maker::{immediate, jump, register};
pub use touching::touches_of;

// The register that jal and jalr write.
pub const LINK: u8 = 31;

// The instructions, grouped as tables 1.2 to 1.4 group them. A variant carries only the fields that its syntax uses, in
// the syntax's order. Registers and SA are numbers that a made-up value may have out of range; `make` refuses those.
#[derive(Clone, Copy)]
pub enum Instruction {
    // slli, slai, srli, srai RD,RS1,SA
    ShiftImmediate(Shift, u8, u8, u8),
    // sll, sla, srl, sra RD,RS1,RS2
    ShiftRegister(Shift, u8, u8, u8),
    // movs2i RD,SPR[SA]
    Movs2i(u8, u8),
    // movi2s SPR[SA],RS1
    Movi2s(u8, u8),
    // addo, add, subo, sub, and, or, xor RD,RS1,RS2
    ArithmeticRegister(Arithmetic, u8, u8, u8),
    // lhg RD,RS1
    Lhg(u8, u8),
    // clr RD
    Clr(u8),
    // sgr, seq, sge, sls, sne, sle RD,RS1,RS2
    CompareRegister(Comparison, u8, u8, u8),
    // set RD
    Set(u8),
    // j imm
    J(i32),
    // jal imm
    Jal(i32),
    // trap imm
    Trap(i32),
    // rfe
    Rfe,
    // beqz RS1,imm
    Beqz(u8, i32),
    // bnez RS1,imm
    Bnez(u8, i32),
    // addio, addi, subio, subi, andi, ori, xori RD,RS1,imm
    ArithmeticImmediate(Arithmetic, u8, u8, i32),
    // lhgi RD,imm
    Lhgi(u8, i32),
    // jr RS1
    Jr(u8),
    // jalr RS1
    Jalr(u8),
    // clri RD
    Clri(u8),
    // sgri, seqi, sgei, slsi, snei, slei RD,RS1,imm
    CompareImmediate(Comparison, u8, u8, i32),
    // seti RD
    Seti(u8),
    // lb, lh, lw, lbu, lhu RD,RS1(imm)
    Load(LoadKind, u8, u8, i32),
    // sb, sh, sw RS1(imm),RD
    Store(StoreKind, u8, i32, u8),
}

// The four shifts, by register or by SA.
#[derive(Clone, Copy, Debug, PartialEq, Eq)]
pub enum Shift {
    Sll = 0x00,
    Sla = 0x01,
    Srl = 0x02,
    Sra = 0x03,
}

// The seven sums, differences and logical operations, on a register or an immediate. A name that ends in o may overflow.
#[derive(Clone, Copy, Debug, PartialEq, Eq)]
pub enum Arithmetic {
    Addo = 0x08,
    Add = 0x09,
    Subo = 0x0A,
    Sub = 0x0B,
    And = 0x0C,
    Or = 0x0D,
    Xor = 0x0E,
}

// The six comparisons, with a register or an immediate.
#[derive(Clone, Copy, Debug, PartialEq, Eq)]
pub enum Comparison {
    Sgr = 0x19,
    Seq = 0x1A,
    Sge = 0x1B,
    Sls = 0x1C,
    Sne = 0x1D,
    Sle = 0x1E,
}

// The five loads; 22 is none.
#[derive(Clone, Copy, Debug, PartialEq, Eq)]
pub enum LoadKind {
    Lb = 0x20,
    Lh = 0x21,
    Lw = 0x23,
    Lbu = 0x24,
    Lhu = 0x25,
}

// The three stores; 2A is none.
#[derive(Clone, Copy, Debug, PartialEq, Eq)]
pub enum StoreKind {
    Sb = 0x28,
    Sh = 0x29,
    Sw = 0x2B,
}

// The general registers that an instruction reads, in order: RS1, then RS2 or a store's RD. None is one of three numbers of them.
#[derive(Clone, Copy)]
pub enum Reads {
    None,
    One(u8),
    Two(u8, u8),
}

// What an instruction does with the special registers. None is a kind of its own, a column's value in the table of
// specs/Touches.antt.
#[derive(Clone, Copy)]
pub enum Special {
    None,
    // movs2i: the one that it reads.
    Read(u8),
    // movi2s: the one that it writes.
    Written(u8),
    // rfe, a kind of its own.
    Return,
}

// What an instruction touches.
#[derive(Clone, Copy)]
pub struct Touches {
    pub reads: Reads,
    // The general register that it writes: none for R0.
    pub writes: Option<u8>,
    pub special: Special,
}

// The instruction that a word means; none, which is 23, for an illegal word. Unused fields of the word may hold anything.
pub fn read(word: u32) -> Option<Instruction>
    ensures { reading_answer result ≡ reading word }
{
    reader::read(Word(word))
}

// The word of an instruction, its unused fields zero; none, which is 14, for a register or SA above 31 or an immediate outside
// its range.
#[tactic(auto, unfolding(crate::specs::Words::laid))]
pub fn make(instruction: Instruction) -> Option<u32>
    ensures { made_answer result ≡ making instruction }
{
    match instruction {
        Instruction::ShiftImmediate(s, rd, rs1, sa) => register(rs1, 0, rd, sa, s.number()),
        Instruction::ShiftRegister(s, rd, rs1, rs2) => register(
            rs1,
            rs2,
            rd,
            0,
            s.number() + SHIFT_REGISTER,
        ),
        Instruction::Movs2i(rd, sa) => register(0, 0, rd, sa, 0x10),
        Instruction::Movi2s(sa, rs1) => register(rs1, 0, 0, sa, 0x11),
        Instruction::ArithmeticRegister(a, rd, rs1, rs2) => register(
            rs1,
            rs2,
            rd,
            0,
            a.number() + ARITHMETIC_REGISTER,
        ),
        Instruction::Lhg(rd, rs1) => register(rs1, 0, rd, 0, 0x27),
        Instruction::Clr(rd) => register(0, 0, rd, 0, 0x28),
        Instruction::CompareRegister(k, rd, rs1, rs2) => register(
            rs1,
            rs2,
            rd,
            0,
            k.number() + COMPARE_REGISTER,
        ),
        Instruction::Set(rd) => register(0, 0, rd, 0, 0x2F),
        Instruction::J(imm) => jump(0x02, imm),
        Instruction::Jal(imm) => jump(0x03, imm),
        Instruction::Trap(imm) => jump(0x3E, imm),
        Instruction::Rfe => jump(0x3F, 0),
        Instruction::Beqz(rs1, imm) => immediate(0x04, rs1, 0, imm),
        Instruction::Bnez(rs1, imm) => immediate(0x05, rs1, 0, imm),
        Instruction::ArithmeticImmediate(a, rd, rs1, imm) => immediate(a.number(), rs1, rd, imm),
        Instruction::Lhgi(rd, imm) => immediate(0x0F, 0, rd, imm),
        Instruction::Jr(rs1) => immediate(0x16, rs1, 0, 0),
        Instruction::Jalr(rs1) => immediate(0x17, rs1, 0, 0),
        Instruction::Clri(rd) => immediate(0x18, 0, rd, 0),
        Instruction::CompareImmediate(k, rd, rs1, imm) => immediate(k.number(), rs1, rd, imm),
        Instruction::Seti(rd) => immediate(0x1F, 0, rd, 0),
        Instruction::Load(k, rd, rs1, imm) => immediate(k.number(), rs1, rd, imm),
        Instruction::Store(k, rs1, imm, rd) => immediate(k.number(), rs1, rd, imm),
    }
}

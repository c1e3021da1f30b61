// Instruction values by the number of their mnemonic, its place in document 01's list of the 58, and their operands in the order of
// the syntax.
use words::{Arithmetic, Comparison, Instruction, LoadKind, Shift, StoreKind};

// The members of each group in the document's order, in which the format's numbers follow one another; a word has others.
const SHIFTS: [Shift; 4] = [Shift::Sll, Shift::Sla, Shift::Srl, Shift::Sra];

const ARITHMETIC: [Arithmetic; 7] = [
    Arithmetic::Addo,
    Arithmetic::Add,
    Arithmetic::Subo,
    Arithmetic::Sub,
    Arithmetic::And,
    Arithmetic::Or,
    Arithmetic::Xor,
];

const COMPARISONS: [Comparison; 6] = [
    Comparison::Sgr,
    Comparison::Seq,
    Comparison::Sge,
    Comparison::Sls,
    Comparison::Sne,
    Comparison::Sle,
];

const LOADS: [LoadKind; 5] = [
    LoadKind::Lb,
    LoadKind::Lh,
    LoadKind::Lw,
    LoadKind::Lbu,
    LoadKind::Lhu,
];

const STORES: [StoreKind; 3] = [StoreKind::Sb, StoreKind::Sh, StoreKind::Sw];

// By numbers, since the inputs name an instruction by its place in the list of the 58.
// The instruction of a number, and of any other rfe, and its operands; registers and SA are bytes, and take the low eight bits.
pub(crate) fn instruction_of(number: u32, operands: [u32; 3]) -> Instruction {
    let [first, second, third] = operands.map(low);
    let [a, b, c] = operands.map(u32::cast_signed);
    let n = number as usize;
    match n {
        0..=3 => Instruction::ShiftImmediate(SHIFTS[n], first, second, third),
        4..=7 => Instruction::ShiftRegister(SHIFTS[n - 4], first, second, third),
        8 => Instruction::Movs2i(first, second),
        9 => Instruction::Movi2s(first, second),
        10..=16 => Instruction::ArithmeticRegister(ARITHMETIC[n - 10], first, second, third),
        17 => Instruction::Lhg(first, second),
        18 => Instruction::Clr(first),
        19..=24 => Instruction::CompareRegister(COMPARISONS[n - 19], first, second, third),
        25 => Instruction::Set(first),
        26 => Instruction::J(a),
        27 => Instruction::Jal(a),
        28 => Instruction::Trap(a),
        30 => Instruction::Beqz(first, b),
        31 => Instruction::Bnez(first, b),
        32..=38 => Instruction::ArithmeticImmediate(ARITHMETIC[n - 32], first, second, c),
        39 => Instruction::Lhgi(first, b),
        40 => Instruction::Jr(first),
        41 => Instruction::Jalr(first),
        42 => Instruction::Clri(first),
        43..=48 => Instruction::CompareImmediate(COMPARISONS[n - 43], first, second, c),
        49 => Instruction::Seti(first),
        50..=54 => Instruction::Load(LOADS[n - 50], first, second, c),
        55..=57 => Instruction::Store(STORES[n - 55], first, b, third),
        _ => Instruction::Rfe,
    }
}

fn low(operand: u32) -> u8 {
    (operand & 0xFF) as u8
}

// What an instruction does, and what its effect leaves.
#![tactic(auto, unfolding(arithmetic::specs::Rulings::plus, crate::specs::Effects::meaning, crate::specs::Effects::applied, crate::specs::Effects::register))]

ghost use Rattle.std.specs.Prelude.{◌≡◌};
ghost use Rattle.arithmetic.specs.Rulings.{plus, sext};
ghost use Rattle.machine.specs.Effects.{computed, meaning as meaning_lem, performed, register};
ghost use Rattle.words.specs.Fields.{pick};

use crate::registers::{value, write, write_special};
use crate::{Act, Effect, Machine, State};
use arithmetic::{compare, difference, difference_beyond, high_of, sext_of, shift, sum_beyond};
use words::{Arithmetic, Instruction};

impl State {
    // What an instruction does, by PC' and the registers, in the tables' order. An immediate form that does the same stands
    // beside its register form.
    pub fn meaning(&self, instruction: Instruction) -> Act
        ensures { (result.effect, result.next) ≡ meaning_lem instruction self.now.pc self.now.gpr self.now.spr }
    {
        let onward = self.pc.wrapping_add(4);
        let (effect, next) = match instruction {
            Instruction::ShiftImmediate(s, rd, rs1, sa) => (
                Effect::Put(rd, shift(s, self.general(rs1), u32::from(sa))),
                onward,
            ),
            Instruction::ShiftRegister(s, rd, rs1, rs2) => (
                Effect::Put(rd, shift(s, self.general(rs1), self.general(rs2))),
                onward,
            ),
            Instruction::Movs2i(rd, sa) => (Effect::Put(rd, value(&self.spr, sa)), onward),
            Instruction::Movi2s(sa, rs1) => (Effect::PutSpecial(sa, self.general(rs1)), onward),
            Instruction::ArithmeticRegister(a, rd, rs1, rs2) => (
                compute(a, rd, self.general(rs1), self.general(rs2)),
                onward,
            ),
            Instruction::Lhg(rd, rs1) => (Effect::Put(rd, high_of(self.general(rs1))), onward),
            Instruction::Clr(rd) | Instruction::Clri(rd) => (Effect::Put(rd, 0), onward),
            Instruction::CompareRegister(k, rd, rs1, rs2) => (
                Effect::Put(rd, compare(k, self.general(rs1), self.general(rs2))),
                onward,
            ),
            Instruction::Set(rd) | Instruction::Seti(rd) => (Effect::Put(rd, 1), onward),
            Instruction::J(imm) => (Effect::Nothing, self.target(imm)),
            Instruction::Jal(imm) => (Effect::Put(Machine::LINK, onward), self.target(imm)),
            Instruction::Trap(imm) => (Effect::Trap(imm), onward),
            Instruction::Rfe => (Effect::Return, self.spr[Machine::EPC]),
            Instruction::Beqz(rs1, imm) => (
                Effect::Nothing,
                self.branch(self.general(rs1) == 0, imm),
            ),
            Instruction::Bnez(rs1, imm) => (
                Effect::Nothing,
                self.branch(self.general(rs1) != 0, imm),
            ),
            Instruction::ArithmeticImmediate(a, rd, rs1, imm) => (
                compute(a, rd, self.general(rs1), sext_of(imm)),
                onward,
            ),
            Instruction::Lhgi(rd, imm) => (Effect::Put(rd, sext_of(imm) << 16), onward),
            Instruction::Jr(rs1) => (Effect::Nothing, self.general(rs1)),
            Instruction::Jalr(rs1) => (Effect::Put(Machine::LINK, onward), self.general(rs1)),
            Instruction::CompareImmediate(k, rd, rs1, imm) => (
                Effect::Put(rd, compare(k, self.general(rs1), sext_of(imm))),
                onward,
            ),
            Instruction::Load(k, rd, rs1, imm) => (
                Effect::Load(k, rd, self.address(rs1, imm)),
                onward,
            ),
            Instruction::Store(k, rs1, imm, rd) => (
                Effect::Store(k, self.address(rs1, imm), self.general(rd)),
                onward,
            ),
        };
        Act { effect, next }
    }

    // Applies an effect, `loaded` being what a load found: DPC takes the old PC', and EDPC for rfe; PC' takes `next`.
    pub fn apply(&mut self, effect: Effect, loaded: u32, next: u32)
        ensures { self.new ≡ performed effect loaded next self.old }
    {
        self.dpc = self.pc;
        self.pc = next;
        match effect {
            Effect::Put(number, value) | Effect::Sum(number, value, _) => {
                write(&mut self.gpr, number, value)
            }
            Effect::Load(_, number, _) => write(&mut self.gpr, number, loaded),
            Effect::PutSpecial(number, value) => write_special(&mut self.spr, number, value),
            Effect::Return => {
                self.dpc = self.spr[Machine::EDPC];
                self.spr[Machine::SR] = self.spr[Machine::ESR];
            }
            Effect::Store(..) | Effect::Trap(_) | Effect::Nothing => {}
        }
    }

    // The value of a general register: its number counts modulo 32.
    pub fn general(&self, number: u8) -> u32
        ensures { result ≡ register self.now.gpr number }
    {
        value(&self.gpr, number)
    }

    // The effective address.
    fn address(&self, rs1: u8, imm: i32) -> u32
        ensures { result ≡ plus (register self.now.gpr rs1) (sext imm) }
    {
        self.general(rs1).wrapping_add(sext_of(imm))
    }

    // The target of a jump or a branch.
    fn target(&self, imm: i32) -> u32
        ensures { result ≡ plus self.now.pc (sext imm) }
    {
        self.pc.wrapping_add(sext_of(imm))
    }

    // The next PC' of a branch.
    fn branch(&self, taken: bool, imm: i32) -> u32
        ensures { result ≡ plus self.now.pc (pick taken (sext imm) 4) }
    {
        if taken {
            self.target(imm)
        } else {
            self.pc.wrapping_add(4)
        }
    }
}

// Sums, differences and logical operations.
fn compute(kind: Arithmetic, rd: u8, a: u32, b: u32) -> Effect
    ensures { result ≡ computed kind rd a b }
{
    match kind {
        Arithmetic::Addo => Effect::Sum(rd, a.wrapping_add(b), sum_beyond(a, b)),
        Arithmetic::Add => Effect::Put(rd, a.wrapping_add(b)),
        Arithmetic::Subo => Effect::Sum(rd, difference(a, b), difference_beyond(a, b)),
        Arithmetic::Sub => Effect::Put(rd, difference(a, b)),
        Arithmetic::And => Effect::Put(rd, a & b),
        Arithmetic::Or => Effect::Put(rd, a | b),
        Arithmetic::Xor => Effect::Put(rd, a ^ b),
    }
}

// Reading and writing the registers. A number is a field of a word, of five bits: the remainder changes none of those.
#![tactic(auto, using(crate::proofs::Special::special_low, crate::proofs::Special::special_mode, crate::proofs::Special::special_not), unfolding(crate::specs::Effects::register, crate::specs::Effects::put, crate::specs::Effects::put_special))]

ghost use Rattle.std.specs.Prelude.{◌≡◌};
ghost use Rattle.machine.specs.Effects.{register, put, put_special};

use crate::Machine;

pub(crate) fn value(registers: &[u32; 32], number: u8) -> u32
    ensures { result ≡ register registers.now number }
{
    registers[(number % 32) as usize]
}

// R0 is always 0: a write to it is dropped.
pub(crate) fn write(gpr: &mut [u32; 32], number: u8, value: u32)
    ensures { gpr.new ≡ put gpr.old number value }
{
    let at = (number % 32) as usize;
    if at != 0 {
        gpr[at] = value;
    }
}

// The thirteen are those up to EMODE, and MODE: a write to another special register is dropped.
pub(crate) fn write_special(spr: &mut [u32; 32], number: u8, value: u32)
    ensures { spr.new ≡ put_special spr.old number value }
{
    let at = number as usize;
    if at <= Machine::EMODE || at == Machine::MODE {
        spr[at] = value;
    }
}

// The three formats. An unused field is passed as zero.
#![tactic(auto, unfolding(crate::specs::Words::laid))]

ghost use Rattle.std.specs.Prelude.{◌≡◌, ◌<◌, ◌≤◌, ◌*◌, ◌^◌, true, false, MatchOption};
ghost use Rattle.words.specs.Words.{made_answer, laid, form_r, form_i, form_j, used, small, ranged, modulus};

use crate::layout;

pub(crate) fn register(rs1: u8, rs2: u8, rd: u8, sa: u8, function: u32) -> Option<u32>
    requires { function < 64 }
    ensures { made_answer result ≡ laid (form_r (used rs1) (used rs2) (used rd) (used sa) function) }
{
    Some(
        (five_bits(rs1)? << layout::RS1)
            + (five_bits(rs2)? << layout::SECOND)
            + (five_bits(rd)? << layout::THIRD)
            + (five_bits(sa)? << layout::AMOUNT)
            + function,
    )
}

pub(crate) fn immediate(opcode: u32, rs1: u8, rd: u8, imm: i32) -> Option<u32>
    requires { opcode < 64 }
    ensures { made_answer result ≡ laid (form_i opcode (used rs1) (used rd) (used imm)) }
{
    Some(
        (opcode << layout::OPCODE)
            + (five_bits(rs1)? << layout::RS1)
            + (five_bits(rd)? << layout::SECOND)
            + modulo::<{ layout::I_HALF }>(imm)?,
    )
}

pub(crate) fn jump(opcode: u32, imm: i32) -> Option<u32>
    requires { opcode < 64 }
    ensures { made_answer result ≡ laid (form_j opcode (used imm)) }
{
    Some((opcode << layout::OPCODE) + modulo::<{ layout::J_HALF }>(imm)?)
}

// A register or SA as it stands in a word; none above 31.
fn five_bits(number: u8) -> Option<u32>
    ensures { MatchOption result (small (used number) ≡ false) (λ field. (small (used number) ≡ true) × (field ≡ number) × (field < 32)) }
{
    let field = u32::from(number);
    (field < layout::REGISTERS).then_some(field)
}

// An immediate modulo twice half, as it stands in a word; none outside the range from -half to half - 1.
fn modulo<const HALF: u32>(imm: i32) -> Option<u32>
    requires { (0 < HALF) × (HALF ≤ 2 ^ 25) }
    ensures { MatchOption result (ranged HALF (used imm) ≡ false) (λ field. (ranged HALF (used imm) ≡ true) × (field ≡ modulus (2 * HALF) (used imm)) × (field < 2 * HALF)) }
{
    let half = HALF as i32;
    if imm < -half || half <= imm {
        return None;
    }
    let turned = (imm + half) as u32;
    Some((turned + HALF) % (2 * HALF))
}

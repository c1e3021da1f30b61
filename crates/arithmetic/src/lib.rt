// The rulings on words: each is a leaf with the document's own definition.
#![tactic(auto)]

ghost use Rattle.std.specs.Prelude.{◌≡◌, ◌^◌, ◌<◌, ◌+ℤ◌, ◌-ℤ◌, int_lt};
ghost use Rattle.std.specs.Int.Signed.{shr_z};
ghost use Rattle.arithmetic.specs.Rulings.{sext, shifted, high, integer, satisfies, compared, minus, beyond};

use words::{Comparison, Shift};

// 2^31, the lowest word that stands for a number below nothing.
const SIGN: u32 = 1 << 31;

// The numbers that half a word can hold, 2^16.
const HALF_RANGE: u32 = 65536;

// The word of a whole number.
#[tactic(auto, using(crate::proofs::Integers::sext_is))]
pub fn sext_of(imm: i32) -> u32
    ensures { result ≡ sext imm }
{
    imm.cast_unsigned()
}

// The shift of x by the low five bits of n; sra and srai copy the sign.
#[tactic(auto, unfolding(crate::specs::Rulings::shifted))]
pub fn shift(kind: Shift, x: u32, n: u32) -> u32
    ensures { result ≡ shifted kind x n }
{
    let places = n % 32;
    match kind {
        Shift::Sll | Shift::Sla => x << places,
        Shift::Srl => x >> places,
        Shift::Sra => copying(x, places),
    }
}

// Right with copies of the sign: 2^31 is added, modulo 2^32, and what the shift makes of it is taken off again.
#[tactic(auto, using(crate::proofs::Lifted::copied))]
fn copying(x: u32, places: u32) -> u32
    requires { places < 32 }
    ensures { result ≡ sext (shr_z (integer x) (2 ^ places)) }
{
    difference(x.wrapping_add(SIGN) >> places, SIGN >> places)
}

// The low 16 bits of x times 65,536.
#[tactic(auto, unfolding(crate::specs::Rulings::high))]
pub fn high_of(x: u32) -> u32
    ensures { result ≡ high x }
{
    (x % HALF_RANGE) * HALF_RANGE
}

// 1 where the comparison holds, else 0.
pub fn compare(kind: Comparison, a: u32, b: u32) -> u32
    ensures { result ≡ compared kind a b }
{
    u32::from(holds(kind, a, b))
}

// Whether a is less than b as numbers in two's complement: 2^31 is added to each side, modulo 2^32, and what results is
// compared as unsigned.
#[tactic(auto, using(crate::proofs::Lifted::lifted_less))]
fn less(a: u32, b: u32) -> bool
    ensures { result ≡ int_lt (integer a) (integer b) }
{
    a.wrapping_add(SIGN) < b.wrapping_add(SIGN)
}

// Both sides are read as two's complement.
#[tactic(auto, using(crate::proofs::Lifted::at_most), unfolding(crate::specs::Rulings::satisfies))]
fn holds(kind: Comparison, a: u32, b: u32) -> bool
    ensures { result ≡ satisfies kind a b }
{
    match kind {
        Comparison::Sgr => less(b, a),
        Comparison::Seq => a == b,
        Comparison::Sge => !less(a, b),
        Comparison::Sls => less(a, b),
        Comparison::Sne => a != b,
        Comparison::Sle => !less(b, a),
    }
}

// a less b, modulo 2^32.
#[tactic(auto, unfolding(crate::specs::Rulings::minus))]
pub fn difference(a: u32, b: u32) -> u32
    ensures { result ≡ minus a b }
{
    a.wrapping_sub(b)
}

// Whether the signed sum lies beyond the words.
#[tactic(auto, using(crate::proofs::Integers::cast_is, crate::proofs::Integers::beyond_is))]
pub fn sum_beyond(a: u32, b: u32) -> bool
    ensures { result ≡ beyond (integer a +ℤ integer b) }
{
    a.cast_signed().overflowing_add(b.cast_signed()).1
}

// Whether the signed difference lies beyond the words: a function beside that of the sum, since a parameter for the operation
// would say more than the two lines.
#[tactic(auto, using(crate::proofs::Integers::cast_is, crate::proofs::Integers::beyond_is))]
pub fn difference_beyond(a: u32, b: u32) -> bool
    ensures { result ≡ beyond (integer a -ℤ integer b) }
{
    a.cast_signed().overflowing_sub(b.cast_signed()).1
}

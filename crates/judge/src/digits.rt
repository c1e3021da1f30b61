// The digits of a number.
ghost use Rattle.std.specs.Prelude.{◌/◌, ◌%◌, ◌^◌, ◌≤◌, ◌<◌, ◌≡◌};
ghost use Rattle.judge.specs.Digits.{glyph as glyph_lem, places as places_lem};

// Digit k of n, counted from the last.
pub(crate) fn digit(n: u32, base: u32, k: u32) -> u8
    requires base_low { 0 < base }
    requires base_high { base ≤ 16 }
    requires power { base ^ k < 2 ^ 32 }
    ensures { result ≡ glyph_lem (n / base ^ k % base) }
{
    glyph(n / base.pow(k) % base)
}

// A digit below 16 in ASCII.
fn glyph(d: u32) -> u8
    requires { d < 16 }
    ensures { result ≡ glyph_lem d }
{
    b"0123456789ABCDEF"[d as usize]
}

// How many decimal digits n has.
pub(crate) fn places(n: u32) -> u32
    ensures value { result ≡ places_lem n }
    ensures upper_bound { result ≤ 10 }
{
    match n.checked_ilog10() {
        Some(power) => power + 1,
        None => 1,
    }
}

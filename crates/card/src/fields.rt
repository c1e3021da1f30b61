// The fields of a card.
ghost use Rattle.std.specs.Prelude.{◌≡◌, ◌+◌, ◌^◌, ◌<◌, ◌≤◌, length};
ghost use Rattle.card.specs.Card.{number16, number32, numbers, record_of_lem, BODY};

use machine::{Machine, Region};

// Where the fields stand.
pub const VERSION: usize = 3;

pub const CODE: usize = 8;

pub const DATA: usize = 16;

pub const DPC: usize = 24;

pub const PC: usize = 28;

pub const LIMIT: usize = 32;

pub const GENERAL: usize = 36;

pub const SPECIAL: usize = 164;
// The code words, then the data words.
pub const BODY: usize = 292;

// The number of 16 bits at an offset; beside that of 32, since no trait of std shares the two `from_le_bytes`.
#[tactic(auto, unfolding(crate::specs::Card::number16))]
pub(crate) fn number16(card: &[u8], at: usize) -> u16
    requires { at + 2 ≤ length card.now }
    ensures { result ≡ number16 card.now at }
{
    u16::from_le_bytes([card[at], card[at + 1]])
}

// The number of 32 bits at an offset.
#[tactic(auto, unfolding(crate::specs::Card::number32))]
pub(crate) fn number32(card: &[u8], at: usize) -> u32
    requires { at + 4 ≤ length card.now }
    ensures { result ≡ number32 card.now at }
{
    u32::from_le_bytes([card[at], card[at + 1], card[at + 2], card[at + 3]])
}

// The 32 registers from an offset on.
fn registers(card: &[u8], from: usize) -> [u32; 32]
    requires { from + 128 ≤ length card.now }
    ensures { result ≡ numbers card.now from 32 }
{
    std::array::from_fn(|i| number32(card, from + 4 * i))
}

// The record of a card that has its fields.
#[tactic(auto, unfolding(crate::specs::Card::record_of_lem))]
pub(crate) fn record_of(card: &[u8]) -> Machine
    requires { BODY ≤ length card.now }
    ensures { result ≡ record_of_lem card.now }
{
    let code = Region {
        start: number32(card, CODE),
        words: number32(card, CODE + 4),
    };
    let data = Region {
        start: number32(card, DATA),
        words: number32(card, DATA + 4),
    };
    Machine {
        code,
        data,
        limit: number32(card, LIMIT),
        dpc: number32(card, DPC),
        pc: number32(card, PC),
        gpr: registers(card, GENERAL),
        spr: registers(card, SPECIAL),
    }
}

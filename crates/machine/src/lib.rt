// The machine record, and what an instruction does: one meaning for both machines, as an effect on the registers and a
// request to memory.
#![tactic(auto)]

ghost use Rattle.std.specs.Prelude.{◌≡◌, ◌+◌, ◌*◌};
ghost use Rattle.machine.specs.Effects.{mode_set};
ghost use Rattle.machine.specs.Record.{holds, zeros, refusal_no, state_of, with_state as with_state_lem};

mod effects;
pub mod refusals;
mod registers;
pub mod sizes;

use words::{LoadKind, StoreKind};

// A region of `words` words from `start` on.
#[derive(Clone, Copy, Debug, PartialEq, Eq)]
pub struct Region {
    pub start: u32,
    pub words: u32,
}

impl Region {
    // The address past the region, as a whole number.
    pub(crate) fn end(self) -> u64
        ensures { result ≡ self.start + 4 * self.words }
    {
        u64::from(self.start) + 4 * u64::from(self.words)
    }

    // Whether the region holds an address.
    pub fn contains(self, address: u32) -> bool
        ensures { result ≡ holds self address }
    {
        self.start <= address && u64::from(address) < self.end()
    }
}

// A machine: its two regions, its step limit, the counters DPC and PC', and the general and the special registers.
#[derive(Clone, Copy, Debug, PartialEq, Eq)]
pub struct Machine {
    pub code: Region,
    pub data: Region,
    pub limit: u32,
    pub dpc: u32,
    pub pc: u32,
    pub gpr: [u32; 32],
    pub spr: [u32; 32],
}

// The counters DPC and PC' and the registers: what a step changes of a machine. The record has them as fields of its own: document
// 01 has the record hold the two arrays, and what is promised of a loaded card (`record_of_lem`) names them there.
#[derive(Clone, Copy, Debug, PartialEq, Eq)]
pub struct State {
    pub dpc: u32,
    pub pc: u32,
    pub gpr: [u32; 32],
    pub spr: [u32; 32],
}

// Why a run card, or a record with its buffers, is refused, by the numbers of the refusal table.
#[derive(Clone, Copy, Debug, PartialEq, Eq)]
pub enum Refusal {
    WrongLength = 1,
    TooShort = 2,
    WrongMark = 3,
    WrongVersion = 4,
    ReservedSet = 5,
    WrongCount = 6,
    WrongSize = 7,
    UnalignedStart = 8,
    PastMemory = 9,
    Overlap = 10,
    NotZero = 11,
    OverLimit = 12,
}

impl Refusal {
    pub fn number(self) -> u32
        ensures { result ≡ refusal_no self }
    {
        self as u32
    }
}

impl Machine {
    // The thirteen special registers.
    pub const SR: usize = 0;

    pub const ESR: usize = 1;

    pub const ECA: usize = 2;

    pub const EPC: usize = 3;

    pub const EDPC: usize = 4;

    pub const EDATA: usize = 5;

    pub const RM: usize = 6;

    pub const IEEEF: usize = 7;

    pub const FCC: usize = 8;

    pub const PTO: usize = 9;

    pub const PTL: usize = 10;

    pub const EMODE: usize = 11;

    pub const MODE: usize = 16;

    // The register that jal and jalr link in.
    pub const LINK: u8 = words::LINK;

    // The longest code and the longest data, in words.
    pub const LONGEST: u32 = 1024;

    // The length of a lent buffer of code or data in words, and of VAMP memory in double words.
    pub const WORDS: usize = Machine::LONGEST as usize;

    pub const DOUBLE_WORDS: usize = 2048;

    // Modelled memory, in bytes.
    pub const MEMORY: u64 = 16384;

    pub const MOST_STEPS: u32 = 1000000;

    // The machine of zeros.
    pub fn new() -> Machine
        ensures { result ≡ zeros }
    {
        let region = Region { start: 0, words: 0 };
        Machine {
            code: region,
            data: region,
            limit: 0,
            dpc: 0,
            pc: 0,
            gpr: [0; 32],
            spr: [0; 32],
        }
    }

    pub fn state(&self) -> State
        ensures { result ≡ state_of self.now }
    {
        State {
            dpc: self.dpc,
            pc: self.pc,
            gpr: self.gpr,
            spr: self.spr,
        }
    }

    // The record with another state: its regions and its limit stay.
    pub fn with_state(&self, state: State) -> Machine
        ensures { result ≡ with_state_lem self.now state }
    {
        let State { dpc, pc, gpr, spr } = state;
        Machine {
            dpc,
            pc,
            gpr,
            spr,
            ..*self
        }
    }
}

// What an instruction does besides moving the counters on.
#[derive(Clone, Copy, Debug, PartialEq, Eq)]
pub enum Effect {
    // A general register takes a value.
    Put(u8, u32),
    // A special register takes a value.
    PutSpecial(u8, u32),
    // A general register takes a sum or difference modulo 2^32, and whether the signed result lay beyond the words.
    Sum(u8, u32, bool),
    // A general register takes what is loaded from an address.
    Load(LoadKind, u8, u32),
    // At an address a value is stored.
    Store(StoreKind, u32, u32),
    // A trap with its immediate.
    Trap(i32),
    // The return from an exception.
    Return,
    // Nothing.
    Nothing,
}

impl Effect {
    // Whether MODE takes another value than 0: test 27 of the checker, and event 8 of the VAMP machine.
    #[tactic(auto, unfolding(crate::specs::Effects::mode_set))]
    pub fn sets_mode(self) -> bool
        ensures { result ≡ mode_set self }
    {
        match self {
            Effect::PutSpecial(number, value) => number as usize == Machine::MODE && value != 0,
            Effect::Put(..)
            | Effect::Sum(..)
            | Effect::Load(..)
            | Effect::Store(..)
            | Effect::Trap(_)
            | Effect::Return
            | Effect::Nothing => false,
        }
    }
}

// An effect, and the next PC'.
#[derive(Clone, Copy, Debug, PartialEq, Eq)]
pub struct Act {
    pub effect: Effect,
    pub next: u32,
}

// Memory by double words: their parts of 8, 16 and 32 bits.
ghost use Rattle.std.specs.Prelude.{false, ◌≡◌, ◌+◌, ◌*◌, ◌/◌, ◌%◌, ◌^◌, ◌≤◌, ◌<◌};
ghost use Rattle.words.specs.Fields.{signed};
ghost use Rattle.arithmetic.specs.Rulings.{sext};
ghost use Rattle.machine.specs.Effects.{store_size, unaligned, askew};
ghost use Rattle.machine.specs.Record.{MEMORY};
ghost use Rattle.vamp.specs.Events.{access_past};
ghost use Rattle.vamp.specs.Steps.{found, memory_after};
ghost use Rattle.vamp.specs.Memory.{part, patch, at, put, loaded, stored};

use arithmetic::difference;
use machine::{Effect, Machine};
use words::{LoadKind, StoreKind};

// Modelled memory, by double words.
pub(crate) type Memory = [u64; Machine::DOUBLE_WORDS];

// Half of the numbers that a byte, and that half a word, can hold.
const BYTE_HALF: u32 = 1 << 7;

const HALF_WORD_HALF: u32 = 1 << 15;

// An address of modelled memory.
#[derive(Clone, Copy)]
pub(crate) struct Address {
    number: u32,
    ghost inside: { number < MEMORY },
}

impl Address {
    pub(crate) fn of(number: u32) -> Address
        requires { number < MEMORY }
        ensures { result.number ≡ number }
    {
        Address { number }
    }

    // The index of the double word that holds its byte.
    fn index(self) -> usize
        ensures { result ≡ self.number / 8 }
    {
        (self.number / 8) as usize
    }

    // How many bits of that double word stand below its byte.
    fn below(self) -> u32
        ensures { result ≡ 8 * (self.number % 8) }
    {
        8 * (self.number % 8)
    }
}

// What the load of an effect finds, or 0. Its store is put.
#[tactic(auto, unfolding(crate::specs::Events::access_past, crate::specs::Steps::found, crate::specs::Steps::memory_after, machine::specs::Effects::access, machine::specs::Effects::askew))]
pub(crate) fn carry(effect: Effect, memory: &mut Memory) -> u32
    requires { (askew effect ≡ false) × (access_past effect ≡ false) }
    ensures { (result ≡ found effect memory.old) × (memory.new ≡ memory_after effect memory.old) }
{
    match effect {
        Effect::Load(kind, _, number) => load(kind, memory, Address::of(number)),
        Effect::Store(kind, number, value) => {
            store(kind, memory, Address::of(number), value);
            0
        }
        Effect::Put(..)
        | Effect::PutSpecial(..)
        | Effect::Sum(..)
        | Effect::Trap(_)
        | Effect::Return
        | Effect::Nothing => 0,
    }
}

// lb and lh extend the sign, lbu and lhu by zeros.
#[tactic(auto, using(crate::proofs::Memory::part_below), unfolding(crate::specs::Memory::loaded))]
fn load(kind: LoadKind, memory: &Memory, address: Address) -> u32
    ensures { result ≡ loaded kind memory.now address.number }
{
    match kind {
        LoadKind::Lb => extended::<BYTE_HALF>(read::<8>(memory, address)),
        LoadKind::Lh => extended::<HALF_WORD_HALF>(read::<16>(memory, address)),
        LoadKind::Lw => read::<32>(memory, address),
        LoadKind::Lbu => read::<8>(memory, address),
        LoadKind::Lhu => read::<16>(memory, address),
    }
}

// A number below twice HALF with its sign extended: the two halves of its range change places, and half the range is taken off
// again.
#[tactic(auto, using(arithmetic::proofs::Lifted::extended_is))]
fn extended<const HALF: u32>(x: u32) -> u32
    requires { (HALF ≤ 2 ^ 15) × (x < 2 * HALF) }
    ensures { result ≡ sext (signed HALF x) }
{
    difference((x + HALF) % (2 * HALF), HALF)
}

// The low bits of a value are stored.
#[tactic(auto, unfolding(crate::specs::Memory::stored))]
fn store(kind: StoreKind, memory: &mut Memory, address: Address, value: u32)
    requires { unaligned (store_size kind) address.number ≡ false }
    ensures { memory.new ≡ stored kind memory.old address.number value }
{
    match kind {
        StoreKind::Sb => write::<8>(memory, address, value),
        StoreKind::Sh => write::<16>(memory, address, value),
        StoreKind::Sw => write::<32>(memory, address, value),
    }
}

// The BITS bits at an address.
#[tactic(auto, using(crate::proofs::Shifts::range_is), unfolding(crate::specs::Memory::part))]
pub(crate) fn read<const BITS: u32>(memory: &Memory, address: Address) -> u32
    requires { BITS ≤ 32 }
    ensures { result ≡ at BITS memory.now address.number }
{
    let range = 1u64 << BITS;
    ((memory[address.index()] >> address.below()) % range) as u32
}

// Replaces the BITS bits at an address by the low ones of a value.
#[tactic(auto, using(crate::proofs::Shifts::range_is, crate::proofs::Shifts::patched_is, crate::proofs::Shifts::patched_fits), unfolding(crate::specs::Memory::part))]
fn write<const BITS: u32>(memory: &mut Memory, address: Address, value: u32)
    requires { (BITS ≤ 32) × (8 * (address.number % 8) + BITS ≤ 64) }
    ensures { memory.new ≡ put BITS memory.old address.number value }
{
    let index = address.index();
    let below = address.below();
    let range = 1u64 << BITS;
    let old = (memory[index] >> below) % range;
    let new = u64::from(value) % range;
    memory[index] = memory[index] - (old << below) + (new << below);
}

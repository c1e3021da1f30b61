// One checked step on the state of a record: fetch, the seven tests in order, and the effect.
ghost use Rattle.std.specs.Prelude.{◌≡◌, ◌-◌, ◌/◌, ◌<◌, true, false, [], ◌∷◌};
ghost use Rattle.machine.specs.Effects.{askew, mode_set};
ghost use Rattle.machine.specs.Record.{first, holds};
ghost use Rattle.checker.specs.Checks.{outside, found, left};
ghost use Rattle.checker.specs.Inner.{Room, Rooms, Stepped, Fetches, Offset, broken_no, access_number};

use crate::Test;
use crate::admitted::admits;
use crate::touches::written;
use machine::sizes::{Access, askew};
use machine::{Act, Effect, Machine, Region, State};

// The test that stops a step, and the step's word.
#[derive(Clone, Copy)]
pub(crate) struct Stop {
    pub test: Test,
    // 0, and no Option, says that there is no word, as in `At`.
    pub word: u32,
}

// One step: it changes the state and the data where no test is broken, and nothing otherwise. It answers the general register
// that it wrote (0 for none: R0 is never written), or what stops it. The regions come with the record and the words as slices:
// with a region and its words in one struct, each clause on the data would have to say as well that the region stays.
pub(crate) fn step(
    machine: &Machine,
    state: &mut State,
    code: &[u32],
    words: &mut [u32],
) -> Result<u8, Stop>
    requires { Rooms machine.now code.now words.old }
    ensures { Stepped machine.now code.now state.old words.old result state.new words.new }
{
    let word = fetch(machine.code, state, code)?;
    let Some(instruction) = words::read(word) else {
        return Err(Stop {
            test: Test::Illegal,
            word,
        });
    };
    if !admits(instruction) {
        return Err(Stop {
            test: Test::Foreign,
            word,
        });
    }
    let Act { effect, next } = state.meaning(instruction);
    if let Err(test) = first_broken(effect, machine.data) {
        return Err(Stop { test, word });
    }
    let loaded = access(effect, machine.data, words);
    state.apply(effect, loaded, next);
    Ok(written(effect))
}

// The word at DPC, which has passed tests 21 and 22. Test 21 has its goal's name from `fetched`, which an edit takes from PC'.
fn fetch(region: Region, state: &State, code: &[u32]) -> Result<u32, Stop>
    requires { Room region code.now }
    ensures { Fetches region state.now.dpc code.now result }
{
    let fetched = state.dpc;
    if fetched % 4 != 0 {
        return Err(Stop {
            test: Test::Misaligned,
            word: 0,
        });
    }
    let offset = offset_of(region, state.dpc);
    if 4 * u64::from(region.words) <= offset {
        return Err(Stop {
            test: Test::Outside,
            word: 0,
        });
    }
    Ok(code[(offset / 4) as usize])
}

// How far into a region an address lies, in bytes. One before it wraps to beyond all regions, so that one test tells both ways
// out: with `contains` and `place`, as in `access`, each step is dearer (tools/cost: 57.2 instructions for 54.2).
fn offset_of(region: Region, address: u32) -> u64
    ensures { Offset region address result }
{
    u64::from(address).wrapping_sub(u64::from(region.start))
}

// The place of a region's address in the region's list.
#[tactic(auto, using(machine::proofs::Regions::holds_yes))]
fn place(region: Region, address: u32) -> usize
    requires { holds region address ≡ true }
    ensures { (result ≡ (address - region.start) / 4) × (result < region.words) }
{
    ((address - region.start) / 4) as usize
}

// The first of the tests 25 to 27 that an effect breaks.
#[tactic(auto, unfolding(crate::specs::Checks::outside, machine::specs::Effects::access, machine::specs::Effects::askew))]
fn first_broken(effect: Effect, region: Region) -> Result<(), Test>
    ensures { broken_no result ≡ first ((askew effect, 25) ∷ (outside region effect, 26) ∷ (mode_set effect, 27) ∷ []) 0 }
{
    match effect {
        Effect::Load(kind, _, ea) => broken_access(kind, ea, region)?,
        Effect::Store(kind, ea, _) => broken_access(kind, ea, region)?,
        Effect::Put(..)
        | Effect::PutSpecial(..)
        | Effect::Sum(..)
        | Effect::Trap(_)
        | Effect::Return
        | Effect::Nothing => {}
    }
    if effect.sets_mode() {
        return Err(Test::Mode);
    }
    Ok(())
}

// Tests 25 and 26 of a load or store.
fn broken_access<K: Access>(kind: K, ea: u32, region: Region) -> Result<(), Test>
    ensures { broken_no result ≡ access_number (K.bytes kind) region ea }
{
    if askew(kind, ea) {
        return Err(Test::Askew);
    }
    if !region.contains(ea) {
        return Err(Test::Beyond);
    }
    Ok(())
}

// What a load finds, after what a store leaves, for an effect that breaks no test.
#[tactic(auto, using(crate::proofs::Tests::load_inside, crate::proofs::Tests::store_inside), unfolding(crate::specs::Checks::found, crate::specs::Checks::left, machine::specs::Record::word_at))]
fn access(effect: Effect, region: Region, words: &mut [u32]) -> u32
    requires { Room region words.old × (outside region effect ≡ false) }
    ensures { (result ≡ found region words.old effect) × (words.new ≡ left region words.old effect) }
{
    match effect {
        Effect::Load(_, _, ea) => words[place(region, ea)],
        Effect::Store(_, ea, value) => {
            words[place(region, ea)] = value;
            0
        }
        Effect::Put(..)
        | Effect::PutSpecial(..)
        | Effect::Sum(..)
        | Effect::Trap(_)
        | Effect::Return
        | Effect::Nothing => 0,
    }
}

// The tests of a record, by their numbers in the refusal table.
#![tactic(auto, unfolding(crate::specs::Record::wrong_count_lem, crate::specs::Record::unaligned_start_lem, crate::specs::Record::past_memory_lem, crate::specs::Record::overlap, crate::specs::Record::not_zero_lem, crate::specs::Record::over_limit_lem))]

ghost use Rattle.std.specs.Prelude.{◌≡◌, ◌+◌, ◌==◌, not, drop};
ghost use Rattle.std.specs.List.{list_any};
ghost use Rattle.machine.specs.Effects.{EMODE};
ghost use Rattle.machine.specs.Record.{wrong_count_lem, unaligned_start_lem, past_memory_lem, overlap, not_zero_lem, over_limit_lem, first, regions_tests, refused_no};

use crate::{Machine, Refusal};

// 6: C is 0 or over 1,024, or D over 1,024.
pub fn wrong_count(machine: &Machine) -> bool
    ensures { result ≡ wrong_count_lem machine.now }
{
    machine.code.words == 0
        || Machine::LONGEST < machine.code.words
        || Machine::LONGEST < machine.data.words
}

// 8: a start is not a multiple of 4.
pub fn unaligned_start(machine: &Machine) -> bool
    ensures { result ≡ unaligned_start_lem machine.now }
{
    machine.code.start % 4 != 0 || machine.data.start % 4 != 0
}

// 9: start + 4 x count exceeds 16,384, as whole numbers, for either region.
pub fn past_memory(machine: &Machine) -> bool
    ensures { result ≡ past_memory_lem machine.now }
{
    Machine::MEMORY < machine.code.end() || Machine::MEMORY < machine.data.end()
}

// 10: some address is in both regions. Where one is, the later of the two starts is.
pub fn overlaps(machine: &Machine) -> bool
    ensures { result ≡ overlap machine.now }
{
    let start = machine.code.start.max(machine.data.start);
    machine.code.contains(start) && machine.data.contains(start)
}

// 11: R0, an unused special register or MODE is not 0. The special registers past EMODE are MODE and the unused ones.
pub fn not_zero(machine: &Machine) -> bool
    ensures { result ≡ not_zero_lem machine.now }
{
    machine.gpr[0] != 0 || any_set(&machine.spr[Machine::EMODE + 1..])
}

// Whether one of some registers is not 0.
fn any_set(registers: &[u32]) -> bool
    ensures { result ≡ list_any (λ x. not (x == 0)) registers.now }
{
    registers.iter().any(|register| *register != 0)
}

// 12: step limit over 1,000,000.
pub fn over_limit(machine: &Machine) -> bool
    ensures { result ≡ over_limit_lem machine.now }
{
    Machine::MOST_STEPS < machine.limit
}

// Tests 8 to 11, in the table's order: what the loader and the checker ask of a record alike.
pub fn of_regions(machine: &Machine) -> Result<(), Refusal>
    ensures { refused_no result ≡ first (regions_tests machine.now) 0 }
{
    if unaligned_start(machine) {
        return Err(Refusal::UnalignedStart);
    }
    if past_memory(machine) {
        return Err(Refusal::PastMemory);
    }
    if overlaps(machine) {
        return Err(Refusal::Overlap);
    }
    if not_zero(machine) {
        return Err(Refusal::NotZero);
    }
    Ok(())
}

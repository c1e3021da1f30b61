// The refusal table. Test 1, of the buffers' lengths, is in the types of the arrays that are filled.
ghost use Rattle.std.specs.Prelude.{◌≡◌, MatchResult};
ghost use Rattle.machine.specs.Record.{refused_no, refusal_no};
ghost use Rattle.card.specs.Card.{wrong_size_lem, record_of_lem};
ghost use Rattle.card.specs.Work.{header, from_two, from_six};

use crate::fields::{BODY, VERSION, number16, record_of};
use machine::{Machine, Refusal, refusals};

// The record of a card that none of the tests 2 to 12 refuses.
#[tactic(auto, using(crate::proofs::Accepted::long_enough))]
pub(crate) fn accepted(card: &[u8]) -> Result<Machine, Refusal>
    ensures { MatchResult result (λ machine. (machine ≡ record_of_lem card.now) × (from_two card.now machine ≡ 0)) (λ refusal. refusal_no refusal ≡ from_two card.now (record_of_lem card.now)) }
{
    well_formed(card)?;
    let machine = record_of(card);
    fitting(card, &machine)?;
    Ok(machine)
}

// 2: fewer than 292 bytes. 3: wrong mark. 4: version not 1. 5: bytes 5 to 7 not all zero.
#[tactic(auto, unfolding(crate::specs::Card::too_short, crate::specs::Card::wrong_mark_lem, crate::specs::Card::wrong_version, crate::specs::Card::reserved_set_lem))]
fn well_formed(card: &[u8]) -> Result<(), Refusal>
    ensures { refused_no result ≡ header card.now }
{
    if card.len() < BODY {
        Err(Refusal::TooShort)
    } else if !card.starts_with(b"SND") {
        Err(Refusal::WrongMark)
    } else if number16(card, VERSION) != 1 {
        Err(Refusal::WrongVersion)
    } else if card[5..8] != [0; 3] {
        Err(Refusal::ReservedSet)
    } else {
        Ok(())
    }
}

// The same from test 6 on, of a card and its record.
fn fitting(card: &[u8], machine: &Machine) -> Result<(), Refusal>
    ensures { refused_no result ≡ from_six card.now machine.now }
{
    if refusals::wrong_count(machine) {
        return Err(Refusal::WrongCount);
    }
    if wrong_size(card.len(), machine) {
        return Err(Refusal::WrongSize);
    }
    refusals::of_regions(machine)?;
    if refusals::over_limit(machine) {
        return Err(Refusal::OverLimit);
    }
    Ok(())
}

// 7: length is not 292 + 4(C + D).
#[tactic(auto, unfolding(crate::specs::Card::wrong_size_lem))]
fn wrong_size(bytes: usize, machine: &Machine) -> bool
    ensures { result ≡ wrong_size_lem bytes machine.now }
{
    bytes != BODY + 4 * (machine.code.words as usize + machine.data.words as usize)
}

// The buffers of an accepted card.
ghost use Rattle.std.specs.Prelude.{ℕ, true, ◌≡◌, ◌+◌, ◌*◌, ◌≤◌, ◌<◌, length, slice_index_or};
ghost use Rattle.card.specs.Card.{record_of_lem, padded, loaded};
ghost use Rattle.card.specs.Work.{Room};

use crate::fields::{BODY, number32};
use crate::image::Image;
use machine::Machine;

// Fills the three buffers of a card with its record.
pub(crate) fn fill_buffers(
    card: &[u8],
    machine: &Machine,
    code: &mut [u32; Machine::WORDS],
    words: &mut [u32; Machine::WORDS],
    memory: &mut [u64; Machine::DOUBLE_WORDS],
)
    requires of_card { machine.now ≡ record_of_lem card.now }
    requires room { Room card.now }
    ensures { (machine.now, code.new, words.new, memory.new) ≡ loaded card.now }
{
    let region = machine.code;
    let data_from = BODY + 4 * (region.words as usize);
    fill(code, |i| word_of(card, BODY, region.words, i));
    fill(words, |i| word_of(card, data_from, machine.data.words, i));
    let image = Image::new(machine, code, words);
    fill(memory, |i| image.double_at(i));
}

// Gives each place of a buffer the value of its index.
fn fill<T: Copy, F: Fn(usize) -> T>(buffer: &mut [T], value: F)
    requires { (i : ℕ) → i < length buffer.old → F.pre value i }
    ensures { (i : ℕ) (d : T) → i < length buffer.old → F.post value i (slice_index_or buffer.new i d) }
{
    for (i, place) in buffer.iter_mut().enumerate() {
        *place = value(i);
    }
}

// Word `i` of a buffer: of the `count` words from an offset on, then zeros.
#[tactic(auto, unfolding(crate::specs::Card::padded))]
fn word_of(card: &[u8], from: usize, count: u32, i: usize) -> u32
    requires { from + 4 * count ≤ length card.now }
    ensures { result ≡ padded card.now from count i }
{
    if i < count as usize {
        number32(card, from + 4 * i)
    } else {
        0
    }
}

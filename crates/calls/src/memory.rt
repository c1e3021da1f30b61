// VAMP memory and card bytes from places, and back.
ghost use Rattle.std.specs.Prelude.{◌≤◌};

use crate::places::{BYTES, CARD, DOUBLE_WORDS, MEMORY, Places};
use show::{lower, upper};

// How many elements of so many are lent, where so many are asked for.
pub(crate) fn lent(asked: u32, most: usize) -> usize
    ensures { result ≤ most }
{
    most.min(asked as usize)
}

// Each double word of two words, the lower first.
pub(crate) fn take_memory(places: &Places) -> [u64; DOUBLE_WORDS] {
    let mut memory = [0u64; DOUBLE_WORDS];
    let (pairs, _) = places[MEMORY..CARD].as_chunks::<2>();
    for (double, [low, high]) in memory.iter_mut().zip(pairs) {
        *double = u64::from(*low) | u64::from(*high) << 32;
    }
    memory
}

pub(crate) fn keep_memory(memory: &[u64; DOUBLE_WORDS], places: &mut Places) {
    let (_, from_memory) = places.split_at_mut(MEMORY);
    let (pairs, _) = from_memory.as_chunks_mut::<2>();
    for (pair, double) in pairs.iter_mut().zip(memory) {
        *pair = [lower(*double), upper(*double)];
    }
}

// Four bytes of each word, the lowest first.
pub(crate) fn take_card(places: &Places) -> [u8; BYTES] {
    let mut card = [0u8; BYTES];
    let (words, _) = card.as_chunks_mut::<4>();
    for (bytes, word) in words.iter_mut().zip(&places[CARD..]) {
        *bytes = word.to_le_bytes();
    }
    card
}

// The inputs of a call, read into places. Each is three numbers: a place, a count, and what so many places from there on take.
use crate::places::{CODE_LENGTH, DATA_LENGTH, MEMORY_LENGTH, PLACES, Places};
use machine::Machine;
use show::{read_full, word};
use std::io;
use std::io::Read;

const INPUT: usize = 12;

// Whether there were so many. Where nothing is said the buffers have the right lengths.
pub(crate) fn take_inputs<R: Read>(
    input: &mut R,
    count: u32,
    given: &mut Places,
) -> io::Result<bool> {
    given[CODE_LENGTH] = Machine::WORDS as u32;
    given[DATA_LENGTH] = Machine::WORDS as u32;
    given[MEMORY_LENGTH] = Machine::DOUBLE_WORDS as u32;
    for _ in 0..count {
        if !take_one(input, given)? {
            return Ok(false);
        }
    }
    Ok(true)
}

fn take_one<R: Read>(input: &mut R, given: &mut Places) -> io::Result<bool> {
    let mut bytes = [0u8; INPUT];
    if read_full(input, &mut bytes)? < INPUT {
        return Ok(false);
    }
    let (numbers, _) = bytes.as_chunks::<4>();
    let place = number(numbers[0]) as usize;
    let count = number(numbers[1]) as usize;
    let from = place.min(PLACES);
    let to = (place + count).min(PLACES);
    given[from..to].fill(number(numbers[2]));
    Ok(true)
}

// The number of four bytes.
pub(crate) fn number(bytes: [u8; 4]) -> u32 {
    let [a, b, c, d] = bytes;
    word(a, b, c, d)
}

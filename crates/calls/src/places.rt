// What a call is given, and what it leaves, is an array of words, since the input names what it sets by a number. A place is an
// index of it.
use show::{put, put_number};
use std::io;
use std::io::Write;

pub(crate) type Places = [u32; PLACES];

// The record's numbers.
pub(crate) const CODE_START: usize = 0;

pub(crate) const CODE_WORDS: usize = 1;

pub(crate) const DATA_START: usize = 2;

pub(crate) const DATA_WORDS: usize = 3;

pub(crate) const LIMIT: usize = 4;

pub(crate) const DPC: usize = 5;

pub(crate) const PC: usize = 6;

// The steps that a VAMP run is asked for, and the lengths of what is lent.
pub(crate) const STEPS: usize = 7;

pub(crate) const CODE_LENGTH: usize = 8;

pub(crate) const DATA_LENGTH: usize = 9;

pub(crate) const MEMORY_LENGTH: usize = 10;

pub(crate) const CARD_LENGTH: usize = 11;

// The call, the number of a mnemonic, and up to three operands.
pub(crate) const CALL: usize = 12;

pub(crate) const MNEMONIC: usize = 13;

pub(crate) const OPERANDS: usize = 14;

// The arrays, in the order of `ARRAYS`.
pub(crate) const R: usize = 32;

pub(crate) const SPR: usize = 64;

pub(crate) const CODE: usize = 96;

pub(crate) const DATA: usize = CODE + WORDS;

pub(crate) const MEMORY: usize = DATA + WORDS;

pub(crate) const CARD: usize = MEMORY + 2 * DOUBLE_WORDS;

pub(crate) const PLACES: usize = CARD + BYTES / 4;

// Room for one more than the right length of code and data, of memory, and for a card longer than any that loads.
pub(crate) const WORDS: usize = 1025;

pub(crate) const DOUBLE_WORDS: usize = 2049;

pub(crate) const BYTES: usize = 16384;

// The names of the record's numbers, in their order.
const NUMBERS: [&str; 7] = [
    "code-start",
    "code-words",
    "data-start",
    "data-words",
    "limit",
    "dpc",
    "pc",
];

// An array of places: its name, and its first place.
struct Array {
    name: &'static str,
    start: usize,
}

// The last first.
const ARRAYS: [Array; 5] = [
    Array {
        name: "memory",
        start: MEMORY,
    },
    Array {
        name: "data",
        start: DATA,
    },
    Array {
        name: "code",
        start: CODE,
    },
    Array {
        name: "spr",
        start: SPR,
    },
    Array {
        name: "r",
        start: R,
    },
];

// The name of a place that a call may change.
pub(crate) fn put_place<W: Write>(out: &mut W, place: usize) -> io::Result<()> {
    if let Some(name) = NUMBERS.get(place) {
        return put(out, name.as_bytes());
    }
    match ARRAYS.iter().find(|array| array.start <= place) {
        Some(array) => {
            put(out, array.name.as_bytes())?;
            put_number(out, (place - array.start) as u64)
        }
        None => Ok(()),
    }
}

// The calls on the bytes of a card: the loader and the judge.
use crate::memory::{keep_memory, lent, take_card, take_memory};
use crate::places::{
    BYTES, CARD_LENGTH, CODE, CODE_LENGTH, DATA, DATA_LENGTH, DOUBLE_WORDS, MEMORY_LENGTH, Places,
    WORDS,
};
use crate::records::keep_record;
use card::load;
use judge::{explain, judge};
use show::{put, put_because, put_named, put_ruling};
use std::io;
use std::io::Write;

// Lends as much of the card and of the buffers as the places say; code and data lie in the places themselves.
pub(crate) fn put_load<W: Write>(out: &mut W, places: &mut Places) -> io::Result<()> {
    let card = take_card(places);
    let mut memory = take_memory(places);
    let n = lent(places[CARD_LENGTH], BYTES);
    let c = lent(places[CODE_LENGTH], WORDS);
    let d = lent(places[DATA_LENGTH], WORDS);
    let m = lent(places[MEMORY_LENGTH], DOUBLE_WORDS);
    let (before, from_data) = places.split_at_mut(DATA);
    let loaded = load(
        &card[..n],
        &mut before[CODE..CODE + c],
        &mut from_data[..d],
        &mut memory[..m],
    );
    keep_memory(&memory, places);
    keep_record(&loaded.machine, places);
    match loaded.answer {
        Ok(()) => put(out, b"loaded"),
        Err(refusal) => put_named(out, b"refused ", refusal.number()),
    }
}

// The verdict line, and behind a blank the second one, where there is an explanation: its text has every value of it.
pub(crate) fn put_judge<W: Write>(out: &mut W, places: &Places) -> io::Result<()> {
    let bytes = take_card(places);
    let card = &bytes[..lent(places[CARD_LENGTH], BYTES)];
    put_ruling(out, judge(card))?;
    put_because(out, explain(card))
}

// The calls of the checker.
use crate::memory::lent;
use crate::places::{CODE, CODE_LENGTH, DATA, DATA_LENGTH, Places, WORDS};
use crate::reasons::{put_at, put_explanation};
use crate::records::{keep_record, record_of};
use checker::{Explained, Outcome, Verdict};
use machine::Machine;
use show::put_named;
use std::io;
use std::io::Write;

// Makes a call on the record and on as much of the buffers as the places say, which lie in the places themselves.
pub(crate) fn put_checker<W: Write, F: FnOnce(Machine, &[u32], &mut [u32]) -> Explained>(
    out: &mut W,
    call: F,
    places: &mut Places,
) -> io::Result<()>
    requires { F.IsAlwaysCallable call }
{
    let machine = record_of(places);
    let c = lent(places[CODE_LENGTH], WORDS);
    let d = lent(places[DATA_LENGTH], WORDS);
    let (before, from_data) = places.split_at_mut(DATA);
    let ran = call(machine, &before[CODE..CODE + c], &mut from_data[..d]);
    keep_record(&ran.machine, places);
    put_verdict(out, ran.verdict)?;
    put_explanation(out, ran.explanation)
}

// What a call answers that gives no explanation. A function, and no From: a run that was accepted has none either, so that an Outcome
// alone does not say that none was asked for.
pub(crate) fn unexplained(outcome: Outcome) -> Explained {
    Explained {
        verdict: outcome.verdict,
        machine: outcome.machine,
        explanation: None,
    }
}

// In the format's text, with each value of it: not what `dump` writes, so that a Display would serve one of the two.
fn put_verdict<W: Write>(out: &mut W, verdict: Verdict) -> io::Result<()> {
    match verdict {
        Verdict::Refused(refusal) => put_named(out, b"refused ", refusal.number()),
        Verdict::Accepted(steps) => put_named(out, b"accepted ", steps),
        Verdict::Violation(violation) => {
            put_named(out, b"violation ", violation.test.number())?;
            put_at(out, violation.at)
        }
    }
}

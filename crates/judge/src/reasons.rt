// The second line: where the bad address of a violation came from.
#![tactic(auto, using(crate::proofs::Appending::texts), unfolding(crate::specs::Because::step_text, crate::specs::Because::source_text, crate::specs::Because::from_text, crate::specs::Because::register_text, crate::specs::Because::card_text, crate::specs::Because::ran_on_text, crate::specs::Because::led_text, crate::specs::Because::transfer_text, crate::specs::Because::jr_text))]

ghost use Rattle.std.specs.Prelude.{◌+◌, ◌≤◌, ◌≡◌, length};
ghost use Rattle.judge.specs.Line.{SIZE, line_of};
ghost use Rattle.judge.specs.Because.{because_text, step_text, source_text, from_text};
ghost use Rattle.judge.specs.Work.{STEP_BYTES, FROM_BYTES, Extends};

use crate::lines::Line;
use checker::{At, Explanation, Source};

// The second line: the explanation of a violation, with its end; no byte where there is none. A function, and no Display, as `line`.
pub fn because(explanation: Option<Explanation>) -> Line
    ensures value { result ≡ line_of (because_text explanation) }
    ensures len_in_bounds { result.len ≤ length result.bytes }
{
    let Some(reason) = explanation else {
        return Line::empty();
    };
    let start = Line::empty().put(b"because ");
    match reason {
        Explanation::Register(register, source) => start.put_from(register, source).put(b"\n"),
        Explanation::Card => start.put(b"dpc from card").put(b"\n"),
        Explanation::RanOn => start.put(b"dpc ran on").put(b"\n"),
        Explanation::Transfer(at) => start.put(b"dpc from ").put_step(at).put(b"\n"),
        Explanation::Jr(at, register, source) => start
            .put(b"dpc from ")
            .put_step(at)
            .put(b", ")
            .put_from(register, source)
            .put(b"\n"),
    }
}

impl Line {
    // A register and where its value came from.
    fn put_from(self, register: u8, source: Source) -> Line
        requires { self.len + FROM_BYTES ≤ SIZE }
        ensures value { Extends self result (from_text register source) }
        ensures len_bound { result.len ≤ self.len + FROM_BYTES }
    {
        self.put(b"r")
            .put_decimal(u32::from(register))
            .put(b" from ")
            .put_source(source)
    }

    fn put_source(self, source: Source) -> Line
        requires { self.len + STEP_BYTES ≤ SIZE }
        ensures value { Extends self result (source_text source) }
        ensures len_bound { result.len ≤ self.len + STEP_BYTES }
    {
        match source {
            Source::Card => self.put(b"card"),
            Source::Zero => self.put(b"zero"),
            Source::Step(at) => self.put_step(at),
        }
    }

    fn put_step(self, at: At) -> Line
        requires { self.len + STEP_BYTES ≤ SIZE }
        ensures value { Extends self result (step_text at) }
        ensures len_bound { result.len ≤ self.len + STEP_BYTES }
    {
        self.put(b"step ")
            .put_decimal(at.step)
            .put(b" at ")
            .put_hex(at.dpc)
            .put(b" word ")
            .put_hex(at.word)
    }
}

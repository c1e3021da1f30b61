// The steps of a run taken once more, with the last writer of each general register noted.
ghost use Rattle.std.specs.Prelude.{◌≡◌, ◌%◌, slice_set};
ghost use Rattle.machine.specs.Record.{word_at};
ghost use Rattle.checker.specs.Inner.{Passed, Retraces};

use crate::At;
use crate::running::go;
use machine::{Machine, Region, State};

// The step that comes after the steps taken once more, the state before it, and the last writer of each general register.
#[derive(Clone, Copy)]
pub(crate) struct Retraced {
    pub next: At,
    pub state: State,
    pub writers: [Option<At>; 32],
}

// Takes the first `count` steps of a run, which break no test.
pub(crate) fn retrace(machine: Machine, count: u32, code: &[u32], words: &mut [u32]) -> Retraced
    requires { Passed machine code.now words.old count }
    ensures { Retraces machine code.now words.old count result }
{
    let mut state = machine.state();
    let mut writers: [Option<At>; 32] = [None; 32];
    for taken in 0..count {
        let at = place_of(machine.code, taken, state.dpc, code);
        // By the loop of a run: a second caller of the step would make every step of a run dearer (tools/cost).
        let ran = go(&machine, 1, &mut state, code, words);
        note(&mut writers, ran.wrote, at);
    }
    Retraced {
        next: place_of(machine.code, count, state.dpc, code),
        state,
        writers,
    }
}

// Notes a register's last writer. What writes none is noted of R0, whose source is always "zero".
fn note(writers: &mut [Option<At>; 32], register: u8, at: At)
    ensures { writers.new ≡ slice_set writers.old (register % 32) (Some at) }
{
    writers[(register % 32) as usize] = Some(at);
}

// A step with its DPC and its word, which is 0 past the list of the region.
fn place_of(fetches: Region, step: u32, dpc: u32, code: &[u32]) -> At
    ensures { result ≡ record { step = step; dpc = dpc; word = word_at fetches code.now dpc } }
{
    At {
        step,
        dpc,
        word: word_at(fetches, dpc, code),
    }
}

// The word of a region's list at an address, 0 past the list, as its definition is; a card's image answers none there.
#[tactic(auto, unfolding(machine::specs::Record::word_at))]
fn word_at(region: Region, address: u32, code: &[u32]) -> u32
    ensures { result ≡ word_at region code.now address }
{
    let at = (address.saturating_sub(region.start) / 4) as usize;
    code.get(at).copied().unwrap_or(0)
}

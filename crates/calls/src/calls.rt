// The calls: each takes its inputs from the places, writes its answer, and keeps in the places what it left.
use crate::changes::put_hex;
use crate::checking::{put_checker, unexplained};
use crate::instructions::instruction_of;
use crate::loading::{put_judge, put_load};
use crate::places::{CALL, MNEMONIC, OPERANDS, Places};
use crate::sailing::{put_run, put_step};
use crate::told::put_instruction;
use checker::{check, run, step};
use show::put;
use std::io;
use std::io::Write;
use words::{make, read};

// The kinds of calls, in the order of their numbers.
#[derive(Clone, Copy)]
enum Call {
    NameAlone,
    Read,
    Make,
    CheckerStep,
    CheckerRun,
    VampStep,
    VampRun,
    Load,
    Judge,
    CheckerCheck,
}

// A number that is no call's.
#[derive(Clone, Copy)]
struct NotACall;

impl TryFrom<u32> for Call {
    type Error = NotACall;

    fn try_from(number: u32) -> Result<Call, NotACall> {
        match number {
            0 => Ok(Call::NameAlone),
            1 => Ok(Call::Read),
            2 => Ok(Call::Make),
            3 => Ok(Call::CheckerStep),
            4 => Ok(Call::CheckerRun),
            5 => Ok(Call::VampStep),
            6 => Ok(Call::VampRun),
            7 => Ok(Call::Load),
            8 => Ok(Call::Judge),
            9 => Ok(Call::CheckerCheck),
            _ => Err(NotACall),
        }
    }
}

pub(crate) fn perform<W: Write>(out: &mut W, places: &mut Places) -> io::Result<()> {
    let Ok(call) = Call::try_from(places[CALL]) else {
        return put(out, b"not a call");
    };
    match call {
        Call::NameAlone => Ok(()),
        Call::Read => put_read(out, places[OPERANDS]),
        Call::Make => put_make(out, places),
        Call::CheckerStep => put_checker(
            out,
            |m, code, data| unexplained(step(m, code, data)),
            places,
        ),
        Call::CheckerCheck => put_checker(
            out,
            |m, code, data| unexplained(check(m, code, data)),
            places,
        ),
        Call::CheckerRun => put_checker(out, run, places),
        Call::VampStep => put_step(out, places),
        Call::VampRun => put_run(out, places),
        Call::Load => put_load(out, places),
        Call::Judge => put_judge(out, places),
    }
}

fn put_read<W: Write>(out: &mut W, word: u32) -> io::Result<()> {
    match read(word) {
        Some(instruction) => {
            put(out, b"legal ")?;
            put_instruction(out, instruction)
        }
        None => put(out, b"illegal 23"),
    }
}

fn put_make<W: Write>(out: &mut W, places: &Places) -> io::Result<()> {
    let operands = [places[OPERANDS], places[OPERANDS + 1], places[OPERANDS + 2]];
    match make(instruction_of(places[MNEMONIC], operands)) {
        Some(word) => {
            put(out, b"made ")?;
            put_hex(out, word)
        }
        None => put(out, b"refused 14"),
    }
}

// The machine record, taken from places and put back into them.
use crate::places::{
    CODE, CODE_START, CODE_WORDS, DATA_START, DATA_WORDS, DPC, LIMIT, PC, Places, R, SPR,
};
use machine::{Machine, Region};
use show::REGISTERS;

pub(crate) fn record_of(places: &Places) -> Machine {
    let mut gpr = [0u32; REGISTERS];
    let mut spr = [0u32; REGISTERS];
    gpr.copy_from_slice(&places[R..SPR]);
    spr.copy_from_slice(&places[SPR..CODE]);
    Machine {
        code: Region {
            start: places[CODE_START],
            words: places[CODE_WORDS],
        },
        data: Region {
            start: places[DATA_START],
            words: places[DATA_WORDS],
        },
        limit: places[LIMIT],
        dpc: places[DPC],
        pc: places[PC],
        gpr,
        spr,
    }
}

pub(crate) fn keep_record(machine: &Machine, places: &mut Places) {
    places[CODE_START] = machine.code.start;
    places[CODE_WORDS] = machine.code.words;
    places[DATA_START] = machine.data.start;
    places[DATA_WORDS] = machine.data.words;
    places[LIMIT] = machine.limit;
    places[DPC] = machine.dpc;
    places[PC] = machine.pc;
    places[R..SPR].copy_from_slice(&machine.gpr);
    places[SPR..CODE].copy_from_slice(&machine.spr);
}

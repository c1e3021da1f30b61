// Where the fields of a word stand, document 01, "Words".

// The lowest bit of each field. RS1 stands in the same place in I and R words; RD of an I word where RS2 of an R word does.
pub(crate) const OPCODE: u32 = 26;

pub(crate) const RS1: u32 = 21;

pub(crate) const SECOND: u32 = 16;

pub(crate) const THIRD: u32 = 11;

pub(crate) const AMOUNT: u32 = 6;

// How many numbers a field holds: registers and SA, and the function.
pub(crate) const REGISTERS: u32 = 32;

pub(crate) const FUNCTIONS: u32 = 64;

// Half the numbers that an immediate of I and of J words holds: those below nothing.
pub(crate) const I_HALF: u32 = 32768;

pub(crate) const J_HALF: u32 = 33554432;

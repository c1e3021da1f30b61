// The mnemonics of document 01's groups, by which the format names instructions. That of an immediate form has an i at its end, or
// before the o of one that may overflow.
use words::{Arithmetic, Comparison, LoadKind, Shift, StoreKind};

pub(crate) fn shift(member: Shift) -> &'static str {
    match member {
        Shift::Sll => "sll",
        Shift::Sla => "sla",
        Shift::Srl => "srl",
        Shift::Sra => "sra",
    }
}

// The mnemonic without its o, and the o.
pub(crate) fn arithmetic(member: Arithmetic) -> (&'static str, &'static str) {
    match member {
        Arithmetic::Addo => ("add", "o"),
        Arithmetic::Add => ("add", ""),
        Arithmetic::Subo => ("sub", "o"),
        Arithmetic::Sub => ("sub", ""),
        Arithmetic::And => ("and", ""),
        Arithmetic::Or => ("or", ""),
        Arithmetic::Xor => ("xor", ""),
    }
}

pub(crate) fn comparison(member: Comparison) -> &'static str {
    match member {
        Comparison::Sgr => "sgr",
        Comparison::Seq => "seq",
        Comparison::Sge => "sge",
        Comparison::Sls => "sls",
        Comparison::Sne => "sne",
        Comparison::Sle => "sle",
    }
}

pub(crate) fn load(member: LoadKind) -> &'static str {
    match member {
        LoadKind::Lb => "lb",
        LoadKind::Lh => "lh",
        LoadKind::Lw => "lw",
        LoadKind::Lbu => "lbu",
        LoadKind::Lhu => "lhu",
    }
}

pub(crate) fn store(member: StoreKind) -> &'static str {
    match member {
        StoreKind::Sb => "sb",
        StoreKind::Sh => "sh",
        StoreKind::Sw => "sw",
    }
}

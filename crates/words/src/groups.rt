// The groups of the tables: instructions that differ in their number alone. A member's number is that of its immediate form;
// those of the register forms are as far above it for the whole group, since both forms have the same order.
ghost use Rattle.std.specs.Prelude.{◌≡◌, ℕ, ◌<◌, ◌==◌, IfSome, List, find, Some, refl};
ghost use Rattle.words.specs.Words.{shifts, arithmetics, comparisons, loads, stores, shift_immediate_no, arithmetic_immediate_no, compare_immediate_no, load_no, store_no};
ghost use Rattle.words.specs.declared.Shift.TheVariants.{Sll, Sla, Srl, Sra};
ghost use Rattle.words.specs.declared.Arithmetic.TheVariants.{Addo, Add, Subo, Sub, And, Or, Xor};
ghost use Rattle.words.specs.declared.Comparison.TheVariants.{Sgr, Seq, Sge, Sls, Sne, Sle};
ghost use Rattle.words.specs.declared.LoadKind.TheVariants.{Lb, Lh, Lw, Lbu, Lhu};
ghost use Rattle.words.specs.declared.StoreKind.TheVariants.{Sb, Sh, Sw};

use crate::{Arithmetic, Comparison, LoadKind, Shift, StoreKind};

// Sll is 04 and slli 00, addo 20 and addio 08, sgr 29 and sgri 19.
pub(crate) const SHIFT_REGISTER: u32 = 0x04;

pub(crate) const ARITHMETIC_REGISTER: u32 = 0x18;

pub(crate) const COMPARE_REGISTER: u32 = 0x10;

// A group whose members are told apart by their numbers. Each group has an impl of its own, since no bound says of a type that `as`
// reads its discriminants.
pub trait Numbered: Copy {
    // The members in the document's order.
    ghost members: { List Self };

    ghost number_of: { Self → ℕ };

    fn number(self) -> u32
        ensures value { result ≡ number_of self }
        ensures bits { result < 64 };

    // The member that has a number, if one has. By a match: of a search through the members (`find`) the proof closed for groups
    // of three and four, and not for those of five to seven. An Option, and no TryFrom: a number that no member has is `?` in the
    // reader.
    fn with_number(number: u32) -> Option<Self>
        ensures value { result ≡ find (λ k. number_of k == number) members }
        ensures number { IfSome result (λ k. number_of k ≡ number) };

    // So no two members have one number.
    ghost found: { (k : Self) → find (λ j. number_of j == number_of k) members ≡ Some k };
}

impl Numbered for Shift {
    ghost members = { shifts };

    ghost number_of = { shift_immediate_no };

    ghost found = { elim [ Sll ↦ refl | Sla ↦ refl | Srl ↦ refl | Sra ↦ refl ] };

    fn number(self) -> u32 {
        self as u32
    }

    fn with_number(number: u32) -> Option<Self> {
        match number {
            0x00 => Some(Shift::Sll),
            0x01 => Some(Shift::Sla),
            0x02 => Some(Shift::Srl),
            0x03 => Some(Shift::Sra),
            _ => None,
        }
    }
}

impl Numbered for Arithmetic {
    ghost members = { arithmetics };

    ghost number_of = { arithmetic_immediate_no };

    ghost found = { elim [ Addo ↦ refl | Add ↦ refl | Subo ↦ refl | Sub ↦ refl | And ↦ refl | Or ↦ refl | Xor ↦ refl ] };

    fn number(self) -> u32 {
        self as u32
    }

    fn with_number(number: u32) -> Option<Self> {
        match number {
            0x08 => Some(Arithmetic::Addo),
            0x09 => Some(Arithmetic::Add),
            0x0A => Some(Arithmetic::Subo),
            0x0B => Some(Arithmetic::Sub),
            0x0C => Some(Arithmetic::And),
            0x0D => Some(Arithmetic::Or),
            0x0E => Some(Arithmetic::Xor),
            _ => None,
        }
    }
}

impl Numbered for Comparison {
    ghost members = { comparisons };

    ghost number_of = { compare_immediate_no };

    ghost found = { elim [ Sgr ↦ refl | Seq ↦ refl | Sge ↦ refl | Sls ↦ refl | Sne ↦ refl | Sle ↦ refl ] };

    fn number(self) -> u32 {
        self as u32
    }

    fn with_number(number: u32) -> Option<Self> {
        match number {
            0x19 => Some(Comparison::Sgr),
            0x1A => Some(Comparison::Seq),
            0x1B => Some(Comparison::Sge),
            0x1C => Some(Comparison::Sls),
            0x1D => Some(Comparison::Sne),
            0x1E => Some(Comparison::Sle),
            _ => None,
        }
    }
}

impl Numbered for LoadKind {
    ghost members = { loads };

    ghost number_of = { load_no };

    ghost found = { elim [ Lb ↦ refl | Lh ↦ refl | Lw ↦ refl | Lbu ↦ refl | Lhu ↦ refl ] };

    fn number(self) -> u32 {
        self as u32
    }

    fn with_number(number: u32) -> Option<Self> {
        match number {
            0x20 => Some(LoadKind::Lb),
            0x21 => Some(LoadKind::Lh),
            0x23 => Some(LoadKind::Lw),
            0x24 => Some(LoadKind::Lbu),
            0x25 => Some(LoadKind::Lhu),
            _ => None,
        }
    }
}

impl Numbered for StoreKind {
    ghost members = { stores };

    ghost number_of = { store_no };

    ghost found = { elim [ Sb ↦ refl | Sh ↦ refl | Sw ↦ refl ] };

    fn number(self) -> u32 {
        self as u32
    }

    fn with_number(number: u32) -> Option<Self> {
        match number {
            0x28 => Some(StoreKind::Sb),
            0x29 => Some(StoreKind::Sh),
            0x2B => Some(StoreKind::Sw),
            _ => None,
        }
    }
}

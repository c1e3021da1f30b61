// Loads and stores by their sizes.
ghost use Rattle.std.specs.Prelude.{◌≡◌, ℕ, ◌^◌, refl};
ghost use Rattle.machine.specs.Effects.{load_size, store_size, unaligned};
ghost use Rattle.words.specs.declared.LoadKind.TheVariants.{Lb, Lh, Lw, Lbu, Lhu};
ghost use Rattle.words.specs.declared.StoreKind.TheVariants.{Sb, Sh, Sw};

use words::{LoadKind, StoreKind};

// The kinds of loads, and those of stores: each accesses some bytes, whose number is a power of two.
pub trait Access {
    ghost bytes: { Self → ℕ };

    fn size(self) -> u32
        ensures { result ≡ bytes self };

    ghost power: { (kind : Self) → (k : ℕ) × (bytes kind ≡ 2 ^ k) };
}

impl Access for LoadKind {
    ghost bytes = { load_size };

    fn size(self) -> u32 {
        match self {
            LoadKind::Lb | LoadKind::Lbu => 1,
            LoadKind::Lh | LoadKind::Lhu => 2,
            LoadKind::Lw => 4,
        }
    }

    ghost power = { elim [ Lb ↦ (0, refl) | Lh ↦ (1, refl) | Lw ↦ (2, refl) | Lbu ↦ (0, refl) | Lhu ↦ (1, refl) ] };
}

impl Access for StoreKind {
    ghost bytes = { store_size };

    fn size(self) -> u32 {
        match self {
            StoreKind::Sb => 1,
            StoreKind::Sh => 2,
            StoreKind::Sw => 4,
        }
    }

    ghost power = { elim [ Sb ↦ (0, refl) | Sh ↦ (1, refl) | Sw ↦ (2, refl) ] };
}

// Whether an address is no multiple of an access's size: a bit of it below the size is set.
pub fn askew<K: Access>(kind: K, address: u32) -> bool
    ensures { result ≡ unaligned (K.bytes kind) address }
{
    address & (kind.size() - 1) != 0
}

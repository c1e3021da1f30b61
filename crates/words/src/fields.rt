// A word, by its fields.
ghost use Rattle.std.specs.Prelude.{◌≡◌, ◌*◌, ◌%◌, ◌^◌, ◌<◌, ◌≤◌};
ghost use Rattle.words.specs.Fields.{opcode, function, field, rs1, second, third, amount, signed, immediate16, immediate26};

use crate::layout;

#[derive(Clone, Copy)]
pub struct Word(pub u32);

impl Word {
    // Bits 31..26.
    #[tactic(auto, unfolding(crate::specs::Fields::opcode))]
    pub fn opcode(self) -> u32
        ensures { result ≡ opcode self.0 }
    {
        self.0 >> layout::OPCODE
    }

    #[tactic(auto, unfolding(crate::specs::Fields::function))]
    pub(crate) fn function(self) -> u32
        ensures { result ≡ function self.0 }
    {
        self.0 % layout::FUNCTIONS
    }

    // Bits 25..21.
    pub fn rs1(self) -> u8
        ensures { result ≡ rs1 self.0 }
    {
        self.five_bits::<{ layout::RS1 }>()
    }

    // RD of an I word, RS2 of an R word.
    pub(crate) fn second(self) -> u8
        ensures { result ≡ second self.0 }
    {
        self.five_bits::<{ layout::SECOND }>()
    }

    // RD of an R word.
    pub(crate) fn third(self) -> u8
        ensures { result ≡ third self.0 }
    {
        self.five_bits::<{ layout::THIRD }>()
    }

    pub(crate) fn amount(self) -> u8
        ensures { result ≡ amount self.0 }
    {
        self.five_bits::<{ layout::AMOUNT }>()
    }

    // The immediate of an I word.
    #[tactic(auto, unfolding(crate::specs::Fields::immediate16))]
    pub(crate) fn immediate16(self) -> i32
        ensures { result ≡ immediate16 self.0 }
    {
        self.immediate::<{ layout::I_HALF }>()
    }

    // The immediate of a J word.
    #[tactic(auto, unfolding(crate::specs::Fields::immediate26))]
    pub(crate) fn immediate26(self) -> i32
        ensures { result ≡ immediate26 self.0 }
    {
        self.immediate::<{ layout::J_HALF }>()
    }

    // A register or SA, from a bit on.
    #[tactic(auto, unfolding(crate::specs::Fields::field))]
    fn five_bits<const LOWEST: u32>(self) -> u8
        requires { LOWEST < 32 }
        ensures { result ≡ field LOWEST self.0 }
    {
        ((self.0 >> LOWEST) % layout::REGISTERS) as u8
    }

    // The two halves of the field's range change places, and half the range is taken off again: no branch.
    #[tactic(auto, using(crate::proofs::Halves::turned_reads))]
    fn immediate<const HALF: u32>(self) -> i32
        requires { (0 < HALF) × (HALF ≤ 2 ^ 30) }
        ensures { result ≡ signed HALF (self.0 % (2 * HALF)) }
    {
        let turned = (self.0 % (2 * HALF) + HALF) % (2 * HALF);
        turned as i32 - HALF as i32
    }
}

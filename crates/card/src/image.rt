// Memory as the regions of a card say it.
ghost use Rattle.std.specs.Prelude.{◌≤◌, length};

use machine::{Machine, Region};

// A region, and a buffer that has all of its words.
#[derive(Clone, Copy)]
struct Segment<'a> {
    region: Region,
    buffer: &'a [u32],
    ghost held: { region.words ≤ length buffer.now },
}

// The code and the data words.
#[derive(Clone, Copy)]
pub(crate) struct Image<'a> {
    code: Segment<'a>,
    words: Segment<'a>,
}

impl Segment<'_> {
    ghost use Rattle.std.specs.Prelude.{◌≡◌};
    ghost use Rattle.card.specs.Work.{found};

    // The word at an address, if the region holds it. An address before the region wraps to beyond it, so that one test tells both
    // ways out: it is made for each word of memory.
    #[tactic(auto, unfolding(machine::specs::Record::word_at))]
    fn word_at(&self, address: u32) -> Option<u32>
        ensures { result ≡ found self.now.region self.now.buffer.now address }
    {
        let offset = u64::from(address).wrapping_sub(u64::from(self.region.start));
        if offset < 4 * u64::from(self.region.words) {
            Some(self.buffer[(offset / 4) as usize])
        } else {
            None
        }
    }
}

impl<'a> Image<'a> {
    ghost use Rattle.std.specs.Prelude.{◌≡◌, ◌≤◌, ◌<◌, length};
    ghost use Rattle.machine.specs.Record.{image, DOUBLE_WORDS};
    ghost use Rattle.card.specs.Card.{double};

    pub(crate) fn new(machine: &Machine, code: &'a [u32], words: &'a [u32]) -> Image<'a>
        requires code_held { machine.now.code.words ≤ length code.now }
        requires words_held { machine.now.data.words ≤ length words.now }
        ensures of_code { (result.code.region ≡ machine.now.code) × (result.code.buffer.now ≡ code.now) }
        ensures of_words { (result.words.region ≡ machine.now.data) × (result.words.buffer.now ≡ words.now) }
    {
        let code = Segment {
            region: machine.code,
            buffer: code,
        };
        let words = Segment {
            region: machine.data,
            buffer: words,
        };
        Image { code, words }
    }

    // The word at an address: the code's or, where it holds none, the data's, and zero elsewhere. Only then the data are asked:
    // this is done for each word of memory.
    #[tactic(auto, unfolding(machine::specs::Record::image))]
    fn word_at(&self, address: u32) -> u32
        ensures { result ≡ image self.now.code.region self.now.words.region self.now.code.buffer.now self.now.words.buffer.now address }
    {
        match self.code.word_at(address) {
            Some(word) => word,
            None => self.words.word_at(address).unwrap_or(0),
        }
    }

    // Double word `i` of VAMP memory: the word at 8i below the word at 8i + 4. `calls` puts together two words that it has.
    #[tactic(auto, unfolding(crate::specs::Card::double))]
    pub(crate) fn double_at(&self, i: usize) -> u64
        requires { i < DOUBLE_WORDS }
        ensures { result ≡ double self.now.code.region self.now.words.region self.now.code.buffer.now self.now.words.buffer.now i }
    {
        let address = 8 * (i as u32);
        let low = self.word_at(address);
        let high = self.word_at(address + 4);
        u64::from(low) | u64::from(high) << 32
    }
}

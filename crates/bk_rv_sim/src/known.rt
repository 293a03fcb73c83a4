//! The words that a run has read, with their instructions.
ghost use Rattle.std.specs.Prelude.{◌≡◌, Some};
ghost use Rattle.bk_rv_isa.specs.Encoding.{decoding};

use bk_rv_isa::{Inst, decode};

const SLOTS: usize = 64;

// A word and the instruction that it reads as.
#[derive(Clone, Copy)]
struct Entry {
    word: u32,
    inst: Inst,
    ghost reads: { decoding word ≡ Some inst },
}

/// Words that were read before, each in the slot of its place in the text.
#[derive(Drop)]
pub struct Known {
    entries: [Entry; SLOTS],
}

impl Known {
    /// The word of EBREAK in each slot.
    #[tactic(auto, unfolding(bk_rv_isa::specs::Encoding::decoding))]
    pub fn new() -> Known {
        Known {
            entries: [Entry {
                word: 0x0010_0073,
                inst: Inst::Ebreak,
            }; SLOTS],
        }
    }

    /// The instruction of the word at a place, which is read once while the slot keeps it.
    pub fn decode(&mut self, place: usize, word: u32) -> Option<Inst>
        ensures { result ≡ decoding word }
    {
        let slot = place % SLOTS;
        let entry = self.entries[slot];
        if entry.word == word {
            return Some(entry.inst);
        }
        let inst = decode(word)?;
        self.entries[slot] = Entry { word, inst };
        Some(inst)
    }
}

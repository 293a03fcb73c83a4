// The machine words of arguments and results.
ghost use Rattle.std.specs.Prelude.{◌≡◌, ℕ, ◌+◌, ◌<◌, ◌^◌, ◌++◌, OnOk};
ghost use Rattle.bk_func.specs.Words.{words_at};
ghost use Rattle.bk_func.specs.Meaning.{put};
ghost use Rattle.bk_mean.specs.Seen.{word_in};

use std::alloc::{AllocError, Global};
use std::collections::BTreeMap;

/// Words by their places; those that were not written are 0.
#[derive(Drop)]
pub(crate) struct Words {
    written: BTreeMap<u64, u64>,
}

impl Words {
    pub(crate) fn new(alloc: Global) -> Self
        ensures { (k : ℕ) → word_in result k ≡ 0 }
    {
        Words {
            written: BTreeMap::new(alloc),
        }
    }

    pub(crate) fn get(&self, place: u64) -> u64
        ensures { result ≡ word_in self.now place }
    {
        match self.written.get(&place) {
            Some(word) => *word,
            None => 0,
        }
    }

    pub(crate) fn set(&mut self, place: u64, word: u64) -> Result<(), AllocError>
        ensures { OnOk result ((k : ℕ) → word_in self.new k ≡ put (word_in self.old) place word k) }
    {
        self.written.insert(place, word)?;
        Ok(())
    }

    pub(crate) fn clear(&mut self)
        ensures { (k : ℕ) → word_in self.new k ≡ 0 }
    {
        self.written.clear();
    }
}

/// Appends so many words from a place on.
pub(crate) fn push_words(
    list: &mut Vec<u64>,
    words: &Words,
    from: u64,
    count: u64,
) -> Result<(), AllocError>
    requires { from + count < 2 ^ 64 }
    ensures { OnOk result (list.new.items ≡ list.old.items ++ words_at (word_in words.now) from count) }
{
    for place in from..from + count {
        list.push(words.get(place))?;
    }
    Ok(())
}

// What the fields of an object are by their types: a number is read, by which its range is known.
ghost use Rattle.std.specs.Prelude.{◌<◌, ◌^◌};
ghost use Rattle.std.specs.List.{All};
ghost use Rattle.std.specs.Str.{IsUtf8};
ghost use Rattle.bk_elf.specs.Object.{IsTyped};

use crate::{Object, Symbol};

fn is_byte(byte: &u8)
    ensures { byte.now < 2 ^ 8 }
{
    let _byte = *byte;
}

fn is_word(word: &u32)
    ensures { word.now < 2 ^ 32 }
{
    let _word = *word;
}

fn is_constant(constant: &u64)
    ensures { constant.now < 2 ^ 64 }
{
    let _constant = *constant;
}

fn is_symbol(symbol: &Symbol)
    ensures sized { (symbol.now.address < 2 ^ 32) × (symbol.now.size < 2 ^ 32) }
    ensures text { IsUtf8 symbol.now.name }
{
    let _address = symbol.address;
    let _size = symbol.size;
    let _name = symbol.name.as_str();
}

pub(crate) fn are_bytes(bytes: &[u8])
    ensures { All (λ b. b < 2 ^ 8) bytes.now }
{
    for byte in bytes {
        is_byte(byte);
    }
}

fn are_words(words: &[u32])
    ensures { All (λ n. n < 2 ^ 32) words.now }
{
    for word in words {
        is_word(word);
    }
}

fn are_constants(constants: &[u64])
    ensures { All (λ n. n < 2 ^ 64) constants.now }
{
    for constant in constants {
        is_constant(constant);
    }
}

fn are_symbols(symbols: &[Symbol])
    ensures sized { All (λ s. (s.address < 2 ^ 32) × (s.size < 2 ^ 32)) symbols.now }
    ensures texts { All (λ s. IsUtf8 s.name) symbols.now }
{
    for symbol in symbols {
        is_symbol(symbol);
    }
}

/// Nothing is done: the loops are for the proof, and a compiler leaves them out.
pub(crate) fn are_typed(object: &Object)
    ensures { IsTyped object.now }
{
    are_words(&object.text);
    are_constants(&object.pool);
    are_bytes(&object.window);
    are_symbols(&object.symbols);
}

//! Names and words at the front of a line's text.
ghost use Rattle.std.specs.Prelude.{◌≡◌, ◌≤◌, length};
ghost use Rattle.std.specs.List.{prefix_len};
ghost use Rattle.std.specs.Option.{option_map};
ghost use Rattle.bk_dump.specs.Words.{is_name_byte, is_plain_byte, is_word_byte, as_utf8, utf8_at, name_at, plain_at, word_at};

use crate::read::part::skip_blanks;

/// Whether names may have this byte: one above 32 but DEL and `{ } < > , = "`.
#[tactic(auto, unfolding(crate::specs::Words::is_name_byte))]
fn is_name_byte(byte: u8) -> bool
    ensures { result ≡ is_name_byte byte }
{
    match byte {
        b'{' | b'}' | b'<' | b'>' | b',' | b'=' | b'"' | 0x7f => false,
        _ => byte > b' ',
    }
}

/// Whether names in types and lists of parameters may have this byte.
#[tactic(auto, unfolding(crate::specs::Words::is_plain_byte))]
fn is_plain_byte(byte: u8) -> bool
    ensures { result ≡ is_plain_byte byte }
{
    is_name_byte(byte) && byte != b'(' && byte != b')'
}

/// How many bytes of names the text begins with.
fn name_len(text: &[u8]) -> usize
    ensures value { result ≡ prefix_len is_name_byte text.now }
    ensures within { result ≤ length text.now }
{
    text.iter()
        .position(|byte| !is_name_byte(*byte))
        .unwrap_or(text.len())
}

/// How many bytes of names without round brackets the text begins with.
fn plain_len(text: &[u8]) -> usize
    ensures value { result ≡ prefix_len is_plain_byte text.now }
    ensures within { result ≤ length text.now }
{
    text.iter()
        .position(|byte| !is_plain_byte(*byte))
        .unwrap_or(text.len())
}

/// The bytes as text, which they have to be in UTF-8.
fn as_utf8(bytes: &[u8]) -> Option<&str>
    ensures { option_map (λ x. x.now) result ≡ as_utf8 bytes.now }
{
    match str::from_utf8(bytes) {
        Ok(text) => Some(text),
        Err(_) => None,
    }
}

/// The first `len` bytes as text, which they have to be in UTF-8, and the bytes behind them.
#[tactic(auto, unfolding(crate::specs::Words::utf8_at))]
fn text_at(text: &[u8], len: usize) -> Option<(&str, &[u8])>
    requires { len ≤ length text.now }
    ensures { option_map (λ x. (x.0.now, x.1.now)) result ≡ utf8_at len text.now }
{
    if len == 0 {
        return None;
    }
    let (name, rest) = text.split_at(len);
    Some((as_utf8(name)?, rest))
}

/// A name, the longest that stands here, and the text behind it; blanks may stand before it.
#[tactic(auto, unfolding(crate::specs::Words::name_at))]
pub fn name(text: &[u8]) -> Option<(&str, &[u8])>
    ensures { option_map (λ x. (x.0.now, x.1.now)) result ≡ name_at text.now }
{
    let text = skip_blanks(text);
    text_at(text, name_len(text))
}

/// A name without round brackets, the longest that stands here, and the text behind it.
#[tactic(auto, unfolding(crate::specs::Words::plain_at))]
pub fn plain_name(text: &[u8]) -> Option<(&str, &[u8])>
    ensures { option_map (λ x. (x.0.now, x.1.now)) result ≡ plain_at text.now }
{
    let text = skip_blanks(text);
    text_at(text, plain_len(text))
}

/// A letter or a digit.
#[tactic(auto, unfolding(crate::specs::Words::is_word_byte))]
fn is_word_byte(byte: u8) -> bool
    ensures { result ≡ is_word_byte byte }
{
    byte.is_ascii_alphanumeric()
}

/// How many letters and digits the text begins with.
fn word_len(text: &[u8]) -> usize
    ensures value { result ≡ prefix_len is_word_byte text.now }
    ensures within { result ≤ length text.now }
{
    text.iter()
        .position(|byte| !is_word_byte(*byte))
        .unwrap_or(text.len())
}

/// The longest run of letters and digits that stands here, and the text behind it.
#[tactic(auto, unfolding(crate::specs::Words::word_at))]
pub fn word(text: &[u8]) -> (&[u8], &[u8])
    ensures { (result.0.now, result.1.now) ≡ word_at text.now }
{
    let text = skip_blanks(text);
    text.split_at(word_len(text))
}

//! Tokens: the maximal runs of bytes of a line that are not blanks.
#![tactic(auto)]

ghost use Rattle.std.specs.Prelude.{◌≡◌, ◌≤◌, ◌<◌, ◌↔◌, ℕ, List, false, true, Any, IfOk, IsErrOf, IsTrue, drop, length, map, slice_index};
ghost use Rattle.bk_text.specs.Tokens.{AreTokens, IsBad, bytes_of, is_blank, words};
ghost use Rattle.bk_text.specs.declared.Token.{Token};
ghost use Rattle.bk_text.specs.declared.TokenError.TheVariants.{Memory as MemoryRefused};

use std::alloc::{AllocFailed, Global};

/// A token of a line: its bytes from `start` up to `end`, the end left out.
#[derive(Clone, Copy, PartialEq, Eq, Debug)]
pub struct Token {
    pub start: usize,
    pub end: usize,
}

/// Why a line has no tokens.
#[derive(Clone, Copy, PartialEq, Eq, Debug)]
pub enum TokenError {
    /// The line holds a byte below 32 that is no tab.
    BadChar,
    /// Memory ran out.
    Memory,
}

impl<T: Drop> From<AllocFailed<T>> for TokenError {
    ghost from_gives = { λ _ error. error ≡ MemoryRefused };

    fn from(_refused: AllocFailed<T>) -> TokenError {
        TokenError::Memory
    }
}

/// Finds the tokens of a line: the maximal runs of bytes that are neither a space nor a tab, in order.
pub fn tokens(alloc: Global, line: &[u8]) -> Result<Vec<Token>, TokenError>
    ensures found { IfOk result (λ tokens. AreTokens line.now tokens.items) }
    ensures words { IfOk result (λ tokens. map (bytes_of line.now) tokens.items ≡ words line.now) }
    ensures bad { IsErrOf result TokenError.BadChar ↔ Any IsBad line.now }
{
    if line.iter().any(|byte| is_bad(*byte)) {
        return Err(TokenError::BadChar);
    }
    let mut tokens = Vec::new(alloc);
    let mut start = skip_blanks(line, 0);
    while start < line.len() {
        let end = run_end(line, start);
        tokens.push(Token { start, end })?;
        start = skip_blanks(line, end);
    }
    Ok(tokens)
}

/// A line has one list of tokens.
pub fn one_list()
    ensures { (line : List ℕ) → (these those : List Token) → AreTokens line these → AreTokens line those → these ≡ those }
{}

/// Whether a byte may stand in no line.
fn is_bad(byte: u8) -> bool
    ensures { IsTrue result ↔ IsBad byte }
{
    byte < b' ' && byte != b'\t'
}

/// Whether a byte is a space or a tab.
fn is_space(byte: u8) -> bool
    ensures { result ≡ is_blank byte }
{
    byte == b' ' || byte == b'\t'
}

/// The first place from `at` on that has no blank, or the line's end.
fn skip_blanks(line: &[u8], at: usize) -> usize
    requires { at ≤ length line.now }
    ensures from { at ≤ result }
    ensures within { result ≤ length line.now }
    ensures same_words { words (drop result line.now) ≡ words (drop at line.now) }
    ensures blanks { (k : ℕ) → at ≤ k → k < result → is_blank (slice_index line.now k) ≡ true }
    ensures stops { result < length line.now → is_blank (slice_index line.now result) ≡ false }
{
    let mut place = at;
    while place < line.len() && is_space(line[place]) {
        place += 1;
    }
    place
}

/// The first place from `at` on that has a blank, or the line's end.
fn run_end(line: &[u8], at: usize) -> usize
    requires { at ≤ length line.now }
    ensures from { at ≤ result }
    ensures within { result ≤ length line.now }
    ensures solid { (k : ℕ) → at ≤ k → k < result → is_blank (slice_index line.now k) ≡ false }
    ensures stops { result < length line.now → is_blank (slice_index line.now result) ≡ true }
{
    let mut place = at;
    while place < line.len() && !is_space(line[place]) {
        place += 1;
    }
    place
}

#[cfg(test)]
mod tests {
    use super::*;
    use std::test::Fail;

    #[test]
    fn finds_tokens(rt: HostRuntime) -> Result<(), Fail> {
        let rows: [(&[u8], &[(usize, usize)]); 8] = [
            (b"", &[]),
            (b" \t  ", &[]),
            (b"a", &[(0, 1)]),
            (b"b1:\t", &[(0, 3)]),
            (b"\t  Ret v5", &[(3, 6), (7, 9)]),
            (
                b"v4 = Add64 <int> v2 v3",
                &[(0, 2), (3, 4), (5, 10), (11, 16), (17, 19), (20, 22)],
            ),
            (b"\xe2\x86\x92 b2\x7f  (+4)", &[(0, 3), (4, 7), (9, 13)]),
            (b"x \t y", &[(0, 1), (4, 5)]),
        ];
        for (line, places) in &rows {
            let found = tokens(rt.alloc(), line)?;
            assert_eq!(rt; found.len(), places.len(), "in {line:?}");
            for (token, place) in found.iter().zip(places.iter()) {
                assert_eq!(rt; (token.start, token.end), *place, "in {line:?}");
            }
        }
        Ok(())
    }

    #[test]
    fn refuses_control_bytes(rt: HostRuntime) {
        let rows: [&[u8]; 5] = [b"\n", b"a\0b", b"b1:\r", b"\x1f", b" \x08"];
        for line in &rows {
            assert_eq!(rt;
                tokens(rt.alloc(), line),
                Err(TokenError::BadChar),
                "in {line:?}"
            );
        }
    }
}

//! Blanks, marks, arrows and groups at the front of a line's text.
ghost use Rattle.std.specs.Prelude.{◌≡◌, ◌==◌, ◌≤◌, ◌<◌, length, position, codes, IfSome};
ghost use Rattle.std.specs.List.{prefix_len};
ghost use Rattle.std.specs.Option.{option_map};
ghost use Rattle.bk_text.specs.Tokens.{is_blank};
ghost use Rattle.bk_dump.specs.Front.{unblanked, is_done, gap_at, after, mark_at, up_to};
ghost use Rattle.bk_dump.specs.Words.{arrow_at, back_arrow_at, group_at};

/// A space or a tab.
fn is_blank(byte: u8) -> bool
    ensures { result ≡ is_blank byte }
{
    byte == b' ' || byte == b'\t'
}

/// How many blanks the text begins with.
fn blanks_len(text: &[u8]) -> usize
    ensures value { result ≡ prefix_len is_blank text.now }
    ensures within { result ≤ length text.now }
{
    text.iter()
        .position(|byte| !is_blank(*byte))
        .unwrap_or(text.len())
}

/// The text behind its first blanks.
#[tactic(auto, unfolding(crate::specs::Front::unblanked))]
pub fn skip_blanks(text: &[u8]) -> &[u8]
    ensures value { result.now ≡ unblanked text.now }
{
    text.split_at(blanks_len(text)).1
}

/// The text behind at least one blank.
#[tactic(auto, unfolding(crate::specs::Front::gap_at))]
pub fn behind_blanks(text: &[u8]) -> Option<&[u8]>
    ensures { option_map (λ x. x.now) result ≡ gap_at text.now }
{
    match text.split_first() {
        Some((first, rest)) if is_blank(*first) => Some(skip_blanks(rest)),
        _ => None,
    }
}

/// The text behind this mark, which it has to begin with.
pub fn after<'a>(text: &'a [u8], mark: &[u8]) -> Option<&'a [u8]>
    ensures { option_map (λ x. x.now) result ≡ after mark.now text.now }
{
    text.strip_prefix(mark)
}

/// The text behind this mark; blanks may stand before it.
#[tactic(auto, unfolding(crate::specs::Front::mark_at))]
pub fn behind<'a>(text: &'a [u8], mark: &[u8]) -> Option<&'a [u8]>
    ensures { option_map (λ x. x.now) result ≡ mark_at mark.now text.now }
{
    after(skip_blanks(text), mark)
}

/// The text behind `->` or `→`.
#[tactic(auto, unfolding(crate::specs::Words::arrow_at))]
pub fn behind_arrow(text: &[u8]) -> Option<&[u8]>
    ensures { option_map (λ x. x.now) result ≡ arrow_at text.now }
{
    match behind(text, b"->") {
        Some(rest) => Some(rest),
        None => behind(text, "→".as_bytes()),
    }
}

/// The text behind `<-` or `←`.
#[tactic(auto, unfolding(crate::specs::Words::back_arrow_at))]
pub fn behind_back_arrow(text: &[u8]) -> Option<&[u8]>
    ensures { option_map (λ x. x.now) result ≡ back_arrow_at text.now }
{
    match behind(text, b"<-") {
        Some(rest) => Some(rest),
        None => behind(text, "←".as_bytes()),
    }
}

/// Whether nothing but blanks is left.
pub fn is_done(text: &[u8]) -> bool
    ensures { result ≡ is_done text.now }
{
    skip_blanks(text).is_empty()
}

/// The place of the first of these bytes.
fn place_of(text: &[u8], byte: u8) -> Option<usize>
    ensures at { result ≡ position (λ c. c == byte) text.now }
    ensures within { IfSome result (λ at. at < length text.now) }
{
    text.iter().position(|c| *c == byte)
}

/// The text before the first of these bytes, and the text behind it.
#[tactic(auto, unfolding(crate::specs::Front::up_to))]
pub fn up_to(text: &[u8], end: u8) -> Option<(&[u8], &[u8])>
    ensures { option_map (λ x. (x.0.now, x.1.now)) result ≡ up_to end text.now }
{
    let at = place_of(text, end)?;
    Some((&text[..at], &text[at + 1..]))
}

/// The bytes of a group in round brackets, which runs to the next `)`, and the text behind it.
#[tactic(auto, unfolding(crate::specs::Words::group_at))]
pub fn group(text: &[u8]) -> Option<(&[u8], &[u8])>
    ensures { option_map (λ x. (x.0.now, x.1.now)) result ≡ group_at text.now }
{
    up_to(behind(text, b"(")?, b')')
}

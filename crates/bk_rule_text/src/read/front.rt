//! Blanks and marks at the front of a line's text.
ghost use Rattle.std.specs.Prelude.{◌≡◌, ◌≤◌, length};
ghost use Rattle.std.specs.List.{prefix_len};
ghost use Rattle.std.specs.Option.{option_map};
ghost use Rattle.bk_text.specs.Tokens.{is_blank};
ghost use Rattle.bk_rule_text.specs.Front.{unblanked, is_done, after, mark_at};

/// A space or a tab.
fn is_blank(byte: u8) -> bool
    ensures { result ≡ is_blank byte }
{
    byte == b' ' || byte == b'\t'
}

/// How many blanks the text begins with.
fn blanks_len(text: &[u8]) -> usize
    ensures value { result ≡ prefix_len is_blank text.now }
    ensures within { result ≤ length text.now }
{
    text.iter()
        .position(|byte| !is_blank(*byte))
        .unwrap_or(text.len())
}

/// The text behind its first blanks.
#[tactic(auto, unfolding(crate::specs::Front::unblanked))]
pub fn skip_blanks(text: &[u8]) -> &[u8]
    ensures { result.now ≡ unblanked text.now }
{
    text.split_at(blanks_len(text)).1
}

/// The text behind this mark, which it has to begin with.
pub fn after<'a>(text: &'a [u8], mark: &[u8]) -> Option<&'a [u8]>
    ensures { option_map (λ x. x.now) result ≡ after mark.now text.now }
{
    text.strip_prefix(mark)
}

/// The text behind this mark; blanks may stand before it.
#[tactic(auto, unfolding(crate::specs::Front::mark_at))]
pub fn behind<'a>(text: &'a [u8], mark: &[u8]) -> Option<&'a [u8]>
    ensures { option_map (λ x. x.now) result ≡ mark_at mark.now text.now }
{
    after(skip_blanks(text), mark)
}

/// Whether nothing but blanks is left.
pub fn is_done(text: &[u8]) -> bool
    ensures { result ≡ is_done text.now }
{
    skip_blanks(text).is_empty()
}

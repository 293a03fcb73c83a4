//! The lines of a text.
ghost use Rattle.std.specs.Prelude.{◌≡◌, ◌∷◌, ◌<◌, length};
ghost use Rattle.bk_dump.specs.Texts.{without_cr, lines, is_skipped};

use crate::read::part::{behind, is_done, up_to};

/// The line without the CR that it may end in.
#[tactic(auto, unfolding(crate::specs::Texts::without_cr))]
fn without_cr(line: &[u8]) -> &[u8]
    ensures { result.now ≡ without_cr line.now }
{
    let len = line.len();
    if len > 0 && line[len - 1] == b'\r' {
        &line[..len - 1]
    } else {
        line
    }
}

/// The first line of a text without its LF, or CR and LF, and the text behind it. The last line may lack its LF.
pub fn split_line(text: &[u8]) -> (&[u8], &[u8])
    requires { 0 < length text.now }
    ensures lines { lines text.now ≡ result.0.now ∷ lines result.1.now }
    ensures shorter { length result.1.now < length text.now }
{
    match up_to(text, b'\n') {
        Some((line, rest)) => (without_cr(line), rest),
        None => (text, &[]),
    }
}

/// Whether a line is blank or a comment.
pub fn is_skipped(line: &[u8]) -> bool
    ensures { result ≡ is_skipped line.now }
{
    is_done(line) || behind(line, b"#").is_some() || behind(line, b"//").is_some()
}

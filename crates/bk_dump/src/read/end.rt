//! Lines that end a block.
ghost use Rattle.std.specs.Prelude.{◌≡◌, codes, fold, IfOk};
ghost use Rattle.std.specs.Option.{option_map};
ghost use Rattle.bk_func.specs.declared.parts.Likely.TheVariants as likely;
ghost use Rattle.std.specs.Str.{bytes_eq};
ghost use Rattle.bk_dump.specs.Blocks.{kind_word, kinds, kind_of, succ_count, value_control_at, control_at, succs_at, marked, mark_of, likely_of, kind_at, front_at, end_at};
ghost use Rattle.bk_dump.specs.Front.{every};
ghost use Rattle.bk_dump.specs.Values.{groups_at};
ghost use Rattle.bk_dump.specs.Words.{group_at};

use crate::read::name::word;
use crate::read::number::{numbered, numbers};
use crate::read::part::{behind_arrow, behind_blanks, group, is_done};
use bk_func::{Kind, Likely};
use std::alloc::{AllocError, Global};
use std::marker::Model;

/// A line that ends a block.
#[derive(Drop)]
pub struct EndLine {
    pub kind: Kind,
    pub control: Option<u32>,
    pub succs: Vec<u32>,
    pub likely: Likely,
}

impl Model for EndLine {
    ghost use Rattle.bk_dump.specs.Trees.{EndTree};

    ghost Value = { EndTree };

    ghost view = { λ e. record { kind = e.kind; control = e.control; succs = e.succs.items; likely = e.likely } };
}

const KINDS: [Kind; 5] = [Kind::Plain, Kind::If, Kind::First, Kind::Ret, Kind::Exit];

/// The word that the end of a block of this kind begins with.
#[tactic(auto, unfolding(crate::specs::Blocks::kind_word))]
fn kind_word(kind: Kind) -> &'static str
    ensures { result.now ≡ kind_word kind }
{
    match kind {
        Kind::Plain => "Plain",
        Kind::If => "If",
        Kind::First => "First",
        Kind::Ret => "Ret",
        Kind::Exit => "Exit",
    }
}

#[tactic(auto, unfolding(crate::specs::Blocks::kinds))]
fn kinds() -> &'static [Kind]
    ensures { result.now ≡ kinds }
{
    &KINDS
}

/// Whether the end of a block of this kind begins with this word.
fn is_named(kind: Kind, word: &[u8]) -> bool
    ensures { result ≡ bytes_eq (kind_word kind) word.now }
{
    kind_word(kind).as_bytes() == word
}

/// The kind of block whose end begins with this word.
#[tactic(auto, unfolding(crate::specs::Blocks::kind_of))]
fn kind_of(word: &[u8]) -> Option<Kind>
    ensures { result ≡ kind_of word.now }
{
    kinds().iter().copied().find(|kind| is_named(*kind, word))
}

/// How many blocks stand behind the arrow at the end of a block of this kind.
fn succ_count(kind: Kind) -> usize
    ensures { result ≡ succ_count kind }
{
    match kind {
        Kind::Plain => 1,
        Kind::If | Kind::First => 2,
        Kind::Ret | Kind::Exit => 0,
    }
}

/// The kind of block that ends here, and the text behind its word.
#[tactic(auto, unfolding(crate::specs::Blocks::kind_at))]
fn kind(line: &[u8]) -> Option<(Kind, &[u8])>
    ensures { option_map (λ x. (x.0, x.1.now)) result ≡ kind_at line.now }
{
    let (word, rest) = word(line);
    Some((kind_of(word)?, rest))
}

/// The number of a value behind blanks as a control, and the text behind it.
#[tactic(auto, unfolding(crate::specs::Blocks::value_control_at))]
fn value_control(text: &[u8]) -> Option<(Option<u32>, &[u8])>
    ensures { option_map (λ x. (x.0, x.1.now)) result ≡ value_control_at text.now }
{
    let (number, rest) = numbered(behind_blanks(text)?, b"v")?;
    Some((Some(number), rest))
}

/// The control that stands behind the kind, where the kind has one, and the text behind it.
#[tactic(auto, unfolding(crate::specs::Blocks::control_at))]
fn control(kind: Kind, text: &[u8]) -> Option<(Option<u32>, &[u8])>
    ensures { option_map (λ x. (x.0, x.1.now)) result ≡ control_at kind text.now }
{
    match kind {
        Kind::Plain | Kind::First => Some((None, text)),
        Kind::If | Kind::Ret | Kind::Exit => value_control(text),
    }
}

/// The blocks behind the arrow, where the kind has some, and the text behind them.
#[tactic(auto, unfolding(crate::specs::Blocks::succs_at))]
fn succs(alloc: Global, kind: Kind, text: &[u8]) -> Result<Option<(Vec<u32>, &[u8])>, AllocError>
    ensures { IfOk result (λ read. option_map (λ x. (x.0.items, x.1.now)) read ≡ succs_at kind text.now) }
{
    if succ_count(kind) == 0 {
        return Ok(Some((Vec::new(alloc), text)));
    }
    let Some(rest) = behind_arrow(text) else {
        return Ok(None);
    };
    let (succs, rest) = numbers(alloc, rest, b"b")?;
    if succs.len() != succ_count(kind) {
        return Ok(None);
    }
    Ok(Some((succs, rest)))
}

/// What a group at the end of a block makes of a mark.
fn marked(likely: Likely, group: &[u8]) -> Likely
    ensures { result ≡ marked likely group.now }
{
    if group == b"likely".as_slice() {
        Likely::First
    } else if group == b"unlikely".as_slice() {
        Likely::Second
    } else {
        likely
    }
}

/// The successor that the last of the groups `(likely)` and `(unlikely)` marks, and the text behind the groups.
fn marked_groups(text: &[u8]) -> (Likely, &[u8])
    ensures mark { result.0 ≡ mark_of (every group_at text.now).0 }
    ensures rest { result.1.now ≡ (every group_at text.now).1 }
{
    let mut likely = Likely::No;
    let mut rest = text;
    while let Some((inside, next)) = group(rest) {
        likely = marked(likely, inside);
        rest = next;
    }
    (likely, rest)
}

/// The same successor, where nothing but groups is left.
#[tactic(auto, unfolding(crate::specs::Values::groups_at))]
pub fn groups(text: &[u8]) -> Option<Likely>
    ensures { result ≡ option_map mark_of (groups_at text.now) }
{
    let (likely, rest) = marked_groups(text);
    if is_done(rest) { Some(likely) } else { None }
}

/// The mark of a block of this kind: only an `If` has one.
fn likely_of(kind: Kind, likely: Likely) -> Likely
    ensures { result ≡ likely_of kind likely }
{
    match kind {
        Kind::If => likely,
        _ => Likely::No,
    }
}

/// The kind and the control of a block that ends here, and the text behind them.
#[tactic(auto, unfolding(crate::specs::Blocks::front_at))]
fn front(line: &[u8]) -> Option<(Kind, Option<u32>, &[u8])>
    ensures { option_map (λ x. ((x.0, x.1), x.2.now)) result ≡ front_at line.now }
{
    let (kind, rest) = kind(line)?;
    let (control, rest) = control(kind, rest)?;
    Some((kind, control, rest))
}

/// Reads the line that ends a block.
#[tactic(auto, unfolding(crate::specs::Blocks::end_at))]
pub fn end_line(alloc: Global, line: &[u8]) -> Result<Option<EndLine>, AllocError>
    ensures { IfOk result (λ read. read ≡ end_at line.now) }
{
    let Some((kind, control, rest)) = front(line) else {
        return Ok(None);
    };
    let Some((succs, rest)) = succs(alloc, kind, rest)? else {
        return Ok(None);
    };
    let Some(likely) = groups(rest) else {
        return Ok(None);
    };
    Ok(Some(EndLine {
        kind,
        control,
        succs,
        likely: likely_of(kind, likely),
    }))
}

// The words of lines once branches have sizes.
ghost use Rattle.std.specs.Prelude.{◌≡◌, ◌++◌, ◌^◌, ◌≤ℤ◌, pos, neg_ℤ, length, slice_index, IfOk, OnOk};
ghost use Rattle.bk_emit.specs.Code.{line_words, words_from, waits, waits_from, goal_of, distance};
ghost use Rattle.bk_emit.specs.Tables.{line_of};

use crate::layout::{Lines, next_place};
use crate::lines::Line;
use crate::machine::Machine;
use bk_piece::{Handle, Patch};
use std::alloc::{AllocError, Global};

/// Writes the lines, of which each has so many words and stands at this place.
pub(crate) fn code_of<M: Machine>(
    alloc: Global,
    lines: &Lines,
    widths: &[u8],
    places: &[u32],
) -> Result<Vec<u32>, AllocError>
    requires { length widths.now ≡ length lines.now.lines.items }
    ensures { IfOk result (λ code. code.items ≡ words_from M.forms (λ n. slice_index places.now (line_of lines.now.starts n)) 0 widths.now lines.now.lines.items) }
{
    let mut code = Vec::new(alloc);
    let mut place = 0;
    for (index, width) in widths.iter().enumerate() {
        let line = lines.lines[index];
        let goal = goal_of(lines, places, line);
        put_line::<M>(&mut code, line, place, *width, goal)?;
        place = next_place(place, *width)?;
    }
    Ok(code)
}

/// Adds the words of a line of so many words at a place, which leads to another place.
fn put_line<M: Machine>(
    code: &mut Vec<u32>,
    line: Line,
    place: u32,
    width: u8,
    goal: u32,
) -> Result<(), AllocError>
    ensures { OnOk result (code.new.items ≡ code.old.items ++ line_words M.forms place width goal line) }
{
    match line {
        Line::Word(word) | Line::Open(_, _, word) => {
            code.push(word)?;
            Ok(())
        }
        Line::Jump(_) => M::put_jump(code, width, distance(place, goal)),
        Line::Branch(bit, _) => M::put_branch(code, bit, width, distance(place, goal)),
    }
}

/// The place to which a line leads, 0 where it leads nowhere.
fn goal_of(lines: &Lines, places: &[u32], line: Line) -> u32
    ensures { result ≡ goal_of (λ n. slice_index places.now (line_of lines.now.starts n)) line }
{
    match line {
        Line::Jump(block) | Line::Branch(_, block) => place_of(lines, places, block),
        Line::Word(_) | Line::Open(..) => 0,
    }
}

/// The place at which a block begins.
fn place_of(lines: &Lines, places: &[u32], block: u32) -> u32
    ensures { result ≡ slice_index places.now (line_of lines.now.starts block) }
{
    places.get(lines.start(block)).copied().unwrap_or(0)
}

/// What is patched, with the place of its first word.
pub(crate) fn handles_of(
    alloc: Global,
    lines: &[Line],
    widths: &[u8],
) -> Result<Vec<(u32, Patch, Handle)>, AllocError>
    requires { length widths.now ≡ length lines.now }
    ensures { IfOk result (λ handles. handles.items ≡ waits_from 0 widths.now lines.now) }
{
    let mut handles = Vec::new(alloc);
    let mut place = 0;
    for (index, width) in widths.iter().enumerate() {
        push_wait(&mut handles, lines[index], place)?;
        place = next_place(place, *width)?;
    }
    Ok(handles)
}

fn push_wait(
    handles: &mut Vec<(u32, Patch, Handle)>,
    line: Line,
    place: u32,
) -> Result<(), AllocError>
    ensures { OnOk result (handles.new.items ≡ handles.old.items ++ waits place line) }
{
    match line {
        Line::Open(patch, handle, _) => handles.push((place, patch, handle))?,
        Line::Word(_) | Line::Jump(_) | Line::Branch(..) => {}
    }
    Ok(())
}

/// The bytes from one place to another.
fn distance(from: u32, to: u32) -> i64
    ensures value { result ≡ distance from to }
    ensures least { neg_ℤ (pos (2 ^ 40)) ≤ℤ result }
{
    4 * (i64::from(to) - i64::from(from))
}

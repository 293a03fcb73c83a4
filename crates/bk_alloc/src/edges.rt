// The moves at the ends of blocks.
ghost use Rattle.std.specs.Prelude.{◌≡◌, ◌++◌, [], ◌∷◌, flat_map, map, IfOk, OnOk};
ghost use Rattle.bk_alloc.specs.Blocks as spec;

use crate::parts::{Part, Parts};
use crate::plan::Phi;
use bk_func::Loc;
use std::alloc::{AllocError, Global};

/// For each block the moves at its end: pairs of a source and a destination, to be done at once.
pub(crate) fn all_end_moves(
    alloc: Global,
    parts: &Parts,
) -> Result<Vec<Vec<(Loc, Loc)>>, AllocError>
    ensures { IfOk result (λ all. map (λ moves. moves.items) all.items ≡ map (spec.end_moves parts.now) parts.now) }
{
    let mut all = Vec::new(alloc);
    for part in &parts.parts {
        all.push(end_moves(alloc, parts, part)?)?;
    }
    Ok(all)
}

/// The moves at the end of a block, which only one with one successor has.
fn end_moves(alloc: Global, parts: &Parts, part: &Part) -> Result<Vec<(Loc, Loc)>, AllocError>
    ensures { IfOk result (λ moves. moves.items ≡ spec.end_moves parts.now part.now) }
{
    let mut moves = Vec::new(alloc);
    if let [number] = part.plan.succs.as_slice() {
        if let Some(next) = parts.find(*number) {
            register_moves(part, next, &mut moves)?;
            slot_moves(part, next, &mut moves)?;
        }
    }
    Ok(moves)
}

/// Each register of the successor's start is the destination of a move.
fn register_moves(part: &Part, next: &Part, moves: &mut Vec<(Loc, Loc)>) -> Result<(), AllocError>
    ensures { OnOk result (moves.new.items ≡ moves.old.items ++ spec.register_moves (spec.source_at part.now next.now) 0 next.now.first) }
{
    for (register, held) in next.first.held().iter().enumerate() {
        push_register(part, next, moves, register as u8, *held)?;
    }
    Ok(())
}

fn push_register(
    part: &Part,
    next: &Part,
    moves: &mut Vec<(Loc, Loc)>,
    register: u8,
    held: Option<u32>,
) -> Result<(), AllocError>
    ensures { OnOk result (moves.new.items ≡ moves.old.items ++ spec.register_moves (spec.source_at part.now next.now) register (held ∷ [])) }
{
    if let Some(value) = held {
        moves.push((source_at(part, next, value), Loc::Reg(register)))?;
    }
    Ok(())
}

/// Each phi that begins in its slot is the destination of a move.
fn slot_moves(part: &Part, next: &Part, moves: &mut Vec<(Loc, Loc)>) -> Result<(), AllocError>
    ensures { OnOk result (moves.new.items ≡ moves.old.items ++ map (spec.slot_move part.now next.now) (spec.slot_phis next.now)) }
{
    push_slots(part, next, moves, &next.plan.phis)
}

fn push_slots(
    part: &Part,
    next: &Part,
    moves: &mut Vec<(Loc, Loc)>,
    phis: &[Phi],
) -> Result<(), AllocError>
    ensures { OnOk result (moves.new.items ≡ moves.old.items ++ map (spec.slot_move part.now next.now) (flat_map (λ x. spec.in_slot next.now.first x.value) phis.now)) }
{
    for phi in phis {
        push_slot(part, next, moves, phi)?;
    }
    Ok(())
}

fn push_slot(
    part: &Part,
    next: &Part,
    moves: &mut Vec<(Loc, Loc)>,
    phi: &Phi,
) -> Result<(), AllocError>
    ensures { OnOk result (moves.new.items ≡ moves.old.items ++ map (spec.slot_move part.now next.now) (spec.in_slot next.now.first phi.now.value)) }
{
    let value = phi.value;
    if !next.first.holds(value) {
        moves.push((source_at(part, next, value), Loc::Slot(value)))?;
    }
    Ok(())
}

/// Where a value of the successor's start is at the end of the block: a phi's argument, or the value itself.
fn source_at(part: &Part, next: &Part, value: u32) -> Loc
    ensures { result ≡ spec.source_at part.now next.now value }
{
    part.last.where_is(source_of(part, next, value))
}

fn source_of(part: &Part, next: &Part, value: u32) -> u32
    ensures { result ≡ spec.source_of next.now.plan.phis (spec.edge_from part.now.plan.id next.now) value }
{
    let Some(phi) = next.phi(value) else {
        return value;
    };
    let place = next.edge_from(part.plan.id);
    phi.args.as_slice().get(place).copied().unwrap_or(0)
}

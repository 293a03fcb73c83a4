// The steps of placed blocks.
ghost use Rattle.std.specs.Prelude.{◌≡◌, ◌++◌, ◌==◌, [], ◌∷◌, Some, flat_map, map, option_map, IfOk, OnOk, IfSome, IsTrue};
ghost use Rattle.std.specs.List.{All, IsDistinct};
ghost use Rattle.bk_func.specs.Records.{do_value, load};
ghost use Rattle.bk_func.specs.Steps.{seen_step};
ghost use Rattle.bk_shuffle.specs.AtOnce.{destinations};
ghost use Rattle.bk_shuffle.specs.Left.{GoesToAPlace};
ghost use Rattle.bk_shuffle.specs.Sequence.{place_of, sequence_of};
ghost use Rattle.bk_alloc.specs.Blocks.{end_moves};
ghost use Rattle.bk_alloc.specs.Names.{number_in};
ghost use Rattle.bk_alloc.specs.Placement.{registers_of};
ghost use Rattle.bk_alloc.specs.Placing as spec;
ghost use Rattle.bk_alloc.specs.Seen.{seen, seen_act};

use crate::acts::Act;
use crate::homes::{Homes, is_same};
use crate::parts::Part;
use crate::plan::Phi;
use crate::registers::Registers;
use bk_func::{Loc, PlacedBlock, Step};
use bk_ops::Target;
use bk_shuffle::sequence;
use smallvec::SmallVec;
use std::alloc::{AllocError, Global};
use std::collections::BTreeSet;

/// The numbers of arm's registers, in the order in which they are taken: R0 to R9 and R12.
const ARM: [u8; 11] = [0, 1, 2, 3, 4, 5, 6, 7, 8, 9, 12];
/// Those of riscv64: X5 to X26 and X28 to X30.
const RISCV64: [u8; 25] = [
    5, 6, 7, 8, 9, 10, 11, 12, 13, 14, 15, 16, 17, 18, 19, 20, 21, 22, 23, 24, 25, 26, 28, 29, 30,
];

/// The names of places: the machine's numbers of registers, and the slots of values.
#[derive(Drop)]
pub struct Names {
    pub(crate) registers: &'static [u8],
    pub(crate) homes: Homes,
}

impl Names {
    pub(crate) fn new(target: Target, homes: Homes) -> Names
        ensures registers { result.registers.now ≡ registers_of target }
        ensures homes { result.homes ≡ homes }
    {
        let registers: &'static [u8] = match target {
            Target::Arm => &ARM,
            Target::Riscv64 => &RISCV64,
        };
        Names { registers, homes }
    }

    fn register(&self, place: u8) -> u8
        ensures { result ≡ number_in self.now place }
    {
        match self.registers.get(usize::from(place)) {
            Some(number) => *number,
            None => 0,
        }
    }

    fn place(&self, loc: Loc) -> Loc
        ensures { result ≡ spec.name_of (number_in self.now) self.now.homes loc }
    {
        match loc {
            Loc::Reg(place) => Loc::Reg(self.register(place)),
            Loc::Slot(value) => Loc::Slot(self.homes.slot_of(value)),
            Loc::Swap => Loc::Swap,
        }
    }
}

/// The placed blocks, in layout order. `ends` has the moves at the end of each.
pub(crate) fn placed_blocks(
    alloc: Global,
    names: &Names,
    parts: &[Part],
    ends: &[Vec<(Loc, Loc)>],
) -> Result<Vec<PlacedBlock>, AllocError>
    requires { map (λ moves. moves.items) ends.now ≡ map (end_moves parts.now) parts.now }
    ensures { IfOk result (λ blocks. blocks.items ≡ map (spec.placed_part (number_in names.now) names.now.homes parts.now) parts.now) }
{
    let mut blocks = Vec::new(alloc);
    for place in 0..parts.len() {
        let Some(moves) = ends.get(place) else {
            return Err(AllocError);
        };
        blocks.push(placed_block(alloc, names, &parts[place], moves)?)?;
    }
    Ok(blocks)
}

fn placed_block(
    alloc: Global,
    names: &Names,
    part: &Part,
    moves: &[(Loc, Loc)],
) -> Result<PlacedBlock, AllocError>
    ensures { IfOk result (λ block. block ≡ spec.placed_with (number_in names.now) names.now.homes part.now moves.now) }
{
    let steps = block_steps(alloc, names, part, moves)?;
    let mut succs = Vec::new(alloc);
    succs.extend_from_slice(&part.plan.succs)?;
    Ok(PlacedBlock {
        id: part.plan.id,
        kind: part.plan.kind,
        control: control_register(names, part),
        succs,
        steps,
    })
}

/// The register of an `If`'s control.
fn control_register(names: &Names, part: &Part) -> Option<u8>
    ensures { result ≡ spec.control_in (number_in names.now) part.now }
{
    match part.plan.control {
        Some(control) => Some(names.register(part.last.register_of(control))),
        None => None,
    }
}

fn block_steps(
    alloc: Global,
    names: &Names,
    part: &Part,
    moves: &[(Loc, Loc)],
) -> Result<Vec<Step>, AllocError>
    ensures { IfOk result (λ steps. map seen_step steps.items ≡ spec.steps_with (number_in names.now) names.now.homes part.now moves.now) }
{
    let mut steps = Vec::new(alloc);
    store_phis(names, part, &mut steps)?;
    push_acts(alloc, names, &part.acts, &mut steps)?;
    push_moves(alloc, names, moves, &mut steps)?;
    Ok(steps)
}

/// Stores the phis that begin in registers and have a slot.
fn store_phis(names: &Names, part: &Part, steps: &mut Vec<Step>) -> Result<(), AllocError>
    ensures { OnOk result (map seen_step steps.new.items ≡ map seen_step steps.old.items ++ spec.phi_stores (number_in names.now) names.now.homes part.now) }
{
    push_stores(names, &part.first, &part.plan.phis, steps)
}

fn push_stores(
    names: &Names,
    first: &Registers,
    phis: &[Phi],
    steps: &mut Vec<Step>,
) -> Result<(), AllocError>
    ensures { OnOk result (map seen_step steps.new.items ≡ map seen_step steps.old.items ++ flat_map (λ x. spec.phi_store (number_in names.now) names.now.homes first.now x.value) phis.now) }
{
    for phi in phis {
        store_phi(names, first, phi, steps)?;
    }
    Ok(())
}

fn store_phi(
    names: &Names,
    first: &Registers,
    phi: &Phi,
    steps: &mut Vec<Step>,
) -> Result<(), AllocError>
    ensures { OnOk result (map seen_step steps.new.items ≡ map seen_step steps.old.items ++ spec.phi_store (number_in names.now) names.now.homes first.now phi.now.value) }
{
    let value = phi.value;
    if first.holds(value) {
        push_store(names, value, first.register_of(value), steps)?;
    }
    Ok(())
}

/// Stores a value that is defined in a register, if it has a slot.
fn push_store(
    names: &Names,
    value: u32,
    register: u8,
    steps: &mut Vec<Step>,
) -> Result<(), AllocError>
    ensures { OnOk result (map seen_step steps.new.items ≡ map seen_step steps.old.items ++ spec.store_of (number_in names.now) names.now.homes value (Some register)) }
{
    if let Some(slot) = names.homes.find(value) {
        steps.push(Step::Store {
            reg: names.register(register),
            slot,
        })?;
    }
    Ok(())
}

fn push_acts(
    alloc: Global,
    names: &Names,
    acts: &[Act],
    steps: &mut Vec<Step>,
) -> Result<(), AllocError>
    ensures { OnOk result (map seen_step steps.new.items ≡ map seen_step steps.old.items ++ flat_map (spec.steps_of (number_in names.now) names.now.homes) (seen acts.now)) }
{
    for act in acts {
        push_act(alloc, names, act, steps)?;
    }
    Ok(())
}

fn push_act(
    alloc: Global,
    names: &Names,
    act: &Act,
    steps: &mut Vec<Step>,
) -> Result<(), AllocError>
    ensures { OnOk result (map seen_step steps.new.items ≡ map seen_step steps.old.items ++ spec.steps_of (number_in names.now) names.now.homes (seen_act act.now)) }
{
    match act {
        Act::Load { register, value } => push_load(names, *register, *value, steps),
        Act::Compute { value, from, to } => {
            let args = registers_named(alloc, names, from.as_slice())?;
            push_do(names, *value, args, *to, steps)
        }
        Act::Take { value, register } => {
            push_do(names, *value, SmallVec::new(alloc), Some(*register), steps)
        }
        Act::Call { value, .. } | Act::Leave { value, .. } => {
            push_do(names, *value, SmallVec::new(alloc), None, steps)
        }
        Act::MoveAll { moves } => push_moves(alloc, names, moves, steps),
    }
}

fn push_load(
    names: &Names,
    register: u8,
    value: u32,
    steps: &mut Vec<Step>,
) -> Result<(), AllocError>
    ensures { OnOk result (map seen_step steps.new.items ≡ map seen_step steps.old.items ++ load (number_in names.now register) (spec.slot_of names.now.homes value) ∷ []) }
{
    steps.push(Step::Load {
        reg: names.register(register),
        slot: names.homes.slot_of(value),
    })?;
    Ok(())
}

/// The step that computes a value, and the store behind it.
fn push_do(
    names: &Names,
    value: u32,
    args: SmallVec<u8, 4>,
    to: Option<u8>,
    steps: &mut Vec<Step>,
) -> Result<(), AllocError>
    ensures { OnOk result (map seen_step steps.new.items ≡ map seen_step steps.old.items ++ do_value value args.items (option_map (number_in names.now) to) ∷ spec.store_of (number_in names.now) names.now.homes value to) }
{
    match to {
        Some(register) => {
            let result = Some(names.register(register));
            steps.push(Step::Do {
                value,
                args,
                result,
            })?;
            push_store(names, value, register, steps)
        }
        None => {
            steps.push(Step::Do {
                value,
                args,
                result: None,
            })?;
            Ok(())
        }
    }
}

fn registers_named(
    alloc: Global,
    names: &Names,
    places: &[u8],
) -> Result<SmallVec<u8, 4>, AllocError>
    ensures { IfOk result (λ registers. registers.items ≡ map (number_in names.now) places.now) }
{
    let mut registers = SmallVec::new(alloc);
    for place in places {
        registers.push(names.register(*place))?;
    }
    Ok(registers)
}

/// The moves, one after the other; those of a place to itself are left out.
fn push_moves(
    alloc: Global,
    names: &Names,
    moves: &[(Loc, Loc)],
    steps: &mut Vec<Step>,
) -> Result<(), AllocError>
    ensures { OnOk result (map seen_step steps.new.items ≡ map seen_step steps.old.items ++ spec.moves_in_turn (number_in names.now) names.now.homes moves.now) }
{
    let needed = needed_moves(alloc, names, moves)?;
    let pairs = in_turn(alloc, &needed)?;
    for pair in &pairs {
        steps.push(Step::Move {
            from: pair.0,
            to: pair.1,
        })?;
    }
    Ok(())
}

/// The moves that are needed, with the machine's places.
fn needed_moves(
    alloc: Global,
    names: &Names,
    moves: &[(Loc, Loc)],
) -> Result<Vec<(Loc, Loc)>, AllocError>
    ensures { IfOk result (λ needed. needed.items ≡ map (spec.named (number_in names.now) names.now.homes) (spec.needed_moves moves.now)) }
{
    let mut needed = Vec::new(alloc);
    for edge in moves {
        if !is_same(edge.0, edge.1) {
            needed.push((names.place(edge.0), names.place(edge.1)))?;
        }
    }
    Ok(needed)
}

/// The moves, one after the other. Moves that go to one place, or to the swap word, are answered as want of memory.
fn in_turn(alloc: Global, moves: &[(Loc, Loc)]) -> Result<Vec<(Loc, Loc)>, AllocError>
    ensures { IfOk result (λ pairs. pairs.items ≡ sequence_of moves.now) }
{
    if !are_apart(alloc, moves)? {
        return Err(AllocError);
    }
    match sequence(alloc, moves) {
        Ok(pairs) => Ok(pairs),
        Err(_) => Err(AllocError),
    }
}

/// No two moves go to one place, and none to the swap word.
fn are_apart(alloc: Global, moves: &[(Loc, Loc)]) -> Result<bool, AllocError>
    ensures places { IfOk result (λ apart. IsTrue apart → All GoesToAPlace moves.now) }
    ensures apart { IfOk result (λ apart. IsTrue apart → IsDistinct (λ p q. p == q) (destinations moves.now)) }
{
    let mut places = BTreeSet::new(alloc);
    for edge in moves {
        let Some(place) = place_of(edge.1) else {
            return Ok(false);
        };
        if !places.insert(place)? {
            return Ok(false);
        }
    }
    Ok(true)
}

/// A number for each place but the swap word.
fn place_of(loc: Loc) -> Option<u64>
    ensures is { IfSome result (λ place. place ≡ place_of loc) }
    ensures none { IfSome result (λ place. ¬ (place ≡ place_of Loc.Swap)) }
{
    match loc {
        Loc::Reg(number) => Some(u64::from(number)),
        Loc::Slot(number) => Some(256 + u64::from(number)),
        Loc::Swap => None,
    }
}

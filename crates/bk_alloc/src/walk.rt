// One block's values, one after the other.
ghost use Rattle.std.specs.Prelude.{◌≡◌, ◌+◌, ◌++◌, [], ◌∷◌, length, map, OnOk, IfOk, IfSome};
ghost use Rattle.std.specs.List.{fold};
ghost use Rattle.bk_live.specs.Table.{next_in};
ghost use Rattle.bk_alloc.specs.Ahead.{uses_from, uses_in};
ghost use Rattle.bk_alloc.specs.Blocks.{block_acts, first_map, last_map, with_phi};
ghost use Rattle.bk_alloc.specs.Registers.{emptied, freed, put, register_of};
ghost use Rattle.bk_alloc.specs.Seen.{seen};
ghost use Rattle.bk_alloc.specs.Tasks as spec;

use crate::acts::{Act, Role, Task};
use crate::ahead::Ahead;
use crate::plan::{Phi, Plan};
use crate::registers::Registers;
use bk_func::Loc;
use bk_live::Table;
use smallvec::SmallVec;
use std::alloc::{AllocError, Global};

/// How many words of a call pass in registers.
const PASSED: u64 = 8;
/// The place of the register that passes the first word: X10 among X5, X6 and so on.
const FIRST_PASSED: u8 = 5;

/// Loads an argument that is in no register.
fn fetch(
    ahead: &Ahead,
    keep: &[u32],
    registers: &mut Registers,
    acts: &mut Vec<Act>,
    value: u32,
) -> Result<(), AllocError>
    ensures registers { OnOk result (registers.new ≡ spec.fetched (uses_from ahead.now) keep.now registers.old value) }
    ensures acts { OnOk result (seen acts.new.items ≡ seen acts.old.items ++ spec.fetch (uses_from ahead.now) keep.now registers.old value) }
{
    if registers.holds(value) {
        return Ok(());
    }
    let register = registers.seat(ahead, keep);
    registers.put(register, value);
    acts.push(Act::Load { register, value })?;
    Ok(())
}

/// Loads the values that are in no register, one after the other; none of them leaves its register.
fn fetch_all(
    ahead: &Ahead,
    values: &[u32],
    registers: &mut Registers,
    acts: &mut Vec<Act>,
) -> Result<(), AllocError>
    ensures registers { OnOk result (registers.new ≡ spec.with_loads (uses_from ahead.now) values.now values.now registers.old) }
    ensures acts { OnOk result (seen acts.new.items ≡ seen acts.old.items ++ spec.loads (uses_from ahead.now) values.now values.now registers.old) }
{
    for value in values {
        fetch(ahead, values, registers, acts, *value)?;
    }
    Ok(())
}

/// The registers of values.
fn registers_of(
    alloc: Global,
    registers: &Registers,
    values: &[u32],
) -> Result<SmallVec<u8, 4>, AllocError>
    ensures { IfOk result (λ places. places.items ≡ map (register_of registers.now) values.now) }
{
    let mut places = SmallVec::new(alloc);
    for value in values {
        places.push(registers.register_of(*value))?;
    }
    Ok(places)
}

/// Gives a result its register.
fn give(ahead: &Ahead, task: &Task, registers: &mut Registers) -> Option<u8>
    ensures place { result ≡ spec.result_in (uses_from ahead.now) task.now registers.old }
    ensures registers { registers.new ≡ spec.with_result (uses_from ahead.now) task.now registers.old }
{
    if !task.gives {
        return None;
    }
    let register = registers.seat(ahead, &[]);
    registers.put(register, task.value);
    Some(register)
}

/// Computes a value from registers.
fn compute(
    alloc: Global,
    ahead: &Ahead,
    task: &Task,
    registers: &mut Registers,
    acts: &mut Vec<Act>,
) -> Result<(), AllocError>
    ensures registers { OnOk result (registers.new ≡ spec.after_role Role.Plain (uses_from ahead.now) task.now registers.old) }
    ensures acts { OnOk result (seen acts.new.items ≡ seen acts.old.items ++ spec.acts_of_role Role.Plain (uses_from ahead.now) task.now registers.old) }
{
    let args = task.args.as_slice();
    fetch_all(ahead, args, registers, acts)?;
    let from = registers_of(alloc, registers, args)?;
    registers.free(ahead);
    let to = give(ahead, task, registers);
    acts.push(Act::Compute {
        value: task.value,
        from,
        to,
    })?;
    Ok(())
}

/// The register that passes the word with this number, if one does.
fn passing(word: u64) -> Option<u8>
    ensures { IfSome result (λ register. register ≡ spec.passing word) }
{
    if word < PASSED {
        Some(FIRST_PASSED + word as u8)
    } else {
        None
    }
}

/// Takes a word from the register that passes it.
fn take(
    task: &Task,
    word: u64,
    registers: &mut Registers,
    acts: &mut Vec<Act>,
) -> Result<(), AllocError>
    ensures registers { OnOk result (registers.new ≡ put registers.old (spec.passing word) task.now.value) }
    ensures acts { OnOk result (seen acts.new.items ≡ seen acts.old.items ++ spec.take task.now.value (spec.passing word) ∷ []) }
{
    let Some(register) = passing(word) else {
        return Err(AllocError);
    };
    registers.put(register, task.value);
    acts.push(Act::Take {
        value: task.value,
        register,
    })?;
    Ok(())
}

/// The moves of words to the registers that pass them. More words than these are answered as want of memory.
fn send(
    alloc: Global,
    registers: &Registers,
    values: &[u32],
    acts: &mut Vec<Act>,
) -> Result<(), AllocError>
    ensures { OnOk result (seen acts.new.items ≡ seen acts.old.items ++ spec.move_all (spec.sends registers.now 0 values.now) ∷ []) }
{
    let mut moves = Vec::new(alloc);
    for (word, value) in values.iter().enumerate() {
        let Some(register) = passing(word as u64) else {
            return Err(AllocError);
        };
        moves.push((registers.where_is(*value), Loc::Reg(register)))?;
    }
    acts.push(Act::MoveAll { moves })?;
    Ok(())
}

/// Passes the words of a call, which empties the registers.
fn call(
    alloc: Global,
    task: &Task,
    registers: &mut Registers,
    acts: &mut Vec<Act>,
) -> Result<(), AllocError>
    ensures registers { OnOk result (registers.new ≡ emptied registers.old) }
    ensures acts { OnOk result (seen acts.new.items ≡ seen acts.old.items ++ spec.move_all (spec.sends registers.old 0 task.now.args) ∷ spec.call task.now.value (length task.now.args) ∷ []) }
{
    let args = task.args.as_slice();
    send(alloc, registers, args, acts)?;
    registers.empty();
    acts.push(Act::Call {
        value: task.value,
        words: args.len(),
    })?;
    Ok(())
}

/// Hands words to the caller.
fn leave(
    alloc: Global,
    ahead: &Ahead,
    task: &Task,
    registers: &mut Registers,
    acts: &mut Vec<Act>,
) -> Result<(), AllocError>
    ensures registers { OnOk result (registers.new ≡ freed (uses_from ahead.now) registers.old) }
    ensures acts { OnOk result (seen acts.new.items ≡ seen acts.old.items ++ spec.move_all (spec.sends registers.old 0 task.now.args) ∷ spec.leave task.now.value (length task.now.args) ∷ []) }
{
    let args = task.args.as_slice();
    send(alloc, registers, args, acts)?;
    registers.free(ahead);
    acts.push(Act::Leave {
        value: task.value,
        words: args.len(),
    })?;
    Ok(())
}

/// Does one value.
#[tactic(auto, unfolding(crate::specs::Tasks::after_task, crate::specs::Tasks::acts_of))]
fn turn(
    alloc: Global,
    ahead: &Ahead,
    task: &Task,
    registers: &mut Registers,
    acts: &mut Vec<Act>,
) -> Result<(), AllocError>
    ensures registers { OnOk result (registers.new ≡ spec.after_task (uses_from ahead.now) task.now registers.old) }
    ensures acts { OnOk result (seen acts.new.items ≡ seen acts.old.items ++ spec.acts_of (uses_from ahead.now) task.now registers.old) }
{
    match task.role {
        Role::Plain => compute(alloc, ahead, task, registers, acts),
        Role::Taken(word) => take(task, word, registers, acts),
        Role::Calls => call(alloc, task, registers, acts),
        Role::Leaves => leave(alloc, ahead, task, registers, acts),
    }
}

/// Begins a block: the values of the predecessor's end that are live stay, and each phi takes the least open register, if
/// there is one.
pub(crate) fn begin(table: &Table, plan: &Plan, registers: &mut Registers)
    ensures { registers.new ≡ first_map (next_in table.now) plan.now registers.old }
{
    let start = Ahead {
        table,
        block: plan.id,
        after: 0,
    };
    registers.free(&start);
    seat_phis(&plan.phis, registers);
}

/// Each phi takes the least open register, if there is one.
#[tactic(auto, using(std::proofs::lemmas::List::Sums::fold_more))]
fn seat_phis(phis: &[Phi], registers: &mut Registers)
    ensures { registers.new ≡ fold with_phi registers.old (map (λ p. p.value) phis.now) }
{
    for phi in phis {
        registers.seat_phi(phi.value);
    }
}

fn one_more(count: usize) -> Result<usize, AllocError>
    ensures { IfOk result (λ more. more ≡ count + 1) }
{
    match count.checked_add(1) {
        Some(more) => Ok(more),
        None => Err(AllocError),
    }
}

/// Does values one after the other, from the place on.
fn do_tasks(
    alloc: Global,
    ahead: &Ahead,
    tasks: &[Task],
    registers: &mut Registers,
    acts: &mut Vec<Act>,
) -> Result<(), AllocError>
    ensures registers { OnOk result (registers.new ≡ spec.after_tasks (uses_in ahead.now) ahead.now.after tasks.now registers.old) }
    ensures acts { OnOk result (seen acts.new.items ≡ seen acts.old.items ++ spec.acts_of_tasks (uses_in ahead.now) ahead.now.after tasks.now registers.old) }
{
    let mut after = ahead.after;
    for task in tasks {
        after = one_more(after)?;
        let ahead = Ahead { after, ..*ahead };
        turn(alloc, &ahead, task, registers, acts)?;
    }
    Ok(())
}

/// Does the values of a block behind its phis, and loads its control.
pub(crate) fn go_on(
    alloc: Global,
    table: &Table,
    plan: &Plan,
    registers: &mut Registers,
    acts: &mut Vec<Act>,
) -> Result<(), AllocError>
    ensures registers { OnOk result (registers.new ≡ last_map (next_in table.now plan.now.id) plan.now registers.old) }
    ensures acts { OnOk result (seen acts.new.items ≡ seen acts.old.items ++ block_acts (next_in table.now plan.now.id) plan.now registers.old) }
{
    let behind_phis = Ahead {
        table,
        block: plan.id,
        after: plan.skipped,
    };
    do_tasks(alloc, &behind_phis, &plan.tasks, registers, acts)?;
    let end = Ahead {
        table,
        block: plan.id,
        after: plan.size,
    };
    fetch_all(&end, plan.control.as_slice(), registers, acts)
}

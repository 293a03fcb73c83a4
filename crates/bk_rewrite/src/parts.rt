// What the parts of a left tree's node bind.
ghost use Rattle.std.specs.Prelude.{◌≡◌, ◌+◌, ◌≤◌, true, false, length, IfOk};
ghost use Rattle.bk_rule.specs.Match.{IsBound, NameMatches, TypeMatches, IntMatches, AuxMatches, past, past_int};
ghost use Rattle.bk_rewrite.specs.First.{IsNext, IsNextInt, AreNext};
ghost use Rattle.bk_rewrite.specs.Trials.{Binds, Misses, PartsMatch, parts_past};

use bk_func::{Aux, Value};
use bk_ops::Ty;
use bk_rule::{Bound, IntPart};
use std::alloc::AllocError;

/// Binds the variable to what it stands for; false where it is bound to something else.
pub(crate) fn bind(binds: &mut Vec<Bound>, variable: u32, bound: Bound) -> Result<bool, AllocError>
    ensures fits { IfOk result (λ fits. fits ≡ true → Binds (variable + 1) (λ bs. IsBound bs variable bound) binds.old.items binds.new.items) }
    ensures misses { variable ≤ length binds.old.items → IfOk result (λ fits. fits ≡ false → Misses (λ bs. IsBound bs variable bound) binds.old.items) }
{
    let place = variable as usize;
    if place < binds.len() {
        return Ok(binds[place] == bound);
    }
    if place > binds.len() {
        return Ok(false);
    }
    binds.push(bound)?;
    Ok(true)
}

fn bind_name(binds: &mut Vec<Bound>, variable: Option<u32>, id: u32) -> Result<bool, AllocError>
    ensures fits { IfOk result (λ fits. fits ≡ true → Binds (past variable) (λ bs. NameMatches bs variable id) binds.old.items binds.new.items) }
    ensures misses { IsNext (length binds.old.items) variable → IfOk result (λ fits. fits ≡ false → Misses (λ bs. NameMatches bs variable id) binds.old.items) }
{
    match variable {
        Some(variable) => bind(binds, variable, Bound::Value(id)),
        None => Ok(true),
    }
}

fn bind_type(binds: &mut Vec<Bound>, variable: Option<u32>, ty: Ty) -> Result<bool, AllocError>
    ensures fits { IfOk result (λ fits. fits ≡ true → Binds (past variable) (λ bs. TypeMatches bs variable ty) binds.old.items binds.new.items) }
    ensures misses { IsNext (length binds.old.items) variable → IfOk result (λ fits. fits ≡ false → Misses (λ bs. TypeMatches bs variable ty) binds.old.items) }
{
    match variable {
        Some(variable) => bind(binds, variable, Bound::Ty(ty)),
        None => Ok(true),
    }
}

fn bind_int(binds: &mut Vec<Bound>, part: Option<IntPart>, int: i64) -> Result<bool, AllocError>
    ensures fits { IfOk result (λ fits. fits ≡ true → Binds (past_int part) (λ bs. IntMatches bs part int) binds.old.items binds.new.items) }
    ensures misses { IsNextInt (length binds.old.items) part → IfOk result (λ fits. fits ≡ false → Misses (λ bs. IntMatches bs part int) binds.old.items) }
{
    match part {
        Some(IntPart::Var(variable)) => bind(binds, variable, Bound::Int(int)),
        Some(IntPart::Number(number)) => Ok(int == number),
        None => Ok(true),
    }
}

fn bind_aux(binds: &mut Vec<Bound>, variable: Option<u32>, aux: Aux) -> Result<bool, AllocError>
    ensures fits { IfOk result (λ fits. fits ≡ true → Binds (past variable) (λ bs. AuxMatches bs variable aux) binds.old.items binds.new.items) }
    ensures misses { IsNext (length binds.old.items) variable → IfOk result (λ fits. fits ≡ false → Misses (λ bs. AuxMatches bs variable aux) binds.old.items) }
{
    let Some(variable) = variable else {
        return Ok(true);
    };
    match aux {
        Aux::Nothing => Ok(false),
        Aux::Sym(symbol) => bind(binds, variable, Bound::Sym(symbol)),
        Aux::Ty(ty) => bind(binds, variable, Bound::Ty(ty)),
        Aux::Arg(place) => bind(binds, variable, Bound::Arg(place)),
    }
}

/// Binds the variables that a node names its value and the value's parts by; false where they do not fit.
pub(crate) fn bind_node(
    binds: &mut Vec<Bound>,
    name: Option<u32>,
    ty: Option<u32>,
    int: Option<IntPart>,
    aux: Option<u32>,
    value: &Value,
) -> Result<bool, AllocError>
    ensures fits { IfOk result (λ fits. fits ≡ true → Binds (parts_past name ty int aux) (λ bs. PartsMatch bs name ty int aux value.now) binds.old.items binds.new.items) }
    ensures misses { AreNext (length binds.old.items) name ty int aux → IfOk result (λ fits. fits ≡ false → Misses (λ bs. PartsMatch bs name ty int aux value.now) binds.old.items) }
{
    if !bind_name(binds, name, value.id)? {
        return Ok(false);
    }
    if !bind_type(binds, ty, value.ty)? {
        return Ok(false);
    }
    if !bind_int(binds, int, value.int)? {
        return Ok(false);
    }
    bind_aux(binds, aux, value.aux)
}

// Counts of arguments.
ghost use Rattle.std.specs.Prelude.{◌≡◌, ◌↔◌, ◌+◌, ◌<◌, [], IsTrue, Some, length, option_map, take};
ghost use Rattle.bk_func.specs.Form.Parts.{HasArity};
ghost use Rattle.bk_func.specs.Records.{SigRecord};
ghost use Rattle.bk_func.specs.Words.{register_words};
ghost use Rattle.bk_form.specs.Finds.{Finds, FindsIn};
ghost use Rattle.bk_form.specs.Names.{IsScope, measure, seen_callee};

use crate::Place;
use crate::names::{Callee, Scope};
use crate::words::in_registers;
use bk_func::{Block, Value};
use bk_ops::{Family, Target, Ty, op_info};

/// The first value whose count of arguments is not that of its op.
pub(crate) fn first_fault(scope: &Scope) -> Option<Place>
    requires { IsScope scope.now }
    ensures { Finds (λ b. Unit {0}) (λ b v. HasArity (measure scope.now) scope.now.func.now b v v.op.family) scope.now.func.now result }
{
    let func = scope.func;
    for block in &func.blocks {
        let fault = fault_in(scope, block);
        if fault.is_some() {
            return fault;
        }
    }
    None
}

fn fault_in(scope: &Scope, block: &Block) -> Option<Place>
    requires { IsScope scope.now }
    ensures { FindsIn (λ b. Unit {0}) (λ b v. HasArity (measure scope.now) scope.now.func.now b v v.op.family) block.now result }
{
    for value in &block.values {
        if !has_arity(scope, block, value) {
            return Some(Place::Value(value.id));
        }
    }
    None
}

/// A phi has an argument for each predecessor and one at least, a call and the results of a function have those of
/// the signature and memory, in registers the first of them, any other op as many as its row says.
fn has_arity(scope: &Scope, block: &Block, value: &Value) -> bool
    requires { IsScope scope.now }
    ensures { IsTrue result ↔ HasArity (measure scope.now) scope.now.func.now block.now value.now value.now.op.family }
{
    match value.op.family {
        Family::Phi => takes_each(value, &block.preds),
        Family::MakeResult => has_count(value, scope.own().results.len() + 1),
        Family::RetRegs => returns_registers(value, scope.own().results, scope.target),
        Family::StaticLECall => match scope.callee_of(value.aux) {
            Some(callee) => has_count(value, callee.args.len() + 1),
            None => false,
        },
        Family::CallRegs => takes_registers_of(value, scope.callee_of(value.aux), scope.target),
        _ => match op_info(value.op).arity {
            Some(arity) => has_count(value, arity as usize),
            None => true,
        },
    }
}

fn has_count(value: &Value, count: usize) -> bool
    ensures { IsTrue result ↔ (length value.now.args ≡ count) }
{
    value.args.len() == count
}

/// Whether there is an argument for each predecessor, and one at least.
fn takes_each(value: &Value, preds: &[u32]) -> bool
    ensures { IsTrue result ↔ ((length value.now.args ≡ length preds.now) × ¬ (value.now.args ≡ [])) }
{
    has_count(value, preds.len()) && is_more(value, 0)
}

/// Whether there are more arguments than this.
fn is_more(value: &Value, count: usize) -> bool
    ensures { IsTrue result ↔ (count < length value.now.args) }
{
    count < value.args.len()
}

/// Whether the arguments are those of the types that are passed in registers, and memory.
fn takes_registers(value: &Value, types: &[Ty], target: Target) -> bool
    ensures { IsTrue result ↔ (length value.now.args ≡ length (take (register_words target) types.now) + 1) }
{
    has_count(value, in_registers(types, target).len() + 1)
}

/// The same of the arguments of a callee.
fn takes_registers_of(value: &Value, callee: Option<Callee>, target: Target) -> bool
    ensures { IsTrue result ↔ ((g : SigRecord) × (option_map seen_callee callee.entry ≡ Some g) × (length value.now.args ≡ length (take (register_words target) g.args) + 1)) }
{
    match callee {
        Some(callee) => takes_registers(value, callee.args, target),
        None => false,
    }
}

/// Whether the arguments are those of the types that are passed in registers, at least one, and memory.
fn returns_registers(value: &Value, types: &[Ty], target: Target) -> bool
    ensures { IsTrue result ↔ ((length value.now.args ≡ length (take (register_words target) types.now) + 1) × (1 < length value.now.args)) }
{
    takes_registers(value, types, target) && is_more(value, 1)
}

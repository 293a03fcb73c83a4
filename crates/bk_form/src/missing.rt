// Numbers, symbols and argument places that name what they should.
ghost use Rattle.std.specs.Prelude.{◌≡◌, ◌↔◌, IsTrue, IfSome};
ghost use Rattle.bk_func.specs.Form.Parts.{NamesInBlock, NamesInValue, FitsSymbol, IsValueNumber, symbol_of};
ghost use Rattle.bk_form.specs.Finds.{Finds, FindsIn};
ghost use Rattle.bk_form.specs.Names.{IsScope, seen_symbol, measure};

use crate::Place;
use crate::names::Scope;
use bk_func::{Aux, Block, Value};
use bk_ops::{ArmOp, Family, RvOp};

/// What the symbol of an op names.
#[derive(Clone, Copy)]
pub(crate) enum Symbol {
    Nothing,
    Func,
    Var,
    Arg,
}

/// The first block or value whose number is not its own, or that names nothing or two things.
pub(crate) fn first_fault(scope: &Scope) -> Option<Place>
    requires { IsScope scope.now }
    ensures { Finds (NamesInBlock scope.now.func.now) (λ b v. NamesInValue (measure scope.now) scope.now.func.now v) scope.now.func.now result }
{
    let func = scope.func;
    for block in &func.blocks {
        let fault = fault_in(scope, block);
        if fault.is_some() {
            return fault;
        }
    }
    None
}

fn fault_in(scope: &Scope, block: &Block) -> Option<Place>
    requires { IsScope scope.now }
    ensures { FindsIn (NamesInBlock scope.now.func.now) (λ b v. NamesInValue (measure scope.now) scope.now.func.now v) block.now result }
{
    if !names_in_block(scope, block) {
        return Some(Place::Block(block.id));
    }
    for value in &block.values {
        if !names_in_value(scope, value) {
            return Some(Place::Value(value.id));
        }
    }
    None
}

/// Whether the block's numbers name one thing each.
fn names_in_block(scope: &Scope, block: &Block) -> bool
    requires { IsScope scope.now }
    ensures { IsTrue result ↔ NamesInBlock scope.now.func.now block.now }
{
    scope.is_block(block.id)
        && scope.are_blocks(&block.preds)
        && scope.are_blocks(&block.succs)
        && names_control(scope, block.control)
}

fn names_control(scope: &Scope, control: Option<u32>) -> bool
    requires { IsScope scope.now }
    ensures { IsTrue result ↔ IfSome control (IsValueNumber scope.now.func.now) }
{
    match control {
        Some(control) => scope.is_value(control),
        None => true,
    }
}

/// Whether the value's numbers name one thing each, and so does what stands beside it.
fn names_in_value(scope: &Scope, value: &Value) -> bool
    requires { IsScope scope.now }
    ensures { IsTrue result ↔ NamesInValue (measure scope.now) scope.now.func.now value.now }
{
    scope.is_value(value.id)
        && scope.are_values(value.args.as_slice())
        && fits_symbol(scope, symbol_of(value.op.family), value.aux)
}

/// Whether the value has a symbol or the place of an argument exactly where its op has one, and it is one
/// of the kind that the op needs.
fn fits_symbol(scope: &Scope, symbol: Symbol, aux: Aux) -> bool
    requires { IsScope scope.now }
    ensures { IsTrue result ↔ FitsSymbol (measure scope.now) scope.now.func.now (seen_symbol symbol) aux }
{
    match symbol {
        Symbol::Nothing => match aux {
            Aux::Nothing | Aux::Ty(_) => true,
            Aux::Sym(_) | Aux::Arg(_) => false,
        },
        Symbol::Func => match aux {
            Aux::Sym(symbol) => scope.callee(symbol).is_some(),
            Aux::Nothing | Aux::Ty(_) | Aux::Arg(_) => false,
        },
        Symbol::Var => match aux {
            Aux::Sym(symbol) => scope.is_var(symbol),
            Aux::Nothing | Aux::Ty(_) | Aux::Arg(_) => false,
        },
        Symbol::Arg => match aux {
            Aux::Arg(place) => (place as usize) < scope.own().args.len(),
            Aux::Nothing | Aux::Ty(_) | Aux::Sym(_) => false,
        },
    }
}

fn symbol_of(family: Family) -> Symbol
    ensures { seen_symbol result ≡ symbol_of family }
{
    match family {
        Family::StaticLECall | Family::Call | Family::CallRegs => Symbol::Func,
        Family::Addr => Symbol::Var,
        Family::Arm(op) => arm_symbol(op),
        Family::Rv(op) => rv_symbol(op),
        Family::Arg => Symbol::Arg,
        _ => Symbol::Nothing,
    }
}

fn arm_symbol(op: ArmOp) -> Symbol
    ensures { seen_symbol result ≡ symbol_of (Family.Arm op) }
{
    match op {
        ArmOp::Addr => Symbol::Var,
        _ => Symbol::Nothing,
    }
}

fn rv_symbol(op: RvOp) -> Symbol
    ensures { seen_symbol result ≡ symbol_of (Family.Rv op) }
{
    match op {
        RvOp::Addr => Symbol::Var,
        _ => Symbol::Nothing,
    }
}

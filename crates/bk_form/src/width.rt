// The numbers beside ops.
ghost use Rattle.std.specs.Prelude.{◌≡◌, ◌↔◌, ◌+◌, IsTrue, IfOk, length};
ghost use Rattle.std.specs.List.{All};
ghost use Rattle.bk_ops.specs.Table.{info_of, is_width};
ghost use Rattle.bk_ops.specs.declared.table.AuxKind.TheVariants.{Int as IntKind};
ghost use Rattle.bk_func.specs.Records.{BlockRecord, SigRecord};
ghost use Rattle.bk_func.specs.Form.Text.{HasBlock, HasValue};
ghost use Rattle.bk_func.specs.Form.Signatures.{ResultOf};
ghost use Rattle.bk_func.specs.Form.Parts.{HasRange, InRange, IsSigned, IsBetween, IsInRegister, IsResultWord, IsValueNumber};
ghost use Rattle.bk_form.specs.Finds.{Finds, FindsIn};
ghost use Rattle.bk_form.specs.Names.{IsScope, measure, seen_callee};
ghost use Rattle.bk_form.specs.Places.{AllNamed};
ghost use Rattle.bk_form.specs.Roots.{AreRoots};
ghost use Rattle.bk_form.specs.Sent.{AnswersCalls};
ghost use Rattle.bk_form.specs.declared.sent.Question.TheVariants.{Counted};
ghost use Rattle.bk_form.specs.Walks.{IsFlow};

use crate::Place;
use crate::flow::Flow;
use crate::names::{Callee, Scope};
use crate::sent::{Question, answers, is_marked};
use crate::words::{is_argument_word, is_between, is_in_register, is_result_word};
use bk_func::{Block, Value};
use bk_ops::{AuxKind, Family, op_info};
use std::alloc::{AllocError, Global};

/// The first value whose number beside the op is not in the op's range.
pub(crate) fn first_fault(
    alloc: Global,
    flow: &Flow,
    roots: &[Option<usize>],
) -> Result<Option<Place>, AllocError>
    requires flow { IsFlow flow.now }
    requires roots { AreRoots flow.now.scope.func.now roots.now }
    ensures { IfOk result (Finds (λ b. Unit {0}) (λ b v. HasRange (measure flow.now.scope) flow.now.scope.func.now v (info_of v.op).aux) flow.now.scope.func.now) }
{
    let counted = answers(alloc, flow, roots, Question::Counted)?;
    let fault = fault_with(&flow.scope, &counted);
    Ok(fault)
}

/// The first fault, the words being marked whose calls have a word of an argument with their number.
fn fault_with(scope: &Scope, counted: &[bool]) -> Option<Place>
    requires scope { IsScope scope.now }
    requires named { AllNamed scope.now.func.now }
    requires counted { AnswersCalls (measure scope.now) scope.now.func.now Counted counted.now }
    ensures { Finds (λ b. Unit {0}) (λ b v. HasRange (measure scope.now) scope.now.func.now v (info_of v.op).aux) scope.now.func.now result }
{
    let func = scope.func;
    for block in &func.blocks {
        let fault = fault_in(scope, counted, block);
        if fault.is_some() {
            return fault;
        }
    }
    None
}

fn fault_in(scope: &Scope, counted: &[bool], block: &Block) -> Option<Place>
    requires scope { IsScope scope.now }
    requires named { AllNamed scope.now.func.now }
    requires counted { AnswersCalls (measure scope.now) scope.now.func.now Counted counted.now }
    requires block { HasBlock scope.now.func.now block.now }
    ensures { FindsIn (λ b. Unit {0}) (λ b v. HasRange (measure scope.now) scope.now.func.now v (info_of v.op).aux) block.now result }
{
    for value in &block.values {
        if !fits(scope, counted, value) {
            return Some(Place::Value(value.id));
        }
    }
    None
}

/// Whether the number is in the op's range, and 0 beside an op that has none.
fn fits(scope: &Scope, counted: &[bool], value: &Value) -> bool
    requires scope { IsScope scope.now }
    requires named { AllNamed scope.now.func.now }
    requires counted { AnswersCalls (measure scope.now) scope.now.func.now Counted counted.now }
    requires there { (b : BlockRecord) × HasValue scope.now.func.now b value.now }
    ensures { IsTrue result ↔ HasRange (measure scope.now) scope.now.func.now value.now (info_of value.now.op).aux }
{
    match op_info(value.op).aux {
        AuxKind::Int => is_in_range(scope, counted, value),
        _ => value.int == 0,
    }
}

#[tactic(auto, unfolding(bk_func::specs::Form::Parts::InRange))]
fn is_in_range(scope: &Scope, counted: &[bool], value: &Value) -> bool
    requires scope { IsScope scope.now }
    requires named { AllNamed scope.now.func.now }
    requires counted { AnswersCalls (measure scope.now) scope.now.func.now Counted counted.now }
    requires there { (b : BlockRecord) × HasValue scope.now.func.now b value.now }
    requires op { (info_of value.now.op).aux ≡ IntKind }
    ensures { IsTrue result ↔ InRange (measure scope.now) scope.now.func.now value.now value.now.op.family }
{
    match value.op.family {
        Family::Const => is_signed(value.op.a, value.int),
        Family::ConstBool => is_between(value.int, 0, 2),
        Family::Trap => is_between(value.int, 1, 7),
        Family::SelectN => is_result(scope, value),
        Family::ArgWord => is_argument_word(scope, scope.own(), value.int),
        Family::RetWord => is_result_word(scope, scope.own(), value.int),
        Family::OutWord => is_marked(scope, counted, value),
        Family::ResWord => is_word_of_result(scope, value),
        Family::ArgReg => is_in_register(scope, scope.own().args, value.int),
        Family::ResReg => is_register_of_result(scope, value),
        _ => is_signed(64, value.int),
    }
}

/// Whether the number is one of this many bits with a sign.
fn is_signed(bits: u8, int: i64) -> bool
    requires { IsTrue (is_width bits) }
    ensures { IsTrue result ↔ IsSigned bits int }
{
    match bits {
        8 => -128 <= int && int <= 127,
        16 => -32_768 <= int && int <= 32_767,
        32 => -2_147_483_648 <= int && int <= 2_147_483_647,
        _ => true,
    }
}

/// Whether the number is that of a result of the value's call, or of the memory behind the last.
fn is_result(scope: &Scope, value: &Value) -> bool
    requires scope { IsScope scope.now }
    requires named { All (IsValueNumber scope.now.func.now) value.now.args }
    ensures { IsTrue result ↔ ((g : SigRecord) × ResultOf scope.now.pkg.now scope.now.func.now value.now g × IsBetween value.now.int 0 (length g.results + 1)) }
{
    match scope.call_of(value) {
        Some(callee) => is_number_of(callee, value.int),
        None => false,
    }
}

/// Whether the number is that of a result of the callee, or of the memory behind the last.
fn is_number_of(callee: Callee, int: i64) -> bool
    ensures { IsTrue result ↔ IsBetween int 0 (length (seen_callee callee.entry).results + 1) }
{
    is_between(int, 0, callee.results.len() as u64 + 1)
}

/// Whether the number is that of a word of a result of the value's call.
fn is_word_of_result(scope: &Scope, value: &Value) -> bool
    requires scope { IsScope scope.now }
    requires named { All (IsValueNumber scope.now.func.now) value.now.args }
    ensures { IsTrue result ↔ ((g : SigRecord) × ResultOf scope.now.pkg.now scope.now.func.now value.now g × IsResultWord (measure scope.now) g value.now.int) }
{
    match scope.call_of(value) {
        Some(callee) => is_result_word(scope, callee, value.int),
        None => false,
    }
}

/// Whether the number is that of a result of the value's call that is passed in a register.
fn is_register_of_result(scope: &Scope, value: &Value) -> bool
    requires scope { IsScope scope.now }
    requires named { All (IsValueNumber scope.now.func.now) value.now.args }
    ensures { IsTrue result ↔ ((g : SigRecord) × ResultOf scope.now.pkg.now scope.now.func.now value.now g × IsInRegister (measure scope.now) g.results value.now.int) }
{
    match scope.call_of(value) {
        Some(callee) => is_in_register(scope, callee.results, value.int),
        None => false,
    }
}

// Types.
ghost use Rattle.std.specs.Prelude.{◌≡◌, ◌↔◌, ◌⊎◌, ℕ, [], IsTrue, IfOk, MatchOption, Some, option_map, true};
ghost use Rattle.std.specs.List.{All, slice_get};
ghost use Rattle.std.specs.Option.{option_copied};
ghost use Rattle.bk_ops.specs.Table.{info_of, is_op};
ghost use Rattle.bk_ops.specs.declared.family.Family.TheVariants.{OutWord, MakeResult, Sb};
ghost use Rattle.bk_ops.specs.declared.types.Ty.TheVariants.{Bool as Truth, Mem};
ghost use Rattle.bk_func.specs.declared.parts.Kind.TheVariants.{Ret};
ghost use Rattle.bk_func.specs.Records.{ValueRecord, BlockRecord, SigRecord};
ghost use Rattle.bk_func.specs.Form.Text.{HasBlock, HasValue};
ghost use Rattle.bk_func.specs.Form.Signatures.{ResultOf, ArgumentOf, in_registers};
ghost use Rattle.bk_func.specs.Form.Parts.{IsValueNumber};
ghost use Rattle.bk_func.specs.Form.Shapes.{HasControlType, FitsControl, IsMemory, HasTypes, Gives, GivesWord, GivesResults, GivesByType, GivesList, GivesArgument, GivesResult, FitsAux, FitsPlace, FitsList, FitsSlot, FitsStored, FitsWordOf, FitsPlaceOf, IsAlike, IsData, IsFree, is_call_of, argument};
ghost use Rattle.bk_form.specs.Finds.{Finds, FindsIn};
ghost use Rattle.bk_form.specs.Names.{IsScope, measure, seen_callee};
ghost use Rattle.bk_form.specs.Places.{AllNamed, root_with};
ghost use Rattle.bk_form.specs.Roots.{AreRoots};
ghost use Rattle.bk_form.specs.Sent.{AnswersCalls, FitsCalls};
ghost use Rattle.bk_form.specs.declared.sent.Question.TheVariants.{Misfit};
ghost use Rattle.bk_form.specs.Walks.{IsFlow};
ghost use Rattle.bk_form.specs.Slots.{seen_slot};

use crate::Place;
use crate::flow::Flow;
use crate::names::{Callee, Scope};
use crate::places::Node;
use crate::sent::{Question, answers, is_marked};
use crate::shape::{Slot, alike, is_data, is_op, slot_of, word_width};
use crate::words::{fits_place, fits_word, in_registers, place_of};
use bk_func::{Aux, Block, Kind, Value};
use bk_ops::{Class, Family, Ty, is_word_call, op_info, width};
use std::alloc::{AllocError, Global};

/// The first block whose control, or value that itself or its arguments, do not have the types they should.
pub(crate) fn first_fault(
    alloc: Global,
    flow: &Flow,
    roots: &[Option<usize>],
) -> Result<Option<Place>, AllocError>
    requires flow { IsFlow flow.now }
    requires roots { AreRoots flow.now.scope.func.now roots.now }
    ensures { IfOk result (Finds (HasControlType (measure flow.now.scope) flow.now.scope.func.now) (λ b v. HasTypes (measure flow.now.scope) flow.now.scope.func.now v) flow.now.scope.func.now) }
{
    let misfits = answers(alloc, flow, roots, Question::Misfit)?;
    let fault = fault_with(&flow.scope, roots, &misfits);
    Ok(fault)
}

/// The first fault, the words that do not fit their calls being marked.
fn fault_with(scope: &Scope, roots: &[Option<usize>], misfits: &[bool]) -> Option<Place>
    requires scope { IsScope scope.now }
    requires named { AllNamed scope.now.func.now }
    requires roots { AreRoots scope.now.func.now roots.now }
    requires misfits { AnswersCalls (measure scope.now) scope.now.func.now Misfit misfits.now }
    ensures { Finds (HasControlType (measure scope.now) scope.now.func.now) (λ b v. HasTypes (measure scope.now) scope.now.func.now v) scope.now.func.now result }
{
    let func = scope.func;
    for block in &func.blocks {
        let fault = fault_in(scope, roots, misfits, block);
        if fault.is_some() {
            return fault;
        }
    }
    None
}

fn fault_in(
    scope: &Scope,
    roots: &[Option<usize>],
    misfits: &[bool],
    block: &Block,
) -> Option<Place>
    requires scope { IsScope scope.now }
    requires named { AllNamed scope.now.func.now }
    requires roots { AreRoots scope.now.func.now roots.now }
    requires misfits { AnswersCalls (measure scope.now) scope.now.func.now Misfit misfits.now }
    requires block { HasBlock scope.now.func.now block.now }
    ensures { FindsIn (HasControlType (measure scope.now) scope.now.func.now) (λ b v. HasTypes (measure scope.now) scope.now.func.now v) block.now result }
{
    if !control_fits(scope, roots, block) {
        return Some(Place::Block(block.id));
    }
    for value in &block.values {
        if !fits(scope, misfits, value) {
            return Some(Place::Value(value.id));
        }
    }
    None
}

/// Whether the control is what the kind of the block takes.
fn control_fits(scope: &Scope, roots: &[Option<usize>], block: &Block) -> bool
    requires scope { IsScope scope.now }
    requires named { AllNamed scope.now.func.now }
    requires roots { AreRoots scope.now.func.now roots.now }
    requires block { HasBlock scope.now.func.now block.now }
    ensures { IsTrue result ↔ HasControlType (measure scope.now) scope.now.func.now block.now }
{
    match block.control {
        Some(control) => match scope.value(control) {
            Some(value) => kind_fits(scope, roots, value, block.kind),
            None => true,
        },
        None => true,
    }
}

/// Whether the control is a truth value, the end of a function or memory, by the kind of the block.
fn kind_fits(scope: &Scope, roots: &[Option<usize>], control: &Value, kind: Kind) -> bool
    requires scope { IsScope scope.now }
    requires named { AllNamed scope.now.func.now }
    requires roots { AreRoots scope.now.func.now roots.now }
    requires there { (b : BlockRecord) × HasValue scope.now.func.now b control.now }
    ensures { IsTrue result ↔ FitsControl (measure scope.now) scope.now.func.now control.now kind }
{
    match kind {
        Kind::Plain | Kind::First => true,
        Kind::If => is_free_truth(control),
        Kind::Ret => is_ending(scope, roots, control),
        Kind::Exit => is_state(scope, roots, control),
    }
}

/// Whether a function may return with the control.
fn is_ending(scope: &Scope, roots: &[Option<usize>], control: &Value) -> bool
    requires scope { IsScope scope.now }
    requires named { AllNamed scope.now.func.now }
    requires roots { AreRoots scope.now.func.now roots.now }
    requires there { (b : BlockRecord) × HasValue scope.now.func.now b control.now }
    ensures { IsTrue result ↔ FitsControl (measure scope.now) scope.now.func.now control.now Ret }
{
    match control.op.family {
        Family::MakeResult | Family::RetWord | Family::RetRegs => true,
        _ => has_no_results(scope) && is_memory(scope, roots, control),
    }
}

fn has_no_results(scope: &Scope) -> bool
    ensures { IsTrue result ↔ (scope.now.func.now.sig.results ≡ []) }
{
    scope.own().results.is_empty()
}

/// Whether the value stands for memory.
fn is_memory(scope: &Scope, roots: &[Option<usize>], value: &Value) -> bool
    requires scope { IsScope scope.now }
    requires named { AllNamed scope.now.func.now }
    requires roots { AreRoots scope.now.func.now roots.now }
    requires there { (b : BlockRecord) × HasValue scope.now.func.now b value.now }
    ensures { IsTrue result ↔ IsMemory scope.now.func.now value.now.id (λ u. Unit {0}) }
{
    match root_of(scope, roots, value.id) {
        Some(root) => is_mem(root.ty),
        None => false,
    }
}

/// Whether the value stands for memory other than the results of the function.
fn is_state(scope: &Scope, roots: &[Option<usize>], value: &Value) -> bool
    requires scope { IsScope scope.now }
    requires named { AllNamed scope.now.func.now }
    requires roots { AreRoots scope.now.func.now roots.now }
    requires there { (b : BlockRecord) × HasValue scope.now.func.now b value.now }
    ensures { IsTrue result ↔ IsMemory scope.now.func.now value.now.id (λ u. ¬ (u.op.family ≡ MakeResult)) }
{
    match root_of(scope, roots, value.id) {
        Some(root) => is_open(root),
        None => false,
    }
}

/// The value that the number stands for, through copies of memory.
#[tactic(auto, unfolding(crate::specs::Places::root_with))]
fn root_of<'a>(scope: &Scope<'a>, roots: &[Option<usize>], id: u32) -> Option<&'a Value>
    requires scope { IsScope scope.now }
    ensures { option_copied result ≡ root_with scope.now.func.now roots.now id }
{
    let nodes: &'a [Node<'a>] = scope.nodes;
    let place = scope.numbers.value(id)?;
    let root = roots.get(place).copied().unwrap_or(None)?;
    let node = nodes.get(root)?;
    Some(node.value)
}

fn is_mem(ty: Ty) -> bool
    ensures { IsTrue result ↔ (ty ≡ Mem) }
{
    match ty {
        Ty::Mem => true,
        _ => false,
    }
}

/// Whether the value is memory, and not the results of the function.
fn is_open(value: &Value) -> bool
    ensures { IsTrue result ↔ (value.now.ty ≡ Mem) × ¬ (value.now.op.family ≡ MakeResult) }
{
    is_mem(value.ty) && !is_results(value)
}

fn is_results(value: &Value) -> bool
    ensures { IsTrue result ↔ (value.now.op.family ≡ MakeResult) }
{
    match value.op.family {
        Family::MakeResult => true,
        _ => false,
    }
}

/// Whether the value is one of an op, and its types fit the op's row.
fn fits(scope: &Scope, misfits: &[bool], value: &Value) -> bool
    requires scope { IsScope scope.now }
    requires named { AllNamed scope.now.func.now }
    requires misfits { AnswersCalls (measure scope.now) scope.now.func.now Misfit misfits.now }
    requires there { (b : BlockRecord) × HasValue scope.now.func.now b value.now }
    ensures { IsTrue result ↔ HasTypes (measure scope.now) scope.now.func.now value.now }
{
    gives_as_row(scope, value) && takes_as_row(scope, misfits, value)
}

/// Whether the value is one of an op, and gives what the op's row says.
fn gives_as_row(scope: &Scope, value: &Value) -> bool
    requires scope { IsScope scope.now }
    requires named { All (IsValueNumber scope.now.func.now) value.now.args }
    ensures { IsTrue result ↔ (is_op value.now.op.family value.now.op.a value.now.op.b ≡ true) × Gives (measure scope.now) scope.now.func.now value.now (info_of value.now.op).result }
{
    is_op(value.op) && gives(scope, value, op_info(value.op).result)
}

/// Whether the value takes what the op's row says.
fn takes_as_row(scope: &Scope, misfits: &[bool], value: &Value) -> bool
    requires scope { IsScope scope.now }
    requires named { AllNamed scope.now.func.now }
    requires misfits { AnswersCalls (measure scope.now) scope.now.func.now Misfit misfits.now }
    requires there { (b : BlockRecord) × HasValue scope.now.func.now b value.now }
    ensures { IsTrue result ↔ FitsAux (measure scope.now) value.now.op.family value.now.aux × ((i : ℕ) (b : BlockRecord) (u : ValueRecord) → HasValue scope.now.func.now b u → slice_get value.now.args i ≡ Some u.id → FitsPlace (measure scope.now) scope.now.func.now value.now value.now.op.family i u) }
{
    aux_fits(scope, value.op.family, value.aux)
        && args_fit(scope, value, fits_calls(scope, misfits, value))
}

/// Of a word, whether it fits the signatures of all calls that take it.
fn fits_calls(scope: &Scope, misfits: &[bool], value: &Value) -> bool
    requires scope { IsScope scope.now }
    requires number { IsValueNumber scope.now.func.now value.now.id }
    requires misfits { AnswersCalls (measure scope.now) scope.now.func.now Misfit misfits.now }
    requires there { (b : BlockRecord) × HasValue scope.now.func.now b value.now }
    ensures { value.now.op.family ≡ OutWord → IsTrue result ↔ FitsCalls (measure scope.now) scope.now.func.now value.now }
{
    !is_marked(scope, misfits, value)
}

/// Whether a store names a type that it writes, and no other op names one.
#[tactic(auto, unfolding(bk_func::specs::Form::Shapes::FitsAux))]
fn aux_fits(scope: &Scope, family: Family, aux: Aux) -> bool
    ensures { IsTrue result ↔ FitsAux (measure scope.now) family aux }
{
    match family {
        Family::Store => match aux {
            Aux::Ty(ty) => is_data(ty, scope.target),
            _ => false,
        },
        _ => match aux {
            Aux::Ty(_) => false,
            _ => true,
        },
    }
}

/// Whether the value's own type is one that an op of the class gives.
fn gives(scope: &Scope, value: &Value, class: Class) -> bool
    requires scope { IsScope scope.now }
    requires named { All (IsValueNumber scope.now.func.now) value.now.args }
    ensures { IsTrue result ↔ Gives (measure scope.now) scope.now.func.now value.now class }
{
    let bits = width(value.ty, scope.target);
    match class {
        Class::Number(wanted) => bits == wanted as u32,
        Class::Word => gives_word(scope, value),
        Class::Bool => value.ty == Ty::Bool,
        Class::Mem => value.ty == Ty::Mem,
        Class::Void => value.ty == Ty::Void || bits == word_width(scope.target),
        Class::Tuple => gives_results(scope, value),
        Class::ByType => gives_by_type(scope, value),
    }
}

/// A machine word, but of a signature's word a type that fits it.
#[tactic(auto, unfolding(bk_func::specs::Form::Shapes::GivesWord))]
fn gives_word(scope: &Scope, value: &Value) -> bool
    requires scope { IsScope scope.now }
    requires named { All (IsValueNumber scope.now.func.now) value.now.args }
    ensures { IsTrue result ↔ GivesWord (measure scope.now) scope.now.func.now value.now value.now.op.family }
{
    match value.op.family {
        Family::ArgWord => fits_own_word(scope, value.int, value.ty),
        Family::ResWord => gives_result_word(scope, value),
        Family::ArgReg => fits_own_register(scope, value.int, value.ty),
        Family::ResReg => gives_result_register(scope, value),
        _ => width(value.ty, scope.target) == word_width(scope.target),
    }
}

/// Whether the type is one of data that fits the word of the function's own signature.
fn fits_own_word(scope: &Scope, int: i64, ty: Ty) -> bool
    ensures { IsTrue result ↔ IsData (measure scope.now) ty × FitsWordOf (measure scope.now) scope.now.func.now.sig int ty }
{
    is_data(ty, scope.target) && fits_word(scope, scope.own(), int, ty)
}

/// Whether the value is one of data that fits its word of the results of its call.
fn gives_result_word(scope: &Scope, value: &Value) -> bool
    requires scope { IsScope scope.now }
    requires named { All (IsValueNumber scope.now.func.now) value.now.args }
    ensures { IsTrue result ↔ IsData (measure scope.now) value.now.ty × ((g : SigRecord) → ResultOf scope.now.pkg.now scope.now.func.now value.now g → FitsWordOf (measure scope.now) g value.now.int value.now.ty) }
{
    is_data(value.ty, scope.target) && fits_word_of_result(scope, value)
}

/// Whether the type is one of data that fits the argument of the function that is passed in this register.
fn fits_own_register(scope: &Scope, int: i64, ty: Ty) -> bool
    ensures { IsTrue result ↔ IsData (measure scope.now) ty × FitsPlaceOf (measure scope.now) scope.now.func.now.sig.args int ty }
{
    is_data(ty, scope.target) && fits_place(scope, scope.own().args, int, ty)
}

/// Whether the value is one of data that fits the result of its call that is passed in its register.
fn gives_result_register(scope: &Scope, value: &Value) -> bool
    requires scope { IsScope scope.now }
    requires named { All (IsValueNumber scope.now.func.now) value.now.args }
    ensures { IsTrue result ↔ IsData (measure scope.now) value.now.ty × ((g : SigRecord) → ResultOf scope.now.pkg.now scope.now.func.now value.now g → FitsPlaceOf (measure scope.now) g.results value.now.int value.now.ty) }
{
    is_data(value.ty, scope.target) && fits_result(scope, value)
}

/// Whether the value fits the result of its call with its number, if the signature has one.
fn fits_result(scope: &Scope, value: &Value) -> bool
    requires scope { IsScope scope.now }
    requires named { All (IsValueNumber scope.now.func.now) value.now.args }
    ensures { IsTrue result ↔ ((g : SigRecord) → ResultOf scope.now.pkg.now scope.now.func.now value.now g → FitsPlaceOf (measure scope.now) g.results value.now.int value.now.ty) }
{
    match scope.call_of(value) {
        Some(callee) => fits_place(scope, callee.results, value.int, value.ty),
        None => true,
    }
}

/// Whether the value fits its word of the results of its call, if the signature has one.
fn fits_word_of_result(scope: &Scope, value: &Value) -> bool
    requires scope { IsScope scope.now }
    requires named { All (IsValueNumber scope.now.func.now) value.now.args }
    ensures { IsTrue result ↔ ((g : SigRecord) → ResultOf scope.now.pkg.now scope.now.func.now value.now g → FitsWordOf (measure scope.now) g value.now.int value.now.ty) }
{
    match scope.call_of(value) {
        Some(callee) => fits_word(scope, callee, value.int, value.ty),
        None => true,
    }
}

/// A call or the results of a function: a list, but memory alone where there is no result.
#[tactic(auto, unfolding(bk_func::specs::Form::Shapes::GivesResults))]
fn gives_results(scope: &Scope, value: &Value) -> bool
    requires { IsScope scope.now }
    ensures { IsTrue result ↔ GivesResults (measure scope.now) scope.now.func.now value.now value.now.op.family }
{
    match value.op.family {
        Family::MakeResult => gives_list(Some(scope.own()), value.ty),
        _ => gives_list(scope.callee_of(value.aux), value.ty),
    }
}

fn gives_list(callee: Option<Callee>, ty: Ty) -> bool
    ensures { IsTrue result ↔ GivesList (option_map seen_callee callee.entry) ty }
{
    match callee {
        Some(callee) => {
            if callee.results.is_empty() {
                ty == Ty::Mem
            } else {
                ty == Ty::Tuple
            }
        }
        None => false,
    }
}

#[tactic(auto, unfolding(bk_func::specs::Form::Shapes::GivesByType))]
fn gives_by_type(scope: &Scope, value: &Value) -> bool
    requires scope { IsScope scope.now }
    requires named { All (IsValueNumber scope.now.func.now) value.now.args }
    ensures { IsTrue result ↔ GivesByType (measure scope.now) scope.now.func.now value.now value.now.op.family }
{
    match value.op.family {
        Family::Phi | Family::Copy => value.ty == Ty::Mem || is_data(value.ty, scope.target),
        Family::Arg => gives_argument(scope, scope.own().args, value.aux, value.ty),
        Family::SelectN => gives_result_of(scope, value),
        _ => is_data(value.ty, scope.target),
    }
}

/// The type of the argument at a place of the signature.
fn gives_argument(scope: &Scope, types: &[Ty], aux: Aux, ty: Ty) -> bool
    ensures { IsTrue result ↔ GivesArgument (measure scope.now) types.now aux ty }
{
    match aux {
        Aux::Arg(place) => match types.get(place as usize) {
            Some(other) => alike(*other, ty, scope.target),
            None => false,
        },
        _ => false,
    }
}

/// The result of a call.
fn gives_result_of(scope: &Scope, value: &Value) -> bool
    requires scope { IsScope scope.now }
    requires named { All (IsValueNumber scope.now.func.now) value.now.args }
    ensures { IsTrue result ↔ ((g : SigRecord) × ResultOf scope.now.pkg.now scope.now.func.now value.now g × GivesResult (measure scope.now) g.results value.now.int value.now.ty) }
{
    match scope.call_of(value) {
        Some(callee) => gives_result(scope, callee.results, value.int, value.ty),
        None => false,
    }
}

/// Memory after the last result. A number past that has no type to fit.
fn gives_result(scope: &Scope, types: &[Ty], int: i64, ty: Ty) -> bool
    ensures { IsTrue result ↔ GivesResult (measure scope.now) types.now int ty }
{
    let Some(place) = place_of(int) else {
        return true
    };
    match types.get(place) {
        Some(other) => alike(*other, ty, scope.target),
        None => place != types.len() || ty == Ty::Mem,
    }
}

/// Whether each argument fits its place, `word_fits` telling whether a word fits the calls that take it.
fn args_fit(scope: &Scope, value: &Value, word_fits: bool) -> bool
    requires scope { IsScope scope.now }
    requires named { All (IsValueNumber scope.now.func.now) value.now.args }
    requires word { value.now.op.family ≡ OutWord → IsTrue word_fits ↔ FitsCalls (measure scope.now) scope.now.func.now value.now }
    ensures { IsTrue result ↔ ((i : ℕ) (b : BlockRecord) (u : ValueRecord) → HasValue scope.now.func.now b u → slice_get value.now.args i ≡ Some u.id → FitsPlace (measure scope.now) scope.now.func.now value.now value.now.op.family i u) }
{
    let args = value.args.as_slice();
    for (place, id) in args.iter().enumerate() {
        if !arg_fits(scope, value, place, *id, word_fits) {
            return false;
        }
    }
    true
}

/// Whether the one value with the number fits the place.
fn arg_fits(scope: &Scope, value: &Value, place: usize, id: u32, word_fits: bool) -> bool
    requires scope { IsScope scope.now }
    requires named { IsValueNumber scope.now.func.now id }
    requires at { slice_get value.now.args place ≡ Some id }
    requires word { value.now.op.family ≡ OutWord → IsTrue word_fits ↔ FitsCalls (measure scope.now) scope.now.func.now value.now }
    ensures { IsTrue result ↔ ((b : BlockRecord) (u : ValueRecord) → HasValue scope.now.func.now b u → u.id ≡ id → FitsPlace (measure scope.now) scope.now.func.now value.now value.now.op.family place u) }
{
    match scope.value(id) {
        Some(arg) => place_fits(scope, value, place, arg, word_fits),
        None => true,
    }
}

#[tactic(auto, unfolding(bk_func::specs::Form::Shapes::FitsPlace))]
fn place_fits(scope: &Scope, value: &Value, place: usize, arg: &Value, word_fits: bool) -> bool
    requires scope { IsScope scope.now }
    requires word { value.now.op.family ≡ OutWord → place ≡ 0 → IsTrue word_fits ↔ ((g : SigRecord) → ArgumentOf scope.now.pkg.now scope.now.func.now value.now g → FitsWordOf (measure scope.now) g value.now.int arg.now.ty) }
    ensures { IsTrue result ↔ FitsPlace (measure scope.now) scope.now.func.now value.now value.now.op.family place arg.now }
{
    match value.op.family {
        Family::StaticLECall => list_fits(scope, scope.callee_of(value.aux), place, arg),
        Family::MakeResult => types_fit(scope, scope.own().results, place, arg),
        Family::CallRegs => registers_fit(scope, scope.callee_of(value.aux), place, arg),
        Family::RetRegs => own_registers_fit(scope, place, arg),
        _ => slot_fits(scope, value, arg, slot_of(value.op, place), word_fits),
    }
}

/// Whether the argument fits the place of the list of a callee's arguments.
fn list_fits(scope: &Scope, callee: Option<Callee>, place: usize, arg: &Value) -> bool
    ensures { IsTrue result ↔ FitsList (measure scope.now) (option_map seen_callee callee.entry) (λ g. g.args) place arg.now }
{
    match callee {
        Some(callee) => types_fit(scope, callee.args, place, arg),
        None => false,
    }
}

/// The same of the list of those of them that are passed in registers.
fn registers_fit(scope: &Scope, callee: Option<Callee>, place: usize, arg: &Value) -> bool
    ensures { IsTrue result ↔ FitsList (measure scope.now) (option_map seen_callee callee.entry) (λ g. in_registers (measure scope.now) g.args) place arg.now }
{
    match callee {
        Some(callee) => types_fit(scope, in_registers(callee.args, scope.target), place, arg),
        None => false,
    }
}

/// Whether the argument fits the place of the function's results that are passed in registers.
fn own_registers_fit(scope: &Scope, place: usize, arg: &Value) -> bool
    ensures { IsTrue result ↔ FitsList (measure scope.now) (Some scope.now.func.now.sig) (λ g. in_registers (measure scope.now) g.results) place arg.now }
{
    let results = in_registers(scope.own().results, scope.target);
    types_fit(scope, results, place, arg)
}

/// Whether the argument fits the place of a list of types with memory behind it.
fn types_fit(scope: &Scope, types: &[Ty], place: usize, arg: &Value) -> bool
    ensures { IsTrue result ↔ MatchOption (slice_get types.now place) (arg.now.ty ≡ Mem) (λ x. IsFree arg.now × IsAlike (measure scope.now) x arg.now.ty) }
{
    match types.get(place) {
        Some(ty) => is_free(arg) && alike(*ty, arg.ty, scope.target),
        None => arg.ty == Ty::Mem,
    }
}

/// The base of the variables is an argument of addresses alone.
fn is_free(arg: &Value) -> bool
    ensures { IsTrue result ↔ IsFree arg.now }
{
    !is_base(arg)
}

fn is_free_data(scope: &Scope, arg: &Value) -> bool
    ensures { IsTrue result ↔ IsFree arg.now × IsData (measure scope.now) arg.now.ty }
{
    is_free(arg) && is_data(arg.ty, scope.target)
}

fn is_free_truth(arg: &Value) -> bool
    ensures { IsTrue result ↔ IsFree arg.now × (arg.now.ty ≡ Truth) }
{
    is_free(arg) && arg.ty == Ty::Bool
}

fn is_base(arg: &Value) -> bool
    ensures { IsTrue result ↔ (arg.now.op.family ≡ Sb) }
{
    match arg.op.family {
        Family::Sb => true,
        _ => false,
    }
}

fn slot_fits(scope: &Scope, value: &Value, arg: &Value, slot: Slot, word_fits: bool) -> bool
    requires { seen_slot slot ≡ argument → IsTrue word_fits ↔ ((g : SigRecord) → ArgumentOf scope.now.pkg.now scope.now.func.now value.now g → FitsWordOf (measure scope.now) g value.now.int arg.now.ty) }
    ensures { IsTrue result ↔ FitsSlot (measure scope.now) scope.now.func.now value.now arg.now (seen_slot slot) }
{
    let bits = width(arg.ty, scope.target);
    match slot {
        Slot::Bits(wanted) => is_free(arg) && bits == wanted as u32,
        Slot::Word => is_free(arg) && bits == word_width(scope.target),
        Slot::Bool => is_free_truth(arg),
        Slot::Mem => arg.ty == Ty::Mem,
        Slot::Same => same_fits(scope, value.ty, arg),
        Slot::Stored => stored_fits(scope, value.aux, arg),
        Slot::Base => is_base(arg),
        Slot::Call => is_call_for(value.op.family, arg.op.family),
        Slot::Argument => is_free_data(scope, arg) && word_fits,
        Slot::Result => is_word_fit(scope, value, arg),
    }
}

/// Whether the argument has the type that the value itself has.
fn same_fits(scope: &Scope, ty: Ty, arg: &Value) -> bool
    ensures { IsTrue result ↔ ((ty ≡ Mem) × (arg.now.ty ≡ Mem)) ⊎ (IsFree arg.now × IsAlike (measure scope.now) ty arg.now.ty) }
{
    (ty == Ty::Mem && arg.ty == Ty::Mem) || (is_free(arg) && alike(ty, arg.ty, scope.target))
}

/// Whether the argument has the type that the value stores.
fn stored_fits(scope: &Scope, aux: Aux, arg: &Value) -> bool
    ensures { IsTrue result ↔ IsFree arg.now × FitsStored (measure scope.now) aux arg.now.ty }
{
    match aux {
        Aux::Ty(ty) => is_free(arg) && alike(ty, arg.ty, scope.target),
        _ => false,
    }
}

/// Whether the argument fits its word of the function's results.
fn is_word_fit(scope: &Scope, value: &Value, arg: &Value) -> bool
    ensures { IsTrue result ↔ IsFree arg.now × IsData (measure scope.now) arg.now.ty × FitsWordOf (measure scope.now) scope.now.func.now.sig value.now.int arg.now.ty }
{
    is_free(arg) && fits_own_word(scope, value.int, arg.ty)
}

/// Whether the argument is a call of the family whose results the op takes.
fn is_call_for(family: Family, arg: Family) -> bool
    ensures { result ≡ is_call_of family arg }
{
    match family {
        Family::SelectN => match arg {
            Family::StaticLECall => true,
            _ => false,
        },
        _ => is_word_call(arg),
    }
}

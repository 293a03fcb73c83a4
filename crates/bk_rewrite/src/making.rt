// The values that a right tree makes.
ghost use Rattle.std.specs.Prelude.{◌≡◌, ◌+◌, ◌-◌, ◌<◌, ◌≤◌, ◌^◌, ◌++◌, [], ◌∷◌, pos, length, slice_get, nat_le, ◌&&◌, if◌then◌else◌, IfOk, IfErr, OnOk};
ghost use Rattle.bk_func.specs.Edits.{value_of as made_of};
ghost use Rattle.bk_num.specs.Word.{signed, residue};
ghost use Rattle.bk_rule.specs.Trees.{op};
ghost use Rattle.bk_ops.specs.declared.family.Family.TheVariants.{Copy};
ghost use Rattle.bk_func.specs.declared.parts.Aux.TheVariants.{Nothing};
ghost use Rattle.bk_rule.specs.Bindings.{value_in, type_in};
ghost use Rattle.bk_rewrite.specs.Making.{source, unsigned, result_type, type_made, kept_as, int_made, aux_in, aux_made, values_made, name_made, each_made, each_name, inner_made, root_made, refused};

use bk_func::{Aux, Func, RewriteError, Value};
use bk_num::{residue, sext};
use bk_ops::{Class, Family, Op, Target, Ty, op_info};
use bk_rule::{Bound, Build, Expr, TyPart, aux_value};
use smallvec::SmallVec;
use std::alloc::{AllocError, Global};

/// Why an application stopped.
#[derive(Clone, Copy)]
pub(crate) enum Stop {
    /// A value more than the limit was asked for.
    Grown,
    Memory,
}

impl From<AllocError> for Stop {
    ghost use Rattle.std.specs.Prelude.{◌≡◌};
    ghost use Rattle.bk_rewrite.specs.declared.making.Stop.TheVariants.{Memory as OutOfMemory};

    ghost from_gives = { λ _ stop. stop ≡ OutOfMemory };

    fn from(_error: AllocError) -> Self {
        Stop::Memory
    }
}

/// The most values that a function has while it is rewritten.
pub(crate) const VALUE_LIMIT: usize = 32_768;

/// The refusal that it is to a caller.
pub(crate) fn refusal(stop: Stop) -> RewriteError
    ensures { result ≡ refused stop }
{
    match stop {
        Stop::Grown => RewriteError::Grown {
            values: VALUE_LIMIT as u64 + 1,
        },
        Stop::Memory => RewriteError::Memory,
    }
}

/// What a right tree is made from: the function as it is before, the bindings, the greatest number of a
/// value, and how many more values may be made.
#[derive(Clone, Copy)]
pub(crate) struct Plan<'a> {
    pub(crate) func: &'a Func,
    pub(crate) binds: &'a [Bound],
    pub(crate) target: Target,
    pub(crate) greatest: u32,
    pub(crate) room: usize,
}

/// What stands in place of the matched value; the inner values of the tree go into the list.
pub(crate) fn make_root(
    alloc: Global,
    plan: &Plan,
    build: &Build,
    id: u32,
    old: Ty,
    made: &mut Vec<Value>,
) -> Result<Value, Stop>
    requires empty { made.old.items ≡ [] }
    requires numbers { plan.now.greatest + plan.now.room < 2 ^ 32 }
    ensures root { IfOk result (λ v. v ≡ root_made (source plan.now.func.now plan.now.binds.now plan.now.target) id old build.now (plan.now.greatest + 1)) }
    ensures made { OnOk result (made.new.items ≡ inner_made (source plan.now.func.now plan.now.binds.now plan.now.target) build.now (plan.now.greatest + 1)) }
    ensures room { OnOk result (length made.new.items ≤ plan.now.room) }
    ensures grown { IfErr result (λ e. e ≡ Stop.Grown → plan.now.room < length (inner_made (source plan.now.func.now plan.now.binds.now plan.now.target) build.now (plan.now.greatest + 1))) }
{
    match build {
        Build::Var(variable) => copy_of(alloc, id, old, value_of(plan.binds, *variable)),
        Build::Node {
            op,
            ty,
            int,
            aux,
            args,
        } => {
            let args = make_args(alloc, plan, args.as_slice(), made)?;
            Ok(node_value(
                plan,
                id,
                *op,
                type_of(plan.binds, *ty, old),
                args,
                int,
                aux_of(plan.binds, *aux),
            ))
        }
    }
}

fn copy_of(alloc: Global, id: u32, ty: Ty, source: u32) -> Result<Value, Stop>
    ensures copy { IfOk result (λ v. v ≡ made_of id (op Copy 0 0) ty (source ∷ []) (pos 0) Nothing) }
    ensures memory { IfErr result (λ e. e ≡ Stop.Memory) }
{
    let args = SmallVec::from_slice(alloc, &[source])?;
    Ok(Value {
        id,
        op: Op {
            family: Family::Copy,
            a: 0,
            b: 0,
        },
        ty,
        args,
        int: 0,
        aux: Aux::Nothing,
    })
}

/// Makes a tree below the root: puts its values last in the list, arguments first, and gives the number
/// that names the tree.
#[cycle(make)]
fn make(alloc: Global, plan: &Plan, build: &Build, made: &mut Vec<Value>) -> Result<u32, Stop>
    requires room { length made.old.items ≤ plan.now.room }
    requires numbers { plan.now.greatest + plan.now.room < 2 ^ 32 }
    ensures name { IfOk result (λ id. id ≡ name_made (source plan.now.func.now plan.now.binds.now plan.now.target) build.now (plan.now.greatest + 1 + length made.old.items)) }
    ensures made { OnOk result (made.new.items ≡ made.old.items ++ values_made (source plan.now.func.now plan.now.binds.now plan.now.target) build.now (plan.now.greatest + 1 + length made.old.items)) }
    ensures room { OnOk result (length made.new.items ≤ plan.now.room) }
    ensures grown { IfErr result (λ e. e ≡ Stop.Grown → plan.now.room < length made.old.items + length (values_made (source plan.now.func.now plan.now.binds.now plan.now.target) build.now (plan.now.greatest + 1 + length made.old.items))) }
{
    match build {
        Build::Var(variable) => Ok(value_of(plan.binds, *variable)),
        Build::Node {
            op,
            ty,
            int,
            aux,
            args,
        } => {
            let args = make_args(alloc, plan, args.as_slice(), made)?;
            if made.len() >= plan.room {
                return Err(Stop::Grown);
            }
            let id = plan.greatest + 1 + made.len() as u32;
            push_value(
                made,
                node_value(
                    plan,
                    id,
                    *op,
                    type_of(plan.binds, *ty, type_by(*op)),
                    args,
                    int,
                    aux_of(plan.binds, *aux),
                ),
            )?;
            Ok(id)
        }
    }
}

#[cycle(make)]
fn make_args(
    alloc: Global,
    plan: &Plan,
    builds: &[Build],
    made: &mut Vec<Value>,
) -> Result<SmallVec<u32, 4>, Stop>
    requires room { length made.old.items ≤ plan.now.room }
    requires numbers { plan.now.greatest + plan.now.room < 2 ^ 32 }
    ensures names { IfOk result (λ ids. ids.items ≡ each_name (source plan.now.func.now plan.now.binds.now plan.now.target) builds.now (plan.now.greatest + 1 + length made.old.items)) }
    ensures made { OnOk result (made.new.items ≡ made.old.items ++ each_made (source plan.now.func.now plan.now.binds.now plan.now.target) builds.now (plan.now.greatest + 1 + length made.old.items)) }
    ensures room { OnOk result (length made.new.items ≤ plan.now.room) }
    ensures grown { IfErr result (λ e. e ≡ Stop.Grown → plan.now.room < length made.old.items + length (each_made (source plan.now.func.now plan.now.binds.now plan.now.target) builds.now (plan.now.greatest + 1 + length made.old.items))) }
{
    let mut args = SmallVec::new(alloc);
    for build in builds {
        let id = make(alloc, plan, build, made)?;
        push_arg(&mut args, id)?;
    }
    Ok(args)
}

/// A node's value, with the AuxInt that the expression gives.
fn node_value(
    plan: &Plan,
    id: u32,
    op: Op,
    ty: Ty,
    args: SmallVec<u32, 4>,
    int: &Option<Expr>,
    aux: Aux,
) -> Value
    ensures { result ≡ made_of id op ty args.items (int_made (source plan.now.func.now plan.now.binds.now plan.now.target) op int.now) aux }
{
    let number = int_of(plan, op, int);
    new_value(id, op, ty, args, number, aux)
}

fn new_value(id: u32, op: Op, ty: Ty, args: SmallVec<u32, 4>, int: i64, aux: Aux) -> Value
    ensures { result ≡ made_of id op ty args.items int aux }
{
    Value {
        id,
        op,
        ty,
        args,
        int,
        aux,
    }
}

fn push_value(made: &mut Vec<Value>, value: Value) -> Result<(), AllocError>
    ensures { OnOk result (made.new.items ≡ made.old.items ++ value ∷ []) }
{
    made.push(value)?;
    Ok(())
}

pub(crate) fn push_arg(args: &mut SmallVec<u32, 4>, id: u32) -> Result<(), AllocError>
    ensures { OnOk result (args.new.items ≡ args.old.items ++ id ∷ []) }
{
    args.push(id)?;
    Ok(())
}

fn value_of(binds: &[Bound], variable: u32) -> u32
    ensures { result ≡ value_in (slice_get binds.now variable) }
{
    match binds.get(variable as usize) {
        Some(Bound::Value(id)) => *id,
        _ => 0,
    }
}

/// The type that the tree writes, or else the other one.
fn type_of(binds: &[Bound], part: Option<TyPart>, other: Ty) -> Ty
    ensures { result ≡ type_made binds.now part other }
{
    match part {
        None => other,
        Some(TyPart::Is(ty)) => ty,
        Some(TyPart::Var(variable)) => type_bound(binds, variable),
    }
}

fn type_bound(binds: &[Bound], variable: u32) -> Ty
    ensures { result ≡ type_in (slice_get binds.now variable) }
{
    match binds.get(variable as usize) {
        Some(Bound::Ty(ty)) => *ty,
        _ => Ty::Void,
    }
}

/// The type of an op's result where none is written.
fn type_by(op: Op) -> Ty
    ensures { result ≡ result_type op }
{
    match op_info(op).result {
        Class::Number(bits) => unsigned(bits),
        Class::Bool => Ty::Bool,
        Class::Word | Class::ByType => Ty::Ptr,
        Class::Mem => Ty::Mem,
        Class::Void => Ty::Void,
        Class::Tuple => Ty::Tuple,
    }
}

fn unsigned(bits: u8) -> Ty
    ensures { result ≡ unsigned bits }
{
    match bits {
        8 => Ty::Uint8,
        16 => Ty::Uint16,
        32 => Ty::Uint32,
        _ => Ty::Uint64,
    }
}

/// The AuxInt as the op keeps it, 0 where none is written.
fn int_of(plan: &Plan, op: Op, int: &Option<Expr>) -> i64
    ensures { result ≡ int_made (source plan.now.func.now plan.now.binds.now plan.now.target) op int.now }
{
    match int {
        None => 0,
        Some(expr) => match aux_value(plan.func, expr, plan.binds, plan.target) {
            None => 0,
            Some(number) => kept(op, number),
        },
    }
}

/// A constant of w bits is sign-extended, and a truth value is 0 or 1.
fn kept(op: Op, number: i64) -> i64
    ensures { result ≡ kept_as op.family op.a number }
{
    match op.family {
        Family::Const => sign_extended(op.a as u32, number),
        Family::ConstBool => residue(1, number as i128) as i64,
        _ => number,
    }
}

fn sign_extended(bits: u32, number: i64) -> i64
    ensures { result ≡ (if nat_le 1 bits && nat_le bits 64 then signed bits (residue bits number) else number) }
{
    if 1 <= bits && bits <= 64 {
        sext(bits, residue(bits, number as i128))
    } else {
        number
    }
}

fn aux_of(binds: &[Bound], variable: Option<u32>) -> Aux
    ensures { result ≡ aux_made binds.now variable }
{
    match variable {
        None => Aux::Nothing,
        Some(variable) => aux_bound(binds, variable),
    }
}

fn aux_bound(binds: &[Bound], variable: u32) -> Aux
    ensures { result ≡ aux_in (slice_get binds.now variable) }
{
    match binds.get(variable as usize) {
        Some(Bound::Sym(symbol)) => Aux::Sym(*symbol),
        Some(Bound::Ty(ty)) => Aux::Ty(*ty),
        Some(Bound::Arg(place)) => Aux::Arg(*place),
        _ => Aux::Nothing,
    }
}

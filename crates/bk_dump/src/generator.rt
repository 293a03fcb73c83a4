// Packages made by a rule, as loads for the compiler.
ghost use Rattle.std.specs.Prelude.{◌≡◌, ◌≤◌, ◌<◌, ◌+◌, ◌-◌, ◌^◌, ◌++◌, [], ◌∷◌, ℕ, map, string_bytes, IfOk, OnOk};
ghost use Rattle.bk_dump.specs.Generate.{family_at, constant, binary, operand, wide, next, op, initial_memory, argument, drawn, values_to, opening, closing, body, drawn_function, functions_to, names_to, generated};

use crate::generator::random::Draws;
use bk_func::{Aux, Block, Func, Kind, Likely, Memory, Package, Sig, Value};
use bk_ops::{Family, Op, Ty};
use smallvec::SmallVec;
use std::alloc::{AllocError, Global};

mod random;

/// A package of `n` functions, the same for each `n`: `fi` is `func(a int64, b int64) int64` with one block,
/// in which 8 to 64 drawn values follow the state of memory and the two arguments. Three quarters of them
/// are sums, differences, products, ands, ors and exclusive ors of earlier values, the others constants.
pub fn generate(alloc: Global, n: u64) -> Result<Package, Memory>
    requires low { 1 ≤ n }
    requires high { n ≤ 4096 }
    ensures { IfOk result (λ made. made ≡ generated n) }
{
    let mut draws = Draws { state: n };
    let names = names(alloc, n as u32)?;
    let funcs = functions(alloc, &mut draws, n as u32)?;
    Ok(Package {
        names,
        funcs,
        vars: Vec::new(alloc),
    })
}

#[tactic(auto, unfolding(crate::specs::Generate::names_to))]
fn names(alloc: Global, count: u32) -> Result<Vec<String>, AllocError>
    ensures { IfOk result (λ names. map string_bytes names.items ≡ names_to count) }
{
    let mut names = Vec::with_capacity(alloc, count as usize)?;
    for number in 0..count {
        names.push(format!(in alloc; "f{number}")?)?;
    }
    Ok(names)
}

#[tactic(auto, unfolding(crate::specs::Generate::functions_to))]
fn functions(alloc: Global, draws: &mut Draws, count: u32) -> Result<Vec<Func>, AllocError>
    requires { count ≤ 4096 }
    ensures { IfOk result (λ funcs. funcs.items ≡ (functions_to draws.old.state count).0) }
{
    let mut funcs = Vec::with_capacity(alloc, count as usize)?;
    for number in 0..count {
        funcs.push(drawn_function(alloc, draws, number)?)?;
    }
    Ok(funcs)
}

#[tactic(auto, unfolding(crate::specs::Generate::drawn_function))]
fn drawn_function(alloc: Global, draws: &mut Draws, name: u32) -> Result<Func, AllocError>
    ensures func { IfOk result (λ func. func ≡ (drawn_function name draws.old.state).0) }
    ensures state { OnOk result (draws.new.state ≡ (drawn_function name draws.old.state).1) }
{
    let count = 8 + draws.draw(57) as u32;
    let drawn = drawn_values(alloc, draws, count)?;
    let sig = Sig {
        args: vec![in alloc; Ty::Int64, Ty::Int64]?,
        results: vec![in alloc; Ty::Int64]?,
    };
    let blocks = vec![in alloc; body(alloc, count, drawn)?]?;
    Ok(Func {
        name,
        sig,
        blocks,
        given: count + 4,
    })
}

/// The values from v4 on.
#[tactic(auto, unfolding(crate::specs::Generate::values_to))]
fn drawn_values(alloc: Global, draws: &mut Draws, count: u32) -> Result<Vec<Value>, AllocError>
    requires { count ≤ 64 }
    ensures values { IfOk result (λ values. values.items ≡ (values_to draws.old.state count).0) }
    ensures state { OnOk result (draws.new.state ≡ (values_to draws.old.state count).1) }
{
    let mut values = Vec::with_capacity(alloc, count as usize)?;
    for place in 0..count {
        values.push(drawn_value(alloc, draws, 4 + place)?)?;
    }
    Ok(values)
}

#[tactic(auto, unfolding(crate::specs::Generate::drawn))]
fn drawn_value(alloc: Global, draws: &mut Draws, id: u32) -> Result<Value, AllocError>
    requires low { 4 ≤ id }
    requires high { id ≤ 68 }
    ensures value { IfOk result (λ value. value ≡ (drawn id draws.old.state).0) }
    ensures state { OnOk result (draws.new.state ≡ (drawn id draws.old.state).1) }
{
    let choice = draws.draw(8);
    if choice < 6 {
        let first = drawn_operand(draws, id);
        let second = drawn_operand(draws, id);
        binary(alloc, id, family_at(choice), first, second)
    } else if choice == 6 {
        let number = drawn_wide(draws);
        Ok(constant(alloc, id, number))
    } else {
        let number = draws.draw(2048);
        Ok(constant(alloc, id, number))
    }
}

/// The number of an argument of the value `id`: one of those from 2 on and below `id`.
fn drawn_operand(draws: &mut Draws, id: u32) -> u32
    requires low { 4 ≤ id }
    requires high { id ≤ 68 }
    ensures operand { result ≡ operand id draws.old.state }
    ensures state { draws.new.state ≡ next draws.old.state }
{
    2 + draws.draw(u64::from(id - 2)) as u32
}

/// A number of 45 bits.
fn drawn_wide(draws: &mut Draws) -> u64
    ensures number { result ≡ wide draws.old.state }
    ensures small { result < 2 ^ 45 }
    ensures state { draws.new.state ≡ next (next (next draws.old.state)) }
{
    let high = draws.draw(32_768);
    let middle = draws.draw(32_768);
    let low = draws.draw(32_768);
    high * (1 << 30) + middle * (1 << 15) + low
}

#[tactic(auto, unfolding(crate::specs::Generate::family_at))]
fn family_at(choice: u64) -> Family
    ensures { result ≡ family_at choice }
{
    match choice {
        0 => Family::Add,
        1 => Family::Sub,
        2 => Family::Mul,
        3 => Family::And,
        4 => Family::Or,
        _ => Family::Xor,
    }
}

fn binary(
    alloc: Global,
    id: u32,
    family: Family,
    first: u32,
    second: u32,
) -> Result<Value, AllocError>
    ensures { IfOk result (λ value. value ≡ binary id family first second) }
{
    Ok(Value {
        id,
        op: Op {
            family,
            a: 64,
            b: 0,
        },
        ty: Ty::Int64,
        args: SmallVec::from_slice(alloc, &[first, second])?,
        int: 0,
        aux: Aux::Nothing,
    })
}

fn constant(alloc: Global, id: u32, number: u64) -> Value
    requires { number < 2 ^ 63 }
    ensures { result ≡ constant id number }
{
    Value {
        id,
        op: Op {
            family: Family::Const,
            a: 64,
            b: 0,
        },
        ty: Ty::Int64,
        args: SmallVec::new(alloc),
        int: number as i64,
        aux: Aux::Nothing,
    }
}

fn initial_memory(alloc: Global) -> Value
    ensures { result ≡ initial_memory }
{
    Value {
        id: 1,
        op: op(Family::InitMem),
        ty: Ty::Mem,
        args: SmallVec::new(alloc),
        int: 0,
        aux: Aux::Nothing,
    }
}

fn argument(alloc: Global, id: u32, place: u32) -> Value
    ensures { result ≡ argument id place }
{
    Value {
        id,
        op: op(Family::Arg),
        ty: Ty::Int64,
        args: SmallVec::new(alloc),
        int: 0,
        aux: Aux::Arg(place),
    }
}

fn closing(alloc: Global, last: u32) -> Result<Value, AllocError>
    requires { last < 1000 }
    ensures { IfOk result (λ value. value ≡ closing last) }
{
    Ok(Value {
        id: last + 1,
        op: op(Family::MakeResult),
        ty: Ty::Tuple,
        args: SmallVec::from_slice(alloc, &[last, 1])?,
        int: 0,
        aux: Aux::Nothing,
    })
}

/// The op of a family whose names have no width.
fn op(family: Family) -> Op
    ensures { result ≡ op family 0 }
{
    Op { family, a: 0, b: 0 }
}

/// The values of a function around its drawn ones.
fn values(alloc: Global, count: u32, drawn: Vec<Value>) -> Result<Vec<Value>, AllocError>
    requires { count ≤ 64 }
    ensures { IfOk result (λ values. values.items ≡ opening ++ (drawn.items ++ closing (count + 3) ∷ [])) }
{
    let mut values = vec![in alloc;
        initial_memory(alloc),
        argument(alloc, 2, 0),
        argument(alloc, 3, 1),
    ]?;
    let mut drawn = drawn;
    values.append(&mut drawn)?;
    values.push(closing(alloc, count + 3)?)?;
    Ok(values)
}

/// The one block of a function with so many drawn values.
fn body(alloc: Global, count: u32, drawn: Vec<Value>) -> Result<Block, AllocError>
    requires { count ≤ 64 }
    ensures { IfOk result (λ block. block ≡ body count drawn.items) }
{
    Ok(Block {
        id: 1,
        kind: Kind::Ret,
        control: Some(count + 4),
        preds: Vec::new(alloc),
        succs: Vec::new(alloc),
        likely: Likely::No,
        values: values(alloc, count, drawn)?,
    })
}

// Chains of values that put numbers into words.
ghost use Rattle.std.specs.Prelude.{◌≡◌, ◌+◌, ◌++◌, ◌∷◌, [], IfOk, OnOk, length, take, drop, pos};
ghost use Rattle.bk_calls.specs.Chains.{front, last, area_word, chain, memory_after, plain};

use bk_func::{Aux, Value};
use bk_ops::{Family, Op, Ty};
use smallvec::SmallVec;
use std::alloc::{AllocError, Global};

/// An op without widths in its name.
pub(crate) fn plain(family: Family) -> Op
    ensures { result ≡ plain family }
{
    Op { family, a: 0, b: 0 }
}

/// The numbers without the last.
pub(crate) fn front(numbers: &[u32]) -> &[u32]
    ensures { result.now ≡ front numbers.now }
{
    &numbers[..numbers.len().saturating_sub(1)]
}

/// The last number, 0 where there is none.
pub(crate) fn last(numbers: &[u32]) -> u32
    ensures { result ≡ last numbers.now }
{
    match numbers.last() {
        Some(number) => *number,
        None => 0,
    }
}

/// Of the numbers those that so many registers hold: the first.
pub(crate) fn held(numbers: &[u32], registers: u32) -> &[u32]
    ensures { result.now ≡ take registers numbers.now }
{
    &numbers[..numbers.len().min(registers as usize)]
}

/// The numbers behind those that so many registers hold.
pub(crate) fn behind(numbers: &[u32], registers: u32) -> &[u32]
    ensures { result.now ≡ drop registers numbers.now }
{
    &numbers[numbers.len().min(registers as usize)..]
}

/// The numbers that so many registers hold, and memory.
pub(crate) fn handed(
    alloc: Global,
    numbers: &[u32],
    registers: u32,
    memory: u32,
) -> Result<SmallVec<u32, 4>, AllocError>
    ensures { IfOk result (λ args. args.items ≡ take registers numbers.now ++ memory ∷ []) }
{
    let mut args = SmallVec::from_slice(alloc, held(numbers, registers))?;
    args.push(memory)?;
    Ok(args)
}

/// The number of the next value and the next word, and the memory that it follows.
#[derive(Clone, Copy)]
pub(crate) struct Link {
    pub(crate) number: u32,
    pub(crate) word: u32,
    pub(crate) memory: u32,
}

/// Lists values that put numbers into words, the first by this link, each other after the one before, and gives the
/// link behind them.
pub(crate) fn push_chain(
    alloc: Global,
    made: &mut Vec<Value>,
    family: Family,
    first: Link,
    numbers: &[u32],
) -> Result<Link, AllocError>
    ensures made { OnOk result (made.new.items ≡ made.old.items ++ chain family first.number first.word first.memory numbers.now) }
    ensures number { IfOk result (λ link. link.number ≡ first.number + length numbers.now) }
    ensures word { IfOk result (λ link. link.word ≡ first.word + length numbers.now) }
    ensures memory { IfOk result (λ link. link.memory ≡ memory_after first.number first.memory numbers.now) }
{
    let mut link = first;
    for number in numbers {
        link = push_word(alloc, made, family, link, *number)?;
    }
    Ok(link)
}

/// Lists the value that puts a number into a word by this link, and gives the link behind it.
fn push_word(
    alloc: Global,
    made: &mut Vec<Value>,
    family: Family,
    link: Link,
    number: u32,
) -> Result<Link, AllocError>
    ensures made { OnOk result (made.new.items ≡ made.old.items ++ area_word family link.number link.word link.memory number ∷ []) }
    ensures number { IfOk result (λ next. next.number ≡ link.number + 1) }
    ensures word { IfOk result (λ next. next.word ≡ link.word + 1) }
    ensures memory { IfOk result (λ next. next.memory ≡ link.number) }
{
    if link.number == u32::MAX || link.word == u32::MAX {
        return Err(AllocError);
    }
    made.push(area_word(alloc, family, link, number)?)?;
    Ok(Link {
        number: link.number + 1,
        word: link.word + 1,
        memory: link.number,
    })
}

/// A value that puts a number into a word.
fn area_word(alloc: Global, family: Family, link: Link, number: u32) -> Result<Value, AllocError>
    ensures { IfOk result (λ value. value ≡ area_word family link.number link.word link.memory number) }
{
    Ok(Value {
        id: link.number,
        op: plain(family),
        ty: Ty::Mem,
        args: SmallVec::from_slice(alloc, &[number, link.memory])?,
        int: i64::from(link.word),
        aux: Aux::Nothing,
    })
}

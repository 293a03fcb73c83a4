// Copies of functions.
ghost use Rattle.std.specs.Prelude.{◌≡◌, IfOk};

use crate::{Block, Func, Memory, Sig, Value};
use bk_ops::Ty;
use smallvec::SmallVec;
use std::alloc::{AllocError, Global};

/// An equal function.
pub fn copy_func(alloc: Global, func: &Func) -> Result<Func, Memory>
    ensures { IfOk result (λ copy. copy ≡ func.now) }
{
    let sig = copy_sig(alloc, &func.sig)?;
    let blocks = copy_blocks(alloc, &func.blocks)?;
    Ok(Func {
        name: func.name,
        sig,
        blocks,
        given: func.given,
    })
}

/// An equal signature.
pub fn copy_sig(alloc: Global, sig: &Sig) -> Result<Sig, Memory>
    ensures { IfOk result (λ copy. copy ≡ sig.now) }
{
    Ok(Sig {
        args: copy_types(alloc, &sig.args)?,
        results: copy_types(alloc, &sig.results)?,
    })
}

fn copy_types(alloc: Global, types: &[Ty]) -> Result<Vec<Ty>, AllocError>
    ensures { IfOk result (λ copy. copy.items ≡ types.now) }
{
    let mut copy = Vec::with_capacity(alloc, types.len())?;
    for ty in types {
        copy.push(*ty)?;
    }
    Ok(copy)
}

fn copy_numbers(alloc: Global, numbers: &[u32]) -> Result<Vec<u32>, AllocError>
    ensures { IfOk result (λ copy. copy.items ≡ numbers.now) }
{
    let mut copy = Vec::with_capacity(alloc, numbers.len())?;
    for number in numbers {
        copy.push(*number)?;
    }
    Ok(copy)
}

fn copy_blocks(alloc: Global, blocks: &[Block]) -> Result<Vec<Block>, AllocError>
    ensures { IfOk result (λ copy. copy.items ≡ blocks.now) }
{
    let mut copy = Vec::with_capacity(alloc, blocks.len())?;
    for block in blocks {
        copy.push(copy_block(alloc, block)?)?;
    }
    Ok(copy)
}

fn copy_block(alloc: Global, block: &Block) -> Result<Block, AllocError>
    ensures { IfOk result (λ copy. copy ≡ block.now) }
{
    let preds = copy_numbers(alloc, &block.preds)?;
    let succs = copy_numbers(alloc, &block.succs)?;
    let values = copy_values(alloc, &block.values)?;
    Ok(Block {
        id: block.id,
        kind: block.kind,
        control: block.control,
        preds,
        succs,
        likely: block.likely,
        values,
    })
}

fn copy_values(alloc: Global, values: &[Value]) -> Result<Vec<Value>, AllocError>
    ensures { IfOk result (λ copy. copy.items ≡ values.now) }
{
    let mut copy = Vec::with_capacity(alloc, values.len())?;
    for value in values {
        copy.push(copy_value(alloc, value)?)?;
    }
    Ok(copy)
}

fn copy_value(alloc: Global, value: &Value) -> Result<Value, AllocError>
    ensures { IfOk result (λ copy. copy ≡ value.now) }
{
    Ok(Value {
        id: value.id,
        op: value.op,
        ty: value.ty,
        args: SmallVec::from_slice(alloc, value.args.as_slice())?,
        int: value.int,
        aux: value.aux,
    })
}

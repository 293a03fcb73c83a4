// Whether two functions are the same.
ghost use Rattle.std.specs.Prelude.{◌≡◌, true, false};

use crate::ops::same_op;
use bk_func::{Block, Func, Sig, Value};
use bk_ops::Ty;

pub(crate) fn same_func(a: &Func, b: &Func) -> bool
    ensures same { result ≡ true → a.now ≡ b.now }
    ensures other { result ≡ false → a.now ≡ b.now → ⊥ }
{
    if a.name != b.name || a.given != b.given {
        return false;
    }
    same_sig(&a.sig, &b.sig) && same_blocks(&a.blocks, &b.blocks)
}

fn same_sig(a: &Sig, b: &Sig) -> bool
    ensures same { result ≡ true → a.now ≡ b.now }
    ensures other { result ≡ false → a.now ≡ b.now → ⊥ }
{
    same_types(&a.args, &b.args) && same_types(&a.results, &b.results)
}

fn same_types(a: &[Ty], b: &[Ty]) -> bool
    ensures same { result ≡ true → a.now ≡ b.now }
    ensures other { result ≡ false → a.now ≡ b.now → ⊥ }
{
    if a.len() != b.len() {
        return false;
    }
    for (place, ty) in a.iter().enumerate() {
        if !same_type(*ty, b[place]) {
            return false;
        }
    }
    true
}

fn same_type(a: Ty, b: Ty) -> bool
    ensures same { result ≡ true → a ≡ b }
    ensures other { result ≡ false → a ≡ b → ⊥ }
{
    a == b
}

fn same_blocks(a: &[Block], b: &[Block]) -> bool
    ensures same { result ≡ true → a.now ≡ b.now }
    ensures other { result ≡ false → a.now ≡ b.now → ⊥ }
{
    if a.len() != b.len() {
        return false;
    }
    for (place, block) in a.iter().enumerate() {
        if !same_block(block, &b[place]) {
            return false;
        }
    }
    true
}

fn same_block(a: &Block, b: &Block) -> bool
    ensures same { result ≡ true → a.now ≡ b.now }
    ensures other { result ≡ false → a.now ≡ b.now → ⊥ }
{
    same_head(a, b) && same_edges(a, b) && same_values(&a.values, &b.values)
}

/// Whether the blocks have one number, kind, control and mark.
fn same_head(a: &Block, b: &Block) -> bool
    ensures same { result ≡ true → (a.now.id ≡ b.now.id) × (a.now.kind ≡ b.now.kind) × (a.now.control ≡ b.now.control) × (a.now.likely ≡ b.now.likely) }
    ensures other { result ≡ false → a.now ≡ b.now → ⊥ }
{
    if a.id != b.id || a.kind != b.kind {
        return false;
    }
    a.control == b.control && a.likely == b.likely
}

fn same_edges(a: &Block, b: &Block) -> bool
    ensures same { result ≡ true → (a.now.preds ≡ b.now.preds) × (a.now.succs ≡ b.now.succs) }
    ensures other { result ≡ false → a.now ≡ b.now → ⊥ }
{
    a.preds.as_slice() == b.preds.as_slice() && a.succs.as_slice() == b.succs.as_slice()
}

fn same_values(a: &[Value], b: &[Value]) -> bool
    ensures same { result ≡ true → a.now ≡ b.now }
    ensures other { result ≡ false → a.now ≡ b.now → ⊥ }
{
    if a.len() != b.len() {
        return false;
    }
    for (place, value) in a.iter().enumerate() {
        if !same_value(value, &b[place]) {
            return false;
        }
    }
    true
}

fn same_value(a: &Value, b: &Value) -> bool
    ensures same { result ≡ true → a.now ≡ b.now }
    ensures other { result ≡ false → a.now ≡ b.now → ⊥ }
{
    if !same_op(a.op, b.op) || a.id != b.id || a.ty != b.ty {
        return false;
    }
    same_parts(a, b)
}

/// Whether the values have the same arguments, AuxInt and aux.
fn same_parts(a: &Value, b: &Value) -> bool
    ensures same { result ≡ true → (a.now.args ≡ b.now.args) × (a.now.int ≡ b.now.int) × (a.now.aux ≡ b.now.aux) }
    ensures other { result ≡ false → a.now ≡ b.now → ⊥ }
{
    if a.int != b.int || a.aux != b.aux {
        return false;
    }
    a.args.as_slice() == b.args.as_slice()
}

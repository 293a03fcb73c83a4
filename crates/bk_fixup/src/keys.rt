// The keys of a function: what its code needs the address of.
ghost use Rattle.std.specs.Prelude.{◌≡◌, ◌++◌, IfOk, IfSome, OnOk, option_to_list};
ghost use Rattle.std.specs.List.{filter_map, All};
ghost use Rattle.std.specs.Option.{ForSome};
ghost use Rattle.bk_fixup.specs.Keys.{IsKey, symbol_key, constant_key, type_key, key_of, keys_of};

use bk_func::{Aux, Block, Func, Value};
use bk_num::residue;
use bk_ops::{ArmOp, Family, Memory, RvOp, Ty, code};
use bk_piece::Key;
use std::alloc::{AllocError, Global};

/// The keys of a function, with repeats: those of its values, blocks and values in list order, then those of the types of its
/// signature's arguments and results.
pub fn keys_of(alloc: Global, func: &Func) -> Result<Vec<Key>, Memory>
    ensures value { IfOk result (λ keys. keys.items ≡ keys_of func.now) }
    ensures keys { IfOk result (λ keys. All IsKey keys.items) }
{
    Ok(listed(alloc, func)?)
}

fn listed(alloc: Global, func: &Func) -> Result<Vec<Key>, AllocError>
    ensures value { IfOk result (λ keys. keys.items ≡ keys_of func.now) }
    ensures keys { IfOk result (λ keys. All IsKey keys.items) }
{
    let mut keys = Vec::new(alloc);
    for block in &func.blocks {
        push_values(&mut keys, &block.values)?;
    }
    push_types(&mut keys, &func.sig.args)?;
    push_types(&mut keys, &func.sig.results)?;
    Ok(keys)
}

fn push_values(keys: &mut Vec<Key>, values: &[Value]) -> Result<(), AllocError>
    ensures value { OnOk result (keys.new.items ≡ keys.old.items ++ filter_map key_of values.now) }
    ensures keys { All IsKey keys.old.items → OnOk result (All IsKey keys.new.items) }
{
    for value in values {
        push_some(keys, key_of(value))?;
    }
    Ok(())
}

fn push_types(keys: &mut Vec<Key>, types: &[Ty]) -> Result<(), AllocError>
    ensures value { OnOk result (keys.new.items ≡ keys.old.items ++ filter_map type_key types.now) }
    ensures keys { All IsKey keys.old.items → OnOk result (All IsKey keys.new.items) }
{
    for ty in types {
        push_some(keys, type_key(*ty))?;
    }
    Ok(())
}

#[tactic(auto, using(crate::proofs::Keyed::more_keys))]
fn push_some(keys: &mut Vec<Key>, key: Option<Key>) -> Result<(), AllocError>
    requires { ForSome key IsKey }
    ensures value { OnOk result (keys.new.items ≡ keys.old.items ++ option_to_list key) }
    ensures keys { All IsKey keys.old.items → OnOk result (All IsKey keys.new.items) }
{
    if let Some(key) = key {
        keys.push(key)?;
    }
    Ok(())
}

/// The key of a value: that of the symbol whose address it is or that it calls, or its constant where no two instructions
/// make it.
#[tactic(auto, unfolding(crate::specs::Keys::op_key))]
pub fn key_of(value: &Value) -> Option<Key>
    ensures value { result ≡ key_of value.now }
    ensures key { IfSome result IsKey }
{
    match value.op.family {
        Family::Call | Family::CallRegs | Family::Arm(ArmOp::Addr) | Family::Rv(RvOp::Addr) =>
            symbol_key(value.aux),
        Family::Rv(RvOp::Const) => constant_key(value.int),
        _ => None,
    }
}

fn symbol_key(aux: Aux) -> Option<Key>
    ensures value { result ≡ symbol_key aux }
    ensures key { IfSome result IsKey }
{
    match aux {
        Aux::Sym(name) => Some(Key {
            area: 0,
            key: u64::from(name) + 1,
        }),
        Aux::Nothing | Aux::Ty(_) | Aux::Arg(_) => None,
    }
}

/// The key of a constant that 32 bits with a sign don't hold.
#[tactic(auto, using(crate::proofs::Keyed::constant_not_zero))]
fn constant_key(int: i64) -> Option<Key>
    ensures value { result ≡ constant_key int }
    ensures key { IfSome result IsKey }
{
    if int >= -0x8000_0000 && int < 0x8000_0000 {
        None
    } else {
        Some(Key {
            area: 2,
            key: residue(64, i128::from(int)),
        })
    }
}

fn type_key(ty: Ty) -> Option<Key>
    ensures value { result ≡ type_key ty }
    ensures key { IfSome result IsKey }
{
    match code(ty) {
        Some(code) => Some(Key {
            area: 1,
            key: u64::from(code),
        }),
        None => None,
    }
}

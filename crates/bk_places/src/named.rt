// The numbers by which values name states.
ghost use Rattle.std.specs.Prelude.{◌≡◌, ◌↔◌, IsTrue, true};
ghost use Rattle.bk_ops.specs.Table.{info_of};
ghost use Rattle.bk_func.specs.Form.States.{CopiesMemory};
ghost use Rattle.bk_places.specs.Named.{NamesFirst, NamesIf};

use bk_func::Value;
use bk_ops::{Family, Ty, is_call_result, op_info};

/// The number of the argument by which the value names a state.
pub fn memory_argument(value: &Value) -> Option<u32>
    ensures { NamesIf value.now result }
{
    let args = value.args.as_slice();
    let count = args.len();
    if names_first(value) {
        let first = args.get(0).copied();
        return first;
    }
    if !takes_memory(value) {
        return None;
    }
    if count == 0 {
        return None;
    }
    let last = args.get(count - 1).copied();
    last
}

/// Whether the value names a state by its first argument: a copy of memory, or a result of a call.
fn names_first(value: &Value) -> bool
    ensures { IsTrue result ↔ NamesFirst value.now }
{
    copies_memory(value) || is_call_result(value.op.family)
}

/// Whether the value copies memory.
pub fn copies_memory(value: &Value) -> bool
    ensures { IsTrue result ↔ CopiesMemory value.now }
{
    match value.op.family {
        Family::Copy => value.ty == Ty::Mem,
        _ => false,
    }
}

/// Whether the op takes memory last.
fn takes_memory(value: &Value) -> bool
    ensures { IsTrue result ↔ ((info_of value.now.op).memory ≡ true) }
{
    op_info(value.op).memory
}

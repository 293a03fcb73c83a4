// Whether two ops are the same.
ghost use Rattle.std.specs.Prelude.{◌≡◌, true, false};

use bk_ops::{Family, Op};

pub(crate) fn same_op(a: Op, b: Op) -> bool
    ensures same { result ≡ true → a ≡ b }
    ensures other { result ≡ false → a ≡ b → ⊥ }
{
    if !same_family(a.family, b.family) {
        return false;
    }
    a.a == b.a && a.b == b.b
}

fn same_family(a: Family, b: Family) -> bool
    ensures same { result ≡ true → a ≡ b }
    ensures other { result ≡ false → a ≡ b → ⊥ }
{
    a == b
}

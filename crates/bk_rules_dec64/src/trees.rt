// Parts of trees that many families share.
ghost use Rattle.std.specs.Prelude.{◌≡◌, IfOk};
ghost use Rattle.bk_rules_dec64.specs.Nodes.{high, low, pair, plain, word, constant_at, shift, whole, chosen, choice};

use bk_ops::{Family, Ty};
use bk_rule::make::{make, make_with, node, op};
use bk_rule::{Build, Expr, Pattern, TyPart};
use sqlite_items::Items;
use std::alloc::{AllocError, Global};

/// `(Int64Hi x)`, x a variable.
pub(crate) fn high(alloc: Global, x: u32) -> Result<Build, AllocError>
    ensures { IfOk result (λ t. t ≡ high x) }
{
    make(alloc, op(Family::Int64Hi, 64, 0), [Build::Var(x)])
}

/// `(Int64Lo x)`, x a variable.
pub(crate) fn low(alloc: Global, x: u32) -> Result<Build, AllocError>
    ensures { IfOk result (λ t. t ≡ low x) }
{
    make(alloc, op(Family::Int64Lo, 64, 0), [Build::Var(x)])
}

/// `(Int64Make high low)`.
pub(crate) fn pair(alloc: Global, high: Build, low: Build) -> Result<Build, AllocError>
    ensures { IfOk result (λ t. t ≡ pair high low) }
{
    make(alloc, op(Family::Int64Make, 64, 0), [high, low])
}

/// `(f x)`, f an op without a width in its name.
pub(crate) fn plain(alloc: Global, f: Family, x: Build) -> Result<Build, AllocError>
    ensures { IfOk result (λ t. t ≡ plain f x) }
{
    make(alloc, op(f, 0, 0), [x])
}

/// `(f32 x y)`.
pub(crate) fn word(alloc: Global, f: Family, x: Build, y: Build) -> Result<Build, AllocError>
    ensures { IfOk result (λ t. t ≡ word f x y) }
{
    make(alloc, op(f, 32, 0), [x, y])
}

/// `(Const32 [int])`.
pub(crate) fn constant_at(alloc: Global, int: Expr) -> Result<Build, AllocError>
    ensures { IfOk result (λ t. t ≡ constant_at int) }
{
    make_with(alloc, op(Family::Const, 32, 0), int, [])
}

/// `(fwx32 x y)`, a shift of w bits.
pub(crate) fn shift(
    alloc: Global,
    f: Family,
    w: u8,
    x: Build,
    y: Build,
) -> Result<Build, AllocError>
    ensures { IfOk result (λ t. t ≡ shift f w x y) }
{
    make(alloc, op(f, w, 32), [x, y])
}

/// `(f64 x y)` of a left tree.
pub(crate) fn whole(alloc: Global, f: Family) -> Result<Pattern, AllocError>
    ensures { IfOk result (λ p. p ≡ whole f) }
{
    node(alloc, op(f, 64, 0), [Pattern::Var(0), Pattern::Var(1)])
}

/// `(CondSelect <t> x y c)` of a left tree, t the first variable.
pub(crate) fn chosen(alloc: Global) -> Result<Pattern, AllocError>
    ensures { IfOk result (λ p. p ≡ chosen) }
{
    let args = [Pattern::Var(1), Pattern::Var(2), Pattern::Var(3)];
    Ok(Pattern::Node {
        var: None,
        op: op(Family::CondSelect, 0, 0),
        ty: Some(0),
        int: None,
        aux: None,
        args: Items::from_vec(Vec::from_array(alloc, args)?),
    })
}

/// `(CondSelect <uint32> x y c)`, c the fourth variable.
pub(crate) fn choice(alloc: Global, x: Build, y: Build) -> Result<Build, AllocError>
    ensures { IfOk result (λ t. t ≡ choice x y) }
{
    Ok(Build::Node {
        op: op(Family::CondSelect, 0, 0),
        ty: Some(TyPart::Is(Ty::Uint32)),
        int: None,
        aux: None,
        args: Items::from_vec(Vec::from_array(alloc, [x, y, Build::Var(3)])?),
    })
}

// The lines of the list: families of rules, and the widths at which each stands.
ghost use Rattle.std.specs.Prelude.{◌≡◌};
ghost use Rattle.bk_rules_generic.specs.Lines.{pairs};

use bk_ops::Family;
use bk_rule::Fun;

/// A family of rules. `f` and `g` stand for ops whose names get the widths of a line, w alone or w and v.
#[derive(Clone, Copy)]
pub(crate) enum Shape {
    /// `(f (Const [c]) (Const [d])) => (Const [c g d])`.
    Fold(Family, Fun),
    /// `(f (Const [c])) => (Const [g c])`.
    FoldOne(Family, Fun),
    /// `(f (Const [k]) x) => x`.
    Unit(Family, i64),
    /// `(f (Const [k]) _) => (Const [k])`.
    Absorb(Family, i64),
    /// `(f x x) => (Const [0])`.
    Cancel(Family),
    /// `(f x x) => x`.
    Same(Family),
    /// `(f (f x)) => x`.
    Twice(Family),
    /// `(f (Const [-1]) x) => (g x)`.
    Turn(Family, Family),
    /// `(Sub x (Const [c])) => (Add (Const [-c]) x)`.
    SubConst,
    /// `(Add (Const [c]) (Add (Const [d]) x)) => (Add (Const [c+d]) x)`.
    AddTwice,
    /// `(Add x (Neg y)) => (Sub x y)`.
    AddNeg,
    /// `(Mul (Const [c]) x) && isPowerOfTwo(c) => (Lshx32 x (Const32 [log2(c)]))`.
    MulPower,
    /// `(Div x (Const [1])) => x`.
    DivOne,
    /// `(Divu x (Const [c])) && isPowerOfTwo(c) => (RshUx32 x (Const32 [log2(c)]))`.
    DivPower,
    /// `(Modu x (Const [c])) && isPowerOfTwo(c) => (And x (Const [c-1]))`.
    ModPower,
    /// `(f (Const [c]) (Const [d])) => (ConstBool [c g d])`.
    Compare(Family, Fun),
    /// `(f x x) => (ConstBool [k])`.
    CompareSame(Family, i64),
    /// `(Not (ConstBool [c])) => (ConstBool [1-c])`.
    NotConst,
    /// `(Not (f x y)) => (g x y)`.
    NotCompare(Family, Family),
    /// `(Not (f x y)) => (g y x)`.
    NotOrder(Family, Family),
    /// `(f (ConstBool [k]) x) => x`.
    TruthUnit(Family, i64),
    /// `(f (ConstBool [k]) _) => (ConstBool [k])`.
    TruthAbsorb(Family, i64),
    /// `(fwxv x (Constv [0])) => x`.
    ShiftNone(Family),
    /// `(SignExtwtov (Constw [c])) => (Constv [c])`.
    SignConst,
    /// `(ZeroExtwtov (Constw [c])) => (Constv [zextw(c)])`.
    ZeroConst,
    /// `(Truncvtow (Constv [c])) => (Constw [c])`.
    TruncConst,
    /// `(Truncvtow (fwtov x)) => x`.
    TruncExt(Family),
    /// `(Zeromask (Const32 [0])) => (Const32 [0])`.
    ZeroMask,
    /// `(Zeromask (Const32 [c])) && c != 0 => (Const32 [-1])`.
    FullMask,
    /// `(Signmask (Const32 [c])) => (Const32 [c>>63])`.
    SignMask,
    /// `(OffPtr [0] p) => p`.
    NoOffset,
    /// `(OffPtr [c] (OffPtr [d] p)) => (OffPtr [c+d] p)`.
    OffsetTwice,
    /// `(AddPtr p (Constw [c])) => (OffPtr [c] p)`.
    AddOffset,
    /// `(CondSelect x _ (ConstBool [1])) => x`.
    SelectFirst,
    /// `(CondSelect _ x (ConstBool [0])) => x`.
    SelectSecond,
}

/// The widths w and v of a line's rules, in their order.
#[derive(Clone, Copy)]
pub(crate) enum Widths {
    /// One rule; its ops have no widths but those that the family writes.
    Alone,
    /// w: 64, 32, 16, 8.
    Each,
    /// w: 64, 32.
    Words,
    /// v: 64, 32, 16, 8, and for each of them w: 64, 32, 16, 8.
    Pairs,
    /// v: 64, and w: 32, 16, 8.
    To64,
    /// v: 32, and w: 16, 8.
    To32,
}

/// A family at its widths.
#[derive(Clone, Copy)]
pub(crate) struct Line(pub(crate) Shape, pub(crate) Widths);

/// The widths w and v, in order.
#[tactic(auto, unfolding(crate::specs::Lines::pairs))]
pub(crate) fn pairs(widths: Widths) -> &'static [(u8, u8)]
    ensures { result.now ≡ pairs widths }
{
    match widths {
        Widths::Alone => &[(0, 0)],
        Widths::Each => &[(64, 0), (32, 0), (16, 0), (8, 0)],
        Widths::Words => &[(64, 0), (32, 0)],
        Widths::Pairs => &[
            (64, 64),
            (32, 64),
            (16, 64),
            (8, 64),
            (64, 32),
            (32, 32),
            (16, 32),
            (8, 32),
            (64, 16),
            (32, 16),
            (16, 16),
            (8, 16),
            (64, 8),
            (32, 8),
            (16, 8),
            (8, 8),
        ],
        Widths::To64 => &[(32, 64), (16, 64), (8, 64)],
        Widths::To32 => &[(16, 32), (8, 32)],
    }
}

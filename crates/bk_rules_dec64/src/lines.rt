// The lines of the list: families of rules, and the widths at which each stands.
ghost use Rattle.std.specs.Prelude.{◌≡◌};
ghost use Rattle.bk_rules_dec64.specs.Lines.{widths_of};

use bk_ops::Family;

/// A family of rules. `f` and `g` stand for ops whose names get the widths that the text shows. H x and L x
/// are the halves of x, `(Int64Hi x)` and `(Int64Lo x)`.
#[derive(Clone, Copy)]
pub(crate) enum Shape {
    /// `(Int64Hi (Int64Make x _)) => x`.
    HighOfPair,
    /// `(Int64Lo (Int64Make _ y)) => y`.
    LowOfPair,
    /// `(Const64 [c]) => (Int64Make (Const32 [c>>32]) (Const32 [c]))`.
    Constant,
    /// `(f64 x y) => (Int64Make (g H x H y L x L y) (f32 L x L y))`.
    Sum(Family, Family),
    /// `(f64 x y) => (Int64Make (f32 H x H y) (f32 L x L y))`.
    Each(Family),
    /// `(Com64 x) => (Int64Make (Com32 H x) (Com32 L x))`.
    Complement,
    /// `(Neg64 x) => (Sub64 (Const64 [0]) x)`.
    Negate,
    /// `(Mul64 x y) => (Int64Make (Add32 (Mul32 L x H y) (Add32 (Mul32 H x L y) (Hmul32u L x L y))) (Mul32 L x L y))`.
    Product,
    /// `(f64 x y) => (f32 (Or32 (Xor32 H x H y) (Xor32 L x L y)) (Const32 [0]))`.
    Test(Family),
    /// `(f64 x y) => (OrB (g32 H x H y) (AndB (Eq32 H x H y) (l32 L x L y)))`, l the op of the third field.
    Order(Family, Family, Family),
    /// `(SignExt32to64 x) => (Int64Make (Signmask x) x)`.
    SignAbove,
    /// `(ZeroExt32to64 x) => (Int64Make (Const32 [0]) x)`.
    ZeroAbove,
    /// `(fwto64 x) => (f32to64 (fwto32 x))`.
    Extend(Family),
    /// `(Trunc64to32 x) => L x`.
    TruncateToWord,
    /// `(Trunc64tow x) => (Trunc32tow L x)`.
    Truncate,
    /// `(fwx64 x y) => (fwx32 x (Or32 (Zeromask H y) L y))`.
    LongCount(Family),
    /// `(f64xw x y) => (f64x32 x (ZeroExtwto32 y))`.
    ShortCount(Family),
    /// `(Lsh64x32 x s)` as shifts of the halves.
    Left,
    /// `(Rsh64Ux32 x s)` as shifts of the halves.
    Right,
    /// `(Rsh64x32 x s)` as shifts of the halves.
    RightSigned,
    /// `(RotateLeft64 x k) => (Or64 (Lsh64x32 x (And32 k (Const32 [63]))) (Rsh64Ux32 x (And32 (Neg32 k) (Const32 [63]))))`.
    Rotate,
    /// `(CondSelect <t> x y c) && size(t) == 8 => (Int64Make (CondSelect <uint32> H x H y c) (CondSelect <uint32> L x L y c))`.
    Choose,
}

/// The widths w of a line's rules, in their order.
#[derive(Clone, Copy)]
pub(crate) enum Widths {
    /// One rule; its ops have no widths but those that the family writes.
    Alone,
    /// w: 64, 32, 16, 8.
    Any,
    /// w: 16, 8.
    Short,
}

/// A family at its widths.
#[derive(Clone, Copy)]
pub(crate) struct Line(pub(crate) Shape, pub(crate) Widths);

/// The widths, in order.
#[tactic(auto, unfolding(crate::specs::Lines::widths_of))]
pub(crate) fn widths_of(widths: Widths) -> &'static [u8]
    ensures { result.now ≡ widths_of widths }
{
    match widths {
        Widths::Alone => &[0],
        Widths::Any => &[64, 32, 16, 8],
        Widths::Short => &[16, 8],
    }
}

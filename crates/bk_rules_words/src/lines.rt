// The lines of a list: families of rules, and the widths at which each stands.
ghost use Rattle.std.specs.Prelude.{◌≡◌};
ghost use Rattle.bk_rules_words.specs.Lines.{pairs};

use bk_ops::Family;

/// Which numbers may stand beside a machine op.
#[derive(Clone, Copy)]
pub enum Fits {
    /// `is12(n)`.
    Is12,
    /// `armimm(n)`.
    ArmImm,
    /// `ult(n,most)`.
    Below(i64),
    /// `ult(n-1,most)`.
    FromOne(i64),
}

/// A family of rules. `f` stands for an op whose name gets the widths of a line, w alone or w and v;
/// `e` for an extension, `u` for the width of a machine's words, and the others for machine ops: `k`
/// for the one of constants, `i` for one with a number beside it.
#[derive(Clone, Copy)]
pub enum Shape {
    /// `(f [c]) => (k [c])`.
    Constant(Family, Family),
    /// `(ConstNil) => (k [0])`.
    Nil(Family),
    /// `(Addr {s} _) => (m {s})`.
    Address(Family),
    /// `(f x) => (m x)`.
    One(Family, Family),
    /// `(f x y) => (m x y)`.
    Two(Family, Family),
    /// `(f x y z) => (m x y z)`.
    Three(Family, Family),
    /// `(f a b c d) => (m a b c d)`.
    Four(Family, Family),
    /// `(f x) => (m [n] x)`.
    OneWith(Family, Family, i64),
    /// `(OffPtr [c] p) => (m p (k [c]))`.
    Offset(Family, Family),
    /// `(IsNonNil p) => (m p (k [0]))`.
    NotNil(Family, Family),
    /// `(f32 x y) => (m [32] (RVMUL (e32to64 x) (e32to64 y)))`.
    High(Family, Family, Family),
    /// `(fw x y) => (fu (ewtou x) (ewtou y))`.
    Widen(Family, Family, u8),
    /// `(fwxv x y) => (fuxv (ewtou x) y)`.
    WidenShift(Family, Family, u8),
    /// `(fwxv x y) => (fwxu x (ZeroExtvtou y))`.
    WidenCount(Family, u8),
    /// `(fwxv x y) => (fuxv x y)`.
    AsWide(Family, u8),
    /// `(fwxv x y) => (m x (ZeroExtvto64 y))`.
    ShiftCount(Family, Family),
    /// `(f x y) => (m (RVXOR x y))`.
    Test(Family, Family),
    /// `(fw x y) => (m (ZeroExtwto64 (RVXOR x y)))`.
    TestLow(Family, Family),
    /// `(f x y) => (RVXORI [1] (m y x))`.
    AtMost(Family, Family),
    /// `(EqB x y) => (i [1] (m x y))`.
    EqualBools(Family, Family),
    /// `(fwtov x) => (m [64-w] (RVSLLI [64-w] x))`.
    Extend(Family, Family),
    /// `(Truncwtov x) => x`.
    Truncate,
    /// `(Signmask x) => (RVSRAI [63] (SignExt32to64 x))`.
    SignMask,
    /// `(Zeromask x) => (RVNEG (RVSNEZ (ZeroExt32to64 x)))`.
    ZeroMask,
    /// `(RotateLeft32 x k) => (RVOR (RVLSL x (RVANDI [31] k)) (RVLSR (ZeroExt32to64 x) (RVANDI [31] (RVNEG k))))`.
    RotateHalf,
    /// `(Load <t> p m) && size(t) == w => (lw p m)`.
    Load(Family),
    /// `(Store {t} p x m) && isBool(t) => (m p x m)`.
    StoreBool(Family),
    /// `(Store {t} p x m) && isBool(t) == 0 && size(t) == w => (mw p x m)`.
    Store(Family),
    /// `(Zero [c] p m) => (z [c] p m)`.
    Zero(Family),
    /// `(Move [c] p q m) => (v [c] p q m)`.
    Move(Family),
    /// `(PanicBounds _ _ m) => (TRAP [2] m)`.
    Panic,
    /// `(m x (k [c])) && fits(c) => (i [c] x)`.
    Immediate(Family, Family, Family, Fits),
    /// `(m x (k [c])) && fits(-c) => (i [-c] x)`.
    Negated(Family, Family, Family, Fits),
    /// `(lw [o] (i [c] p) m) && fits(o+c) => (lw [o+c] p m)`.
    LoadNear(Family, Family, Fits),
    /// `(mw [o] (i [c] p) x m) && fits(o+c) => (mw [o+c] p x m)`.
    StoreNear(Family, Family, Fits),
}

/// The widths w and v of a line's rules, in their order. At loads and stores w counts bytes.
#[derive(Clone, Copy)]
pub enum Widths {
    /// One rule; its ops have no widths but those that the family writes.
    Alone,
    /// w: 64.
    At64,
    /// w: 32.
    At32,
    /// w: 8.
    At8,
    /// w: 64, 32, 16, 8.
    Each,
    /// w: 32, 16, 8.
    Narrow,
    /// w: 16, 8.
    Small,
    /// v: 64, 32, 16, 8, and for each of them w: 32, 16, 8.
    NarrowByEach,
    /// w: 64, 32, 16, 8, and for each of them v: 32, 16, 8.
    EachByNarrow,
    /// w: 64, 32, 16, 8, and v: 64.
    EachBy64,
    /// w: 64, and v: 32, 16, 8.
    At64ByNarrow,
    /// w: 64, and v: 64.
    At64By64,
    /// v: 16, 8, and for each of them w: 32, 16, 8.
    NarrowBySmall,
    /// w: 16, 8, and v: 32.
    SmallBy32,
    /// w: 32, and v: 32.
    At32By32,
    /// w: 8, 16, 32, and for each of them v: 16, 32, 64 where it is above w.
    Rising,
    /// w: 16, 32, 64, and for each of them v: 8, 16, 32 where it is below w.
    Falling,
    /// w: 8, and v: 16, 32.
    From8,
    /// w: 16, and v: 32.
    From16,
    /// w: 16, 32, and for each of them v: 8, 16 where it is below w.
    FallingTo32,
    /// w: 8, 4, 2, 1.
    UpTo8,
    /// w: 4, 2, 1.
    UpTo4,
}

/// A family at its widths.
#[derive(Clone, Copy)]
pub struct Line(pub Shape, pub Widths);

const NARROW_BY_EACH: [(u8, u8); 12] = [
    (32, 64),
    (16, 64),
    (8, 64),
    (32, 32),
    (16, 32),
    (8, 32),
    (32, 16),
    (16, 16),
    (8, 16),
    (32, 8),
    (16, 8),
    (8, 8),
];

const EACH_BY_NARROW: [(u8, u8); 12] = [
    (64, 32),
    (64, 16),
    (64, 8),
    (32, 32),
    (32, 16),
    (32, 8),
    (16, 32),
    (16, 16),
    (16, 8),
    (8, 32),
    (8, 16),
    (8, 8),
];

/// The widths w and v, in order.
#[tactic(auto, unfolding(crate::specs::Lines::pairs))]
pub(crate) fn pairs(widths: Widths) -> &'static [(u8, u8)]
    ensures { result.now ≡ pairs widths }
{
    match widths {
        Widths::Alone => &[(0, 0)],
        Widths::At64 => &[(64, 0)],
        Widths::At32 => &[(32, 0)],
        Widths::At8 => &[(8, 0)],
        Widths::Each => &[(64, 0), (32, 0), (16, 0), (8, 0)],
        Widths::Narrow => &[(32, 0), (16, 0), (8, 0)],
        Widths::Small => &[(16, 0), (8, 0)],
        Widths::NarrowByEach => &NARROW_BY_EACH,
        Widths::EachByNarrow => &EACH_BY_NARROW,
        Widths::EachBy64 => &[(64, 64), (32, 64), (16, 64), (8, 64)],
        Widths::At64ByNarrow => &[(64, 32), (64, 16), (64, 8)],
        Widths::At64By64 => &[(64, 64)],
        Widths::NarrowBySmall => &[(32, 16), (16, 16), (8, 16), (32, 8), (16, 8), (8, 8)],
        Widths::SmallBy32 => &[(16, 32), (8, 32)],
        Widths::At32By32 => &[(32, 32)],
        Widths::Rising => &[(8, 16), (8, 32), (8, 64), (16, 32), (16, 64), (32, 64)],
        Widths::Falling => &[(16, 8), (32, 8), (32, 16), (64, 8), (64, 16), (64, 32)],
        Widths::From8 => &[(8, 16), (8, 32)],
        Widths::From16 => &[(16, 32)],
        Widths::FallingTo32 => &[(16, 8), (32, 8), (32, 16)],
        Widths::UpTo8 => &[(8, 0), (4, 0), (2, 0), (1, 0)],
        Widths::UpTo4 => &[(4, 0), (2, 0), (1, 0)],
    }
}

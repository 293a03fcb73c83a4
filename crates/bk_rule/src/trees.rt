// The trees of rules.
use bk_ops::{Op, Ty};
use sqlite_items::Items;

/// A rewrite rule, `left && conds => right`: where the left tree stands at a value and each condition
/// holds, the right tree may be made in its place.
///
/// The rules are those of Go's `cmd/compile/internal/ssa`. A u32 in a tree is a variable. The variables
/// of a rule are numbered from 0 in the order in which they first appear in its text: the left tree
/// from its root, each node before its arguments, then the conditions and the right tree.
#[derive(Drop)]
pub struct Rule {
    pub left: Pattern,
    pub conds: Items<Expr>,
    pub right: Build,
}

/// The left tree of a rule.
#[derive(Drop)]
pub enum Pattern {
    /// `_`: any value.
    Any,
    /// A variable: any value at its first place, the same value at each further one.
    Var(u32),
    /// `var:(op <ty> [int] {aux} args)`. A part that is absent matches anything.
    Node {
        /// Names the value on which the node stands.
        var: Option<u32>,
        op: Op,
        /// Names the value's type.
        ty: Option<u32>,
        int: Option<IntPart>,
        /// Names the symbol, the type or the argument's place that stands beside the value.
        aux: Option<u32>,
        args: Items<Pattern>,
    },
}

/// An AuxInt of a left tree.
#[derive(Clone, Copy, PartialEq, Eq, Debug)]
pub enum IntPart {
    /// This number alone.
    Number(i64),
    /// Any number, which the variable names.
    Var(u32),
}

/// The right tree of a rule.
#[derive(Drop)]
pub enum Build {
    /// What the variable names.
    Var(u32),
    /// `(op <ty> [int] {aux} args)`. An AuxInt that is absent is 0; a type that is absent is that of the
    /// op's result; where the aux is absent, there is none.
    Node {
        op: Op,
        ty: Option<TyPart>,
        int: Option<Expr>,
        aux: Option<u32>,
        args: Items<Build>,
    },
}

/// The type of a node of a right tree.
#[derive(Clone, Copy, PartialEq, Eq, Debug)]
pub enum TyPart {
    Is(Ty),
    Var(u32),
}

/// An expression over numbers of 64 bits in two's complement.
#[derive(Drop)]
pub enum Expr {
    Number(i64),
    Var(u32),
    Call { fun: Fun, args: Items<Expr> },
}

/// An operator or a function of expressions. A truth value is 1 or 0, and a number other than 0 is true.
#[derive(Clone, Copy, PartialEq, Eq, Debug)]
pub enum Fun {
    /// `-e`.
    Neg,
    /// `^e`: all bits turned.
    Com,
    /// `*`.
    Mul,
    /// `<<`, by an unsigned count; 0 at counts of 64 and above.
    Shl,
    /// `>>`, arithmetic, by an unsigned count; the sign fill at counts of 64 and above.
    Shr,
    /// `&`.
    And,
    /// `+`.
    Add,
    /// `-`.
    Sub,
    /// `|`.
    Or,
    /// `^`.
    Xor,
    /// `==`.
    Eq,
    /// `!=`.
    Ne,
    /// `<`.
    Lt,
    /// `<=`.
    Le,
    /// `isPowerOfTwo(e)`: e is a power of two above 0.
    IsPowerOfTwo,
    /// `log2(e)`: the exponent; it has a value for a power of two alone.
    Log2,
    /// `ult(e,e)`: less, without a sign.
    Ult,
    /// `ule(e,e)`: less or equal, without a sign.
    Ule,
    /// `zext8(e)`: the low 8 bits.
    Zext8,
    /// `zext16(e)`: the low 16 bits.
    Zext16,
    /// `zext32(e)`: the low 32 bits.
    Zext32,
    /// `is12(e)`: e is from -2048 to 2047.
    Is12,
    /// `armimm(e)`: the low 32 bits are a byte rotated right by an even number, as A32's immediates are.
    ArmImm,
    /// `size(t)`: the bytes of a value of the type on the target.
    Size,
    /// `isBool(t)`: the type is `bool`.
    IsBool,
    /// `x.Uses`: how many argument places and controls name the value.
    Uses,
}

/// What a variable of a rule is bound to.
#[derive(Clone, Copy, PartialEq, Eq, Debug)]
pub enum Bound {
    /// The number of a value.
    Value(u32),
    Int(i64),
    Ty(Ty),
    /// The number of a function's or a variable's name.
    Sym(u32),
    /// The place of an argument of the function.
    Arg(u32),
}

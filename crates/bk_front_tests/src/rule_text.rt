// Rules that are read and printed, and refusals with their lines.
use bk_rule_text::{RuleError, print_rules, read_rules};
use std::alloc::Global;
use std::test::Fail;

/// What the rules of a text are printed as.
fn printed(alloc: Global, text: &[u8], extra: bool) -> Result<Vec<u8>, RuleError> {
    let rules = read_rules(alloc, text, extra)?;
    match print_rules(alloc, &rules) {
        Ok(text) => Ok(text),
        Err(_) => Err(RuleError::Memory),
    }
}

/// Texts, and what their rules are printed as.
const READ: [(&str, &str); 24] = [
    ("", ""),
    (" \t\n# (\n  // \x01\r\n\n", ""),
    ("\t(Add32 y x)=>x \r\n", "(Add32 x0 x1) => x1\n"),
    (
        "(Add32 x y) => x\n(Load p m) => p",
        "(Add32 x0 x1) => x0\n(Load x0 x1) => x0\n",
    ),
    (
        "(Add32 a:(Neg32 b) _) && a.Uses == 1=>a",
        "(Add32 x0:(Neg32 x1) _) && x0.Uses == 1 => x0\n",
    ),
    (
        "r : ( Neg8 x )&& r.Uses=>x",
        "x0:(Neg8 x1) && x0.Uses => x1\n",
    ),
    ("(Neg8 ...) => (Com8 ...)", "(Neg8 x0) => (Com8 x0)\n"),
    (
        "( Zero... )=>(ARMZERO ...)",
        "(Zero [x0] x1 x2) => (ARMZERO [x0] x1 x2)\n",
    ),
    (
        "(Store ...) => (Store ...)",
        "(Store {x0} x1 x2 x3) => (Store {x0} x1 x2 x3)\n",
    ),
    (
        "(Addr {s} _) => (ARMADDR {s})",
        "(Addr {x0} _) => (ARMADDR {x0})\n",
    ),
    (
        "(CondSelect <t> x y c) && size(t) == 8 => (Int64Make (CondSelect <uint32> x x c) (CondSelect <t> y y c))",
        "(CondSelect <x0> x1 x2 x3) && size(x0) == 8 => (Int64Make (CondSelect <uint32> x1 x1 x3) (CondSelect <x0> x2 x2 x3))\n",
    ),
    (
        "(Store {t} p x m) && isBool(t) == 0 && size (t) == (4|2) => (ARMSTORE(4|2) p x m)",
        "(Store {x0} x1 x2 x3) && isBool(x0) == 0 && size(x0) == 4 => (ARMSTORE4 x1 x2 x3)\n(Store {x0} x1 x2 x3) && isBool(x0) == 0 && size(x0) == 2 => (ARMSTORE2 x1 x2 x3)\n",
    ),
    (
        "(Const64 [c]) => (Const64 [-c*2+ -3<<c--1])",
        "(Const64 [x0]) => (Const64 [(((- x0) * 2) + (-3 << x0)) - -1])\n",
    ),
    (
        "(Const64 [c]) => (Const64 [c&c|c^c])",
        "(Const64 [x0]) => (Const64 [((x0 & x0) | x0) ^ x0])\n",
    ),
    (
        "(Const64 [c]) => (Const64 [c<c<=c!=c>>1])",
        "(Const64 [x0]) => (Const64 [((x0 < x0) <= x0) != (x0 >> 1)])\n",
    ),
    (
        "(Const64 [c]) => (Const64 [^(^ c)])",
        "(Const64 [x0]) => (Const64 [^ (^ x0)])\n",
    ),
    (
        "(Const64 [-9223372036854775808]) => (Const64 [9223372036854775807])",
        "(Const64 [-9223372036854775808]) => (Const64 [9223372036854775807])\n",
    ),
    (
        "(Const64 [c]) && c-1 == - 5 => (Const64 [- 0])",
        "(Const64 [x0]) && (x0 - 1) == (- 5) => (Const64 [- 0])\n",
    ),
    (
        "(Lsh64x64 x (Const64 [c])) && ult( c-1 , 31 ) && is12(-c) => (Lsh64x32 x (Const32 [log2(zext8(c))]))",
        "(Lsh64x64 x0 (Const64 [x1])) && ult((x1 - 1),31) && is12((- x1)) => (Lsh64x32 x0 (Const32 [log2(zext8(x1))]))\n",
    ),
    (
        "(Add64 (Const64 [c]) (Const64 [d])) => (Const64 [(c|d)])",
        "(Add64 (Const64 [x0]) (Const64 [x1])) => (Const64 [x0])\n(Add64 (Const64 [x0]) (Const64 [x1])) => (Const64 [x1])\n",
    ),
    (
        "(Add64 (Const64 [c]) (Const64 [d])) => (Const64 [(c | d)])",
        "(Add64 (Const64 [x0]) (Const64 [x1])) => (Const64 [x0 | x1])\n",
    ),
    (
        "(ARMLOAD(4|2|1) [o] (ARMADDI [c] p) m) && ult(o+c,256) => (ARMLOAD(4|2|1) [o+c] p m)",
        "(ARMLOAD4 [x0] (ARMADDI [x1] x2) x3) && ult((x0 + x1),256) => (ARMLOAD4 [x0 + x1] x2 x3)\n(ARMLOAD2 [x0] (ARMADDI [x1] x2) x3) && ult((x0 + x1),256) => (ARMLOAD2 [x0 + x1] x2 x3)\n(ARMLOAD1 [x0] (ARMADDI [x1] x2) x3) && ult((x0 + x1),256) => (ARMLOAD1 [x0 + x1] x2 x3)\n",
    ),
    (
        "(ConstNil) => (ARMCONST [ -1 ])",
        "(ConstNil) => (ARMCONST [-1])\n",
    ),
    (
        "(ConstBool [ 0 ]) => (ConstBool[1])",
        "(ConstBool [0]) => (ConstBool [1])\n",
    ),
];

#[test]
fn rules_that_are_read(rt: HostRuntime) -> Result<(), Fail> {
    for (text, wanted) in READ {
        assert_eq!(rt;
            refusal(rt.alloc(), text.as_bytes(), false),
            None,
            "{text:?}"
        );
        let found = printed(rt.alloc(), text.as_bytes(), false)?;
        assert_eq!(rt; str::from_utf8(&found)?, wanted, "{text:?}");
        let again = printed(rt.alloc(), &found, false)?;
        assert_eq!(rt; str::from_utf8(&again)?, wanted, "{text:?} again");
    }
    Ok(())
}

/// Texts of extra rules, and what they are printed as.
const EXTRA: [(&str, &str); 7] = [
    (
        "(Add(16|8) x x) => (Lsh(16|8)x8 x (Const8 [1]))",
        "(Add16 x0 x0) => (Lsh16x8 x0 (Const8 [1]))\n(Add8 x0 x0) => (Lsh8x8 x0 (Const8 [1]))\n",
    ),
    (
        "(And16 x (Const16 [c])) && isPowerOfTwo(c) => (And16 (Const16 [c]) x)",
        "(And16 x0 (Const16 [x1])) && isPowerOfTwo(x1) => (And16 (Const16 [x1]) x0)\n",
    ),
    (
        "(EqB x x) => (ConstBool [1])",
        "(EqB x0 x0) => (ConstBool [1])\n",
    ),
    (
        "(Add32 ...) => (Sub32 ...)",
        "(Add32 x0 x1) => (Sub32 x0 x1)\n",
    ),
    (
        "(Const32 <t> [c]) => (Const32 <t> [c])",
        "(Const32 <x0> [x1]) => (Const32 <x0> [x1])\n",
    ),
    (
        "(Lsh32x64 x y) => (Lsh32x32 x (Trunc64to32 y))",
        "(Lsh32x64 x0 x1) => (Lsh32x32 x0 (Trunc64to32 x1))\n",
    ),
    (
        "(Eq16 (Const16 [c]) (ZeroExt8to16 x))=>(Neq8 <bool> (Const8 <int8> [c]) x)",
        "(Eq16 (Const16 [x0]) (ZeroExt8to16 x1)) => (Neq8 <bool> (Const8 <int8> [x0]) x1)\n",
    ),
];

#[test]
fn extra_rules_that_are_read(rt: HostRuntime) -> Result<(), Fail> {
    for (text, wanted) in EXTRA {
        assert_eq!(rt;
            refusal(rt.alloc(), text.as_bytes(), true),
            None,
            "{text:?}"
        );
        let found = printed(rt.alloc(), text.as_bytes(), true)?;
        assert_eq!(rt; str::from_utf8(&found)?, wanted, "{text:?}");
    }
    Ok(())
}

/// Lines outside the grammar.
const SYNTAX: [&[u8]; 60] = [
    b"(Add32 x y)",
    b"(Add32 x",
    b"x => x",
    b"_ => (Const8 [0])",
    b"(Add32 x y) => z",
    b"(Add32 x y) => (Add32 _ y)",
    b"(Add32 x y) => (Add32 x y) junk",
    b"(Add32 x y) => x:(Neg32 y)",
    b"(Add(32|64) x y) => (Sub(32|64|8) x y)",
    b"(Const32 [c]) => (Const32 [c+])",
    b"(Const32 [c]) => (Const32 [(c])",
    b"(Const32 [c]) => (Const32 [c)])",
    b"(Const32 [c]) => (Const32 [d])",
    b"(Const32 [c]) => (Const32 [log3(c)])",
    b"(Const32 [c]) => (Const32 [log2(c,c)])",
    b"(Const32 [c]) => (Const32 [ult(c)])",
    b"(Const32 [c]) => (Const32 [c & &c])",
    b"(Const32 [c]) => (Const32 [c < < c])",
    b"(Const32 [c]) => (Const32 [c > c])",
    b"(Const32 [c]) => (Const32 [-0])",
    b"(Const32 [c]) => (Const32 [c-05])",
    b"(Const32 [c]) => (Const32 [c-9223372036854775808])",
    b"(Const32 [c]) => (Const32 [9223372036854775808])",
    b"(Const32 [c]) => (Const32 [-9223372036854775809])",
    b"(Const32 [c]) => (Const32 [18446744073709551617])",
    b"(Const32 [c]) => (Const32 [1c])",
    b"(Const32 [- 1]) => (Const32 [0])",
    b"(Const32 [01]) => (Const32 [0])",
    b"(Const32 [1 2]) => (Const32 [0])",
    b"(Const32 [c+1]) => (Const32 [0])",
    b"(Const32 <uint32> [c]) => (Const32 [c])",
    b"(Const32 [c] <t>) => (Const32 [c])",
    b"(Store {int} p x m) => m",
    b"(Load <t> p m) => (Load <*int> p m)",
    b"(Load <t> p m) && size(uint8) == 1 => p",
    b"(Load <t> p m) && size((t)) == 1 => p",
    b"(Neg8 int) => int",
    b"(Neg8 _x) => (Const8 [0])",
    b"(Neg8 x) && => x",
    b"(Neg8 x) & x.Uses => x",
    b"(Neg8 x) && x .Uses => x",
    b"(Neg8 x) && x. Uses => x",
    b"(Neg8 x) && x.Used => x",
    b"(Neg8 x) && x.Uses1 => x",
    b"(Neg8 x) && y.Uses => x",
    b"r:(Neg8 x) => r",
    b"r:(Neg8 x) => (Com8 r)",
    b"r:(Neg8 x) => (Const8 [r.Uses])",
    b"(Neg8 ...) => (Neg8 x)",
    b"(Neg8 x) => (Neg8 ...)",
    b"r:(Neg8 ...) => (Com8 ...)",
    b"(Neg8 ...) && 1 => (Com8 ...)",
    b"(Neg8 . ..) => (Com8 ...)",
    b"(Less8(|U) x y) => x",
    b"(Neg8 x) = > x",
    b"(Neg8 x) => x\r",
    b"(Neg8 x) \x01=> x",
    b"(Neg8 x) => x\x7f",
    b"(Neg8 \xc3\xa9) => x",
    b"(Foo(8|9) x) => (1|x)",
];

/// Lines with an op that may not stand so in any rule.
const OP: [&[u8]; 17] = [
    b"(Foo x) => x",
    b"(Add32 x y) => (Foo x)",
    b"(Phi x) => x",
    b"(Copy x) => x",
    b"(Add32 x y) => (Add32 x)",
    b"(Add32 ...) => (Neg32 ...)",
    b"(Phi ...) => (Phi ...)",
    b"(Neg8 ...) => (MakeResult ...)",
    b"(MakeResult ...) => (MakeResult ...)",
    b"(Zero ...) => (Load ...)",
    b"(Neg8 [c] x) => x",
    b"(Neg8 x) => (Neg8 [1] x)",
    b"(OffPtr {s} x) => x",
    b"(Const8 [c]) => c",
    b"(Load <t> p t) => p",
    b"(Arg {a}) => (ARMADDR {a})",
    b"(Add32 x y) && log2(x) => x",
];

/// Lines with an op that may not stand so in an extra rule.
const EXTRA_OP: [&[u8]; 20] = [
    b"(Load p m) => p",
    b"(Add32 x y) => (Add64 x y)",
    b"(Add32 x y) => (Neg32 (Neg64 x))",
    b"(Add32 x:(Neg64 y) z) => z",
    b"(Trunc64to32 x) => x",
    b"(Eq8 x y) => (Neg8 x)",
    b"(Div64 x y) => x",
    b"(Hmul64u x y) => x",
    b"(Addr {s} x) => x",
    b"(SelectN [i] x) => x",
    b"(RVADD x y) => x",
    b"(Ctz32 x) => x",
    b"(IsNonNil p) => (ConstBool [1])",
    b"(Zeromask x) => x",
    b"(RotateLeft32 x y) => x",
    b"(Const8 [c]) => (Const8 <uint16> [c])",
    b"(Const32 [c]) => (Const32 <int> [c])",
    b"(Eq8 x y) => (Eq8 <uint8> x y)",
    b"(Eq8 <t> x y) && x.Uses => (Eq8 x (Neg8 <t> y))",
    b"(Lsh32x8 x y) => (Lsh32x8 x (Lsh32x8 x y))",
];

/// The refusal of a text.
fn refusal(alloc: Global, text: &[u8], extra: bool) -> Option<RuleError> {
    match read_rules(alloc, text, extra) {
        Ok(_) => None,
        Err(error) => Some(error),
    }
}

#[test]
fn refusals(rt: HostRuntime) {
    let syntax = Some(RuleError::RuleSyntax { line: 1 });
    let op = Some(RuleError::RuleOp { line: 1 });
    for text in SYNTAX {
        assert_eq!(rt; refusal(rt.alloc(), text, false), syntax, "{text:?}");
        assert_eq!(rt; refusal(rt.alloc(), text, true), syntax, "{text:?}");
    }
    for text in OP {
        assert_eq!(rt; refusal(rt.alloc(), text, false), op, "{text:?}");
        assert_eq!(rt; refusal(rt.alloc(), text, true), op, "{text:?}");
    }
    for text in EXTRA_OP {
        assert_eq!(rt; refusal(rt.alloc(), text, false), None, "{text:?}");
        assert_eq!(rt; refusal(rt.alloc(), text, true), op, "{text:?}");
    }
}

#[test]
fn first_line_at_fault(rt: HostRuntime) {
    let table: [(&[u8], RuleError); 4] = [
        (
            b"(Add32 x y) => x\n(Load p m) => p",
            RuleError::RuleOp { line: 2 },
        ),
        (
            b"\n// note\r\n(Load p m) => p\nx",
            RuleError::RuleOp { line: 3 },
        ),
        (b"x\n(Load p m) => p\n", RuleError::RuleSyntax { line: 1 }),
        (b"(Neg8 x) => x\r\r\n", RuleError::RuleSyntax { line: 1 }),
    ];
    for (text, wanted) in table {
        assert_eq!(rt; refusal(rt.alloc(), text, true), Some(wanted), "{text:?}");
    }
}

//! Matches, passes and rewriting of small functions; what is expected was found by hand.
use bk_dump::{print_package, read_package};
use bk_func::{Func, Package, greatest_value};
use bk_ops::Target;
use bk_rewrite::{find_match, pass, rewrite};
use bk_rule::Rule;
use bk_rule_text::read_rules;
use std::alloc::Global;
use std::test::Fail;

const TARGET: Target = Target::Riscv64;

fn rules(alloc: Global, text: &str) -> Result<Vec<Rule>, Fail> {
    Ok(
        read_rules(alloc, text.as_bytes(), false)
            .ok()
            .ok_or("no rules")?,
    )
}

/// The package of one function of these lines.
fn package(alloc: Global, lines: &str) -> Result<Package, Fail> {
    let text = format!(in alloc;
        "f func(a int, b int) int\nb1:\nv1 = InitMem <mem>\n{lines}\nRet v5"
    )?;
    Ok(
        read_package(alloc, text.as_bytes(), TARGET)
            .ok()
            .ok_or("no package")?,
    )
}

fn one_func(alloc: Global, lines: &str) -> Result<Func, Fail> {
    let mut package = package(alloc, lines)?;
    Ok(package.funcs.pop().ok_or("no function")?)
}

/// The match at v4: its place, its bindings, and on how many values the tree stands.
fn found(alloc: Global, lines: &str, text: &str) -> Result<String, Fail> {
    let func = one_func(alloc, lines)?;
    let rules = rules(alloc, text)?;
    match find_match(alloc, &func, &rules, 4, TARGET)? {
        Some(found) => {
            let count = found.values.len();
            Ok(format!(in alloc; "{} {:?} {count}", found.place, found.binds)?)
        }
        None => Ok(String::from_str(alloc, "none")?),
    }
}

const SUM: &str =
    "v2 = Arg <int> {a}\nv3 = Arg <int> {b}\nv4 = Add64 <int> v2 v3\nv5 = MakeResult <int,mem> v4 v1";

const ZERO: &str =
    "v2 = Const64 <int> [0]\nv3 = Arg <int> {b}\nv4 = Add64 <int> v2 v3\nv5 = MakeResult <int,mem> v4 v1";

const COPY: &str =
    "v2 = Const64 <int> [0]\nv3 = Arg <int> {b}\nv4 = Copy <int> v3\nv5 = MakeResult <int,mem> v3 v1";

/// A function, rules, and the match at its v4.
const MATCHES: [(&str, &str, &str); 5] = [
    (SUM, "(Add64 (Const64 [0]) x) => x", "none"),
    (ZERO, "(Add64 (Const64 [0]) x) => x", "0 [Value(3)] 2"),
    (ZERO, "(Add64 x (Const64 [0])) => x", "0 [Value(3)] 2"),
    (
        SUM,
        "(Add64 x x) => x\n(Add64 x y) => x",
        "1 [Value(2), Value(3)] 1",
    ),
    (ZERO, "(Add64 x (Const64 [c])) && c == 1 => x", "none"),
];

#[test]
fn matches(rt: HostRuntime) -> Result<(), Fail> {
    for (lines, text, expected) in &MATCHES {
        assert_eq!(rt; found(rt.alloc(), lines, text)?.as_str(), *expected);
    }
    Ok(())
}

/// What rewriting makes of a function, as it prints, or its refusal.
fn rewritten(alloc: Global, lines: &str, text: &str) -> Result<String, Fail> {
    let mut package = package(alloc, lines)?;
    let rules = rules(alloc, text)?;
    let func = package.funcs.pop().ok_or("no function")?;
    if greatest_value(&func) > 1_000_000 {
        return Err("a great number".into());
    }
    match rewrite(alloc, func, &rules, TARGET) {
        Ok(func) => {
            package.funcs.push(func)?;
            printed(alloc, &package)
        }
        Err(error) => Ok(format!(in alloc; "{error:?}")?),
    }
}

fn printed(alloc: Global, package: &Package) -> Result<String, Fail> {
    let text = print_package(alloc, package).ok().ok_or("no text")?;
    Ok(String::from_utf8(text).ok().ok_or("no characters")?)
}

/// A function, rules, and the function that rewriting makes.
const REWRITTEN: [(&str, &str, &str); 4] = [
    (SUM, "(Add64 (Const64 [0]) x) => x", SUM),
    (ZERO, "(Add64 (Const64 [0]) x) => x", COPY),
    (
        "v2 = Const64 <int> [8]\nv3 = Arg <int> {b}\nv4 = Mul64 <int> v3 v2\nv5 = MakeResult <int,mem> v4 v1",
        "(Mul64 (Const64 [c]) x) && isPowerOfTwo(c) => (Lsh64x32 x (Const32 [log2(c)]))",
        "v2 = Const64 <int> [8]\nv3 = Arg <int> {b}\nv4 = Lsh64x32 <int> v3 v6\nv5 = MakeResult <int,mem> v4 v1\nv6 = Const32 <uint32> [3]",
    ),
    (
        "v2 = Arg <int> {a}\nv3 = Arg <int> {b}\nv4 = Add64 <int> v2 v2\nv5 = MakeResult <int,mem> v4 v1",
        "(Add64 x y) => (Add64 y x)",
        "v2 = Arg <int> {a}\nv3 = Arg <int> {b}\nv4 = Add64 <int> v2 v2\nv5 = MakeResult <int,mem> v4 v1",
    ),
];

#[test]
fn rewrites(rt: HostRuntime) -> Result<(), Fail> {
    for (lines, text, expected) in &REWRITTEN {
        let expected = printed(rt.alloc(), &package(rt.alloc(), expected)?)?;
        assert_eq!(rt; rewritten(rt.alloc(), lines, text)?, expected);
    }
    Ok(())
}

/// Rules that never end, and the refusals.
const ENDLESS: [(&str, &str); 2] = [
    ("(Add64 x y) => (Add64 y x)", "Passes { n: 69 }"),
    (
        "(Add64 x y) => (Add64 (Add64 x y) (Add64 y x))",
        "Grown { values: 32769 }",
    ),
];

#[test]
fn rewriting_ends(rt: HostRuntime) -> Result<(), Fail> {
    for (text, expected) in &ENDLESS {
        assert_eq!(rt; rewritten(rt.alloc(), SUM, text)?.as_str(), *expected);
    }
    Ok(())
}

#[test]
fn passes_change(rt: HostRuntime) -> Result<(), Fail> {
    let rules = rules(rt.alloc(), "(Add64 (Const64 [0]) x) => x")?;
    let mut func = one_func(rt.alloc(), ZERO)?;
    for changes in [true, false] {
        if greatest_value(&func) > 1_000_000 {
            return Err("a great number".into());
        }
        assert_eq!(rt; pass(rt.alloc(), &mut func, &rules, TARGET)?, changes);
    }
    Ok(())
}

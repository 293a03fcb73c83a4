// Values of expressions as Go gives them, and copies.
use bk_func::{Block, Func, Kind, Likely, Sig};
use bk_ops::{Family, Target, Ty};
use bk_rule::{Bound, Build, Expr, Fun, Pattern, aux_value, copy_rules, holds, make};
use std::alloc::Global;
use std::test::Fail;

/// A block whose control is v7, and nothing else.
fn one_use(alloc: Global) -> Result<Func, Fail> {
    let block = Block {
        id: 1,
        kind: Kind::If,
        control: Some(7),
        preds: Vec::new(alloc),
        succs: Vec::new(alloc),
        likely: Likely::No,
        values: Vec::new(alloc),
    };
    Ok(Func {
        name: 0,
        sig: Sig {
            args: Vec::new(alloc),
            results: Vec::new(alloc),
        },
        blocks: vec![in alloc; block]?,
        given: 0,
    })
}

#[test]
fn numbers_of_64_bits(rt: HostRuntime) -> Result<(), Fail> {
    let alloc = rt.alloc();
    let func = one_use(alloc)?;
    let table = [
        (Fun::Add, i64::MAX, 1, Some(i64::MIN)),
        (Fun::Sub, i64::MIN, 1, Some(i64::MAX)),
        (Fun::Mul, 1 << 32, 1 << 32, Some(0)),
        (Fun::Shl, 1, 63, Some(i64::MIN)),
        (Fun::Shl, 1, 64, Some(0)),
        (Fun::Shl, 1, -1, Some(0)),
        (Fun::Shr, -8, 1, Some(-4)),
        (Fun::Shr, -8, -1, Some(-1)),
        (Fun::And, -1, 255, Some(255)),
        (Fun::Or, 6, 9, Some(15)),
        (Fun::Xor, -1, 1, Some(-2)),
        (Fun::Lt, -1, 0, Some(1)),
        (Fun::Ult, -1, 0, Some(0)),
        (Fun::Ule, 0, -1, Some(1)),
        (Fun::Ne, 3, 3, Some(0)),
        (Fun::Log2, 1, 1, None),
    ];
    for (fun, x, y, value) in table {
        let expr = make::call(alloc, fun, [Expr::Number(x), Expr::Number(y)])?;
        assert_eq!(rt;
            aux_value(&func, &expr, &[], Target::Arm),
            value,
            "{fun:?} {x} {y}"
        );
    }
    Ok(())
}

#[test]
fn functions(rt: HostRuntime) -> Result<(), Fail> {
    let alloc = rt.alloc();
    let func = one_use(alloc)?;
    let table = [
        (Fun::Neg, i64::MIN, Some(i64::MIN)),
        (Fun::Com, 0, Some(-1)),
        (Fun::IsPowerOfTwo, 1 << 62, Some(1)),
        (Fun::IsPowerOfTwo, i64::MIN, Some(0)),
        (Fun::IsPowerOfTwo, 0, Some(0)),
        (Fun::Log2, 1 << 62, Some(62)),
        (Fun::Log2, 6, None),
        (Fun::Zext8, -1, Some(255)),
        (Fun::Zext32, -1, Some(4_294_967_295)),
        (Fun::Is12, -2048, Some(1)),
        (Fun::Is12, 2048, Some(0)),
        (Fun::ArmImm, 0xff00_0000, Some(1)),
        (Fun::ArmImm, 0xf000_000f, Some(1)),
        (Fun::ArmImm, 0x101, Some(0)),
        (Fun::ArmImm, 0x1fe, Some(0)),
        (Fun::Add, 1, None),
    ];
    for (fun, x, value) in table {
        let expr = make::call(alloc, fun, [Expr::Number(x)])?;
        assert_eq!(rt;
            aux_value(&func, &expr, &[], Target::Arm),
            value,
            "{fun:?} {x}"
        );
    }
    Ok(())
}

#[test]
fn bindings(rt: HostRuntime) -> Result<(), Fail> {
    let alloc = rt.alloc();
    let func = one_use(alloc)?;
    let binds = [Bound::Value(7), Bound::Ty(Ty::Int), Bound::Int(-3)];
    let table = [
        (Fun::Uses, 0, Target::Arm, Some(1)),
        (Fun::Size, 1, Target::Arm, Some(4)),
        (Fun::Size, 1, Target::Riscv64, Some(8)),
        (Fun::IsBool, 1, Target::Arm, Some(0)),
        (Fun::Neg, 2, Target::Arm, Some(3)),
    ];
    for (fun, variable, target, value) in table {
        let expr = make::call(alloc, fun, [Expr::Var(variable)])?;
        assert_eq!(rt; aux_value(&func, &expr, &binds, target), value, "{fun:?}");
    }
    Ok(())
}

#[test]
fn copies(rt: HostRuntime) -> Result<(), Fail> {
    let alloc = rt.alloc();
    let func = one_use(alloc)?;
    let add = make::op(Family::Add, 8, 0);
    let left = make::node(alloc, add, [Pattern::Var(0), Pattern::Any])?;
    let test = make::call(alloc, Fun::Uses, [Expr::Var(0)])?;
    let right = make::make_with(alloc, add, Expr::Number(2), [Build::Var(0)])?;
    let rule = make::rule_if(alloc, left, test, right)?;
    let rules = copy_rules(alloc, &[rule]).ok().ok_or("no memory")?;
    assert_eq!(rt; rules.len(), 1);
    for rule in &rules {
        assert!(rt; holds(&func, rule, &[Bound::Value(7)], Target::Arm));
        assert!(rt; !holds(&func, rule, &[Bound::Value(8)], Target::Arm));
    }
    Ok(())
}

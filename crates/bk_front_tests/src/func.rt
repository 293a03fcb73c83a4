use bk_func::{
    Aux, Block, Func, Kind, Likely, Sig, Value, add_value, block_place, copy_func, first_construct,
    greatest_value, register_words, replace, uses,
};
use bk_ops::{Family, Op, Target, Ty, op_of_name};
use smallvec::SmallVec;
use std::alloc::{AllocError, Global};
use std::test::Fail;

const ADD: Op = Op {
    family: Family::Add,
    a: 64,
    b: 0,
};

fn value(alloc: Global, id: u32, args: &[u32]) -> Result<Value, AllocError> {
    Ok(Value {
        id,
        op: ADD,
        ty: Ty::Int64,
        args: SmallVec::from_slice(alloc, args)?,
        int: 0,
        aux: Aux::Nothing,
    })
}

// b1 goes to b2 by both of its edges, and v3 of b2 is the sum of v2 and v2.
fn diamond(alloc: Global) -> Result<Func, AllocError> {
    let first = Block {
        id: 1,
        kind: Kind::If,
        control: Some(2),
        preds: Vec::new(alloc),
        succs: vec![in alloc; 2, 2]?,
        likely: Likely::No,
        values: vec![in alloc; value(alloc, 2, &[])?]?,
    };
    let second = Block {
        id: 2,
        kind: Kind::Ret,
        control: Some(3),
        preds: vec![in alloc; 1, 1]?,
        succs: Vec::new(alloc),
        likely: Likely::No,
        values: vec![in alloc; value(alloc, 3, &[2, 2])?]?,
    };
    Ok(Func {
        name: 0,
        sig: Sig {
            args: Vec::new(alloc),
            results: Vec::new(alloc),
        },
        blocks: vec![in alloc; first, second]?,
        given: 2,
    })
}

#[test]
fn uses_are_counted_and_replaced(rt: HostRuntime) -> Result<(), Fail> {
    let mut func = diamond(rt.alloc())?;
    assert_eq!(rt; uses(&func, 2), 3);
    replace(&mut func, 2, 7);
    assert_eq!(rt; (uses(&func, 2), uses(&func, 7)), (0, 3));
    let copy = copy_func(rt.alloc(), &func);
    assert!(rt; matches!(&copy, Ok(copy) if uses(copy, 7) == 3 && copy.given == 2));
    Ok(())
}

// The least number of a refused value, on arm and on riscv64, where v2 and v3 have these ops and numbers.
#[test]
fn first_constructs(rt: HostRuntime) -> Result<(), Fail> {
    for (ops, numbers, arm, riscv64) in [
        (["Add64", "Add64"], [0, 0], None, None),
        (["Add64", "Div64"], [0, 0], Some(3), None),
        (["Mod64u", "Ctz32"], [0, 0], Some(2), Some(3)),
        (["Hmul64", "Div32"], [0, 0], Some(2), None),
        (["Int64Lo", "SP"], [0, 0], Some(3), Some(2)),
        (["Zero", "Move"], [64, 65], Some(3), Some(3)),
        (["Move", "Zero"], [-1, 0], Some(2), Some(2)),
    ] {
        let mut func = diamond(rt.alloc())?;
        for ((block, name), int) in func.blocks.iter_mut().zip(&ops).zip(&numbers) {
            for value in block.values.iter_mut() {
                value.op = op_of_name(name.as_bytes()).ok_or("no op")?;
                value.int = *int;
            }
        }
        assert_eq!(rt; first_construct(&func, Target::Arm), arm);
        assert_eq!(rt; first_construct(&func, Target::Riscv64), riscv64);
    }
    Ok(())
}

#[test]
fn values_are_added(rt: HostRuntime) -> Result<(), Fail> {
    let mut func = diamond(rt.alloc())?;
    let there = matches!(block_place(&func, 2), Some(_));
    let room = greatest_value(&func) < u32::MAX;
    assert!(rt; there && room);
    let id = add_value(
        rt.alloc(),
        &mut func,
        2,
        ADD,
        Ty::Int64,
        &[3, 2],
        0,
        Aux::Nothing,
    );
    assert_eq!(rt; id, Ok(4));
    assert_eq!(rt; (greatest_value(&func), uses(&func, 3)), (4, 2));
    Ok(())
}

#[test]
fn words_in_registers(rt: HostRuntime) -> Result<(), Fail> {
    assert_eq!(rt; register_words(Target::Arm), 0);
    assert_eq!(rt; register_words(Target::Riscv64), 8);
    Ok(())
}

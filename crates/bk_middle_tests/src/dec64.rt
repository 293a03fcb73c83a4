use crate::calls::{Row, is_row, package, sig, values};
use bk_dec64::{RewriteError, decompose};
use bk_func::{Aux, Block, Func, Kind, Likely, Value};
use bk_ops::{Family, Ty};
use std::alloc::{AllocError, Global};
use std::test::Fail;

/// A block: its number, those of its predecessors, and its values.
#[derive(Clone, Copy)]
struct Part<'a>(u32, &'a [u32], &'a [Row<'a>]);

fn block(alloc: Global, part: &Part) -> Result<Block, AllocError> {
    let mut preds = Vec::new(alloc);
    for pred in part.1 {
        preds.push(*pred)?;
    }
    Ok(Block {
        id: part.0,
        kind: Kind::Plain,
        control: None,
        preds,
        succs: Vec::new(alloc),
        likely: Likely::No,
        values: values(alloc, part.2)?,
    })
}

/// A function of these blocks that takes and gives numbers of these types.
fn func(alloc: Global, args: &[Ty], results: &[Ty], parts: &[Part]) -> Result<Func, AllocError> {
    let mut blocks = Vec::new(alloc);
    for part in parts {
        blocks.push(block(alloc, part)?)?;
    }
    Ok(Func {
        name: 0,
        sig: sig(alloc, args, results)?,
        blocks,
        given: 0,
    })
}

/// The bits in the op's name.
fn bits(family: Family) -> u8 {
    match family {
        Family::Int64Make | Family::Int64Hi | Family::Int64Lo => 64,
        _ => 0,
    }
}

fn is_value(value: &Value, row: &Row) -> bool {
    is_row(value, row) && value.op.a == bits(row.1)
}

/// Whether the function's block at a place has these values.
fn is_block(func: &Func, place: usize, rows: &[Row]) -> bool {
    match func.blocks.get(place) {
        Some(block) => {
            block.values.len() == rows.len()
                && block
                    .values
                    .iter()
                    .zip(rows)
                    .all(|(value, row)| is_value(value, row))
        }
        None => false,
    }
}

/// Whether the function's blocks have these numbers and values.
fn is_func(func: &Func, parts: &[Part]) -> bool {
    func.blocks.len() == parts.len()
        && func.blocks.iter().zip(parts).all(|(block, part)| {
            block.id == part.0
                && block.values.len() == part.2.len()
                && block
                    .values
                    .iter()
                    .zip(part.2)
                    .all(|(value, row)| is_value(value, row))
        })
}

// f(x int64, p ptr, y int32) int64 loads what p points at, stores x there and returns what it loaded.
#[test]
fn numbers_in_memory(rt: HostRuntime) -> Result<(), Fail> {
    let alloc = rt.alloc();
    let none = Aux::Nothing;
    let pkg = package(alloc, &[], &[])?;
    let rows = [
        Row(1, Family::InitMem, Ty::Mem, &[], 0, none),
        Row(2, Family::Arg, Ty::Int64, &[], 0, Aux::Arg(0)),
        Row(3, Family::Arg, Ty::Ptr, &[], 0, Aux::Arg(1)),
        Row(4, Family::Arg, Ty::Int32, &[], 0, Aux::Arg(2)),
        Row(5, Family::Load, Ty::Int64, &[3, 1], 0, none),
        Row(6, Family::Store, Ty::Mem, &[3, 2, 1], 0, Aux::Ty(Ty::Int64)),
        Row(7, Family::MakeResult, Ty::Tuple, &[5, 6], 0, none),
    ];
    let args = [Ty::Int64, Ty::Ptr, Ty::Int32];
    let mut it = func(alloc, &args, &[Ty::Int64], &[Part(1, &[], &rows)])?;
    assert_eq!(rt; decompose(alloc, &mut it, &pkg), Ok(()));
    let word = Aux::Ty(Ty::Uint32);
    let expected = [
        Row(1, Family::InitMem, Ty::Mem, &[], 0, none),
        Row(2, Family::Int64Make, Ty::Int64, &[9, 8], 0, none),
        Row(3, Family::Arg, Ty::Ptr, &[], 0, Aux::Arg(2)),
        Row(4, Family::Arg, Ty::Int32, &[], 0, Aux::Arg(3)),
        Row(5, Family::Int64Make, Ty::Int64, &[12, 10], 0, none),
        Row(6, Family::Store, Ty::Mem, &[15, 16, 14], 0, word),
        Row(7, Family::MakeResult, Ty::Tuple, &[17, 18, 6], 0, none),
        Row(8, Family::Arg, Ty::Uint32, &[], 0, Aux::Arg(0)),
        Row(9, Family::Arg, Ty::Uint32, &[], 0, Aux::Arg(1)),
        Row(10, Family::Load, Ty::Uint32, &[3, 1], 0, none),
        Row(11, Family::OffPtr, Ty::Ptr, &[3], 4, none),
        Row(12, Family::Load, Ty::Uint32, &[11, 1], 0, none),
        Row(13, Family::Int64Lo, Ty::Uint32, &[2], 0, none),
        Row(14, Family::Store, Ty::Mem, &[3, 13, 1], 0, word),
        Row(15, Family::OffPtr, Ty::Ptr, &[3], 4, none),
        Row(16, Family::Int64Hi, Ty::Uint32, &[2], 0, none),
        Row(17, Family::Int64Lo, Ty::Uint32, &[5], 0, none),
        Row(18, Family::Int64Hi, Ty::Uint32, &[5], 0, none),
    ];
    assert!(rt; is_func(&it, &[Part(1, &[], &expected)]));
    Ok(())
}

// f(a uint64, b int) uint64 returns the second result of g(a, b), which gives an int32 and a uint64.
#[test]
fn numbers_in_calls(rt: HostRuntime) -> Result<(), Fail> {
    let alloc = rt.alloc();
    let none = Aux::Nothing;
    let args = [Ty::Uint64, Ty::Int];
    let pkg = package(alloc, &args, &[Ty::Int32, Ty::Uint64])?;
    let rows = [
        Row(1, Family::InitMem, Ty::Mem, &[], 0, none),
        Row(2, Family::Arg, Ty::Uint64, &[], 0, Aux::Arg(0)),
        Row(3, Family::Arg, Ty::Int, &[], 0, Aux::Arg(1)),
        Row(
            4,
            Family::StaticLECall,
            Ty::Tuple,
            &[2, 3, 1],
            0,
            Aux::Sym(1),
        ),
        Row(5, Family::SelectN, Ty::Int32, &[4], 0, none),
        Row(6, Family::SelectN, Ty::Uint64, &[4], 1, none),
        Row(7, Family::SelectN, Ty::Mem, &[4], 2, none),
        Row(8, Family::MakeResult, Ty::Tuple, &[6, 7], 0, none),
    ];
    let mut it = func(alloc, &args, &[Ty::Uint64], &[Part(1, &[], &rows)])?;
    assert_eq!(rt; decompose(alloc, &mut it, &pkg), Ok(()));
    let expected = [
        Row(1, Family::InitMem, Ty::Mem, &[], 0, none),
        Row(2, Family::Int64Make, Ty::Uint64, &[10, 9], 0, none),
        Row(3, Family::Arg, Ty::Int, &[], 0, Aux::Arg(2)),
        Row(
            4,
            Family::StaticLECall,
            Ty::Tuple,
            &[11, 12, 3, 1],
            0,
            Aux::Sym(1),
        ),
        Row(5, Family::SelectN, Ty::Int32, &[4], 0, none),
        Row(6, Family::Int64Make, Ty::Uint64, &[14, 13], 0, none),
        Row(7, Family::SelectN, Ty::Mem, &[4], 3, none),
        Row(8, Family::MakeResult, Ty::Tuple, &[15, 16, 7], 0, none),
        Row(9, Family::Arg, Ty::Uint32, &[], 0, Aux::Arg(0)),
        Row(10, Family::Arg, Ty::Uint32, &[], 0, Aux::Arg(1)),
        Row(11, Family::Int64Lo, Ty::Uint32, &[2], 0, none),
        Row(12, Family::Int64Hi, Ty::Uint32, &[2], 0, none),
        Row(13, Family::SelectN, Ty::Uint32, &[4], 1, none),
        Row(14, Family::SelectN, Ty::Uint32, &[4], 2, none),
        Row(15, Family::Int64Lo, Ty::Uint32, &[6], 0, none),
        Row(16, Family::Int64Hi, Ty::Uint32, &[6], 0, none),
    ];
    assert!(rt; is_func(&it, &[Part(1, &[], &expected)]));
    Ok(())
}

/// A function of three blocks with these values, of which the third goes back to the second.
fn looped(alloc: Global, first: &[Row], second: &[Row], third: &[Row]) -> Result<Func, AllocError> {
    let mut blocks = Vec::new(alloc);
    blocks.push(block(alloc, &Part(1, &[], first))?)?;
    blocks.push(block(alloc, &Part(2, &[1, 3], second))?)?;
    blocks.push(block(alloc, &Part(3, &[2], third))?)?;
    Ok(Func {
        name: 0,
        sig: sig(alloc, &[Ty::Int64], &[])?,
        blocks,
        given: 0,
    })
}

// A loop over b2 and b3 that doubles an int64: the halves of what comes round stand in b1 and in b3.
#[test]
fn phis_of_halves(rt: HostRuntime) -> Result<(), Fail> {
    let alloc = rt.alloc();
    let none = Aux::Nothing;
    let pkg = package(alloc, &[], &[])?;
    let rows = [
        Row(1, Family::InitMem, Ty::Mem, &[], 0, none),
        Row(2, Family::Arg, Ty::Int64, &[], 0, Aux::Arg(0)),
        Row(3, Family::Phi, Ty::Int64, &[2, 5], 0, none),
        Row(4, Family::Phi, Ty::Mem, &[1, 4], 0, none),
        Row(5, Family::Add, Ty::Int64, &[3, 3], 0, none),
    ];
    let mut it = looped(alloc, &rows[..2], &rows[2..4], &rows[4..])?;
    assert_eq!(rt; decompose(alloc, &mut it, &pkg), Ok(()));
    let expected = [
        Row(1, Family::InitMem, Ty::Mem, &[], 0, none),
        Row(2, Family::Int64Make, Ty::Int64, &[7, 6], 0, none),
        Row(6, Family::Arg, Ty::Uint32, &[], 0, Aux::Arg(0)),
        Row(7, Family::Arg, Ty::Uint32, &[], 0, Aux::Arg(1)),
        Row(8, Family::Int64Lo, Ty::Uint32, &[2], 0, none),
        Row(11, Family::Int64Hi, Ty::Uint32, &[2], 0, none),
        Row(3, Family::Int64Make, Ty::Int64, &[13, 10], 0, none),
        Row(4, Family::Phi, Ty::Mem, &[1, 4], 0, none),
        Row(10, Family::Phi, Ty::Uint32, &[8, 9], 0, none),
        Row(13, Family::Phi, Ty::Uint32, &[11, 12], 0, none),
        Row(5, Family::Add, Ty::Int64, &[3, 3], 0, none),
        Row(9, Family::Int64Lo, Ty::Uint32, &[5], 0, none),
        Row(12, Family::Int64Hi, Ty::Uint32, &[5], 0, none),
    ];
    assert!(rt; is_block(&it, 0, &expected[..6]));
    assert!(rt; is_block(&it, 1, &expected[6..10]));
    assert!(rt; is_block(&it, 2, &expected[10..]));
    Ok(())
}

// An argument of 64 bits makes two values more, one of 32 bits none: what passes 32,768 values is refused.
#[test]
fn growth_in_halves(rt: HostRuntime) -> Result<(), Fail> {
    let alloc = rt.alloc();
    let pkg = package(alloc, &[], &[])?;
    let wide = Row(1, Family::Arg, Ty::Int64, &[], 0, Aux::Arg(0));
    let narrow = Row(1, Family::Arg, Ty::Int, &[], 0, Aux::Arg(0));
    let number = Row(2, Family::ConstNil, Ty::Int, &[], 0, Aux::Nothing);
    let grown = Err(RewriteError::Grown { values: 32_769 });
    for (row, count, expected) in [
        (wide, 32_765, Ok(())),
        (wide, 32_766, grown),
        (narrow, 32_768, Ok(())),
    ] {
        let mut it = func(alloc, &[row.2], &[], &[Part(1, &[], &[row])])?;
        for block in it.blocks.iter_mut() {
            for _ in 0..count {
                let mut one = values(alloc, &[number])?;
                block.values.append(&mut one)?;
            }
        }
        assert_eq!(rt; decompose(alloc, &mut it, &pkg), expected);
    }
    Ok(())
}

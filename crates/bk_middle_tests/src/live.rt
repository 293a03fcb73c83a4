use bk_func::{Aux, Block, Func, Kind, Likely, Sig, Value};
use bk_live::{live_in, next_use};
use bk_ops::{Family, Op, Ty};
use smallvec::SmallVec;
use std::alloc::{AllocError, Global};
use std::test::Fail;

/// A value: its number, whether it is a phi, and its arguments.
#[derive(Clone, Copy)]
struct Row<'a>(u32, bool, &'a [u32]);

/// A block: its number, control, predecessors, successors and values.
#[derive(Clone, Copy)]
struct Rows<'a>(u32, Option<u32>, &'a [u32], &'a [u32], &'a [Row<'a>]);

/// v1 is memory, v2 a limit and v3 the first number of a loop, which b1 tests, b2 goes round and b3 leaves.
const LOOP: [Rows; 4] = [
    Rows(
        0,
        None,
        &[],
        &[1],
        &[Row(1, false, &[]), Row(2, false, &[]), Row(3, false, &[])],
    ),
    Rows(
        1,
        Some(5),
        &[0, 2],
        &[2, 3],
        &[Row(4, true, &[3, 6]), Row(5, false, &[4, 2])],
    ),
    Rows(2, None, &[1], &[1], &[Row(6, false, &[4, 4])]),
    Rows(3, Some(7), &[1], &[], &[Row(7, false, &[4, 1])]),
];

fn numbers(alloc: Global, numbers: &[u32]) -> Result<Vec<u32>, AllocError> {
    let mut copy = Vec::new(alloc);
    for number in numbers {
        copy.push(*number)?;
    }
    Ok(copy)
}

fn value(alloc: Global, row: &Row) -> Result<Value, AllocError> {
    let family = if row.1 { Family::Phi } else { Family::Add };
    Ok(Value {
        id: row.0,
        op: Op {
            family,
            a: 64,
            b: 0,
        },
        ty: Ty::Int64,
        args: SmallVec::from_slice(alloc, row.2)?,
        int: 0,
        aux: Aux::Nothing,
    })
}

fn block(alloc: Global, rows: &Rows) -> Result<Block, AllocError> {
    let mut values = Vec::new(alloc);
    for row in rows.4 {
        values.push(value(alloc, row)?)?;
    }
    Ok(Block {
        id: rows.0,
        kind: Kind::Plain,
        control: rows.1,
        preds: numbers(alloc, rows.2)?,
        succs: numbers(alloc, rows.3)?,
        likely: Likely::No,
        values,
    })
}

fn func(alloc: Global, table: &[Rows]) -> Result<Func, AllocError> {
    let mut blocks = Vec::new(alloc);
    for rows in table {
        blocks.push(block(alloc, rows)?)?;
    }
    Ok(Func {
        name: 0,
        sig: Sig {
            args: Vec::new(alloc),
            results: Vec::new(alloc),
        },
        blocks,
        given: 0,
    })
}

fn lists(alloc: Global, lists: &[&[u32]]) -> Result<Vec<Vec<u32>>, AllocError> {
    let mut copies = Vec::new(alloc);
    for list in lists {
        copies.push(numbers(alloc, list)?)?;
    }
    Ok(copies)
}

// In the second order the test of b1 stands before the phi that it takes, so that the phi is live round the loop.
#[test]
fn what_is_live_where_blocks_begin(rt: HostRuntime) -> Result<(), Fail> {
    let alloc = rt.alloc();
    let it = func(alloc, &LOOP)?;
    for (order, expected) in [
        (
            &[4, 5][..],
            [&[][..], &[1, 2][..], &[1, 2, 4][..], &[1, 4][..]],
        ),
        (
            &[5, 4][..],
            [&[4][..], &[1, 2, 4][..], &[1, 2, 4][..], &[1, 4][..]],
        ),
    ] {
        let orders = lists(alloc, &[&[1, 2, 3], order, &[6], &[7]])?;
        let rows = live_in(alloc, &it, &orders).map_err(|_| "memory")?;
        let wanted = lists(alloc, &expected)?;
        assert!(rt; rows == wanted);
    }
    Ok(())
}

#[test]
fn how_far_next_uses_are(rt: HostRuntime) -> Result<(), Fail> {
    let alloc = rt.alloc();
    let it = func(alloc, &LOOP)?;
    let orders = lists(alloc, &[&[1, 2, 3], &[4, 5], &[6], &[7]])?;
    for (block, after, value, expected) in [
        (0, 0, 2, None),
        (0, 2, 2, Some(3)),
        (0, 3, 3, Some(1)),
        (1, 0, 4, None),
        (1, 0, 2, Some(1)),
        (1, 1, 4, Some(1)),
        (1, 2, 4, Some(2)),
        (1, 2, 1, Some(2)),
        (1, 2, 2, Some(4)),
        (2, 0, 1, Some(5)),
        (2, 1, 6, Some(1)),
        (2, 1, 4, None),
        (3, 1, 7, Some(1)),
        (3, 1, 4, None),
    ] {
        assert_eq!(rt;
            next_use(alloc, &it, &orders, block, after, value),
            Ok(expected)
        );
    }
    Ok(())
}

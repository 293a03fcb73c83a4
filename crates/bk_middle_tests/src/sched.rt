use bk_func::{Aux, Block, Kind, Likely, Value};
use bk_ops::{Ty, op_of_name};
use bk_sched::{has_own_numbers, schedule};
use smallvec::SmallVec;
use std::alloc::Global;
use std::test::Fail;

// A value: its number, op, type and arguments.
type Row<'a> = (u32, &'a str, Ty, &'a [u32]);

fn block(alloc: Global, rows: &[Row<'_>]) -> Result<Block, Fail> {
    let mut values = Vec::new(alloc);
    for (id, name, ty, args) in rows {
        values.push(Value {
            id: *id,
            op: op_of_name(name.as_bytes()).ok_or("no op")?,
            ty: *ty,
            args: SmallVec::from_slice(alloc, args)?,
            int: 0,
            aux: Aux::Nothing,
        })?;
    }
    Ok(Block {
        id: 1,
        kind: Kind::Exit,
        control: None,
        preds: Vec::new(alloc),
        succs: Vec::new(alloc),
        likely: Likely::No,
        values,
    })
}

fn is_order(alloc: Global, rows: &[Row<'_>], wanted: &[u32]) -> Result<bool, Fail> {
    let block = block(alloc, rows)?;
    let Ok(own) = has_own_numbers(alloc, &block) else {
        return Ok(false)
    };
    if !own {
        return Ok(false);
    }
    let order = schedule(alloc, &block);
    Ok(matches!(&order, Ok(order) if order.as_slice() == wanted))
}

#[test]
fn the_least_score_is_first(rt: HostRuntime) -> Result<(), Fail> {
    let rows: [Row<'_>; 6] = [
        (1, "Const64", Ty::Int64, &[]),
        (2, "InitMem", Ty::Mem, &[]),
        (3, "ARGWORD", Ty::Int64, &[]),
        (4, "Phi", Ty::Int64, &[1, 5]),
        (5, "Add64", Ty::Int64, &[1, 6]),
        (6, "Phi", Ty::Mem, &[90, 91]),
    ];
    assert!(rt; is_order(rt.alloc(), &rows, &[4, 6, 3, 2, 1, 5])?);
    assert!(rt; is_order(rt.alloc(), &[], &[])?);
    Ok(())
}

#[test]
fn two_values_with_one_number_are_none(rt: HostRuntime) -> Result<(), Fail> {
    let rows: [Row<'_>; 2] = [
        (1, "Const64", Ty::Int64, &[]),
        (1, "Const64", Ty::Int64, &[]),
    ];
    let block = block(rt.alloc(), &rows)?;
    let own = has_own_numbers(rt.alloc(), &block);
    assert!(rt; matches!(&own, Ok(false)));
    Ok(())
}

#[test]
fn a_store_follows_loads_and_checks(rt: HostRuntime) -> Result<(), Fail> {
    let rows: [Row<'_>; 5] = [
        (1, "Arg", Ty::Ptr, &[]),
        (2, "InitMem", Ty::Mem, &[]),
        (3, "Store", Ty::Mem, &[1, 90, 2]),
        (4, "NilCheck", Ty::Void, &[1, 2]),
        (5, "Load", Ty::Int64, &[1, 2]),
    ];
    assert!(rt; is_order(rt.alloc(), &rows, &[2, 1, 4, 5, 3])?);
    Ok(())
}

#[test]
fn a_load_stands_before_the_check_that_needs_it(rt: HostRuntime) -> Result<(), Fail> {
    let rows: [Row<'_>; 6] = [
        (6, "Load", Ty::Int64, &[2, 1]),
        (3, "NilCheck", Ty::Void, &[2, 1]),
        (4, "Load", Ty::Ptr, &[2, 1]),
        (5, "NilCheck", Ty::Void, &[4, 1]),
        (1, "InitMem", Ty::Mem, &[]),
        (2, "Arg", Ty::Ptr, &[]),
    ];
    assert!(rt; is_order(rt.alloc(), &rows, &[1, 2, 3, 4, 5, 6])?);
    Ok(())
}

// v3 reads the state that its copy v2 stands for, so that the store v5 follows it.
#[test]
fn a_copy_of_memory_stands_for_what_it_copies(rt: HostRuntime) -> Result<(), Fail> {
    let rows: [Row<'_>; 6] = [
        (1, "InitMem", Ty::Mem, &[]),
        (2, "Copy", Ty::Mem, &[6]),
        (6, "Copy", Ty::Mem, &[1]),
        (3, "Load", Ty::Int64, &[4, 2]),
        (4, "Arg", Ty::Ptr, &[]),
        (5, "Store", Ty::Mem, &[4, 4, 1]),
    ];
    assert!(rt; is_order(rt.alloc(), &rows, &[1, 6, 2, 4, 3, 5])?);
    Ok(())
}

#[test]
fn results_stand_right_after_their_call(rt: HostRuntime) -> Result<(), Fail> {
    let rows: [Row<'_>; 4] = [
        (10, "Const64", Ty::Int64, &[]),
        (11, "RETWORD", Ty::Mem, &[10, 8]),
        (9, "RESWORD", Ty::Int64, &[8]),
        (8, "CALL", Ty::Mem, &[90]),
    ];
    assert!(rt; is_order(rt.alloc(), &rows, &[8, 9, 10, 11])?);
    Ok(())
}

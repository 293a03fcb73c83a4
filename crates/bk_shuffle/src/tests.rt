use super::*;
use bk_func::Loc;
use std::test::Fail;

#[test]
fn two_registers_change_places(rt: HostRuntime) -> Result<(), Fail> {
    let moves = [(Loc::Reg(1), Loc::Reg(0)), (Loc::Reg(0), Loc::Reg(1))];
    let wanted = [
        (Loc::Reg(1), Loc::Swap),
        (Loc::Reg(0), Loc::Reg(1)),
        (Loc::Swap, Loc::Reg(0)),
    ];
    let pairs = sequence(rt.alloc(), &moves);
    assert!(rt; matches!(&pairs, Ok(pairs) if pairs.as_slice() == wanted.as_slice()));
    Ok(())
}

#[test]
fn a_free_destination_goes_first(rt: HostRuntime) -> Result<(), Fail> {
    let moves = [(Loc::Reg(0), Loc::Reg(1)), (Loc::Reg(1), Loc::Reg(2))];
    let wanted = [(Loc::Reg(1), Loc::Reg(2)), (Loc::Reg(0), Loc::Reg(1))];
    let pairs = sequence(rt.alloc(), &moves);
    assert!(rt; matches!(&pairs, Ok(pairs) if pairs.as_slice() == wanted.as_slice()));
    Ok(())
}

#[test]
fn a_slot_comes_after_registers(rt: HostRuntime) -> Result<(), Fail> {
    let moves = [(Loc::Reg(3), Loc::Slot(0)), (Loc::Slot(1), Loc::Reg(9))];
    let wanted = [(Loc::Slot(1), Loc::Reg(9)), (Loc::Reg(3), Loc::Slot(0))];
    let pairs = sequence(rt.alloc(), &moves);
    assert!(rt; matches!(&pairs, Ok(pairs) if pairs.as_slice() == wanted.as_slice()));
    Ok(())
}

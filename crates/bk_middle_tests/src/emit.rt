use bk_fixup::{Branch, Handle, Patch, branch_sizes, keys_of, patch_words};
use bk_func::{Aux, Block, Func, Kind, Likely, Placed, PlacedBlock, Sig, Step, Value};
use bk_ops::{Family, Op, RvOp, Target, Ty};
use bk_rv_emit::emit;
use smallvec::SmallVec;
use std::alloc::{AllocError, Global};
use std::test::Fail;

/// A value by its number, op, AuxInt and aux.
pub(crate) type ValueRow = (u32, Op, i64, Aux);

/// An op with one width in its name, or none for 0.
pub(crate) fn op(family: Family, a: u8) -> Op {
    Op { family, a, b: 0 }
}

fn values(alloc: Global, rows: &[ValueRow]) -> Result<Vec<Value>, AllocError> {
    let mut values = Vec::new(alloc);
    for (id, op, int, aux) in rows {
        values.push(Value {
            id: *id,
            op: *op,
            ty: Ty::Int,
            args: SmallVec::new(alloc),
            int: *int,
            aux: *aux,
        })?;
    }
    Ok(values)
}

/// A function of one block with these values.
pub(crate) fn func(alloc: Global, args: &[Ty], rows: &[ValueRow]) -> Result<Func, AllocError> {
    let block = Block {
        id: 1,
        kind: Kind::Ret,
        control: None,
        preds: Vec::new(alloc),
        succs: Vec::new(alloc),
        likely: Likely::No,
        values: values(alloc, rows)?,
    };
    Ok(Func {
        name: 0,
        sig: Sig {
            args: args.to_vec(alloc)?,
            results: vec![in alloc; Ty::Int]?,
        },
        blocks: vec![in alloc; block]?,
        given: 0,
    })
}

pub(crate) fn done(
    alloc: Global,
    value: u32,
    args: &[u8],
    place: Option<u8>,
) -> Result<Step, AllocError> {
    Ok(Step::Do {
        value,
        args: SmallVec::from_slice(alloc, args)?,
        result: place,
    })
}

pub(crate) fn block(
    alloc: Global,
    id: u32,
    kind: Kind,
    succs: &[u32],
    steps: Vec<Step>,
) -> Result<PlacedBlock, AllocError> {
    Ok(PlacedBlock {
        id,
        kind,
        control: Some(5),
        succs: succs.to_vec(alloc)?,
        steps,
    })
}

pub(crate) fn placed(blocks: Vec<PlacedBlock>) -> Placed {
    Placed {
        blocks,
        slots: 0,
        out: 0,
    }
}

/// So many loads of a slot.
fn loads(alloc: Global, count: usize) -> Result<Vec<Step>, AllocError> {
    let mut steps = Vec::new(alloc);
    for _ in 0..count {
        steps.push(Step::Load { reg: 6, slot: 0 })?;
    }
    Ok(steps)
}

/// The code of an `If` to a block that is so many words behind the branch.
fn branching(alloc: Global, count: usize) -> Result<Vec<u32>, Fail> {
    let blocks = vec![in alloc;
        block(alloc, 1, Kind::If, &[3, 2], Vec::new(alloc))?,
        block(alloc, 2, Kind::Exit, &[], loads(alloc, count)?)?,
        block(alloc, 3, Kind::Exit, &[], Vec::new(alloc))?,
    ]?;
    let func = func(alloc, &[], &[])?;
    let piece = emit(alloc, &func, &placed(blocks), 16, &[])?;
    Ok(piece.code)
}

#[test]
fn a_branch_spans_1023_words(rt: HostRuntime) -> Result<(), Fail> {
    let near = branching(rt.alloc(), 1020)?;
    assert_eq!(rt; near.get(7).copied(), Some(0x7e0f_9ee3));
    let far = branching(rt.alloc(), 1021)?;
    assert_eq!(rt; far.get(7).copied(), Some(0x000f_8463));
    assert_eq!(rt; far.get(8).copied(), Some(0x0000_106f));
    Ok(())
}

const SUM: [u32; 13] = [
    0xff01_0f93,
    0x01bf_f663,
    0x0050_0f93,
    0x0010_0073,
    0x000f_8113,
    0x0011_3423,
    0x0101_3283,
    0x0181_3303,
    0x0062_82b3,
    0x0251_3023,
    0x0081_3083,
    0x0101_0113,
    0x0000_8067,
];

#[test]
fn two_arguments_are_added(rt: HostRuntime) -> Result<(), Fail> {
    let alloc = rt.alloc();
    let rows = [
        (2, op(Family::ArgWord, 0), 0, Aux::Nothing),
        (3, op(Family::ArgWord, 0), 1, Aux::Nothing),
        (4, op(Family::Rv(RvOp::Add), 0), 0, Aux::Nothing),
        (5, op(Family::RetWord, 0), 2, Aux::Nothing),
    ];
    let func = func(alloc, &[Ty::Int, Ty::Int], &rows)?;
    let steps = vec![in alloc;
        done(alloc, 2, &[], Some(5))?,
        done(alloc, 3, &[], Some(6))?,
        done(alloc, 4, &[5, 6], Some(5))?,
        done(alloc, 5, &[5], None)?,
    ]?;
    let blocks = vec![in alloc; block(alloc, 1, Kind::Ret, &[], steps)?]?;
    let piece = emit(alloc, &func, &placed(blocks), 16, &[])?;
    assert!(rt; piece.code.as_slice() == SUM.as_slice());
    Ok(())
}

#[test]
fn a_constant_waits_for_the_pool(rt: HostRuntime) -> Result<(), Fail> {
    let alloc = rt.alloc();
    let rows = [(
        2,
        op(Family::Rv(RvOp::Const), 0),
        0x1234_5678_9abc_def0,
        Aux::Nothing,
    )];
    let func = func(alloc, &[], &rows)?;
    let keys = keys_of(alloc, &func)?;
    assert!(rt;
        matches!(keys.as_slice(), [pool, ty] if pool.key == 0x1234_5678_9abc_def0 && ty.area == 1 && ty.key == 10)
    );
    let handles = [Handle { area: 2, cell: 7 }, Handle { area: 1, cell: 3 }];
    let steps = vec![in alloc; done(alloc, 2, &[], Some(5))?]?;
    let blocks = vec![in alloc; block(alloc, 1, Kind::Ret, &[], steps)?]?;
    let piece = emit(alloc, &func, &placed(blocks), 16, &handles)?;
    assert!(rt;
        piece.handles.as_slice() == [(6, Patch::Pool, Handle { area: 2, cell: 7 })].as_slice()
    );
    assert!(rt; piece.types.as_slice() == [Handle { area: 1, cell: 3 }].as_slice());
    let mut words = [0x0000_02b7, 0x0002_b283];
    assert_eq!(rt; piece.code.get(6).copied(), Some(words[0]));
    patch_words(&mut words, Patch::Pool, 33_554_432, 65_560, Target::Riscv64);
    assert!(rt; words == [0x0200_02b7, 0x0002_b283]);
    Ok(())
}

#[test]
fn addresses_are_put_into_words(rt: HostRuntime) -> Result<(), Fail> {
    let mut call = [0x0000_0f97, 0x000f_80e7];
    patch_words(&mut call, Patch::Call, 67_584, 65_536, Target::Riscv64);
    assert!(rt; call == [0x0000_1f97, 0x800f_80e7]);
    let mut own = [0xeb00_0000];
    patch_words(&mut own, Patch::Call, 65_536, 65_536, Target::Arm);
    assert!(rt; own == [0xebff_fffe]);
    let mut address = [0xe300_0000, 0xe340_0000];
    patch_words(&mut address, Patch::Addr, 0x0400_1234, 65_536, Target::Arm);
    assert!(rt; address == [0xe301_0234, 0xe340_0400]);
    Ok(())
}

#[test]
fn sizes_are_the_least(rt: HostRuntime) -> Result<(), Fail> {
    let near = [Branch {
        at: 0,
        target: 1023,
        cond: true,
    }];
    let sizes = branch_sizes(rt.alloc(), &near, 2000);
    assert!(rt; matches!(&sizes, Ok(sizes) if sizes.as_slice() == [1].as_slice()));
    let far = [Branch {
        at: 0,
        target: 1024,
        cond: true,
    }];
    let sizes = branch_sizes(rt.alloc(), &far, 2000);
    assert!(rt; matches!(&sizes, Ok(sizes) if sizes.as_slice() == [2].as_slice()));
    let jump = [Branch {
        at: 0,
        target: 262_144,
        cond: false,
    }];
    let sizes = branch_sizes(rt.alloc(), &jump, 300_000);
    assert!(rt; matches!(&sizes, Ok(sizes) if sizes.as_slice() == [2].as_slice()));
    Ok(())
}

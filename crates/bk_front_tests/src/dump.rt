use bk_dump::{claim_order, generate, print_package};
use bk_func::{Aux, Block, Func, Kind, Likely, Package, Sig, Value, Var};
use bk_ops::{Family, Op, Ty};
use smallvec::SmallVec;
use std::alloc::{AllocError, Global};
use std::test::Fail;

type ValueRow<'a> = (u32, Family, Ty, &'a [u32], i64, Aux);

fn values(alloc: Global, rows: &[ValueRow<'_>]) -> Result<Vec<Value>, AllocError> {
    let mut values = Vec::new(alloc);
    for (id, family, ty, args, int, aux) in rows {
        let a = if *family == Family::Const { 32 } else { 0 };
        values.push(Value {
            id: *id,
            op: Op {
                family: *family,
                a,
                b: 0,
            },
            ty: *ty,
            args: SmallVec::from_slice(alloc, args)?,
            int: *int,
            aux: *aux,
        })?;
    }
    Ok(values)
}

fn block(
    alloc: Global,
    end: (u32, Kind, u32),
    preds: &[u32],
    succs: &[u32],
    rows: &[ValueRow<'_>],
) -> Result<Block, AllocError> {
    let (id, kind, control) = end;
    Ok(Block {
        id,
        kind,
        control: Some(control),
        preds: preds.to_vec(alloc)?,
        succs: succs.to_vec(alloc)?,
        likely: Likely::Second,
        values: values(alloc, rows)?,
    })
}

fn func(
    alloc: Global,
    name: u32,
    args: &[Ty],
    results: &[Ty],
    blocks: Vec<Block>,
    given: u32,
) -> Result<Func, AllocError> {
    Ok(Func {
        name,
        sig: Sig {
            args: args.to_vec(alloc)?,
            results: results.to_vec(alloc)?,
        },
        blocks,
        given,
    })
}

fn names(alloc: Global, names: &[&str]) -> Result<Vec<String>, AllocError> {
    let mut owned = Vec::new(alloc);
    for name in names {
        owned.push(String::from_str(alloc, name)?)?;
    }
    Ok(owned)
}

const ARGS: [Ty; 28] = [
    Ty::Ptr,
    Ty::Bool,
    Ty::Int8,
    Ty::Uint8,
    Ty::Int16,
    Ty::Uint16,
    Ty::Int32,
    Ty::Uint32,
    Ty::Int64,
    Ty::Uint64,
    Ty::Int,
    Ty::Uint,
    Ty::Uintptr,
    Ty::Int,
    Ty::Int,
    Ty::Int,
    Ty::Int,
    Ty::Int,
    Ty::Int,
    Ty::Int,
    Ty::Int,
    Ty::Int,
    Ty::Int,
    Ty::Int,
    Ty::Int,
    Ty::Int,
    Ty::Int,
    Ty::Int,
];

fn package(alloc: Global) -> Result<Package, AllocError> {
    let first: [ValueRow<'_>; 8] = [
        (1, Family::InitMem, Ty::Mem, &[], 0, Aux::Nothing),
        (2, Family::Arg, Ty::Ptr, &[], 0, Aux::Arg(0)),
        (3, Family::Arg, Ty::Int, &[], 0, Aux::Arg(27)),
        (4, Family::ConstBool, Ty::Bool, &[], 1, Aux::Nothing),
        (5, Family::Const, Ty::Int32, &[], -7, Aux::Nothing),
        (6, Family::Store, Ty::Mem, &[2, 5, 1], 0, Aux::Ty(Ty::Int32)),
        (7, Family::StaticLECall, Ty::Tuple, &[6], 0, Aux::Sym(2)),
        (8, Family::SelectN, Ty::Mem, &[7], 2, Aux::Nothing),
    ];
    let second: [ValueRow<'_>; 1] = [(
        9,
        Family::StaticLECall,
        Ty::Mem,
        &[8],
        0,
        Aux::Sym(4_294_967_295),
    )];
    let third: [ValueRow<'_>; 1] = [(
        10,
        Family::MakeResult,
        Ty::Tuple,
        &[3, 4, 8],
        0,
        Aux::Nothing,
    )];
    let body = vec![in alloc;
        block(alloc, (1, Kind::If, 4), &[], &[2, 3], &first)?,
        block(alloc, (2, Kind::Exit, 9), &[1], &[], &second)?,
        block(alloc, (3, Kind::Ret, 10), &[1], &[], &third)?,
    ]?;
    let f = func(alloc, 1, &ARGS, &[Ty::Int, Ty::Bool], body, 10)?;
    let r = func(alloc, 2, &[], &[Ty::Uint8, Ty::Ptr], Vec::new(alloc), 0)?;
    let g = Var {
        name: 0,
        size: 3,
        bytes: vec![in alloc; 1, 171]?,
    };
    let z = Var {
        name: 3,
        size: 0,
        bytes: Vec::new(alloc),
    };
    Ok(Package {
        names: names(alloc, &["g", "f", "r", "z"])?,
        funcs: vec![in alloc; f, r]?,
        vars: vec![in alloc; g, z]?,
    })
}

#[test]
fn parts_are_printed(rt: HostRuntime) -> Result<(), Fail> {
    let text = print_package(rt.alloc(), &package(rt.alloc())?)?;
    let expected: &str = "\
        var g 3 = 01ab00\n\
        f func(a ptr, b bool, c int8, d uint8, e int16, f uint16, g int32, h uint32, i int64, j uint64, k int, l uint, m uintptr, n int, o int, p int, q int, r int, s int, t int, u int, v int, w int, x int, y int, z int, a26 int, a27 int) (int, bool)\n\
        b1:\n\
        \x20 v1 = InitMem <mem>\n\
        \x20 v2 = Arg <ptr> {a}\n\
        \x20 v3 = Arg <int> {a27}\n\
        \x20 v4 = ConstBool <bool> [1]\n\
        \x20 v5 = Const32 <int32> [-7]\n\
        \x20 v6 = Store <mem> {int32} v2 v5 v1\n\
        \x20 v7 = StaticLECall <uint8,ptr,mem> {r} v6\n\
        \x20 v8 = SelectN <mem> [2] v7\n\
        \x20 If v4 -> b2 b3 (unlikely)\n\
        b2: <- b1\n\
        \x20 v9 = StaticLECall <mem> {runtime.panicshift} v8\n\
        \x20 Exit v9\n\
        b3: <- b1\n\
        \x20 v10 = MakeResult <int,bool,mem> v3 v4 v8\n\
        \x20 Ret v10\n\
        r func() (uint8, ptr)\n\
        var z 0\n";
    assert_eq!(rt; text.as_slice(), expected.as_bytes());
    Ok(())
}

// The first package is written out; of the others the lengths and the sums of their bytes are known.
#[test]
fn packages_are_generated(rt: HostRuntime) -> Result<(), Fail> {
    let one = print_package(rt.alloc(), &generate(rt.alloc(), 1)?)?;
    let expected: &str = "\
        f0 func(a int64, b int64) int64\n\
        b1:\n\
        \x20 v1 = InitMem <mem>\n\
        \x20 v2 = Arg <int64> {a}\n\
        \x20 v3 = Arg <int64> {b}\n\
        \x20 v4 = Const64 <int64> [10859325028683]\n\
        \x20 v5 = And64 <int64> v2 v2\n\
        \x20 v6 = Or64 <int64> v4 v3\n\
        \x20 v7 = Const64 <int64> [892]\n\
        \x20 v8 = Or64 <int64> v7 v7\n\
        \x20 v9 = Sub64 <int64> v3 v2\n\
        \x20 v10 = Const64 <int64> [28954685165583]\n\
        \x20 v11 = Const64 <int64> [1127]\n\
        \x20 v12 = Const64 <int64> [18287327759786]\n\
        \x20 v13 = Add64 <int64> v12 v6\n\
        \x20 v14 = Mul64 <int64> v12 v13\n\
        \x20 v15 = And64 <int64> v3 v7\n\
        \x20 v16 = Sub64 <int64> v8 v8\n\
        \x20 v17 = Or64 <int64> v2 v5\n\
        \x20 v18 = Const64 <int64> [686]\n\
        \x20 v19 = Xor64 <int64> v9 v13\n\
        \x20 v20 = Mul64 <int64> v17 v4\n\
        \x20 v21 = Or64 <int64> v10 v3\n\
        \x20 v22 = Const64 <int64> [1527887407321]\n\
        \x20 v23 = Sub64 <int64> v12 v18\n\
        \x20 v24 = Const64 <int64> [1846]\n\
        \x20 v25 = Const64 <int64> [8868566146637]\n\
        \x20 v26 = Xor64 <int64> v12 v24\n\
        \x20 v27 = Const64 <int64> [12603991655814]\n\
        \x20 v28 = Const64 <int64> [18378912992365]\n\
        \x20 v29 = Const64 <int64> [27212101921761]\n\
        \x20 v30 = Add64 <int64> v18 v13\n\
        \x20 v31 = Const64 <int64> [1201]\n\
        \x20 v32 = Add64 <int64> v13 v22\n\
        \x20 v33 = Xor64 <int64> v10 v20\n\
        \x20 v34 = And64 <int64> v15 v12\n\
        \x20 v35 = MakeResult <int64,mem> v34 v1\n\
        \x20 Ret v35\n";
    assert_eq!(rt; one.as_slice(), expected.as_bytes());
    for (count, length, sum) in [(40, 52_425, 3_414_071), (400, 508_535, 33_125_661)] {
        let text = print_package(rt.alloc(), &generate(rt.alloc(), count)?)?;
        let bytes = text
            .iter()
            .fold(0u64, |sum, byte| sum.wrapping_add(u64::from(*byte)));
        assert_eq!(rt; (text.len(), bytes), (length, sum), "in {count}");
    }
    Ok(())
}

#[test]
fn longer_functions_are_claimed_first(rt: HostRuntime) -> Result<(), Fail> {
    let alloc = rt.alloc();
    let package = Package {
        names: names(alloc, &["a", "b", "c"])?,
        funcs: vec![in alloc;
            func(alloc, 0, &[], &[], Vec::new(alloc), 5)?,
            func(alloc, 1, &[], &[], Vec::new(alloc), 9)?,
            func(alloc, 2, &[], &[], Vec::new(alloc), 9)?,
        ]?,
        vars: Vec::new(alloc),
    };
    let order = claim_order(alloc, &package)?;
    assert_eq!(rt; order.as_slice(), [1, 2, 0].as_slice());
    Ok(())
}

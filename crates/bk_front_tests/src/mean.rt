use bk_func::{Aux, Block, Func, Kind, Likely, Package, Sig, Value, Var};
use bk_mean::{EvalError, Outcome, eval};
use bk_ops::{Family, Op, Target, Ty, op_of_name};
use smallvec::SmallVec;
use std::alloc::{AllocError, Global};
use std::test::Fail;

const BASE: u64 = 67_108_864;

/// A value: its number, op, type, arguments, AuxInt and what stands beside it.
type Line<'a> = (u32, &'a str, Ty, &'a [u32], i64, Aux);

/// A block: its number, kind, control, predecessors, successors and values.
type Part<'a> = (u32, Kind, Option<u32>, &'a [u32], &'a [u32], &'a [Line<'a>]);

fn value(alloc: Global, line: &Line<'_>) -> Result<Value, AllocError> {
    let op = match op_of_name(line.1.as_bytes()) {
        Some(op) => op,
        None => Op {
            family: Family::InitMem,
            a: 0,
            b: 0,
        },
    };
    Ok(Value {
        id: line.0,
        op,
        ty: line.2,
        args: SmallVec::from_slice(alloc, line.3)?,
        int: line.4,
        aux: line.5,
    })
}

fn values(alloc: Global, lines: &[Line<'_>]) -> Result<Vec<Value>, AllocError> {
    let mut values = Vec::new(alloc);
    for line in lines {
        values.push(value(alloc, line)?)?;
    }
    Ok(values)
}

fn block(alloc: Global, part: &Part<'_>) -> Result<Block, AllocError> {
    Ok(Block {
        id: part.0,
        kind: part.1,
        control: part.2,
        preds: part.3.to_vec(alloc)?,
        succs: part.4.to_vec(alloc)?,
        likely: Likely::No,
        values: values(alloc, part.5)?,
    })
}

/// A function with the name of a number, and blocks.
fn func(
    alloc: Global,
    name: u32,
    args: &[Ty],
    results: &[Ty],
    parts: &[Part<'_>],
) -> Result<Func, AllocError> {
    let mut blocks = Vec::new(alloc);
    for part in parts {
        blocks.push(block(alloc, part)?)?;
    }
    Ok(Func {
        name,
        sig: Sig {
            args: args.to_vec(alloc)?,
            results: results.to_vec(alloc)?,
        },
        blocks,
        given: 0,
    })
}

/// A package of functions, and of a variable of 8 bytes; its names are f, g and x.
fn package(alloc: Global, funcs: Vec<Func>) -> Result<Package, AllocError> {
    let mut names = Vec::new(alloc);
    for name in ["f", "g", "x"] {
        names.push(String::from_str(alloc, name)?)?;
    }
    let mut vars = Vec::new(alloc);
    vars.push(Var {
        name: 2,
        size: 8,
        bytes: Vec::new(alloc),
    })?;
    Ok(Package { names, funcs, vars })
}

fn alone(alloc: Global, func: Func) -> Result<Package, AllocError> {
    let mut funcs = Vec::new(alloc);
    funcs.push(func)?;
    package(alloc, funcs)
}

/// What a run of f comes to, as text.
fn run(
    alloc: Global,
    pkg: &Package,
    target: Target,
    args: &[u64],
    window: &[u8],
    stack: u64,
    bound: u64,
) -> Result<String, AllocError> {
    let frames = [16, 16];
    match eval(alloc, pkg, target, &frames, "f", args, window, stack, bound) {
        Ok((outcome, window)) => format!(in alloc; "{outcome:?} {window:?}"),
        Err(error) => format!(in alloc; "{error:?}"),
    }
}

const NONE: Aux = Aux::Nothing;

// Two numbers change places as often as the first argument says.
fn swap(alloc: Global) -> Result<Package, AllocError> {
    let entry: [Line<'_>; 6] = [
        (1, "InitMem", Ty::Mem, &[], 0, NONE),
        (2, "Arg", Ty::Int, &[], 0, Aux::Arg(0)),
        (3, "Arg", Ty::Int, &[], 0, Aux::Arg(1)),
        (4, "Arg", Ty::Int, &[], 0, Aux::Arg(2)),
        (5, "Const64", Ty::Int, &[], 0, NONE),
        (6, "Const64", Ty::Int, &[], 1, NONE),
    ];
    let head: [Line<'_>; 4] = [
        (7, "Phi", Ty::Int, &[2, 10], 0, NONE),
        (8, "Phi", Ty::Int, &[3, 9], 0, NONE),
        (9, "Phi", Ty::Int, &[4, 8], 0, NONE),
        (11, "Less64", Ty::Bool, &[5, 7], 0, NONE),
    ];
    let body: [Line<'_>; 1] = [(10, "Sub64", Ty::Int, &[7, 6], 0, NONE)];
    let last: [Line<'_>; 1] = [(12, "MakeResult", Ty::Tuple, &[8, 9, 1], 0, NONE)];
    let types = [Ty::Int, Ty::Int, Ty::Int];
    let mut swap = func(alloc, 0, &types, &[Ty::Int, Ty::Int], &[])?;
    let plain = Kind::Plain;
    swap.blocks
        .push(block(alloc, &(1, plain, None, &[], &[2], &entry))?)?;
    swap.blocks.push(block(alloc, &(2, Kind::If, Some(11), &[1, 3], &[3, 4], &head))?)?;
    swap.blocks
        .push(block(alloc, &(3, plain, None, &[2], &[2], &body))?)?;
    swap.blocks
        .push(block(alloc, &(4, Kind::Ret, Some(12), &[2], &[], &last))?)?;
    alone(alloc, swap)
}

#[test]
fn phis_change_places_at_once(rt: HostRuntime) -> Result<(), Fail> {
    let pkg = swap(rt.alloc())?;
    for (times, bound, end) in [
        (3, 9, "Returned([20, 10]) []"),
        (3, 8, "Going []"),
        (0, 3, "Returned([10, 20]) []"),
        (0, 0, "Going []"),
        (49_998, 99_999, "Returned([10, 20]) []"),
        (49_999, 100_000, "Going []"),
    ] {
        let args = [times, 10, 20];
        let told = run(rt.alloc(), &pkg, Target::Riscv64, &args, &[], 65_536, bound)?;
        assert_eq!(rt; told.as_str(), end);
    }
    Ok(())
}

#[test]
fn stores_are_checked(rt: HostRuntime) -> Result<(), Fail> {
    let lines: [Line<'_>; 6] = [
        (1, "InitMem", Ty::Mem, &[], 0, NONE),
        (2, "Arg", Ty::Ptr, &[], 0, Aux::Arg(0)),
        (3, "Arg", Ty::Int32, &[], 0, Aux::Arg(1)),
        (4, "NilCheck", Ty::Void, &[2, 1], 0, NONE),
        (5, "Store", Ty::Mem, &[2, 3, 1], 0, Aux::Ty(Ty::Int32)),
        (6, "MakeResult", Ty::Mem, &[5], 0, NONE),
    ];
    let parts: [Part<'_>; 1] = [(1, Kind::Ret, Some(6), &[], &[], &lines)];
    let types = [Ty::Ptr, Ty::Int32];
    let pkg = alone(rt.alloc(), func(rt.alloc(), 0, &types, &[], &parts)?)?;
    for target in [Target::Arm, Target::Riscv64] {
        for (pointer, end) in [
            (0, "Trapped(1) [1, 2, 3, 4, 5, 6, 7, 8]"),
            (BASE, "Returned([]) [9, 0, 0, 0, 5, 6, 7, 8]"),
            (BASE + 6, "Wild(67108870) [1, 2, 3, 4, 5, 6, 7, 8]"),
        ] {
            let window = [1, 2, 3, 4, 5, 6, 7, 8];
            let told = run(rt.alloc(), &pkg, target, &[pointer, 9], &window, 65_536, 10)?;
            assert_eq!(rt; told.as_str(), end);
        }
    }
    Ok(())
}

// A function that counts in x how often it is called, and calls itself.
#[test]
fn calls_use_the_stack(rt: HostRuntime) -> Result<(), Fail> {
    let lines: [Line<'_>; 10] = [
        (1, "InitMem", Ty::Mem, &[], 0, NONE),
        (2, "SB", Ty::Uintptr, &[], 0, NONE),
        (3, "Addr", Ty::Ptr, &[2], 0, Aux::Sym(2)),
        (4, "Load", Ty::Int, &[3, 1], 0, NONE),
        (5, "Const64", Ty::Int, &[], 1, NONE),
        (6, "Add64", Ty::Int, &[4, 5], 0, NONE),
        (7, "Store", Ty::Mem, &[3, 6, 1], 0, Aux::Ty(Ty::Int)),
        (8, "StaticLECall", Ty::Mem, &[7], 0, Aux::Sym(0)),
        (9, "SelectN", Ty::Mem, &[8], 0, NONE),
        (10, "MakeResult", Ty::Mem, &[9], 0, NONE),
    ];
    let parts: [Part<'_>; 1] = [(1, Kind::Ret, Some(10), &[], &[], &lines)];
    let pkg = alone(rt.alloc(), func(rt.alloc(), 0, &[], &[], &parts)?)?;
    for (stack, bound, end) in [
        (65_536, 1_000_000, "Trapped(5) [0, 16, 0, 0, 0, 0, 0, 0]"),
        (65_535, 1_000_000, "Trapped(5) [255, 15, 0, 0, 0, 0, 0, 0]"),
        (15, 0, "Trapped(5) [0, 0, 0, 0, 0, 0, 0, 0]"),
        (65_536, 3, "Going [3, 0, 0, 0, 0, 0, 0, 0]"),
    ] {
        let told = run(
            rt.alloc(),
            &pkg,
            Target::Riscv64,
            &[],
            &[0; 8],
            stack,
            bound,
        )?;
        assert_eq!(rt; told.as_str(), end);
    }
    Ok(())
}

// The quotient of two numbers, and of -2^31 by -1; which functions and arguments are taken.
#[test]
fn quotients(rt: HostRuntime) -> Result<(), Fail> {
    let lines: [Line<'_>; 5] = [
        (1, "InitMem", Ty::Mem, &[], 0, NONE),
        (2, "Arg", Ty::Int32, &[], 0, Aux::Arg(0)),
        (3, "Arg", Ty::Int32, &[], 0, Aux::Arg(1)),
        (4, "Div32", Ty::Int32, &[2, 3], 0, NONE),
        (5, "MakeResult", Ty::Tuple, &[4, 1], 0, NONE),
    ];
    let parts: [Part<'_>; 1] = [(1, Kind::Ret, Some(5), &[], &[], &lines)];
    let types = [Ty::Int32, Ty::Int32];
    let first = func(rt.alloc(), 0, &types, &[Ty::Int32], &parts)?;
    let pkg = alone(rt.alloc(), first)?;
    let other = package(rt.alloc(), Vec::new(rt.alloc()))?;
    let known = [
        (
            Target::Arm,
            2_147_483_648,
            4_294_967_295,
            "Returned([2147483648]) []",
        ),
        (
            Target::Riscv64,
            2_147_483_648,
            4_294_967_295,
            "Returned([2147483648]) []",
        ),
        (Target::Arm, 7, 0, "Returned([0]) []"),
        (Target::Riscv64, 7, 0, "Returned([4294967295]) []"),
        (Target::Arm, 7, 4_294_967_296, "BadArgs"),
    ];
    for (target, first, second, end) in known {
        let told = run(rt.alloc(), &pkg, target, &[first, second], &[], 65_536, 10)?;
        assert_eq!(rt; told.as_str(), end);
    }
    let few = run(rt.alloc(), &pkg, Target::Arm, &[7], &[], 65_536, 10)?;
    let many = run(rt.alloc(), &pkg, Target::Arm, &[7, 2, 1], &[], 65_536, 10)?;
    let other = run(rt.alloc(), &other, Target::Arm, &[7, 2], &[], 65_536, 10)?;
    let told = (few.as_str(), many.as_str(), other.as_str());
    assert_eq!(rt; told, ("BadArgs", "BadArgs", "NoFunction"));
    Ok(())
}

// Zeros and moved bytes: an op with its count, where it writes and reads, and how the run ends. All bytes lie in the
// window, and what is read shares none with what is written, or nothing is done.
const MOVED: [(&str, i64, u64, u64, &str); 10] = [
    (
        "Move",
        4,
        BASE,
        BASE + 4,
        "Returned([]) [5, 6, 7, 8, 5, 6, 7, 8]",
    ),
    (
        "Move",
        4,
        BASE + 1,
        BASE + 1,
        "Returned([]) [1, 2, 3, 4, 5, 6, 7, 8]",
    ),
    (
        "Move",
        4,
        BASE + 1,
        BASE,
        "Wild(67108865) [1, 2, 3, 4, 5, 6, 7, 8]",
    ),
    (
        "Move",
        4,
        BASE + 6,
        BASE + 5,
        "Wild(67108869) [1, 2, 3, 4, 5, 6, 7, 8]",
    ),
    (
        "Move",
        4,
        BASE + 6,
        BASE,
        "Wild(67108870) [1, 2, 3, 4, 5, 6, 7, 8]",
    ),
    ("Move", 0, 1, 2, "Returned([]) [1, 2, 3, 4, 5, 6, 7, 8]"),
    ("Move", -1, 1, 2, "Returned([]) [1, 2, 3, 4, 5, 6, 7, 8]"),
    (
        "Zero",
        3,
        BASE + 5,
        0,
        "Returned([]) [1, 2, 3, 4, 5, 0, 0, 0]",
    ),
    (
        "Zero",
        3,
        BASE + 6,
        0,
        "Wild(67108870) [1, 2, 3, 4, 5, 6, 7, 8]",
    ),
    ("Zero", 0, 1, 0, "Returned([]) [1, 2, 3, 4, 5, 6, 7, 8]"),
];

#[test]
fn bytes_are_moved(rt: HostRuntime) -> Result<(), Fail> {
    for (name, count, to, from, end) in MOVED {
        let args: &[u32] = if name == "Move" { &[2, 3, 1] } else { &[2, 1] };
        let lines: [Line<'_>; 5] = [
            (1, "InitMem", Ty::Mem, &[], 0, NONE),
            (2, "Arg", Ty::Ptr, &[], 0, Aux::Arg(0)),
            (3, "Arg", Ty::Ptr, &[], 0, Aux::Arg(1)),
            (4, name, Ty::Mem, args, count, NONE),
            (5, "MakeResult", Ty::Mem, &[4], 0, NONE),
        ];
        let parts: [Part<'_>; 1] = [(1, Kind::Ret, Some(5), &[], &[], &lines)];
        let pkg = alone(
            rt.alloc(),
            func(rt.alloc(), 0, &[Ty::Ptr, Ty::Ptr], &[], &parts)?,
        )?;
        let window = [1, 2, 3, 4, 5, 6, 7, 8];
        let told = run(
            rt.alloc(),
            &pkg,
            Target::Riscv64,
            &[to, from],
            &window,
            65_536,
            10,
        )?;
        assert_eq!(rt; told.as_str(), end);
    }
    Ok(())
}

// What a call of a name that has no function traps with, and other ends.
#[test]
fn traps(rt: HostRuntime) -> Result<(), Fail> {
    for (name, aux, kind, end) in [
        (
            "StaticLECall",
            Aux::Sym(4_294_967_294),
            Kind::Exit,
            "Trapped(3) []",
        ),
        (
            "StaticLECall",
            Aux::Sym(4_294_967_295),
            Kind::Exit,
            "Trapped(4) []",
        ),
        ("PanicBounds", NONE, Kind::Exit, "Trapped(2) []"),
        ("Zero", NONE, Kind::Exit, "Trapped(6) []"),
        ("Zero", NONE, Kind::Ret, "Returned([]) []"),
    ] {
        let args: &[u32] = match name {
            "StaticLECall" => &[1],
            "PanicBounds" => &[2, 2, 1],
            _ => &[2, 1],
        };
        let lines: [Line<'_>; 3] = [
            (1, "InitMem", Ty::Mem, &[], 0, NONE),
            (2, "Const64", Ty::Int, &[], 7, NONE),
            (3, name, Ty::Mem, args, 0, aux),
        ];
        let parts: [Part<'_>; 1] = [(1, kind, Some(3), &[], &[], &lines)];
        let pkg = alone(rt.alloc(), func(rt.alloc(), 0, &[], &[], &parts)?)?;
        let told = run(rt.alloc(), &pkg, Target::Riscv64, &[], &[], 65_536, 10)?;
        assert_eq!(rt; told.as_str(), end);
    }
    Ok(())
}

// Of loads of one state the first outside the window counts, in list order, but each after those that it
// needs: here v9 needs v8 and v6, v8 needs v5, and they come as v5, v6, v8, v9.
#[test]
fn loads_come_in_order(rt: HostRuntime) -> Result<(), Fail> {
    let lines: [Line<'_>; 9] = [
        (1, "InitMem", Ty::Mem, &[], 0, NONE),
        (2, "Arg", Ty::Ptr, &[], 0, Aux::Arg(0)),
        (3, "Arg", Ty::Ptr, &[], 0, Aux::Arg(1)),
        (9, "Load", Ty::Int, &[7, 1], 0, NONE),
        (7, "Add64", Ty::Ptr, &[8, 6], 0, NONE),
        (5, "Load", Ty::Ptr, &[2, 1], 0, NONE),
        (6, "Load", Ty::Ptr, &[3, 1], 0, NONE),
        (8, "Load", Ty::Ptr, &[5, 1], 0, NONE),
        (10, "MakeResult", Ty::Tuple, &[9, 1], 0, NONE),
    ];
    let parts: [Part<'_>; 1] = [(1, Kind::Ret, Some(10), &[], &[], &lines)];
    let types = [Ty::Ptr, Ty::Ptr];
    let pkg = alone(rt.alloc(), func(rt.alloc(), 0, &types, &[Ty::Int], &parts)?)?;
    for (first, second, end) in [
        (11, 12, "Wild(11)"),
        (BASE, 12, "Wild(12)"),
        (BASE, BASE, "Wild(7)"),
        (BASE + 8, 12, "Wild(12)"),
        (BASE + 8, BASE, "Wild(14)"),
        (BASE + 8, BASE + 16, "Returned([7])"),
    ] {
        let window = [
            7, 0, 0, 0, 0, 0, 0, 0, 0, 0, 0, 4, 0, 0, 0, 0, 249, 255, 255, 3, 0, 0, 0, 0,
        ];
        let args = [first, second];
        let told = run(
            rt.alloc(),
            &pkg,
            Target::Riscv64,
            &args,
            &window,
            65_536,
            10,
        )?;
        let told = told.as_str();
        assert!(rt; told.starts_with(end), "{told} in place of {end}");
    }
    Ok(())
}

// Words are passed by their places, also where they are not written in order: g gives its arguments the
// other way round.
#[test]
fn calls_pass_words(rt: HostRuntime) -> Result<(), Fail> {
    let outer: [Line<'_>; 11] = [
        (1, "InitMem", Ty::Mem, &[], 0, NONE),
        (2, "ARGWORD", Ty::Uint32, &[], 0, NONE),
        (3, "ARGWORD", Ty::Uint32, &[], 1, NONE),
        (4, "OUTWORD", Ty::Mem, &[3, 1], 1, NONE),
        (5, "OUTWORD", Ty::Mem, &[2, 4], 0, NONE),
        (6, "CALL", Ty::Mem, &[5], 0, Aux::Sym(1)),
        (7, "RESWORD", Ty::Uint32, &[6], 2, NONE),
        (8, "RESWORD", Ty::Uint32, &[6], 3, NONE),
        (9, "RETWORD", Ty::Mem, &[7, 6], 2, NONE),
        (10, "RETWORD", Ty::Mem, &[8, 9], 3, NONE),
        (11, "Copy", Ty::Mem, &[10], 0, NONE),
    ];
    let inner: [Line<'_>; 5] = [
        (1, "InitMem", Ty::Mem, &[], 0, NONE),
        (2, "ARGWORD", Ty::Uint32, &[], 0, NONE),
        (3, "ARGWORD", Ty::Uint32, &[], 1, NONE),
        (4, "RETWORD", Ty::Mem, &[3, 1], 2, NONE),
        (5, "RETWORD", Ty::Mem, &[2, 4], 3, NONE),
    ];
    let first: [Part<'_>; 1] = [(1, Kind::Ret, Some(10), &[], &[], &outer)];
    let second: [Part<'_>; 1] = [(1, Kind::Ret, Some(5), &[], &[], &inner)];
    let types = [Ty::Uint32, Ty::Uint32];
    let mut funcs = Vec::new(rt.alloc());
    funcs.push(func(rt.alloc(), 0, &types, &types, &first)?)?;
    funcs.push(func(rt.alloc(), 1, &types, &types, &second)?)?;
    let pkg = package(rt.alloc(), funcs)?;
    let told = run(rt.alloc(), &pkg, Target::Arm, &[1, 2], &[], 65_536, 10)?;
    assert_eq!(rt; told.as_str(), "Returned([2, 1]) []");
    Ok(())
}

// Eight words of arguments and of results are passed in registers, a ninth is written. Words are passed
// whole, and cut at the end: 300 is 44 in a byte.
#[test]
fn calls_pass_registers(rt: HostRuntime) -> Result<(), Fail> {
    let outer: [Line<'_>; 9] = [
        (1, "InitMem", Ty::Mem, &[], 0, NONE),
        (2, "ARGREG", Ty::Uint64, &[], 0, NONE),
        (3, "Const64", Ty::Uint64, &[], 300, NONE),
        (4, "OUTWORD", Ty::Mem, &[3, 1], 8, NONE),
        (
            5,
            "CALLREGS",
            Ty::Mem,
            &[2, 2, 2, 2, 2, 2, 2, 3, 4],
            0,
            Aux::Sym(1),
        ),
        (6, "RESREG", Ty::Uint64, &[5], 0, NONE),
        (7, "RESREG", Ty::Uint64, &[5], 1, NONE),
        (8, "RESWORD", Ty::Uint64, &[5], 9, NONE),
        (9, "RETREGS", Ty::Mem, &[6, 7, 8, 5], 0, NONE),
    ];
    let inner: [Line<'_>; 5] = [
        (1, "InitMem", Ty::Mem, &[], 0, NONE),
        (2, "ARGREG", Ty::Uint64, &[], 0, NONE),
        (3, "ARGREG", Ty::Uint64, &[], 7, NONE),
        (4, "ARGWORD", Ty::Uint64, &[], 8, NONE),
        (5, "RETREGS", Ty::Mem, &[3, 4, 1], 0, NONE),
    ];
    let first: [Part<'_>; 1] = [(1, Kind::Ret, Some(9), &[], &[], &outer)];
    let second: [Part<'_>; 1] = [(1, Kind::Ret, Some(5), &[], &[], &inner)];
    let mut funcs = Vec::new(rt.alloc());
    let results = [Ty::Uint8, Ty::Uint64, Ty::Uint16];
    funcs.push(func(rt.alloc(), 0, &[Ty::Uint64], &results, &first)?)?;
    let args = [Ty::Uint8; 9];
    funcs.push(func(rt.alloc(), 1, &args, &[Ty::Uint8, Ty::Uint8], &second)?)?;
    let pkg = package(rt.alloc(), funcs)?;
    let told = run(rt.alloc(), &pkg, Target::Riscv64, &[7], &[], 65_536, 10)?;
    assert_eq!(rt; told.as_str(), "Returned([44, 300, 300]) []");
    Ok(())
}

// A number is cut where a result or an argument takes it: g gives 300 as a byte, and f as a word.
#[test]
fn results_are_cut(rt: HostRuntime) -> Result<(), Fail> {
    let outer: [Line<'_>; 5] = [
        (1, "InitMem", Ty::Mem, &[], 0, NONE),
        (2, "Const64", Ty::Uint64, &[], 300, NONE),
        (3, "StaticLECall", Ty::Tuple, &[2, 1], 0, Aux::Sym(1)),
        (4, "SelectN", Ty::Uint8, &[3], 0, NONE),
        (5, "MakeResult", Ty::Tuple, &[4, 2, 1], 0, NONE),
    ];
    let inner: [Line<'_>; 3] = [
        (1, "InitMem", Ty::Mem, &[], 0, NONE),
        (2, "Arg", Ty::Uint16, &[], 0, Aux::Arg(0)),
        (3, "MakeResult", Ty::Tuple, &[2, 1], 0, NONE),
    ];
    let first: [Part<'_>; 1] = [(1, Kind::Ret, Some(5), &[], &[], &outer)];
    let second: [Part<'_>; 1] = [(1, Kind::Ret, Some(3), &[], &[], &inner)];
    let mut funcs = Vec::new(rt.alloc());
    let results = [Ty::Uint64, Ty::Uint8];
    funcs.push(func(rt.alloc(), 0, &[], &results, &first)?)?;
    funcs.push(func(rt.alloc(), 1, &[Ty::Uint16], &[Ty::Uint8], &second)?)?;
    let pkg = package(rt.alloc(), funcs)?;
    let told = run(rt.alloc(), &pkg, Target::Riscv64, &[], &[], 65_536, 10)?;
    assert_eq!(rt; told.as_str(), "Returned([44, 44]) []");
    Ok(())
}

// A sum of 16,384 ones, each listed before those that it takes.
#[test]
fn long_chains(rt: HostRuntime) -> Result<(), Fail> {
    let alloc = rt.alloc();
    let mut lines = Vec::new(alloc);
    lines.push((16_386, "MakeResult", Ty::Tuple, [16_385, 1], 0, NONE))?;
    for id in (3..16_386u32).rev() {
        lines.push((id, "Add64", Ty::Int, [id - 1, 2], 0, NONE))?;
    }
    let mut all = Vec::new(alloc);
    for (id, name, ty, args, int, aux) in &lines {
        all.push(value(alloc, &(*id, *name, *ty, args, *int, *aux))?)?;
    }
    all.push(value(alloc, &(2, "Const64", Ty::Int, &[], 1, NONE))?)?;
    all.push(value(alloc, &(1, "InitMem", Ty::Mem, &[], 0, NONE))?)?;
    let mut sum = func(
        alloc,
        0,
        &[],
        &[Ty::Int],
        &[(1, Kind::Ret, Some(16_386), &[], &[], &[])],
    )?;
    for block in sum.blocks.iter_mut() {
        block.values.append(&mut all)?;
    }
    let pkg = alone(alloc, sum)?;
    let told = run(alloc, &pkg, Target::Riscv64, &[], &[], 65_536, 1)?;
    assert_eq!(rt; told.as_str(), "Returned([16384]) []");
    Ok(())
}

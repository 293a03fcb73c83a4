use bk_calls::{FrameError, RewriteError, frame_of, word_areas};
use bk_func::{Aux, Block, Func, Kind, Likely, Package, Sig, Value};
use bk_ops::{Family, Op, Target, Ty};
use smallvec::SmallVec;
use std::alloc::{AllocError, Global};
use std::test::Fail;

/// A value: its number, family, type, arguments, AuxInt and aux.
#[derive(Clone, Copy)]
pub(crate) struct Row<'a>(
    pub(crate) u32,
    pub(crate) Family,
    pub(crate) Ty,
    pub(crate) &'a [u32],
    pub(crate) i64,
    pub(crate) Aux,
);

fn value(alloc: Global, row: &Row) -> Result<Value, AllocError> {
    Ok(Value {
        id: row.0,
        op: Op {
            family: row.1,
            a: 0,
            b: 0,
        },
        ty: row.2,
        args: SmallVec::from_slice(alloc, row.3)?,
        int: row.4,
        aux: row.5,
    })
}

fn types(alloc: Global, types: &[Ty]) -> Result<Vec<Ty>, AllocError> {
    let mut copy = Vec::new(alloc);
    for ty in types {
        copy.push(*ty)?;
    }
    Ok(copy)
}

pub(crate) fn sig(alloc: Global, args: &[Ty], results: &[Ty]) -> Result<Sig, AllocError> {
    Ok(Sig {
        args: types(alloc, args)?,
        results: types(alloc, results)?,
    })
}

pub(crate) fn values(alloc: Global, rows: &[Row]) -> Result<Vec<Value>, AllocError> {
    let mut values = Vec::new(alloc);
    for row in rows {
        values.push(value(alloc, row)?)?;
    }
    Ok(values)
}

/// A function of one block that ends by its control.
fn func(
    alloc: Global,
    name: u32,
    sig: Sig,
    rows: &[Row],
    control: u32,
) -> Result<Func, AllocError> {
    let block = Block {
        id: 1,
        kind: Kind::Ret,
        control: Some(control),
        preds: Vec::new(alloc),
        succs: Vec::new(alloc),
        likely: Likely::No,
        values: values(alloc, rows)?,
    };
    let mut blocks = Vec::new(alloc);
    blocks.push(block)?;
    Ok(Func {
        name,
        sig,
        blocks,
        given: 0,
    })
}

/// A package with the functions `f` and `g`, of which f has no body here.
pub(crate) fn package(alloc: Global, args: &[Ty], results: &[Ty]) -> Result<Package, AllocError> {
    let mut names = Vec::new(alloc);
    let mut funcs = Vec::new(alloc);
    for name in ["f", "g"] {
        names.push(String::from_str(alloc, name)?)?;
    }
    funcs.push(func(alloc, 0, sig(alloc, &[], &[])?, &[], 1)?)?;
    funcs.push(func(alloc, 1, sig(alloc, args, results)?, &[], 1)?)?;
    Ok(Package {
        names,
        funcs,
        vars: Vec::new(alloc),
    })
}

pub(crate) fn is_row(value: &Value, row: &Row) -> bool {
    value.id == row.0
        && value.op.family == row.1
        && value.ty == row.2
        && value.args.as_slice() == row.3
        && value.int == row.4
        && value.aux == row.5
}

/// Whether the function's one block has this control and these values.
fn is_func(func: &Func, control: u32, rows: &[Row]) -> bool {
    let Some(block) = func.blocks.first() else {
        return false;
    };
    block.control == Some(control)
        && block.values.len() == rows.len()
        && block
            .values
            .iter()
            .zip(rows)
            .all(|(value, row)| is_row(value, row))
}

// On arm f(a, b) returns g(a, b): two words go out, and the result comes back in the word behind them.
#[test]
fn calls_go_to_words(rt: HostRuntime) -> Result<(), Fail> {
    let alloc = rt.alloc();
    let none = Aux::Nothing;
    let pkg = package(alloc, &[Ty::Int, Ty::Int], &[Ty::Int])?;
    let rows = [
        Row(1, Family::InitMem, Ty::Mem, &[], 0, none),
        Row(2, Family::Arg, Ty::Int, &[], 0, Aux::Arg(0)),
        Row(3, Family::Arg, Ty::Int, &[], 0, Aux::Arg(1)),
        Row(
            4,
            Family::StaticLECall,
            Ty::Tuple,
            &[2, 3, 1],
            0,
            Aux::Sym(1),
        ),
        Row(5, Family::SelectN, Ty::Int, &[4], 0, none),
        Row(6, Family::SelectN, Ty::Mem, &[4], 1, none),
        Row(7, Family::MakeResult, Ty::Tuple, &[5, 6], 0, none),
    ];
    let own = sig(alloc, &[Ty::Int, Ty::Int], &[Ty::Int])?;
    let mut it = func(alloc, 0, own, &rows, 7)?;
    assert_eq!(rt; word_areas(alloc, &mut it, &pkg, Target::Arm), Ok(()));
    let expected = [
        Row(1, Family::InitMem, Ty::Mem, &[], 0, none),
        Row(2, Family::ArgWord, Ty::Int, &[], 0, none),
        Row(3, Family::ArgWord, Ty::Int, &[], 1, none),
        Row(4, Family::Call, Ty::Mem, &[9], 0, Aux::Sym(1)),
        Row(5, Family::ResWord, Ty::Int, &[4], 2, none),
        Row(6, Family::Copy, Ty::Mem, &[4], 0, none),
        Row(7, Family::RetWord, Ty::Mem, &[5, 6], 2, none),
        Row(8, Family::OutWord, Ty::Mem, &[2, 1], 0, none),
        Row(9, Family::OutWord, Ty::Mem, &[3, 8], 1, none),
    ];
    assert!(rt; is_func(&it, 7, &expected));
    Ok(())
}

// On riscv64 add(a, b) returns a + b, in registers.
#[test]
fn arguments_come_in_registers(rt: HostRuntime) -> Result<(), Fail> {
    let alloc = rt.alloc();
    let none = Aux::Nothing;
    let pkg = package(alloc, &[Ty::Int, Ty::Int], &[Ty::Int])?;
    let rows = [
        Row(1, Family::InitMem, Ty::Mem, &[], 0, none),
        Row(2, Family::Arg, Ty::Int, &[], 0, Aux::Arg(0)),
        Row(3, Family::Arg, Ty::Int, &[], 0, Aux::Arg(1)),
        Row(4, Family::Add, Ty::Int, &[2, 3], 0, none),
        Row(5, Family::MakeResult, Ty::Tuple, &[4, 1], 0, none),
    ];
    let own = sig(alloc, &[Ty::Int, Ty::Int], &[Ty::Int])?;
    let mut it = func(alloc, 1, own, &rows, 5)?;
    assert_eq!(rt; word_areas(alloc, &mut it, &pkg, Target::Riscv64), Ok(()));
    let expected = [
        Row(1, Family::InitMem, Ty::Mem, &[], 0, none),
        Row(2, Family::Copy, Ty::Int, &[6], 0, none),
        Row(3, Family::Copy, Ty::Int, &[7], 0, none),
        Row(4, Family::Add, Ty::Int, &[2, 3], 0, none),
        Row(5, Family::RetRegs, Ty::Mem, &[4, 1], 0, none),
        Row(6, Family::ArgReg, Ty::Int, &[], 0, none),
        Row(7, Family::ArgReg, Ty::Int, &[], 1, none),
    ];
    assert!(rt; is_func(&it, 5, &expected));
    Ok(())
}

// On riscv64 twice(a) returns add(a, a): the arguments and the result of the call are in registers.
#[test]
fn calls_go_to_registers(rt: HostRuntime) -> Result<(), Fail> {
    let alloc = rt.alloc();
    let none = Aux::Nothing;
    let pkg = package(alloc, &[Ty::Int, Ty::Int], &[Ty::Int])?;
    let call = [2, 2, 1];
    let rows = [
        Row(1, Family::InitMem, Ty::Mem, &[], 0, none),
        Row(2, Family::Arg, Ty::Int, &[], 0, Aux::Arg(0)),
        Row(3, Family::StaticLECall, Ty::Tuple, &call, 0, Aux::Sym(1)),
        Row(4, Family::SelectN, Ty::Int, &[3], 0, none),
        Row(5, Family::SelectN, Ty::Mem, &[3], 1, none),
        Row(6, Family::MakeResult, Ty::Tuple, &[4, 5], 0, none),
    ];
    let own = sig(alloc, &[Ty::Int], &[Ty::Int])?;
    let mut it = func(alloc, 0, own, &rows, 6)?;
    assert_eq!(rt; word_areas(alloc, &mut it, &pkg, Target::Riscv64), Ok(()));
    let expected = [
        Row(1, Family::InitMem, Ty::Mem, &[], 0, none),
        Row(2, Family::Copy, Ty::Int, &[7], 0, none),
        Row(3, Family::CallRegs, Ty::Mem, &call, 0, Aux::Sym(1)),
        Row(4, Family::ResReg, Ty::Int, &[3], 0, none),
        Row(5, Family::Copy, Ty::Mem, &[3], 0, none),
        Row(6, Family::RetRegs, Ty::Mem, &[4, 5], 0, none),
        Row(7, Family::ArgReg, Ty::Int, &[], 0, none),
    ];
    assert!(rt; is_func(&it, 6, &expected));
    Ok(())
}

/// The values of g, of ten arguments and ten results, which calls itself. It names its argument 2 twice and 3 never, and
/// result 1 of the call twice and 2 never.
fn recursive_rows<'a>(args: &'a [u32], results: &'a [u32]) -> [Row<'a>; 24] {
    [
        Row(1, Family::InitMem, Ty::Mem, &[], 0, Aux::Nothing),
        Row(2, Family::Arg, Ty::Int, &[], 0, Aux::Arg(0)),
        Row(3, Family::Arg, Ty::Int, &[], 0, Aux::Arg(1)),
        Row(4, Family::Arg, Ty::Int, &[], 0, Aux::Arg(2)),
        Row(5, Family::Arg, Ty::Int, &[], 0, Aux::Arg(2)),
        Row(6, Family::Arg, Ty::Int, &[], 0, Aux::Arg(4)),
        Row(7, Family::Arg, Ty::Int, &[], 0, Aux::Arg(5)),
        Row(8, Family::Arg, Ty::Int, &[], 0, Aux::Arg(6)),
        Row(9, Family::Arg, Ty::Int, &[], 0, Aux::Arg(7)),
        Row(10, Family::Arg, Ty::Int, &[], 0, Aux::Arg(8)),
        Row(11, Family::Arg, Ty::Int, &[], 0, Aux::Arg(9)),
        Row(12, Family::StaticLECall, Ty::Tuple, args, 0, Aux::Sym(1)),
        Row(13, Family::SelectN, Ty::Int, &[12], 0, Aux::Nothing),
        Row(14, Family::SelectN, Ty::Int, &[12], 1, Aux::Nothing),
        Row(15, Family::SelectN, Ty::Int, &[12], 1, Aux::Nothing),
        Row(16, Family::SelectN, Ty::Int, &[12], 3, Aux::Nothing),
        Row(17, Family::SelectN, Ty::Int, &[12], 4, Aux::Nothing),
        Row(18, Family::SelectN, Ty::Int, &[12], 5, Aux::Nothing),
        Row(19, Family::SelectN, Ty::Int, &[12], 6, Aux::Nothing),
        Row(20, Family::SelectN, Ty::Int, &[12], 7, Aux::Nothing),
        Row(21, Family::SelectN, Ty::Int, &[12], 8, Aux::Nothing),
        Row(22, Family::SelectN, Ty::Int, &[12], 9, Aux::Nothing),
        Row(23, Family::SelectN, Ty::Mem, &[12], 10, Aux::Nothing),
        Row(24, Family::MakeResult, Ty::Tuple, results, 0, Aux::Nothing),
    ]
}

/// What these values become.
fn recursive_words<'a>(args: &'a [u32], results: &'a [u32]) -> [Row<'a>; 35] {
    [
        Row(1, Family::InitMem, Ty::Mem, &[], 0, Aux::Nothing),
        Row(2, Family::Copy, Ty::Int, &[25], 0, Aux::Nothing),
        Row(3, Family::Copy, Ty::Int, &[26], 0, Aux::Nothing),
        Row(4, Family::Copy, Ty::Int, &[27], 0, Aux::Nothing),
        Row(5, Family::Copy, Ty::Int, &[27], 0, Aux::Nothing),
        Row(6, Family::Copy, Ty::Int, &[28], 0, Aux::Nothing),
        Row(7, Family::Copy, Ty::Int, &[29], 0, Aux::Nothing),
        Row(8, Family::Copy, Ty::Int, &[30], 0, Aux::Nothing),
        Row(9, Family::Copy, Ty::Int, &[31], 0, Aux::Nothing),
        Row(10, Family::ArgWord, Ty::Int, &[], 8, Aux::Nothing),
        Row(11, Family::ArgWord, Ty::Int, &[], 9, Aux::Nothing),
        Row(12, Family::CallRegs, Ty::Mem, args, 0, Aux::Sym(1)),
        Row(13, Family::ResReg, Ty::Int, &[12], 0, Aux::Nothing),
        Row(14, Family::ResReg, Ty::Int, &[12], 1, Aux::Nothing),
        Row(15, Family::Copy, Ty::Int, &[14], 0, Aux::Nothing),
        Row(16, Family::ResReg, Ty::Int, &[12], 3, Aux::Nothing),
        Row(17, Family::ResReg, Ty::Int, &[12], 4, Aux::Nothing),
        Row(18, Family::ResReg, Ty::Int, &[12], 5, Aux::Nothing),
        Row(19, Family::ResReg, Ty::Int, &[12], 6, Aux::Nothing),
        Row(20, Family::ResReg, Ty::Int, &[12], 7, Aux::Nothing),
        Row(21, Family::ResWord, Ty::Int, &[12], 18, Aux::Nothing),
        Row(22, Family::ResWord, Ty::Int, &[12], 19, Aux::Nothing),
        Row(23, Family::Copy, Ty::Mem, &[12], 0, Aux::Nothing),
        Row(24, Family::RetRegs, Ty::Mem, results, 0, Aux::Nothing),
        Row(25, Family::ArgReg, Ty::Int, &[], 0, Aux::Nothing),
        Row(26, Family::ArgReg, Ty::Int, &[], 1, Aux::Nothing),
        Row(27, Family::ArgReg, Ty::Int, &[], 2, Aux::Nothing),
        Row(28, Family::ArgReg, Ty::Int, &[], 4, Aux::Nothing),
        Row(29, Family::ArgReg, Ty::Int, &[], 5, Aux::Nothing),
        Row(30, Family::ArgReg, Ty::Int, &[], 6, Aux::Nothing),
        Row(31, Family::ArgReg, Ty::Int, &[], 7, Aux::Nothing),
        Row(32, Family::OutWord, Ty::Mem, &[10, 1], 8, Aux::Nothing),
        Row(33, Family::OutWord, Ty::Mem, &[11, 32], 9, Aux::Nothing),
        Row(34, Family::RetWord, Ty::Mem, &[21, 23], 18, Aux::Nothing),
        Row(35, Family::RetWord, Ty::Mem, &[22, 34], 19, Aux::Nothing),
    ]
}

// On riscv64 the words behind the first eight are in memory: those of the arguments are 8 and 9, and those of the results,
// which stand behind ten arguments, 18 and 19.
#[test]
fn words_behind_registers(rt: HostRuntime) -> Result<(), Fail> {
    let alloc = rt.alloc();
    let ints = [Ty::Int; 10];
    let pkg = package(alloc, &ints, &ints)?;
    let args = [2, 3, 4, 5, 6, 7, 8, 9, 10, 11, 1];
    let results = [13, 14, 15, 16, 17, 18, 19, 20, 21, 22, 23];
    let rows = recursive_rows(&args, &results);
    let mut it = func(alloc, 1, sig(alloc, &ints, &ints)?, &rows, 24)?;
    assert_eq!(rt; word_areas(alloc, &mut it, &pkg, Target::Riscv64), Ok(()));
    let args = [2, 3, 4, 5, 6, 7, 8, 9, 33];
    let results = [13, 14, 15, 16, 17, 18, 19, 20, 35];
    assert!(rt; is_func(&it, 24, &recursive_words(&args, &results)));
    Ok(())
}

// f calls a function that panics: a trap. Its MakeResult has no result, and goes.
#[test]
fn panics_trap(rt: HostRuntime) -> Result<(), Fail> {
    let alloc = rt.alloc();
    let none = Aux::Nothing;
    let pkg = package(alloc, &[], &[])?;
    for (symbol, trap) in [(4_294_967_294, 3), (4_294_967_295, 4)] {
        let rows = [
            Row(1, Family::InitMem, Ty::Mem, &[], 0, none),
            Row(9, Family::MakeResult, Ty::Mem, &[3], 0, none),
            Row(2, Family::StaticLECall, Ty::Mem, &[1], 0, Aux::Sym(symbol)),
            Row(3, Family::SelectN, Ty::Mem, &[2], 0, none),
        ];
        let mut it = func(alloc, 0, sig(alloc, &[], &[])?, &rows, 9)?;
        assert_eq!(rt; word_areas(alloc, &mut it, &pkg, Target::Riscv64), Ok(()));
        let expected = [
            Row(1, Family::InitMem, Ty::Mem, &[], 0, none),
            Row(2, Family::Trap, Ty::Mem, &[1], trap, none),
            Row(3, Family::Copy, Ty::Mem, &[2], 0, none),
        ];
        assert!(rt; is_func(&it, 3, &expected));
    }
    Ok(())
}

// On arm the results of f(int64, bool) int64 are words 3 and 4, and those of g(int64) int64 words 2 and 3.
#[test]
fn halves_are_words(rt: HostRuntime) -> Result<(), Fail> {
    let alloc = rt.alloc();
    let none = Aux::Nothing;
    let pkg = package(alloc, &[Ty::Int64], &[Ty::Int64])?;
    let rows = [
        Row(1, Family::InitMem, Ty::Mem, &[], 0, none),
        Row(2, Family::Arg, Ty::Bool, &[], 0, Aux::Arg(2)),
        Row(3, Family::SelectN, Ty::Uint32, &[7], 1, none),
        Row(4, Family::MakeResult, Ty::Tuple, &[3, 3, 1], 0, none),
    ];
    let own = sig(alloc, &[Ty::Int64, Ty::Bool], &[Ty::Int64])?;
    let mut it = func(alloc, 0, own, &rows, 4)?;
    let call = Row(7, Family::StaticLECall, Ty::Tuple, &[1], 0, Aux::Sym(1));
    for block in it.blocks.iter_mut() {
        block.values.push(value(alloc, &call)?)?;
    }
    assert_eq!(rt; word_areas(alloc, &mut it, &pkg, Target::Arm), Ok(()));
    let expected = [
        Row(1, Family::InitMem, Ty::Mem, &[], 0, none),
        Row(2, Family::ArgWord, Ty::Bool, &[], 2, none),
        Row(3, Family::ResWord, Ty::Uint32, &[7], 3, none),
        Row(4, Family::RetWord, Ty::Mem, &[3, 8], 4, none),
        Row(7, Family::Call, Ty::Mem, &[1], 0, Aux::Sym(1)),
        Row(8, Family::RetWord, Ty::Mem, &[3, 1], 3, none),
    ];
    assert!(rt; is_func(&it, 4, &expected));
    Ok(())
}

// On arm a call of one argument makes one value more, on riscv64 a named argument: with 32,768 values there it is refused.
#[test]
fn growth_is_refused(rt: HostRuntime) -> Result<(), Fail> {
    let alloc = rt.alloc();
    let pkg = package(alloc, &[Ty::Int], &[])?;
    let call = Row(1, Family::StaticLECall, Ty::Mem, &[2, 2], 0, Aux::Sym(1));
    let arg = Row(1, Family::Arg, Ty::Int, &[], 0, Aux::Arg(0));
    let number = Row(2, Family::ConstNil, Ty::Int, &[], 0, Aux::Nothing);
    let grown = Err(RewriteError::Grown { values: 32_769 });
    for (row, target, count, expected) in [
        (call, Target::Arm, 32_766, Ok(())),
        (call, Target::Arm, 32_767, grown),
        (call, Target::Riscv64, 32_767, Ok(())),
        (arg, Target::Riscv64, 32_766, Ok(())),
        (arg, Target::Riscv64, 32_767, grown),
        (arg, Target::Arm, 32_767, Ok(())),
    ] {
        let mut it = func(alloc, 0, sig(alloc, &[Ty::Int], &[])?, &[row], 1)?;
        for block in it.blocks.iter_mut() {
            for _ in 0..count {
                block.values.push(value(alloc, &number)?)?;
            }
        }
        assert_eq!(rt; word_areas(alloc, &mut it, &pkg, target), expected);
    }
    Ok(())
}

// The frames of functions without slots and with as many as fit.
#[test]
fn frames(rt: HostRuntime) -> Result<(), Fail> {
    let alloc = rt.alloc();
    let plain = Sig {
        args: Vec::new(alloc),
        results: Vec::new(alloc),
    };
    let one = Sig {
        args: Vec::new(alloc),
        results: vec![in alloc; Ty::Int64]?,
    };
    let word = Sig {
        args: Vec::new(alloc),
        results: vec![in alloc; Ty::Int32]?,
    };
    let refused = Err(FrameError::Frame { need: 32_768 });
    assert_eq!(rt; frame_of(0, 0, &plain, Target::Riscv64), Ok(16));
    assert_eq!(rt; frame_of(3, 0, &one, Target::Riscv64), Ok(40));
    assert_eq!(rt; frame_of(0, 4_092, &one, Target::Riscv64), Ok(32_752));
    assert_eq!(rt; frame_of(0, 4_093, &one, Target::Riscv64), refused);
    assert_eq!(rt; frame_of(3, 2, &one, Target::Arm), Ok(32));
    assert_eq!(rt; frame_of(0, 1_022, &word, Target::Arm), Ok(4_096));
    assert_eq!(rt; frame_of(0, 8_186, &one, Target::Arm), Ok(32_752));
    assert_eq!(rt; frame_of(0, 8_187, &one, Target::Arm), refused);
    Ok(())
}

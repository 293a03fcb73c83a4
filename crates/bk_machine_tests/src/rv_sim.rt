ghost use Rattle.std.specs.Prelude.{◌≡◌, ◌≤◌, ◌+◌, ◌*◌, length, IfOk};

use crate::elf::file_of;
use bk_elf::load;
use bk_func::Sig;
use bk_ops::{Target, Ty};
use bk_rv_isa::{BranchOp, ImmediateOp, Inst, LoadOp, RegisterOp, ShiftOp, Stop, StoreOp, encode};
use bk_rv_sim::{Machine, results, run, start, step};
use std::alloc::{AllocError, Global};
use std::test::Fail;

const TEXT: u64 = 65_536;

const POOL: u64 = 33_554_432;

const DATA: u64 = 67_108_864;

const BOTTOM: u64 = 536_870_896;

const DATA_BYTES: [u8; 8] = [0x80, 0xff, 0x7f, 0x01, 0x02, 0x03, 0x04, 0x85];

fn machine(
    alloc: Global,
    words: &[u32],
    stack: &[u8],
    bottom: u64,
    sig: Sig,
) -> Result<Machine, AllocError>
    requires few { length words.now ≤ 100 }
    requires low { 67108872 ≤ bottom }
    requires high { bottom ≤ 536870912 }
    requires stack { bottom + length stack.now ≡ 536870912 + 8 * (length sig.args + length sig.results) }
    ensures { IfOk result (λ m. m.sig ≡ sig) }
{
    let regs = Vec::from_slice(alloc, &[0; 32])?;
    let text = Vec::from_slice(alloc, words)?;
    let pool = Vec::from_slice(alloc, &[1, 2, 3, 4, 5, 6, 7, 8])?;
    let window = Vec::from_slice(alloc, &DATA_BYTES)?;
    let stack = Vec::from_slice(alloc, stack)?;
    Ok(Machine {
        regs,
        pc: TEXT,
        text,
        pool,
        window,
        stack,
        bottom,
        sig,
    })
}

fn signature(alloc: Global, args: &[Ty], results: &[Ty]) -> Result<Sig, AllocError>
    ensures { IfOk result (λ sig. (sig.args ≡ args.now) × (sig.results ≡ results.now)) }
{
    Ok(Sig {
        args: Vec::from_slice(alloc, args)?,
        results: Vec::from_slice(alloc, results)?,
    })
}

// A machine at this one instruction, with x and y in x1 and x2.
fn at(alloc: Global, inst: Inst, x: u64, y: u64) -> Result<Machine, AllocError> {
    let word = encode(inst).unwrap_or(0);
    let mut m = machine(
        alloc,
        &[word],
        &[0; 16],
        BOTTOM,
        signature(alloc, &[], &[])?,
    )?;
    m.regs[1] = x;
    m.regs[2] = y;
    Ok(m)
}

#[test]
fn each_operation(rt: HostRuntime) -> Result<(), AllocError> {
    for (op, x, y, want) in OPERATIONS {
        let mut m = at(rt.alloc(), Inst::Op(op, 3, 1, 2), x, y)?;
        assert_eq!(rt; step(&mut m), None);
        assert_eq!(rt; m.regs[3], want, "{op:?} of {x:x} and {y:x}");
        assert_eq!(rt; m.pc, TEXT + 4);
    }
    Ok(())
}

#[test]
fn each_row_of_one_register(rt: HostRuntime) -> Result<(), AllocError> {
    for (inst, x, want) in ROWS {
        let mut m = at(rt.alloc(), inst, x, 0)?;
        assert_eq!(rt; step(&mut m), None, "{inst:?}");
        assert_eq!(rt; m.regs[3], want, "{inst:?} at {x:x}");
    }
    Ok(())
}

#[test]
fn stores(rt: HostRuntime) -> Result<(), AllocError> {
    for (op, offset, want) in STORES {
        let mut m = at(
            rt.alloc(),
            Inst::Store(op, 2, 1, offset),
            DATA,
            0x1122334455667788,
        )?;
        assert_eq!(rt; step(&mut m), None, "{op:?}");
        assert_eq!(rt; m.window.as_slice(), want.as_slice(), "{op:?}");
    }
    Ok(())
}

#[test]
fn jumps_and_branches(rt: HostRuntime) -> Result<(), AllocError> {
    for (inst, x, y, pc) in JUMPS {
        let mut m = at(rt.alloc(), inst, x, y)?;
        assert_eq!(rt; step(&mut m), None, "{inst:?}");
        assert_eq!(rt; m.pc, pc, "{inst:?} of {x:x} and {y:x}");
        if let Inst::Jal(_, _) | Inst::Jalr(_, _, _) = inst {
            assert_eq!(rt; m.regs[3], TEXT + 4);
        }
    }
    Ok(())
}

#[test]
fn each_stop(rt: HostRuntime) -> Result<(), AllocError> {
    for (inst, x, cause, want) in STOPS {
        let mut m = at(rt.alloc(), inst, x, 0)?;
        m.regs[31] = cause;
        assert_eq!(rt; step(&mut m), Some(want), "{inst:?} at {x}");
        assert_eq!(rt; m.pc, TEXT);
    }
    for (pc, want) in [
        (61_440, Stop::Returned),
        (0, Stop::Fault(0)),
        (TEXT - 4, Stop::Fault(TEXT - 4)),
        (TEXT + 2, Stop::Fault(TEXT + 2)),
        (TEXT + 4, Stop::Fault(TEXT + 4)),
    ] {
        let mut m = at(rt.alloc(), Inst::Addiw(0, 0, 0), 0, 0)?;
        m.pc = pc;
        assert_eq!(rt; step(&mut m), Some(want), "at {pc}");
        assert_eq!(rt; m.pc, pc);
    }
    Ok(())
}

// A function that adds its two arguments, in a frame of 16 bytes.
const SUM: [u32; 11] = [
    0xff010f93, 0x01bff663, 0x00500f93, 0x00100073, 0x000f8113, 0x00113423, 0x00b502b3, 0x00028513,
    0x00813083, 0x01010113, 0x00008067,
];

// The sum of 2 and 3 within so many steps, and its result.
fn sum(alloc: Global, frame: u64, bound: u64) -> Result<(Stop, u64), AllocError>
    requires { frame ≤ 1000 }
{
    let sig = signature(alloc, &[Ty::Int, Ty::Int], &[Ty::Int])?;
    let mut m = machine(alloc, &SUM, &[0; 40], 536_870_896, sig)?;
    m.regs[1] = 61_440;
    m.regs[2] = 536_870_912;
    m.regs[27] = 536_870_912 - frame;
    m.regs[10] = 2;
    m.regs[11] = 3;
    let stop = run(&mut m, bound);
    Ok((stop, results(&m, 0)))
}

#[test]
fn the_sum_returns(rt: HostRuntime) -> Result<(), AllocError> {
    for (frame, bound, want) in [
        (16, 1000, (Stop::Returned, 5)),
        (16, 10, (Stop::Returned, 5)),
        (16, 9, (Stop::Going, 5)),
        (16, 0, (Stop::Going, 2)),
        (15, 1000, (Stop::Trapped(5), 2)),
    ] {
        assert_eq!(rt; sum(rt.alloc(), frame, bound)?, want, "{frame} {bound}");
    }
    Ok(())
}

// Eight results in x10 to x17 and a ninth in its cell, behind that of the argument.
#[test]
fn nine_results(rt: HostRuntime) -> Result<(), AllocError> {
    let alloc = rt.alloc();
    let sig = signature(alloc, &[Ty::Int], &[Ty::Uint8; 9])?;
    let mut stack = [0; 96];
    stack[88] = 18;
    stack[89] = 1;
    let mut m = machine(alloc, &SUM, &stack, BOTTOM, sig)?;
    m.regs[10] = 0x110;
    m.regs[17] = 0x117;
    assert_eq!(rt; results(&m, 0), 0x10);
    assert_eq!(rt; results(&m, 7), 0x17);
    assert_eq!(rt; results(&m, 8), 18);
    Ok(())
}

// The machine at the start of `add`, with the loaded window and 24 bytes of stack.
fn started(alloc: Global, args: &[u64]) -> Result<Machine, Fail> {
    let file = file_of(alloc, Target::Riscv64)?;
    let image = load(alloc, &file)?;
    Ok(start(alloc, &image, "add", args, &image.window, 24)?)
}

#[test]
fn the_start(rt: HostRuntime) -> Result<(), Fail> {
    let m = started(rt.alloc(), &[u64::MAX, 40])?;
    let mut regs = [0; 32];
    regs[1] = 61_440;
    regs[2] = 536_870_912;
    regs[10] = u64::MAX;
    regs[11] = 40;
    regs[27] = 536_870_888;
    assert_eq!(rt; m.regs.as_slice(), regs.as_slice());
    assert_eq!(rt; (m.pc, m.bottom), (TEXT, 536_870_888));
    assert_eq!(rt; m.stack.as_slice(), [0; 48].as_slice());
    Ok(())
}

// Computed from the manual's words, with 64-bit results.
const OPERATIONS: [(RegisterOp, u64, u64, u64); 40] = [
    (RegisterOp::Add, 0xffffffffffffffff, 0x1, 0x0),
    (
        RegisterOp::Add,
        0x8000000000000000,
        0xffffffffffffffff,
        0x7fffffffffffffff,
    ),
    (RegisterOp::Sub, 0xffffffffffffffff, 0x1, 0xfffffffffffffffe),
    (
        RegisterOp::Sub,
        0x8000000000000000,
        0xffffffffffffffff,
        0x8000000000000001,
    ),
    (
        RegisterOp::Sll,
        0x8000000000000001,
        0x3f,
        0x8000000000000000,
    ),
    (
        RegisterOp::Sll,
        0x8000000000000001,
        0x40,
        0x8000000000000001,
    ),
    (RegisterOp::Sll, 0xf000000000000000, 0x4, 0x0),
    (RegisterOp::Slt, 0xffffffffffffffff, 0x1, 0x1),
    (RegisterOp::Slt, 0x8000000000000000, 0xffffffffffffffff, 0x1),
    (RegisterOp::Sltu, 0xffffffffffffffff, 0x1, 0x0),
    (
        RegisterOp::Sltu,
        0x8000000000000000,
        0xffffffffffffffff,
        0x1,
    ),
    (
        RegisterOp::Xor,
        0xff00ff00ff00ff00,
        0xff00ff00ff00ff0,
        0xf0f0f0f0f0f0f0f0,
    ),
    (RegisterOp::Srl, 0x8000000000000001, 0x3f, 0x1),
    (
        RegisterOp::Srl,
        0x8000000000000001,
        0x40,
        0x8000000000000001,
    ),
    (RegisterOp::Srl, 0xf000000000000000, 0x4, 0xf00000000000000),
    (
        RegisterOp::Sra,
        0x8000000000000001,
        0x3f,
        0xffffffffffffffff,
    ),
    (
        RegisterOp::Sra,
        0x8000000000000001,
        0x40,
        0x8000000000000001,
    ),
    (RegisterOp::Sra, 0xf000000000000000, 0x4, 0xff00000000000000),
    (
        RegisterOp::Or,
        0xff00ff00ff00ff00,
        0xff00ff00ff00ff0,
        0xfff0fff0fff0fff0,
    ),
    (
        RegisterOp::And,
        0xff00ff00ff00ff00,
        0xff00ff00ff00ff0,
        0xf000f000f000f00,
    ),
    (RegisterOp::Mul, 0xffffffffffffffff, 0x1, 0xffffffffffffffff),
    (
        RegisterOp::Mul,
        0x8000000000000000,
        0xffffffffffffffff,
        0x8000000000000000,
    ),
    (
        RegisterOp::Mulh,
        0xffffffffffffffff,
        0xffffffffffffffff,
        0x0,
    ),
    (
        RegisterOp::Mulh,
        0x8000000000000000,
        0x8000000000000000,
        0x4000000000000000,
    ),
    (
        RegisterOp::Mulhsu,
        0xffffffffffffffff,
        0xffffffffffffffff,
        0xffffffffffffffff,
    ),
    (
        RegisterOp::Mulhsu,
        0x8000000000000000,
        0x8000000000000000,
        0xc000000000000000,
    ),
    (
        RegisterOp::Mulhu,
        0xffffffffffffffff,
        0xffffffffffffffff,
        0xfffffffffffffffe,
    ),
    (
        RegisterOp::Mulhu,
        0x8000000000000000,
        0x8000000000000000,
        0x4000000000000000,
    ),
    (
        RegisterOp::Div,
        0x8000000000000000,
        0xffffffffffffffff,
        0x8000000000000000,
    ),
    (RegisterOp::Div, 0xfffffffffffffff9, 0x0, 0xffffffffffffffff),
    (RegisterOp::Div, 0xfffffffffffffff9, 0x2, 0xfffffffffffffffd),
    (
        RegisterOp::Divu,
        0x8000000000000000,
        0xffffffffffffffff,
        0x0,
    ),
    (
        RegisterOp::Divu,
        0xfffffffffffffff9,
        0x0,
        0xffffffffffffffff,
    ),
    (
        RegisterOp::Divu,
        0xfffffffffffffff9,
        0x2,
        0x7ffffffffffffffc,
    ),
    (RegisterOp::Rem, 0x8000000000000000, 0xffffffffffffffff, 0x0),
    (RegisterOp::Rem, 0xfffffffffffffff9, 0x0, 0xfffffffffffffff9),
    (RegisterOp::Rem, 0xfffffffffffffff9, 0x2, 0xffffffffffffffff),
    (
        RegisterOp::Remu,
        0x8000000000000000,
        0xffffffffffffffff,
        0x8000000000000000,
    ),
    (
        RegisterOp::Remu,
        0xfffffffffffffff9,
        0x0,
        0xfffffffffffffff9,
    ),
    (RegisterOp::Remu, 0xfffffffffffffff9, 0x2, 0x1),
];

const ROWS: [(Inst, u64, u64); 31] = [
    (
        Inst::OpImm(ImmediateOp::Addi, 3, 1, -2048),
        0x5,
        0xfffffffffffff805,
    ),
    (
        Inst::OpImm(ImmediateOp::Addi, 3, 1, 2047),
        0xffffffffffffffff,
        0x7fe,
    ),
    (Inst::OpImm(ImmediateOp::Addi, 3, 0, 7), 0x5, 0x7),
    (
        Inst::OpImm(ImmediateOp::Slti, 3, 1, -1),
        0xfffffffffffffffe,
        0x1,
    ),
    (Inst::OpImm(ImmediateOp::Slti, 3, 1, -1), 0x5, 0x0),
    (Inst::OpImm(ImmediateOp::Sltiu, 3, 1, -1), 0x5, 0x1),
    (
        Inst::OpImm(ImmediateOp::Sltiu, 3, 1, 1),
        0xfffffffffffffffe,
        0x0,
    ),
    (
        Inst::OpImm(ImmediateOp::Xori, 3, 1, -1),
        0xff,
        0xffffffffffffff00,
    ),
    (
        Inst::OpImm(ImmediateOp::Ori, 3, 1, -256),
        0xff,
        0xffffffffffffffff,
    ),
    (
        Inst::OpImm(ImmediateOp::Andi, 3, 1, -16),
        0x123456789abcdef,
        0x123456789abcde0,
    ),
    (
        Inst::Shift(ShiftOp::Slli, 3, 1, 63),
        0x3,
        0x8000000000000000,
    ),
    (
        Inst::Shift(ShiftOp::Srli, 3, 1, 63),
        0xffffffffffffffff,
        0x1,
    ),
    (
        Inst::Shift(ShiftOp::Srai, 3, 1, 63),
        0x8000000000000000,
        0xffffffffffffffff,
    ),
    (Inst::Addiw(3, 1, 0), 0x180000000, 0xffffffff80000000),
    (Inst::Addiw(3, 1, 1), 0x7fffffff, 0xffffffff80000000),
    (Inst::Addiw(3, 1, -1), 0x0, 0xffffffffffffffff),
    (Inst::Lui(3, -1), 0x0, 0xfffffffffffff000),
    (Inst::Lui(3, 524287), 0x0, 0x7ffff000),
    (Inst::Auipc(3, 1), 0x0, 0x11000),
    (Inst::Auipc(3, -17), 0x0, 0xfffffffffffff000),
    (
        Inst::Load(LoadOp::Lb, 3, 1, 0),
        0x4000000,
        0xffffffffffffff80,
    ),
    (Inst::Load(LoadOp::Lbu, 3, 1, 0), 0x4000000, 0x80),
    (
        Inst::Load(LoadOp::Lh, 3, 1, 0),
        0x4000000,
        0xffffffffffffff80,
    ),
    (Inst::Load(LoadOp::Lhu, 3, 1, 0), 0x4000000, 0xff80),
    (Inst::Load(LoadOp::Lw, 3, 1, 0), 0x4000000, 0x17fff80),
    (
        Inst::Load(LoadOp::Lw, 3, 1, 4),
        0x4000000,
        0xffffffff85040302,
    ),
    (Inst::Load(LoadOp::Lwu, 3, 1, 4), 0x4000000, 0x85040302),
    (
        Inst::Load(LoadOp::Ld, 3, 1, 0),
        0x4000000,
        0x85040302017fff80,
    ),
    (
        Inst::Load(LoadOp::Ld, 3, 1, 0),
        0x2000000,
        0x807060504030201,
    ),
    (Inst::Load(LoadOp::Lhu, 3, 1, -1), 0x2000007, 0x807),
    (Inst::Load(LoadOp::Ld, 3, 1, 8), 0x1ffffff0, 0x0),
];

const STORES: [(StoreOp, i64, [u8; 8]); 4] = [
    (
        StoreOp::Sb,
        7,
        [0x80, 0xff, 0x7f, 0x01, 0x02, 0x03, 0x04, 0x88],
    ),
    (
        StoreOp::Sh,
        3,
        [0x80, 0xff, 0x7f, 0x88, 0x77, 0x03, 0x04, 0x85],
    ),
    (
        StoreOp::Sw,
        1,
        [0x80, 0x88, 0x77, 0x66, 0x55, 0x03, 0x04, 0x85],
    ),
    (
        StoreOp::Sd,
        0,
        [0x88, 0x77, 0x66, 0x55, 0x44, 0x33, 0x22, 0x11],
    ),
];

const JUMPS: [(Inst, u64, u64, u64); 22] = [
    (Inst::Branch(BranchOp::Beq, 1, 2, -4096), 0x5, 0x5, 61440),
    (Inst::Branch(BranchOp::Beq, 1, 2, -4096), 0x5, 0x6, 65540),
    (Inst::Branch(BranchOp::Bne, 1, 2, -4096), 0x5, 0x5, 65540),
    (Inst::Branch(BranchOp::Bne, 1, 2, -4096), 0x5, 0x6, 61440),
    (
        Inst::Branch(BranchOp::Blt, 1, 2, -4096),
        0xffffffffffffffff,
        0x0,
        61440,
    ),
    (
        Inst::Branch(BranchOp::Blt, 1, 2, -4096),
        0x0,
        0xffffffffffffffff,
        65540,
    ),
    (Inst::Branch(BranchOp::Blt, 1, 2, -4096), 0x0, 0x0, 65540),
    (
        Inst::Branch(BranchOp::Bge, 1, 2, -4096),
        0xffffffffffffffff,
        0x0,
        65540,
    ),
    (Inst::Branch(BranchOp::Bge, 1, 2, -4096), 0x0, 0x0, 61440),
    (
        Inst::Branch(BranchOp::Bge, 1, 2, -4096),
        0x0,
        0xffffffffffffffff,
        61440,
    ),
    (
        Inst::Branch(BranchOp::Bltu, 1, 2, -4096),
        0xffffffffffffffff,
        0x0,
        65540,
    ),
    (
        Inst::Branch(BranchOp::Bltu, 1, 2, -4096),
        0x0,
        0xffffffffffffffff,
        61440,
    ),
    (Inst::Branch(BranchOp::Bltu, 1, 2, -4096), 0x3, 0x3, 65540),
    (
        Inst::Branch(BranchOp::Bgeu, 1, 2, -4096),
        0xffffffffffffffff,
        0x0,
        61440,
    ),
    (Inst::Branch(BranchOp::Bgeu, 1, 2, -4096), 0x3, 0x3, 61440),
    (Inst::Branch(BranchOp::Bgeu, 1, 2, -4096), 0x0, 0x1, 65540),
    (Inst::Branch(BranchOp::Beq, 0, 0, 4094), 0x0, 0x0, 69630),
    (Inst::Jal(3, 1048574), 0x0, 0x0, 1114110),
    (Inst::Jal(3, -8), 0x0, 0x0, 65528),
    (Inst::Jalr(3, 1, 5), 0x64, 0x0, 104),
    (Inst::Jalr(3, 1, -2048), 0x801, 0x0, 0),
    (Inst::Jalr(3, 1, 1), 0xffffffffffffffff, 0x0, 0),
];

const STOPS: [(Inst, u64, u64, Stop); 15] = [
    (Inst::Ebreak, 0, 0, Stop::Fault(65536)),
    (Inst::Ebreak, 0, 1, Stop::Trapped(1)),
    (Inst::Ebreak, 0, 6, Stop::Trapped(6)),
    (Inst::Ebreak, 0, 7, Stop::Fault(65536)),
    (Inst::Ebreak, 0, 257, Stop::Fault(65536)),
    (
        Inst::Load(LoadOp::Lw, 3, 1, 0),
        65536,
        0,
        Stop::Fault(65536),
    ),
    (
        Inst::Load(LoadOp::Ld, 3, 1, 1),
        67108864,
        0,
        Stop::Fault(67108865),
    ),
    (
        Inst::Load(LoadOp::Lb, 3, 1, -1),
        67108864,
        0,
        Stop::Fault(67108863),
    ),
    (
        Inst::Load(LoadOp::Lw, 3, 1, 5),
        67108864,
        0,
        Stop::Fault(67108869),
    ),
    (
        Inst::Load(LoadOp::Lb, 3, 1, 8),
        33554432,
        0,
        Stop::Fault(33554440),
    ),
    (
        Inst::Load(LoadOp::Ld, 3, 1, -1),
        0,
        0,
        Stop::Fault(18446744073709551615),
    ),
    (
        Inst::Store(StoreOp::Sb, 2, 1, 0),
        33554432,
        0,
        Stop::Fault(33554432),
    ),
    (
        Inst::Store(StoreOp::Sb, 2, 1, 8),
        67108864,
        0,
        Stop::Fault(67108872),
    ),
    (
        Inst::Store(StoreOp::Sd, 2, 1, 9),
        536870896,
        0,
        Stop::Fault(536870905),
    ),
    (
        Inst::Store(StoreOp::Sb, 2, 1, -1),
        536870896,
        0,
        Stop::Fault(536870895),
    ),
];

ghost use Rattle.std.specs.Prelude.{◌≡◌, ◌≤◌, ◌<◌, ◌+◌, ◌*◌, ◌^◌, ℕ, length, slice_index, slice_set, IfOk};
ghost use Rattle.bk_arm_sim.specs.Signature.{words_of_sig};

use bk_arm_sim::{Machine, Stop, results, run, step};
use bk_func::Sig;
use bk_ops::Ty;
use std::alloc::{AllocError, Global};

const TEXT: u64 = 65_536;

const BOTTOM: u64 = 536_870_896;

const DATA_BYTES: [u8; 8] = [0x80, 0xff, 0x7f, 0x01, 0x02, 0x03, 0x04, 0x85];

// Sets a register.
fn put(regs: &mut [u64], k: u8, n: u32)
    requires { (j : ℕ) → slice_index regs.old j < 2 ^ 32 }
    ensures value { regs.new ≡ slice_set regs.old k n }
    ensures fit { (j : ℕ) → slice_index regs.new j < 2 ^ 32 }
{
    if (k as usize) < regs.len() {
        regs[k as usize] = n as u64;
    }
}

// Registers of which these three are set.
fn registers(alloc: Global, set: [(u8, u32); 3]) -> Result<Vec<u64>, AllocError>
    ensures count { IfOk result (λ regs. length regs.items ≡ 15) }
    ensures fit { IfOk result (λ regs. (k : ℕ) → slice_index regs.items k < 2 ^ 32) }
{
    let mut regs = vec![in alloc; 0; 15]?;
    let [(first, x), (second, y), (third, z)] = set;
    put(&mut regs, first, x);
    put(&mut regs, second, y);
    put(&mut regs, third, z);
    Ok(regs)
}

fn machine(
    alloc: Global,
    regs: Vec<u64>,
    words: &[u32],
    stack: &[u8],
    sig: Sig,
) -> Result<Machine, AllocError>
    requires count { length regs.items ≡ 15 }
    requires fit { (k : ℕ) → slice_index regs.items k < 2 ^ 32 }
    requires few { length words.now ≤ 100 }
    requires stack { 536870896 + length stack.now ≡ 536870912 + 4 * words_of_sig sig }
    ensures { IfOk result (λ m. m.sig ≡ sig) }
{
    let text = Vec::from_slice(alloc, words)?;
    let pool = Vec::from_slice(alloc, &[1, 2, 3, 4, 5, 6, 7, 8])?;
    let window = Vec::from_slice(alloc, &DATA_BYTES)?;
    let stack = Vec::from_slice(alloc, stack)?;
    Ok(Machine {
        regs,
        pc: TEXT,
        flags: 0,
        text,
        pool,
        window,
        stack,
        bottom: BOTTOM,
        sig,
    })
}

fn signature(alloc: Global, args: &[Ty], results: &[Ty]) -> Result<Sig, AllocError>
    ensures { IfOk result (λ sig. (sig.args ≡ args.now) × (sig.results ≡ results.now)) }
{
    Ok(Sig {
        args: Vec::from_slice(alloc, args)?,
        results: Vec::from_slice(alloc, results)?,
    })
}

// A machine at this one instruction, with x and y in R1 and R2, of a function without arguments.
fn at(alloc: Global, word: u32, x: u32, y: u32, flags: u8) -> Result<Machine, AllocError> {
    let regs = registers(alloc, [(1, x), (2, y), (0, 0)])?;
    let sig = signature(alloc, &[], &[])?;
    let mut m = machine(alloc, regs, &[word], &[0; 16], sig)?;
    m.flags = flags % 16;
    Ok(m)
}

#[test]
fn each_row(rt: HostRuntime) -> Result<(), AllocError> {
    for (word, x, y, flags, want, after) in ROWS {
        let mut m = at(rt.alloc(), word, x, y, flags)?;
        assert_eq!(rt; step(&mut m), None);
        assert_eq!(rt; m.regs[3], want as u64, "{word:08x} of {x:x} and {y:x}");
        assert_eq!(rt; m.flags, after, "{word:08x} of {x:x} and {y:x}");
        assert_eq!(rt; m.pc, TEXT + 4);
    }
    Ok(())
}

// Under which flags each condition holds: bit k stands for the flags k.
const CONDITIONS: [u32; 15] = [
    0xf0f0, 0x0f0f, 0xcccc, 0x3333, 0xff00, 0x00ff, 0xaaaa, 0x5555, 0x0c0c, 0xf3f3, 0xaa55, 0x55aa,
    0x0a05, 0xf5fa, 0xffff,
];

#[test]
fn each_condition(rt: HostRuntime) -> Result<(), AllocError> {
    for (condition, holds) in CONDITIONS.iter().enumerate() {
        for flags in 0..16u8 {
            let word = 0x03a0_3001 + ((condition as u32) << 28);
            let mut m = at(rt.alloc(), word, 0, 0, flags)?;
            assert_eq!(rt; step(&mut m), None);
            assert_eq!(rt;
                m.regs[3],
                (holds >> flags) as u64 % 2,
                "{condition} {flags}"
            );
            assert_eq!(rt; m.pc, TEXT + 4);
        }
    }
    Ok(())
}

const LOADS: [(u32, u32, u32); 8] = [
    (0xe591_3004, 67_108_864, 0x8504_0302),
    (0xe591_3000, 67_108_865, 0x0201_7fff),
    (0xe5d1_3007, 67_108_864, 0x85),
    (0xe1d1_30b2, 67_108_864, 0x017f),
    (0xe1d1_30b0, 67_108_867, 0x0201),
    (0xe591_3004, 33_554_432, 0x0807_0605),
    (0xe591_3004, 536_870_904, 0),
    (0xe5d1_3007, 33_554_432, 8),
];

#[test]
fn loads(rt: HostRuntime) -> Result<(), AllocError> {
    for (word, address, want) in LOADS {
        let mut m = at(rt.alloc(), word, address, 0, 0)?;
        assert_eq!(rt; step(&mut m), None, "{word:08x} at {address}");
        assert_eq!(rt; m.regs[3], want as u64, "{word:08x} at {address}");
    }
    Ok(())
}

const STORES: [(u32, [u8; 8]); 3] = [
    (
        0xe581_2001,
        [0x80, 0x44, 0x33, 0x22, 0x11, 0x03, 0x04, 0x85],
    ),
    (
        0xe5c1_2003,
        [0x80, 0xff, 0x7f, 0x44, 0x02, 0x03, 0x04, 0x85],
    ),
    (
        0xe1c1_20b5,
        [0x80, 0xff, 0x7f, 0x01, 0x02, 0x44, 0x33, 0x85],
    ),
];

#[test]
fn stores(rt: HostRuntime) -> Result<(), AllocError> {
    for (word, want) in STORES {
        let mut m = at(rt.alloc(), word, 67_108_864, 0x1122_3344, 0)?;
        assert_eq!(rt; step(&mut m), None, "{word:08x}");
        assert_eq!(rt; m.window.as_slice(), want.as_slice(), "{word:08x}");
    }
    Ok(())
}

// A branch, its target and what is in R14 after it.
const BRANCHES: [(u32, u64, u64); 6] = [
    (0xea00_0002, 65_552, 0),
    (0xebff_fffd, 65_532, 65_540),
    (0x1b00_0000, 65_544, 65_540),
    (0x0b00_0000, 65_540, 0),
    (0xe12f_ff12, 1_000_001, 0),
    (0xeaff_bffe, 0, 0),
];

#[test]
fn branches(rt: HostRuntime) -> Result<(), AllocError> {
    for (word, pc, link) in BRANCHES {
        let mut m = at(rt.alloc(), word, 0, 1_000_001, 0)?;
        assert_eq!(rt; step(&mut m), None, "{word:08x}");
        assert_eq!(rt; m.pc, pc, "{word:08x}");
        assert_eq!(rt; m.regs[14], link, "{word:08x}");
    }
    Ok(())
}

const STOPS: [(u32, u32, Stop); 15] = [
    (0xe7f0_00f0, 0, Stop::Fault(65_536)),
    (0xe7f0_00f1, 0, Stop::Trapped(1)),
    (0xe7f0_00f6, 0, Stop::Trapped(6)),
    (0xe7f0_00f7, 0, Stop::Fault(65_536)),
    (0xe7f0_10f1, 0, Stop::Fault(65_536)),
    (0xffff_ffff, 0, Stop::Fault(65_536)),
    (0xe591_3000, 65_536, Stop::Fault(65_536)),
    (0xe591_3004, 67_108_865, Stop::Fault(67_108_869)),
    (0xe591_3004, 0xffff_fffd, Stop::Fault(1)),
    (0xe591_3000, 0xffff_fffd, Stop::Fault(0xffff_fffd)),
    (0xe5d1_3007, 33_554_433, Stop::Fault(33_554_440)),
    (0xe581_2001, 33_554_432, Stop::Fault(33_554_433)),
    (0xe581_2001, 67_108_868, Stop::Fault(67_108_869)),
    (0xe5c1_2003, 67_108_869, Stop::Fault(67_108_872)),
    (0xe1c1_20b5, 536_870_906, Stop::Fault(536_870_911)),
];

#[test]
fn each_stop(rt: HostRuntime) -> Result<(), AllocError> {
    for (word, x, want) in STOPS {
        let mut m = at(rt.alloc(), word, x, 0, 0)?;
        assert_eq!(rt; step(&mut m), Some(want), "{word:08x} at {x}");
        assert_eq!(rt; m.pc, TEXT);
    }
    for (pc, want) in [
        (61_440, Stop::Returned),
        (0, Stop::Fault(0)),
        (TEXT - 4, Stop::Fault(TEXT - 4)),
        (TEXT + 2, Stop::Fault(TEXT + 2)),
        (TEXT + 4, Stop::Fault(TEXT + 4)),
    ] {
        let mut m = at(rt.alloc(), 0xe3a0_3001, 0, 0, 0)?;
        m.pc = pc;
        assert_eq!(rt; step(&mut m), Some(want), "at {pc}");
        assert_eq!(rt; m.pc, pc);
    }
    Ok(())
}

// A function that adds its two arguments, in a frame of 16 bytes.
const SUM: [u32; 15] = [
    0xe300b008, 0xe04db00b, 0xe15b000a, 0x2a000000, 0xe7f000f5, 0xe1a0d00b, 0xe58de004, 0xe59d0008,
    0xe59d100c, 0xe0800001, 0xe58d0010, 0xe59de004, 0xe300b008, 0xe08dd00b, 0xe12fff1e,
];

// The arguments 2 and 3 above 16 bytes of stack, and the word of the result.
const STACK: [u8; 28] = [
    0, 0, 0, 0, 0, 0, 0, 0, 0, 0, 0, 0, 0, 0, 0, 0, 2, 0, 0, 0, 3, 0, 0, 0, 0, 0, 0, 0,
];

// The machine at its start, with this stack bound.
fn sum(alloc: Global, bound: u32) -> Result<Machine, AllocError>
    ensures { IfOk result (λ m. length m.sig.results ≡ 1) }
{
    let regs = registers(alloc, [(10, bound), (13, 536_870_912), (14, 61_440)])?;
    let sig = signature(alloc, &[Ty::Int32, Ty::Int32], &[Ty::Int32])?;
    machine(alloc, regs, &SUM, &STACK, sig)
}

#[test]
fn the_sum_returns(rt: HostRuntime) -> Result<(), AllocError> {
    for (bound, steps, want) in [
        (536_870_896, 1000, (Stop::Returned, 5)),
        (536_870_896, 15, (Stop::Returned, 5)),
        (536_870_896, 14, (Stop::Going, 5)),
        (536_870_896, 0, (Stop::Going, 0)),
        (536_870_905, 1000, (Stop::Trapped(5), 0)),
    ] {
        let mut m = sum(rt.alloc(), bound)?;
        let stop = run(&mut m, steps);
        assert_eq!(rt; (stop, results(&m, 0)), want, "{bound} {steps}");
    }
    Ok(())
}

// Each instruction with x and y in R1 and R2 and flags before, and R3 and flags after it: computed
// from the manual's pseudocode on strings of bits, the words by LLVM's assembler.
const ROWS: [(u32, u32, u32, u8, u32, u8); 119] = [
    (0xe0013002, 0xffffffff, 0x1, 2, 0x1, 2),
    (0xe0013002, 0x12345678, 0xf0f0f0f, 0, 0x2040608, 0),
    (0xe0213002, 0xffffffff, 0x1, 2, 0xfffffffe, 2),
    (0xe0213002, 0x12345678, 0xf0f0f0f, 0, 0x1d3b5977, 0),
    (0xe0413002, 0xffffffff, 0x1, 2, 0xfffffffe, 2),
    (0xe0413002, 0x12345678, 0xf0f0f0f, 0, 0x3254769, 0),
    (0xe0613002, 0xffffffff, 0x1, 2, 0x2, 2),
    (0xe0613002, 0x12345678, 0xf0f0f0f, 0, 0xfcdab897, 0),
    (0xe0813002, 0xffffffff, 0x1, 2, 0x0, 2),
    (0xe0813002, 0x12345678, 0xf0f0f0f, 0, 0x21436587, 0),
    (0xe0a13002, 0xffffffff, 0x1, 2, 0x1, 2),
    (0xe0a13002, 0x12345678, 0xf0f0f0f, 0, 0x21436587, 0),
    (0xe0c13002, 0xffffffff, 0x1, 2, 0xfffffffe, 2),
    (0xe0c13002, 0x12345678, 0xf0f0f0f, 0, 0x3254768, 0),
    (0xe0e13002, 0xffffffff, 0x1, 2, 0x2, 2),
    (0xe0e13002, 0x12345678, 0xf0f0f0f, 0, 0xfcdab896, 0),
    (0xe1813002, 0xffffffff, 0x1, 2, 0xffffffff, 2),
    (0xe1813002, 0x12345678, 0xf0f0f0f, 0, 0x1f3f5f7f, 0),
    (0xe1c13002, 0xffffffff, 0x1, 2, 0xfffffffe, 2),
    (0xe1c13002, 0x12345678, 0xf0f0f0f, 0, 0x10305070, 0),
    (0xe0a13002, 0xffffffff, 0x0, 2, 0x0, 2),
    (0xe0c13002, 0x5, 0x7, 0, 0xfffffffd, 0),
    (0xe1a03002, 0x0, 0x9, 0, 0x9, 0),
    (0xe1e03002, 0x0, 0x9, 0, 0xfffffff6, 0),
    (0xe1510002, 0xffffffff, 0x1, 0, 0x0, 10),
    (0xe1710002, 0xffffffff, 0x1, 15, 0x0, 6),
    (0xe1510002, 0x80000000, 0x80000000, 0, 0x0, 6),
    (0xe1710002, 0x80000000, 0x80000000, 15, 0x0, 7),
    (0xe1510002, 0x5, 0x7, 0, 0x0, 8),
    (0xe1710002, 0x5, 0x7, 15, 0x0, 0),
    (0xe1510002, 0x7fffffff, 0x1, 0, 0x0, 2),
    (0xe1710002, 0x7fffffff, 0x1, 15, 0x0, 9),
    (0xe1510002, 0x12345678, 0xf0f0f0f, 0, 0x0, 2),
    (0xe1710002, 0x12345678, 0xf0f0f0f, 15, 0x0, 0),
    (0xe1510002, 0x7, 0x7, 0, 0x0, 6),
    (0xe1710002, 0x7, 0x7, 15, 0x0, 0),
    (0xe1510002, 0x0, 0x1, 0, 0x0, 8),
    (0xe1710002, 0x0, 0x1, 15, 0x0, 0),
    (0xe1510002, 0x80000000, 0x1, 0, 0x0, 3),
    (0xe1710002, 0x80000000, 0x1, 15, 0x0, 8),
    (0xe1110002, 0x80000001, 0x80000000, 3, 0x0, 11),
    (0xe3110001, 0x2, 0x0, 1, 0x0, 5),
    (0xe1310002, 0x5, 0x5, 2, 0x0, 6),
    (0xe1310002, 0x80000000, 0x1, 0, 0x0, 8),
    (0xe1a03082, 0x0, 0x80000003, 0, 0x6, 0),
    (0xe1a03f82, 0x0, 0x80000003, 0, 0x80000000, 0),
    (0xe1a03112, 0x0, 0x80000003, 0, 0x80000003, 0),
    (0xe1a03112, 0x20, 0x80000003, 0, 0x0, 0),
    (0xe1a03112, 0x21, 0x80000003, 0, 0x0, 0),
    (0xe1a03112, 0xff, 0x80000003, 0, 0x0, 0),
    (0xe1a03112, 0x101, 0x80000003, 0, 0x6, 0),
    (0xe1a030a2, 0x0, 0x80000003, 0, 0x40000001, 0),
    (0xe1a03fa2, 0x0, 0x80000003, 0, 0x1, 0),
    (0xe1a03132, 0x0, 0x80000003, 0, 0x80000003, 0),
    (0xe1a03132, 0x20, 0x80000003, 0, 0x0, 0),
    (0xe1a03132, 0x21, 0x80000003, 0, 0x0, 0),
    (0xe1a03132, 0xff, 0x80000003, 0, 0x0, 0),
    (0xe1a03132, 0x101, 0x80000003, 0, 0x40000001, 0),
    (0xe1a030c2, 0x0, 0x80000003, 0, 0xc0000001, 0),
    (0xe1a03fc2, 0x0, 0x80000003, 0, 0xffffffff, 0),
    (0xe1a03152, 0x0, 0x80000003, 0, 0x80000003, 0),
    (0xe1a03152, 0x20, 0x80000003, 0, 0xffffffff, 0),
    (0xe1a03152, 0x21, 0x80000003, 0, 0xffffffff, 0),
    (0xe1a03152, 0xff, 0x80000003, 0, 0xffffffff, 0),
    (0xe1a03152, 0x101, 0x80000003, 0, 0xc0000001, 0),
    (0xe1a030e2, 0x0, 0x80000003, 0, 0xc0000001, 0),
    (0xe1a03fe2, 0x0, 0x80000003, 0, 0x7, 0),
    (0xe1a03172, 0x0, 0x80000003, 0, 0x80000003, 0),
    (0xe1a03172, 0x20, 0x80000003, 0, 0x80000003, 0),
    (0xe1a03172, 0x21, 0x80000003, 0, 0xc0000001, 0),
    (0xe1a03172, 0xff, 0x80000003, 0, 0x7, 0),
    (0xe1a03172, 0x101, 0x80000003, 0, 0xc0000001, 0),
    (0xe3a034ff, 0x0, 0x0, 0, 0xff000000, 0),
    (0xe2813bff, 0x1, 0x0, 0, 0x3fc01, 0),
    (0xe1813202, 0x3, 0xf0000001, 0, 0x13, 0),
    (0xe30f3fff, 0x0, 0x0, 0, 0xffff, 0),
    (0xe3483001, 0x0, 0x0, 0, 0x80010000, 0),
    (0xe0030291, 0xffffffff, 0xffffffff, 0, 0x1, 0),
    (0xe0631291, 0xffffffff, 0xffffffff, 0, 0xfffffffe, 0),
    (0xe0834291, 0xffffffff, 0xffffffff, 0, 0xfffffffe, 0),
    (0xe0843291, 0xffffffff, 0xffffffff, 0, 0x1, 0),
    (0xe0c34291, 0xffffffff, 0xffffffff, 0, 0x0, 0),
    (0xe0c43291, 0xffffffff, 0xffffffff, 0, 0x1, 0),
    (0xe0030291, 0x10001, 0x10001, 0, 0x20001, 0),
    (0xe0631291, 0x10001, 0x10001, 0, 0xffff0000, 0),
    (0xe0834291, 0x10001, 0x10001, 0, 0x1, 0),
    (0xe0843291, 0x10001, 0x10001, 0, 0x20001, 0),
    (0xe0c34291, 0x10001, 0x10001, 0, 0x1, 0),
    (0xe0c43291, 0x10001, 0x10001, 0, 0x20001, 0),
    (0xe0030291, 0x80000000, 0xffffffff, 0, 0x80000000, 0),
    (0xe0631291, 0x80000000, 0xffffffff, 0, 0x0, 0),
    (0xe0834291, 0x80000000, 0xffffffff, 0, 0x7fffffff, 0),
    (0xe0843291, 0x80000000, 0xffffffff, 0, 0x80000000, 0),
    (0xe0c34291, 0x80000000, 0xffffffff, 0, 0x0, 0),
    (0xe0c43291, 0x80000000, 0xffffffff, 0, 0x80000000, 0),
    (0xe713f211, 0x80000000, 0xffffffff, 0, 0x80000000, 0),
    (0xe733f211, 0x80000000, 0xffffffff, 0, 0x0, 0),
    (0xe713f211, 0xfffffff9, 0x2, 0, 0xfffffffd, 0),
    (0xe733f211, 0xfffffff9, 0x2, 0, 0x7ffffffc, 0),
    (0xe713f211, 0x7, 0x0, 0, 0x0, 0),
    (0xe733f211, 0x7, 0x0, 0, 0x0, 0),
    (0xe16f3f12, 0x0, 0x0, 0, 0x20, 0),
    (0xe16f3f12, 0x0, 0x1, 0, 0x1f, 0),
    (0xe16f3f12, 0x0, 0x80000000, 0, 0x0, 0),
    (0xe16f3f12, 0x0, 0xf0, 0, 0x18, 0),
    (0xe6ff3f32, 0x0, 0x1, 0, 0x80000000, 0),
    (0xe6ff3f32, 0x0, 0x12345678, 0, 0x1e6a2c48, 0),
    (0xe6af3072, 0x0, 0x1234ff80, 0, 0xffffff80, 0),
    (0xe6bf3072, 0x0, 0x1234ff80, 0, 0xffffff80, 0),
    (0xe6ef3072, 0x0, 0x1234ff80, 0, 0x80, 0),
    (0xe6ff3072, 0x0, 0x1234ff80, 0, 0xff80, 0),
    (0xe6af3072, 0x0, 0x12348000, 0, 0x0, 0),
    (0xe6bf3072, 0x0, 0x12348000, 0, 0xffff8000, 0),
    (0xe6ef3072, 0x0, 0x12348000, 0, 0x0, 0),
    (0xe6ff3072, 0x0, 0x12348000, 0, 0x8000, 0),
    (0xe6af3072, 0x0, 0x7f, 0, 0x7f, 0),
    (0xe6bf3072, 0x0, 0x7f, 0, 0x7f, 0),
    (0xe6ef3072, 0x0, 0x7f, 0, 0x7f, 0),
    (0xe6ff3072, 0x0, 0x7f, 0, 0x7f, 0),
];

use super::tables::*;
use bk_ops::{Family, Op, Target, eval_op, op_info, op_of_name};
use std::process::Abort;

fn op_called(rt: &impl Abort, name: &str) -> Op {
    op_of_name(name.as_bytes()).expect(rt, "the name of an op")
}

// The value of an op at as many of the arguments as it takes.
fn value(op: Op, int: i64, args: &[u64; 4], target: Target) -> Option<u64> {
    let count = match op_info(op).arity {
        Some(n) if n <= 4 => n as usize,
        _ => 0,
    };
    eval_op(op, int, &args[..count], target)
}

fn check(rt: &impl Abort, rows: &[(&str, [u64; 3])], pairs: &[(u64, u64); 3], target: Target) {
    for (name, wanted) in rows {
        let op = op_called(rt, name);
        for ((pair, int), want) in pairs.iter().zip(&NUMBERS).zip(wanted) {
            let got = value(op, *int, &[pair.0, pair.1, 0, 0], target);
            assert_eq!(rt;
                got,
                Some(*want),
                "{name} [{int}] of {} and {}",
                pair.0,
                pair.1
            );
        }
    }
}

#[test]
fn ops_of_a_width(rt: HostRuntime) {
    check(&rt, &OPS_8, &PAIRS_8, Target::Arm);
    check(&rt, &OPS_16, &PAIRS_16, Target::Riscv64);
    check(&rt, &OPS_32, &PAIRS_32, Target::Arm);
    check(&rt, &OPS_64, &PAIRS_64, Target::Riscv64);
}

#[test]
fn ops_of_words(rt: HostRuntime) {
    check(&rt, &WORDS_ARM, &PAIRS_32, Target::Arm);
    check(&rt, &WORDS_RISCV64, &PAIRS_64, Target::Riscv64);
    check(&rt, &NUMBERED_ARM, &PAIRS_32, Target::Arm);
    check(&rt, &NUMBERED_RISCV64, &PAIRS_64, Target::Riscv64);
}

// The values at two equal numbers that are not 0.
const SAME: [(&str, u64); 46] = [
    ("Eq8", 1),
    ("Neq8", 0),
    ("Less8", 0),
    ("Leq8", 1),
    ("Less8U", 0),
    ("Leq8U", 1),
    ("Div8", 1),
    ("Mod8u", 0),
    ("Eq16", 1),
    ("Neq16", 0),
    ("Less16", 0),
    ("Leq16", 1),
    ("Less16U", 0),
    ("Leq16U", 1),
    ("Div16", 1),
    ("Mod16u", 0),
    ("Eq32", 1),
    ("Neq32", 0),
    ("Less32", 0),
    ("Leq32", 1),
    ("Less32U", 0),
    ("Leq32U", 1),
    ("Div32", 1),
    ("Mod32u", 0),
    ("Eq64", 1),
    ("Neq64", 0),
    ("Less64", 0),
    ("Leq64", 1),
    ("Less64U", 0),
    ("Leq64U", 1),
    ("Div64", 1),
    ("Mod64u", 0),
    ("EqB", 1),
    ("NeqB", 0),
    ("EqPtr", 1),
    ("NeqPtr", 0),
    ("IsInBounds", 0),
    ("IsSliceInBounds", 1),
    ("ARMSETEQ", 1),
    ("ARMSETNE", 0),
    ("ARMSETLT", 0),
    ("ARMSETLE", 1),
    ("ARMSETLO", 0),
    ("ARMSETLS", 1),
    ("RVSLT", 0),
    ("RVSLTU", 0),
];

#[test]
fn equal_numbers(rt: HostRuntime) {
    for (name, want) in &SAME {
        let op = op_called(&rt, name);
        for target in [Target::Arm, Target::Riscv64] {
            let got = value(op, 0, &[7, 7, 0, 0], target);
            assert_eq!(rt; got, Some(*want), "{name}");
        }
    }
}

const WIDE: [(&str, [u64; 4], Target, u64); 11] = [
    ("CondSelect", [ONES, 7, 1, 0], Target::Arm, ONES),
    ("CondSelect", [ONES, 7, 2, 0], Target::Arm, 7),
    ("ARMSEL", [ONES, 7, 3, 0], Target::Arm, 0xffff_ffff),
    ("RVSEL", [9, ONES, 2, 0], Target::Riscv64, ONES),
    ("AddHi32", [1, 2, 0xffff_ffff, 1], Target::Riscv64, 4),
    ("AddHi32", [ONES, 0, 1 << 31, 1 << 31], Target::Arm, 0),
    ("SubHi32", [0, 0, 0, 1], Target::Riscv64, 0xffff_ffff),
    ("SubHi32", [0, ONES, 1, 2], Target::Riscv64, 0),
    ("SubHi32", [5, 3, 2, 1 << 32], Target::Riscv64, 2),
    ("ARMADDHI", [1, 2, 1 << 31, 1 << 31], Target::Arm, 4),
    ("ARMSUBHI", [1, 2, 0, 0], Target::Arm, 0xffff_ffff),
];

#[test]
fn ops_of_three_and_four(rt: HostRuntime) {
    for (name, args, target, want) in &WIDE {
        let got = value(op_called(&rt, name), 0, args, *target);
        assert_eq!(rt; got, Some(*want), "{name}");
    }
}

// Counts of arguments at which an op has no value.
const NONE: [(&str, usize); 24] = [
    ("Const8", 1),
    ("Neg8", 0),
    ("Add8", 1),
    ("Add8", 3),
    ("CondSelect", 2),
    ("AddHi32", 5),
    ("Phi", 1),
    ("Arg", 0),
    ("InitMem", 0),
    ("Addr", 1),
    ("Load", 2),
    ("NilCheck", 2),
    ("SelectN", 1),
    ("MakeResult", 1),
    ("ARGWORD", 0),
    ("RESWORD", 1),
    ("ARGREG", 0),
    ("RESREG", 1),
    ("CALLREGS", 2),
    ("RETREGS", 2),
    ("ARMADDR", 0),
    ("RVADDR", 0),
    ("RVLOAD8", 2),
    ("ARMNIL", 2),
];

#[test]
fn no_values(rt: HostRuntime) {
    let args = [1, 2, 3, 4, 5];
    for (name, count) in &NONE {
        assert!(rt; *count <= 5);
        let got = eval_op(op_called(&rt, name), 1, &args[..*count], Target::Arm);
        assert_eq!(rt; got, None, "{name}");
    }
    let unnamed = Op {
        family: Family::Add,
        a: 7,
        b: 0,
    };
    assert_eq!(rt; eval_op(unnamed, 0, &args[..2], Target::Arm), None);
}

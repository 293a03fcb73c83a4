mod tables;
mod values;

use bk_ops::{
    ArmOp, AuxKind, Class, Family, Op, OpInfo, RvOp, Target, Ty, code, op_info, op_name,
    op_of_name, size, width,
};
use std::test::Fail;

// A name with the count of arguments, the result and the two flags that Go's tables give it.
#[derive(Drop)]
struct Case {
    name: &'static str,
    op: Op,
    arity: Option<u8>,
    aux: AuxKind,
    result: Class,
    commutative: bool,
    memory: bool,
}

macro_rules! case {
    ($name:literal => $family:expr, $a:literal $b:literal, $arity:expr, $aux:ident, $result:expr, $commutative:literal, $memory:literal) => {
        Case {
            name: $name,
            op: Op {
                family: $family,
                a: $a,
                b: $b,
            },
            arity: $arity,
            aux: AuxKind::$aux,
            result: $result,
            commutative: $commutative,
            memory: $memory,
        }
    };
}

#[test]
fn names_and_rows(rt: HostRuntime) -> Result<(), Fail> {
    let cases = [
        case!("Const8" => Family::Const, 8 0, Some(0), Int, Class::Number(8), false, false),
        case!("Hmul32u" => Family::Hmulu, 32 0, Some(2), None, Class::Number(32), true, false),
        case!("Lsh16x64" => Family::Lsh, 16 64, Some(2), None, Class::Number(16), false, false),
        case!("Rsh64Ux8" => Family::RshU, 64 8, Some(2), None, Class::Number(64), false, false),
        case!("SignExt8to32" => Family::SignExt, 8 32, Some(1), None, Class::Number(32), false, false),
        case!("Trunc64to16" => Family::Trunc, 64 16, Some(1), None, Class::Number(16), false, false),
        case!("Leq32U" => Family::LeqU, 32 0, Some(2), None, Class::Bool, false, false),
        case!("EqB" => Family::EqB, 0 0, Some(2), None, Class::Bool, false, false),
        case!("OrB" => Family::OrB, 0 0, Some(2), None, Class::Bool, true, false),
        case!("CvtBoolToUint8" => Family::CvtBoolToUint8, 8 0, Some(1), None, Class::Number(8), false, false),
        case!("Int64Hi" => Family::Int64Hi, 64 0, Some(1), None, Class::Number(32), false, false),
        case!("Store" => Family::Store, 0 0, Some(3), Ty, Class::Mem, false, true),
        case!("StaticLECall" => Family::StaticLECall, 0 0, None, Name, Class::Tuple, false, true),
        case!("ARMRSB0" => Family::Arm(ArmOp::Rsb0), 0 0, Some(1), None, Class::Word, false, false),
        case!("ARMSTORE2" => Family::Arm(ArmOp::Store), 2 0, Some(3), Int, Class::Mem, false, true),
        case!("RVLOAD8" => Family::Rv(RvOp::Load), 8 0, Some(2), Int, Class::Word, false, true),
        case!("RVXOR" => Family::Rv(RvOp::Xor), 0 0, Some(2), None, Class::Word, true, false),
        case!("ARGREG" => Family::ArgReg, 0 0, Some(0), Int, Class::Word, false, false),
        case!("RESREG" => Family::ResReg, 0 0, Some(1), Int, Class::Word, false, false),
        case!("CALLREGS" => Family::CallRegs, 0 0, None, Name, Class::Mem, false, true),
        case!("RETREGS" => Family::RetRegs, 0 0, None, None, Class::Mem, false, true),
        case!("TRAP" => Family::Trap, 0 0, Some(1), Int, Class::Mem, false, true),
    ];
    for case in &cases {
        assert_eq!(rt;
            op_of_name(case.name.as_bytes()),
            Some(case.op),
            "{}",
            case.name
        );
        let name = op_name(rt.alloc(), case.op);
        assert!(rt;
            matches!(&name, Ok(text) if text.as_str() == case.name),
            "{}",
            case.name
        );
        let info = op_info(case.op);
        let want = OpInfo {
            arity: case.arity,
            aux: case.aux,
            result: case.result,
            commutative: case.commutative,
            memory: case.memory,
        };
        assert_eq!(rt; info, want, "{}", case.name);
    }
    Ok(())
}

#[test]
fn no_names(rt: HostRuntime) -> Result<(), Fail> {
    for name in [
        "",
        "Add",
        "add64",
        "Add128",
        "Add64 ",
        "Lsh32",
        "Lsh32x8x8",
        "Trunc8to16",
        "Hmul16",
        "ARMORI",
        "RVSLTI",
        "RVLOAD16",
    ] {
        assert_eq!(rt; op_of_name(name.as_bytes()), None, "{name}");
    }
    Ok(())
}

#[test]
fn types(rt: HostRuntime) -> Result<(), Fail> {
    for (ty, arm, riscv64, number) in [
        (Ty::Bool, (1, 1), (1, 1), Some(1)),
        (Ty::Uint16, (16, 2), (16, 2), Some(5)),
        (Ty::Int64, (64, 8), (64, 8), Some(8)),
        (Ty::Int, (32, 4), (64, 8), Some(10)),
        (Ty::Ptr, (32, 4), (64, 8), Some(13)),
        (Ty::Mem, (0, 0), (0, 0), None),
        (Ty::Tuple, (0, 0), (0, 0), None),
    ] {
        assert_eq!(rt;
            (width(ty, Target::Arm), size(ty, Target::Arm)),
            arm,
            "{ty:?}"
        );
        assert_eq!(rt;
            (width(ty, Target::Riscv64), size(ty, Target::Riscv64)),
            riscv64,
            "{ty:?}"
        );
        assert_eq!(rt; code(ty), number, "{ty:?}");
    }
    Ok(())
}

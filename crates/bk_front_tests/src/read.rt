//! Texts that are read, and texts that are refused.
use bk_dump::read_package;
use bk_ops::Target;
use std::alloc::Global;
use std::test::Fail;

/// The package of a text, or why it is refused, as it prints for debugging.
fn told(alloc: Global, text: &[u8]) -> Result<String, Fail> {
    match read_package(alloc, text, Target::Riscv64) {
        Ok(package) => Ok(format!(in alloc; "{package:?}")?),
        Err(error) => Ok(format!(in alloc; "{error:?}")?),
    }
}

#[test]
fn reads_each_spelling(rt: HostRuntime) -> Result<(), Fail> {
    let rows: [(&str, &str); 2] = [
        (
            "var a 24 = 010000000000000002000000000000000300000000000000\nmain.sum func(p *int, n int) int\nb1:\nv1 (?) = InitMem <mem>\nv2 (?) = SP <uintptr>\nv3 (?) = SB <uintptr>\nv4 (?) = Arg <*int> {p} (p[*int])\nv5 (?) = Arg <int> {n} (n[int])\nv6 (?) = Const64 <int> [0] (s[int], i[int])\nv7 (?) = Const64 <int> [1]\nv8 (?) = Const64 <uint64> [3]\nPlain → b2 (+4)\nb2: ← b1 b3\nv9 (4) = Phi <int> v6 v16 (i[int])\nv10 (7) = Phi <int> v6 v15\nv11 (+4) = Less64 <bool> v9 v5\nIf v11 → b3 b4 (likely) (4)\nb3: ← b2\nv12 = Lsh64x64 <int> [true] v9 v8\nv13 = AddPtr <*int> v4 v12\nv14 = Load <int> v13 v1\nv15 = Add64 <int> v10 v14\nv16 = Add64 <int> v9 v7\nPlain → b2\nb4: ← b2\nv17 = MakeResult <int,mem> v10 v1\nRet v17",
            "var a 24 = 010000000000000002000000000000000300000000000000\nmain.sum func(p *int, n int) int\nb1:\nv1 = InitMem <mem>\nv2 = SP <uintptr>\nv3 = SB <uintptr>\nv4 = Arg <ptr> {p}\nv5 = Arg <int> {n}\nv6 = Const64 <int> [0]\nv7 = Const64 <int> [1]\nv8 = Const64 <uint64> [3]\nPlain -> b2\nb2: <- b1 b3\nv9 = Phi <int> v6 v16\nv10 = Phi <int> v6 v15\nv11 = Less64 <bool> v9 v5\nIf v11 -> b3 b4 (likely)\nb3: <- b2\nv12 = Lsh64x64 <int> v9 v8\nv13 = AddPtr <ptr> v4 v12\nv14 = Load <int> v13 v1\nv15 = Add64 <int> v10 v14\nv16 = Add64 <int> v9 v7\nPlain -> b2\nb4: <- b2\nv17 = MakeResult <int,mem> v10 v1\nRet v17",
        ),
        (
            "var w 8\nq func()\nb1:\nv1 = InitMem <mem>\nv2 = SB <uintptr>\nv3 = Addr <ptr> {w} v2\nv4 = ConstBool <bool> [true]\nv5 = Const64 <int> [3]\nv6 = Div64 <int> [false] v5 v5\nv7 = Zero <mem> {int} [8] v3 v1\nv8 = StaticLECall <mem> {AuxCall{q}} [8] v7\nv9 = SelectN <mem> [0] v8\nv10 = MakeResult <mem> v9\nRet v10",
            "var w 8\nq func()\nb1:\nv1 = InitMem <mem>\nv2 = SB <uintptr>\nv3 = Addr <ptr> {w} v2\nv4 = ConstBool <bool> [1]\nv5 = Const64 <int> [3]\nv6 = Div64 <int> v5 v5\nv7 = Zero <mem> [8] {int} v3 v1\nv8 = StaticLECall <mem> [8] {AuxCall{q}} v7\nv9 = SelectN <mem> [0] v8\nv10 = MakeResult <mem> v9\nRet v10",
        ),
    ];
    for (spelled, plain) in &rows {
        let package = told(rt.alloc(), spelled.as_bytes())?;
        assert!(rt; package.starts_with("Package"), "{package}");
        assert_eq!(rt; package, told(rt.alloc(), plain.as_bytes())?);
    }
    Ok(())
}

/// Texts with their first fault.
const REFUSED: [(&[u8], &str); 29] = [
    (b"f0 func() uuintptr8", "Syntax { line: 1 }"),
    (b"f0 func(a int16) (uint8, int)\nb=1:", "Syntax { line: 2 }"),
    (b"b1:0 func() (int32, uint32, int32)", "Syntax { line: 2 }"),
    (
        b"f0 func(a uint) int8\nf0 func(a uint) int8",
        "Syntax { line: 2 }",
    ),
    (
        b"f0 func(a uint64)\nb13:\n  v,1 = InitMem <mem>",
        "Syntax { line: 3 }",
    ),
    (
        b"f0 funB(a uintptr, b int, c uint, d int32) uint8",
        "Syntax { line: 1 }",
    ),
    (
        b"f0 func(a int16, b int32, c uint32)\nb17:\n  v8 = Initem <mem>",
        "Syntax { line: 3 }",
    ),
    (
        b"T[int]0 func(a int16, b int16)\nb1:\n  v1 = InitMem <mem>\n  v2 = Add64 <uint16> {a}",
        "Syntax { line: 4 }",
    ),
    (
        b"var b1:0 1 = 00\nvar x.y1 8 = 11b5df0000000000\ng2 func(a uint16) (uint8, int32)\nb1",
        "Syntax { line: 4 }",
    ),
    (
        b"var v0 8 = 4534fe5fa092587b\nvar v1 16 = dd000000000000000000000000000000\n  v14 = Arg <int> {m}",
        "Syntax { line: 3 }",
    ),
    (
        b"v10 func() (bool, int8)\nb1:\n  v1 = InitMem <mem>\n  v2 = ConstBool <bool> [0]\n  v2 = ConstBool <bool> [0]",
        "Duplicate { line: 5 }",
    ),
    (
        b"f0 func(a bool) (ptr, int64)\nb6:\n  v24 = Const8 <uint8> [-5]\n  v25 = Neq8 <bool> v24 v24\n  v15 = AndB <bool> v22 v22",
        "Syntax { line: 6 }",
    ),
    (
        b"var v0 16 = 88000000000000000000000000000000\nf1 func(a uint16, b uint8, c ptr, d uint32)\nb5:\n  v12 = InitMem <mem>\nb4: <- b4",
        "Syntax { line: 5 }",
    ),
    (
        b"f0 func(a uint16, b uint8, c ptr, d int) uint8\nb21:\n  v2 = InitMem <mem>\n  v48 = Arg <int16> {a}\n  v36 = Arg <int8> {b}\n  v18 = Arg {c}",
        "Syntax { line: 6 }",
    ),
    (
        b"f0 func(a uint16) (bool, uintptr)\nb19:\n  v47 = CondSelect <int16> v3 v3 v40\n  v40 = ConstBool <bool> [1]\n  v8 = MakeResult <bool,uintptr,mem> v40 v2\x0e v21",
        "Syntax { line: 5 }",
    ),
    (
        b"f0 func(a uint32, b int, c int, d ptr) (uint32, ptr)\nb1:\n  v1 = InitMem <mem>\n  v2 = Arg <uintptr> {a}\n  v3 = Arg <uint> {b}\n  v4 = Arg <uintptr> {c}\n  v1 = InitMem <mem>",
        "Duplicate { line: 7 }",
    ),
    (
        b"k-10 func(a uint, b int8) (uintptr, uint8, int16)\nb1:\n  v1 = InitMem <mem>\n  v2 = Arg <ptr> {a}\n  v3 = Arg <int8> {b}\n  v4 = SB <uintptr>\n  v5 = Not <uintptr> {T[int]1} v4",
        "Syntax { line: 7 }",
    ),
    (
        b"f0 func(a uint32, b uint32) (uint32, uint32)\nb6:\n  v27 = MakeResult <uint32,uint32,mem> v16 v3 v9\n  v3 = Const32 <uint> [173]\n  v50 = Const16 <int16> [-1]\n  v48 = SignExt16to32 <uint> v50\n  v16 Arg <uint32> {a}",
        "Syntax { line: 7 }",
    ),
    (
        b"var v0 100 = 935ac66c37cd3d58b3a39b3ff41658a60c1db292fbe8000000000000000000000000000000000000000000000000000000000000000000000000000000000000000000000000000000000000000000000000000000000000000000000000000000000000\nf1 func(a int, b int) uintptr\n  v43 = ConstBool <bool> [0]",
        "Syntax { line: 3 }",
    ),
    (
        b"f0 func(a int, b int, c int64, d uint32) (uintptr, int16)\nb1:\n  v1 = InitMem <mem>\n  v2 = Arg <ptr> {b}\n  v3 = Arg <ptr> {c}\n  v4 = IsInBounds <bool> v3 v2\n  v2147483647 = SB <uintptr>\n  v6 = Addr <uintptr> {v1} v5\n  v7 = Const64 <ptr> [-2]\n  v8 = Store <mem> {int} v6 v7 v1\n  v9 = Const16 <int16> [-32768]\n  v10 = MakeResult <uintptr,int16,mem> v2 v9 v8\n  Ret v10\nvar v1 16 = f14c7a00000000000000000000000000\nvar v2 1 = 28\n",
        "Undefined { name: \"v5\" }",
    ),
    (
        b"var v11 4 = 00000000\nmain.sum2 func(a int, b uint, c bool, d bool) int64\nb1:\n  v1 = InitMem <mem>\n  v2 = Arg <uint> {b}\n  v3 = Arg <bool> {c}\n  v4 = Arg <bool> {d}\n  v5 = SB <uintptr>\n  v6 = Addr <ptr> {v10} v5\n  v7 = Zero <mem> [8] v6 v1\n  v8 = NeqPtr <bool> v2 v6\n  v9 = BitLen32 <uint> v6\n  v10 = OffPtr <ptr> [3] v6\n  v11 = Load <uint> v10 v7\n  v12 = IsInBounds <bool> v9 v6\nv13   = Const64 <int64> [-4294967296]\n  v14 = MakeResult <int64,mem> v13 v7\n  Ret v14\n",
        "Undefined { name: \"v10\" }",
    ),
    (b"var q 99999999", "Limit { which: Window, line: 1 }"),
    (
        b"f func()\nb1:\n  v0 = InitMem <mem>",
        "Limit { which: Numbers, line: 3 }",
    ),
    (b"add func(a int) int\nb1:\nv1 = Init", "Syntax { line: 3 }"),
    (
        b"f func()\nb1:\nv1 = InitMem <mem>\nv2 = StaticLECall <mem> {nosuch} v1\nv3 = MakeResult <mem> v1\nRet v3",
        "Undefined { name: \"nosuch\" }",
    ),
    (b"runtime.panicdivide func()", "Duplicate { line: 1 }"),
    (b"f func(a int, a int)", "Duplicate { line: 1 }"),
    (b"var a 1 = 0", "Syntax { line: 1 }"),
    (b"var a 08", "Syntax { line: 1 }"),
];

#[test]
fn refuses_the_first_fault(rt: HostRuntime) -> Result<(), Fail> {
    for (text, refusal) in &REFUSED {
        let found = told(rt.alloc(), text)?;
        assert_eq!(rt; found.as_str(), *refusal, "at {text:?}");
    }
    Ok(())
}

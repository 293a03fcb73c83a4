use crate::texts::package;
use bk_form::{FormError, FormKind, Place, check_form};
use bk_ops::Target;
use std::alloc::{AllocError, Global};
use std::process::Abort;
use std::test::Fail;

/// What the check says of the function on riscv64: `ok`, or the kind and the place.
fn said(rt: &impl Abort, alloc: Global, results: &str, text: &str) -> Result<String, AllocError> {
    let package = package(alloc, rt, results, text)?;
    let func = package.funcs.first().expect(rt, "a function");
    match check_form(alloc, &package, func, Target::Riscv64) {
        Ok(()) => format!(in alloc; "ok"),
        Err(FormError::Memory) => format!(in alloc; "want of memory"),
        Err(
            FormError::FormFault {
                kind,
                place: Place::Block(id),
            },
        ) => format!(in alloc; "{} b{id}", word(kind)),
        Err(
            FormError::FormFault {
                kind,
                place: Place::Value(id),
            },
        ) => format!(in alloc; "{} v{id}", word(kind)),
    }
}

/// Each of the functions, given by its result and its text, has the answer beside it.
fn all_say(rt: &impl Abort, alloc: Global, cases: &[(&str, &str, &str)]) -> Result<(), AllocError> {
    for (results, text, answer) in cases {
        assert_eq!(rt; said(rt, alloc, results, text)?.as_str(), *answer, "{text}");
    }
    Ok(())
}

fn word(kind: FormKind) -> &'static str {
    match kind {
        FormKind::Control => "control",
        FormKind::Missing => "missing",
        FormKind::Arity => "arity",
        FormKind::Ty => "type",
        FormKind::Width => "width",
        FormKind::Use => "use",
        FormKind::Memory => "memory",
        FormKind::Order => "order",
    }
}

/// Kinds of blocks and edges.
const CONTROL: [(&str, &str, &str); 8] = [
    ("", "", "control b0"),
    (
        "int",
        "b1 Ret v5; v1 InitMem mem; v4 Const64 int [7]; v5 MakeResult list v4 v1",
        "ok",
    ),
    (
        "",
        "b1 Plain <- b2 -> b2; v1 InitMem mem; b2 Plain <- b1 -> b1",
        "control b1",
    ),
    (
        "",
        "b1 Plain -> b2; v1 InitMem mem; b2 Ret v5 <- b1 b1; v5 MakeResult mem v1",
        "control b1",
    ),
    (
        "",
        "b1 Plain -> b2; v1 InitMem mem; b2 Ret v5; v5 MakeResult mem v1",
        "control b1",
    ),
    ("", "b1 Plain; v1 InitMem mem", "control b1"),
    ("", "b1 Plain -> b7; v1 InitMem mem", "control b1"),
    (
        "",
        "b1 If v2 -> b2 b2; v1 InitMem mem; v2 Arg bool {a0}; b2 Ret v5 <- b1 b1; v5 MakeResult mem v1",
        "ok",
    ),
];

#[test]
fn control(rt: HostRuntime) -> Result<(), Fail> {
    all_say(&rt, rt.alloc(), &CONTROL)?;
    Ok(())
}

/// Numbers and symbols. Symbol 0 is a variable, symbol 1 the function itself.
const MISSING: [(&str, &str, &str); 9] = [
    (
        "int",
        "b1 Ret v5; v1 InitMem mem; v5 MakeResult list v4 v1",
        "missing v5",
    ),
    (
        "",
        "b1 Ret v6; v1 InitMem mem; v5 MakeResult mem v1",
        "missing b1",
    ),
    (
        "",
        "b1 Ret v5; v1 InitMem mem; v4 Const64 int [7]; v4 Const64 int [7]; v5 MakeResult mem v1",
        "missing v4",
    ),
    (
        "",
        "b1 Ret v5; v1 InitMem mem; v2 SB uintptr; v3 Addr ptr {s1} v2; v5 MakeResult mem v1",
        "missing v3",
    ),
    (
        "",
        "b1 Ret v5; v1 InitMem mem; v2 SB uintptr; v3 Addr ptr {s0} v2; v5 MakeResult mem v1",
        "ok",
    ),
    (
        "",
        "b1 Ret v5; v1 InitMem mem; v2 StaticLECall mem {s0} v1; v5 MakeResult mem v1",
        "missing v2",
    ),
    (
        "",
        "b1 Ret v5; v1 InitMem mem; v2 StaticLECall mem {s2} v1; v5 MakeResult mem v1",
        "missing v2",
    ),
    (
        "",
        "b1 Ret v5; v1 InitMem mem; v2 Arg ptr {a2}; v5 MakeResult mem v1",
        "missing v2",
    ),
    (
        "",
        "b1 Ret v5; v1 InitMem mem; v2 StaticLECall mem {s4294967295} v1; v5 MakeResult mem v2",
        "ok",
    ),
];

#[test]
fn missing(rt: HostRuntime) -> Result<(), Fail> {
    all_say(&rt, rt.alloc(), &MISSING)?;
    Ok(())
}

/// Counts of arguments.
const ARITY: [(&str, &str, &str); 5] = [
    (
        "",
        "b1 Ret v5; v1 InitMem mem; v4 Const64 int [7]; v6 Add64 int v4; v5 MakeResult mem v1",
        "arity v6",
    ),
    (
        "int",
        "b1 Ret v5; v1 InitMem mem; v5 MakeResult mem v1",
        "arity v5",
    ),
    (
        "",
        "b1 Plain -> b2; v1 InitMem mem; v4 Const64 int [7]; b2 Ret v5 <- b1; v6 Phi int v4 v4; v5 MakeResult mem v1",
        "arity v6",
    ),
    (
        "",
        "b1 Ret v5; v1 InitMem mem; v2 Arg bool {a0}; v6 StaticLECall mem {s1} v2 v1; v5 MakeResult mem v1",
        "arity v6",
    ),
    (
        "",
        "b1 Ret v1; v1 InitMem mem; b2 Exit v3; v3 Phi mem",
        "arity v3",
    ),
];

#[test]
fn arity(rt: HostRuntime) -> Result<(), Fail> {
    all_say(&rt, rt.alloc(), &ARITY)?;
    Ok(())
}

/// Types.
const TYPES: [(&str, &str, &str); 16] = [
    (
        "",
        "b1 Ret v5; v1 InitMem mem; v4 Const64 int [7]; v6 Add32 int32 v4 v4; v5 MakeResult mem v1",
        "type v6",
    ),
    (
        "",
        "b1 Ret v5; v1 InitMem mem; v4 Const64 int32 [7]; v5 MakeResult mem v1",
        "type v4",
    ),
    (
        "",
        "b1 Ret v5; v1 InitMem mem; v2 Arg uint8 {a0}; v5 MakeResult mem v1",
        "type v2",
    ),
    (
        "",
        "b1 Ret v5; v1 InitMem mem; v2 SB uintptr; v3 Copy uintptr v2; v5 MakeResult mem v1",
        "type v3",
    ),
    ("", "b1 Ret v1; v1 InitMem mem", "ok"),
    ("int", "b1 Ret v1; v1 InitMem mem", "type b1"),
    (
        "",
        "b1 Exit v5; v1 InitMem mem; v5 MakeResult mem v1",
        "type b1",
    ),
    ("int", "b1 Exit v1; v1 InitMem mem", "ok"),
    ("", "b1 Exit v5; v1 InitMem mem; v5 Copy mem v1", "ok"),
    (
        "",
        "b1 If v4 -> b2 b2; v1 InitMem mem; v4 Const64 int [7]; b2 Ret v1 <- b1 b1",
        "type b1",
    ),
    (
        "",
        "b1 Ret v5; v1 InitMem mem; v3 Arg ptr {a1}; v4 Const64 int [7]; v6 Store mem {int32} v3 v4 v1; v5 MakeResult mem v6",
        "type v6",
    ),
    (
        "",
        "b1 Ret v5; v1 InitMem mem; v3 Arg ptr {a1}; v4 Const64 int [7]; v6 Store mem {uint64} v3 v4 v1; v5 MakeResult mem v6",
        "ok",
    ),
    (
        "",
        "b1 Ret v5; v1 InitMem mem; v3 Arg ptr {a1}; v4 Const64 int [7]; v6 Store mem {mem} v3 v4 v1; v5 MakeResult mem v6",
        "type v6",
    ),
    (
        "",
        "b1 Ret v5; v1 InitMem mem; v3 Arg ptr {a1}; v6 NilCheck ptr v3 v1; v7 NilCheck void v6 v1; v8 Load bool v6 v1; v5 MakeResult mem v1",
        "ok",
    ),
    (
        "int",
        "b1 Ret v5; v1 InitMem mem; v2 Arg bool {a0}; v3 Arg ptr {a1}; v6 StaticLECall list {s1} v2 v3 v1; v7 SelectN int [0] v6; v8 SelectN int [1] v6; v5 MakeResult list v7 v8",
        "type v8",
    ),
    (
        "",
        "b1 Ret v5; v1 InitMem mem; v4 Const64 int [7]; v6 CondSelect mem v1 v1 v4; v5 MakeResult mem v1",
        "type v6",
    ),
];

#[test]
fn types(rt: HostRuntime) -> Result<(), Fail> {
    all_say(&rt, rt.alloc(), &TYPES)?;
    Ok(())
}

/// Numbers beside ops.
const WIDTH: [(&str, &str, &str); 6] = [
    (
        "",
        "b1 Ret v5; v1 InitMem mem; v4 Const8 int8 [-128]; v5 MakeResult mem v1",
        "ok",
    ),
    (
        "",
        "b1 Ret v5; v1 InitMem mem; v4 Const8 int8 [128]; v5 MakeResult mem v1",
        "width v4",
    ),
    (
        "",
        "b1 Ret v5; v1 InitMem mem; v4 Const32 int32 [-2147483649]; v5 MakeResult mem v1",
        "width v4",
    ),
    (
        "",
        "b1 Ret v5; v1 InitMem mem; v4 ConstBool bool [2]; v5 MakeResult mem v1",
        "width v4",
    ),
    (
        "",
        "b1 Ret v5; v1 InitMem mem [1]; v5 MakeResult mem v1",
        "width v1",
    ),
    (
        "int",
        "b1 Ret v5; v1 InitMem mem; v2 Arg bool {a0}; v3 Arg ptr {a1}; v6 StaticLECall list {s1} v2 v3 v1; v7 SelectN int [2] v6; v8 SelectN mem [1] v6; v5 MakeResult list v7 v8",
        "width v7",
    ),
];

#[test]
fn width(rt: HostRuntime) -> Result<(), Fail> {
    all_say(&rt, rt.alloc(), &WIDTH)?;
    Ok(())
}

/// Uses that a walk reaches past the definition; a phi uses at the end of its predecessor.
const USES: [(&str, &str, &str); 6] = [
    (
        "int",
        "b1 If v2 -> b2 b3; v1 InitMem mem; v2 Arg bool {a0}; b2 Plain <- b1 -> b3; v4 Const64 int [7]; b3 Ret v5 <- b1 b2; v5 MakeResult list v4 v1",
        "use v5",
    ),
    (
        "int",
        "b1 If v2 -> b2 b3; v1 InitMem mem; v2 Arg bool {a0}; b2 Plain <- b1 -> b4; v4 Const64 int [7]; b3 Plain <- b1 -> b4; v6 Const64 int [8]; b4 Ret v5 <- b2 b3; v7 Phi int v4 v6; v5 MakeResult list v7 v1",
        "ok",
    ),
    (
        "int",
        "b1 If v2 -> b2 b3; v1 InitMem mem; v2 Arg bool {a0}; b2 Plain <- b1 -> b4; v4 Const64 int [7]; b3 Plain <- b1 -> b4; v6 Const64 int [8]; b4 Ret v5 <- b2 b3; v7 Phi int v6 v4; v5 MakeResult list v7 v1",
        "use v7",
    ),
    (
        "",
        "b1 If v6 -> b2 b3; v1 InitMem mem; b2 Plain <- b1 -> b3; v6 ConstBool bool [1]; b3 Ret v1 <- b1 b2",
        "use b1",
    ),
    (
        "int",
        "b1 Plain -> b2; v1 InitMem mem; b2 If v7 <- b1 b2 -> b2 b3; v6 Phi int v4 v8; v7 Less64 bool v6 v8; v8 Add64 int v6 v6; b3 Ret v5 <- b2; v4 Const64 int [7]; v5 MakeResult list v8 v1",
        "use v6",
    ),
    (
        "",
        "b1 Ret v1; v1 InitMem mem; b2 Plain <- b2 -> b2; v7 Com64 int v4; b3 Plain <- b3 -> b3; v4 Const64 int [7]",
        "ok",
    ),
];

#[test]
fn uses(rt: HostRuntime) -> Result<(), Fail> {
    all_say(&rt, rt.alloc(), &USES)?;
    Ok(())
}

/// One chain of states along every walk.
const MEMORY: [(&str, &str, &str); 20] = [
    (
        "",
        "b1 Plain -> b2; v4 Const64 int [7]; b2 Plain <- b1 b2 -> b2",
        "memory b1",
    ),
    (
        "",
        "b1 Plain -> b2; v1 InitMem mem; v6 InitMem mem; b2 Plain <- b1 b2 -> b2",
        "memory v6",
    ),
    (
        "",
        "b1 Ret v5; v1 InitMem mem; v3 Arg ptr {a1}; v4 Const64 int [7]; v6 Store mem {int} v3 v4 v1; v7 Store mem {int} v3 v4 v1; v5 MakeResult mem v6",
        "memory b1",
    ),
    (
        "",
        "b1 Ret v5; v1 InitMem mem; v3 Arg ptr {a1}; v4 Const64 int [7]; v6 Store mem {int} v3 v4 v1; v7 Load int v3 v1; v5 MakeResult mem v6",
        "ok",
    ),
    (
        "",
        "b1 Plain -> b2; v1 InitMem mem; v3 Arg ptr {a1}; v4 Const64 int [7]; v6 Store mem {int} v3 v4 v1; b2 Ret v5 <- b1; v7 Load int v3 v1; v5 MakeResult mem v6",
        "memory v7",
    ),
    (
        "",
        "b1 Plain -> b2; v1 InitMem mem; v3 Arg ptr {a1}; v4 Const64 int [7]; v6 Store mem {int} v3 v4 v1; b2 Ret v5 <- b1; v7 Load int v3 v6; v5 MakeResult mem v6",
        "ok",
    ),
    (
        "",
        "b1 Ret v5; v1 InitMem mem; v3 Arg ptr {a1}; v4 Const64 int [7]; v6 Store mem {int} v3 v4 v1; v5 MakeResult mem v1",
        "memory v5",
    ),
    (
        "",
        "b1 Exit v1; v1 InitMem mem; v3 Arg ptr {a1}; v4 Const64 int [7]; v6 Store mem {int} v3 v4 v1",
        "memory b1",
    ),
    (
        "",
        "b1 If v2 -> b2 b3; v1 InitMem mem; v2 Arg bool {a0}; v3 Arg ptr {a1}; v4 Const64 int [7]; b2 Plain <- b1 -> b4; v6 Store mem {int} v3 v4 v1; b3 Plain <- b1 -> b4; b4 Ret v5 <- b2 b3; v5 MakeResult mem v1",
        "memory v5",
    ),
    (
        "",
        "b1 If v2 -> b2 b3; v1 InitMem mem; v2 Arg bool {a0}; v3 Arg ptr {a1}; v4 Const64 int [7]; b2 Plain <- b1 -> b4; v6 Store mem {int} v3 v4 v1; b3 Plain <- b1 -> b4; b4 Ret v5 <- b2 b3; v7 Store mem {int} v3 v4 v1; v5 MakeResult mem v7",
        "memory b4",
    ),
    (
        "",
        "b1 If v2 -> b2 b3; v1 InitMem mem; v2 Arg bool {a0}; v3 Arg ptr {a1}; v4 Const64 int [7]; b2 Plain <- b1 -> b4; v6 Store mem {int} v3 v4 v1; b3 Plain <- b1 -> b4; b4 Ret v5 <- b2 b3; v7 Phi mem v6 v1; v5 MakeResult mem v7",
        "ok",
    ),
    (
        "",
        "b1 If v2 -> b2 b3; v1 InitMem mem; v2 Arg bool {a0}; v3 Arg ptr {a1}; v4 Const64 int [7]; b2 Plain <- b1 -> b4; v6 Store mem {int} v3 v4 v1; b3 Plain <- b1 -> b4; b4 Ret v5 <- b2 b3; v7 Phi mem v6 v1; v8 Phi mem v6 v1; v5 MakeResult mem v7",
        "memory b4",
    ),
    (
        "",
        "b1 If v2 -> b2 b3; v1 InitMem mem; v2 Arg bool {a0}; v3 Arg ptr {a1}; v4 Const64 int [7]; b2 Plain <- b1 -> b4; v6 Store mem {int} v3 v4 v1; b3 Plain <- b1 -> b4; v8 Store mem {int} v3 v4 v1; b4 Ret v5 <- b2 b3; v7 Phi mem v6 v1; v5 MakeResult mem v7",
        "memory v7",
    ),
    (
        "",
        "b1 Ret v5; v1 InitMem mem; v3 Arg ptr {a1}; v4 Const64 int [7]; v6 Copy mem v1; v7 Store mem {int} v3 v4 v6; v8 Copy mem v7; v5 MakeResult mem v8",
        "ok",
    ),
    (
        "",
        "b1 Plain -> b2; v1 InitMem mem; v3 Arg ptr {a1}; v4 Const64 int [7]; v6 Store mem {int} v3 v4 v1; b2 Ret v5 <- b1; v7 Copy mem v1; v5 MakeResult mem v6",
        "memory v7",
    ),
    (
        "int",
        "b1 Plain -> b2; v1 InitMem mem; v2 Arg bool {a0}; v3 Arg ptr {a1}; v6 StaticLECall list {s1} v2 v3 v1; v8 SelectN mem [1] v6; b2 Ret v5 <- b1; v7 SelectN int [0] v6; v5 MakeResult list v7 v8",
        "memory v7",
    ),
    (
        "int",
        "b1 Plain -> b2; v1 InitMem mem; v4 Const64 int [7]; v5 MakeResult list v4 v1; b2 Ret v5 <- b1",
        "memory v5",
    ),
    (
        "",
        "b1 Plain -> b2; v1 InitMem mem; v5 MakeResult mem v1; b2 Ret v5 <- b1",
        "ok",
    ),
    (
        "",
        "b1 Ret v1; v1 InitMem mem; b2 Plain <- b2 -> b2; v7 Copy mem v7",
        "order v7",
    ),
    (
        "",
        "b1 Ret v1; v1 InitMem mem; v3 Arg ptr {a1}; v4 Const64 int [7]; b2 Exit v6; v6 Store mem {int} v3 v4 v1; v7 Store mem {int} v3 v4 v1",
        "ok",
    ),
];

#[test]
fn memory(rt: HostRuntime) -> Result<(), Fail> {
    all_say(&rt, rt.alloc(), &MEMORY)?;
    Ok(())
}

/// Values of a block that wait for each other.
const ORDER: [(&str, &str, &str); 7] = [
    (
        "",
        "b1 Ret v5; v1 InitMem mem; v4 Const64 int [7]; v6 Add64 int v7 v4; v7 Add64 int v6 v4; v5 MakeResult mem v1",
        "order v6",
    ),
    (
        "",
        "b1 Plain -> b2; v1 InitMem mem; v4 Const64 int [7]; b2 Plain <- b1 b2 -> b2; v6 Phi int v4 v7; v7 Add64 int v6 v6",
        "ok",
    ),
    (
        "",
        "b1 Ret v5; v1 InitMem mem; v3 Arg ptr {a1}; v6 Load int v3 v1; v7 Store mem {int} v3 v6 v1; v5 MakeResult mem v7",
        "ok",
    ),
    (
        "",
        "b1 Ret v5; v1 InitMem mem; v3 Arg ptr {a1}; v4 Const64 int [7]; v6 Load ptr v3 v7; v8 Load int v6 v1; v7 Store mem {int} v3 v4 v1; v5 MakeResult mem v7",
        "order v6",
    ),
    (
        "",
        "b1 Ret v5; v1 InitMem mem; v3 Arg ptr {a1}; v6 Load ptr v3 v1; v7 NilCheck ptr v3 v1; v8 NilCheck void v6 v1; v5 MakeResult mem v1",
        "ok",
    ),
    (
        "",
        "b1 Ret v5; v1 InitMem mem; v3 Arg ptr {a1}; v6 Load ptr v7 v1; v8 NilCheck void v6 v1; v7 NilCheck ptr v3 v1; v5 MakeResult mem v1",
        "order v6",
    ),
    (
        "",
        "b1 Ret v5; v1 InitMem mem; v3 Arg ptr {a1}; v7 NilCheck ptr v9 v1; v9 Copy ptr v7; v5 MakeResult mem v1",
        "order v7",
    ),
];

#[test]
fn order(rt: HostRuntime) -> Result<(), Fail> {
    all_say(&rt, rt.alloc(), &ORDER)?;
    Ok(())
}

/// Words and registers of calls: a word counts places of the signature, and belongs to the next call.
const WORDS: [(&str, &str, &str); 11] = [
    (
        "int",
        "b1 Ret v9; v1 InitMem mem; v2 ARGWORD bool [0]; v3 ARGWORD ptr [1]; v4 OUTWORD mem [0] v2 v1; v5 OUTWORD mem [1] v3 v4; v6 CALL mem {s1} v5; v7 RESWORD int [2] v6; v9 RETWORD mem [2] v7 v6",
        "ok",
    ),
    (
        "",
        "b1 Ret v7; v1 InitMem mem; v2 ARGWORD bool [0]; v3 ARGWORD ptr [1]; v4 OUTWORD mem [0] v2 v1; v5 Store mem {bool} v3 v2 v4; v6 OUTWORD mem [1] v3 v5; v7 CALL mem {s1} v6",
        "ok",
    ),
    (
        "",
        "b1 Ret v4; v1 InitMem mem; v2 ARGWORD bool [0]; v4 OUTWORD mem [0] v2 v1",
        "width v4",
    ),
    (
        "",
        "b1 Ret v6; v1 InitMem mem; v2 ARGWORD bool [0]; v4 OUTWORD mem [0] v2 v1; v5 CALL mem {s4294967295} v4; v6 CALL mem {s1} v5",
        "width v4",
    ),
    (
        "",
        "b1 Plain -> b2; v1 InitMem mem; v2 ARGWORD bool [0]; v4 OUTWORD mem [0] v2 v1; b2 Ret v5 <- b1; v5 CALL mem {s1} v4",
        "width v4",
    ),
    (
        "int",
        "b1 Ret v7; v1 InitMem mem; v2 ARGREG bool [0]; v3 ARGREG ptr [1]; v5 CALLREGS mem {s1} v2 v3 v1; v6 RESREG int [0] v5; v7 RETREGS mem v6 v5",
        "ok",
    ),
    (
        "",
        "b1 Ret v7; v1 InitMem mem; v7 RETREGS mem v1",
        "arity v7",
    ),
    (
        "",
        "b1 Ret v5; v1 InitMem mem; v2 ARGREG bool [0]; v5 CALLREGS mem {s1} v2 v1",
        "arity v5",
    ),
    (
        "",
        "b1 Ret v5; v1 InitMem mem; v2 ARGREG bool [0]; v5 CALLREGS mem {s0} v2 v1",
        "missing v5",
    ),
    (
        "int",
        "b1 Exit v6; v1 InitMem mem; v2 ARGREG bool [0]; v3 ARGREG ptr [1]; v5 StaticLECall list {s1} v2 v3 v1; v6 SelectN mem [1] v5; v7 RESREG int [0] v5",
        "type v7",
    ),
    (
        "int",
        "b1 Exit v5; v1 InitMem mem; v2 ARGREG bool [0]; v3 ARGREG ptr [1]; v5 CALLREGS mem {s1} v2 v3 v1; v6 RESREG int [1] v5",
        "width v6",
    ),
];

#[test]
fn words(rt: HostRuntime) -> Result<(), Fail> {
    all_say(&rt, rt.alloc(), &WORDS)?;
    Ok(())
}

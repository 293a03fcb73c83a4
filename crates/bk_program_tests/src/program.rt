//! The program over objects in memory: its rows, its refusals and its faults.

ghost use Rattle.std.specs.Prelude.{◌≤◌};

mod gates;
mod objects;
mod texts;

use bk_io::{Gate, MemSink, MemSource, Memory, Open};
use bk_top::backend;
use gates::{Held, Rising};
use objects::ARM;
use std::alloc::{AllocError, Global};
use std::test::Fail;
use std::thread::Threads;
use texts::{
    ADD, ADD_AND_TWICE, ADD_CODE, CONSTANT, COUNTED, DROPPED, LEQ, LESS, LOOP, MOD, NO_SUCH,
    QUOTIENT, SPIN, STORE, SWAP, TWICE, TWICE_CODE, USE, ZEROS,
};

/// The words, the input, and what they leave: the status and the texts on the output and on the error stream.
struct Row(&'static str, &'static str, u8, &'static str, &'static str);

const TEXTS: [Row; 72] = [
    Row("check arm", "", 0, "ok 0 functions 0 values\n", ""),
    Row("check riscv64", ADD, 0, "ok 1 functions 5 values\n", ""),
    Row(
        "check riscv64",
        DROPPED,
        0,
        "ok 1 functions 10 values\n",
        "",
    ),
    Row("check riscv64", LOOP, 0, "ok 1 functions 17 values\n", ""),
    Row(
        "check riscv64",
        "add func(a int) int\nb1:\nv1 = Init\n",
        3,
        "",
        "line 3: syntax\n",
    ),
    Row("check riscv64", USE, 3, "", "function u: form use v4\n"),
    Row("check riscv64", TWICE, 3, "", "line 4: duplicate\n"),
    Row("check riscv64", NO_SUCH, 3, "", "undefined nosuch\n"),
    Row(
        "check riscv64",
        "var a 1048577\n",
        3,
        "",
        "line 1: limit window\n",
    ),
    Row("compile riscv64 1", "x", 3, "", "line 1: syntax\n"),
    Row("compile riscv64 1", TWICE, 3, "", "line 4: duplicate\n"),
    Row(
        "compile riscv64 64",
        USE,
        3,
        "",
        "function u: form use v4\n",
    ),
    Row("compile riscv64 1", NO_SUCH, 3, "", "undefined nosuch\n"),
    Row(
        "compile riscv64 2",
        ZEROS,
        1,
        "",
        "function d: construct v3\nfunction e: construct v3\n",
    ),
    Row("", ADD, 2, "", "words\n"),
    Row("compile mips 1", ADD, 2, "", "words\n"),
    Row("compile arm 0", ADD, 2, "", "words\n"),
    Row("compile arm 65", ADD, 2, "", "words\n"),
    Row("compile riscv64", ADD, 2, "", "words\n"),
    Row("compile riscv64 0", ADD, 2, "", "words\n"),
    Row("compile riscv64 65", ADD, 2, "", "words\n"),
    Row("compile riscv64 1 a b", ADD, 2, "", "words\n"),
    Row("check", ADD, 2, "", "words\n"),
    Row("check mips", ADD, 2, "", "words\n"),
    Row("gen 0", "", 2, "", "words\n"),
    Row("gen 4097", "", 2, "", "words\n"),
    Row("gen 01", "", 2, "", "words\n"),
    Row("gen +1", "", 2, "", "words\n"),
    Row("run", "", 2, "", "words\n"),
    Row("run add", "", 2, "", "words\n"),
    Row("run add 05 1 2", "", 2, "", "words\n"),
    Row("run add -5 1 2", "", 2, "", "words\n"),
    Row("run add 5 -0", "", 2, "", "words\n"),
    Row("run add 5 +1", "", 2, "", "words\n"),
    Row("run add 5 18446744073709551616", "", 2, "", "words\n"),
    Row("run add 5 -9223372036854775809", "", 2, "", "words\n"),
    Row("run add 10 1 2", "", 8, "", "object: not ELF\n"),
    Row(
        "run add 18446744073709551615 18446744073709551615 -9223372036854775808",
        "\u{7f}ELF\u{2}",
        8,
        "",
        "object: truncated\n",
    ),
    Row("run add 10 1 2", ADD, 8, "", "object: not ELF\n"),
    Row(
        "eval riscv64 swap 9 3 10 20",
        SWAP,
        0,
        "returned 20 10\n",
        "",
    ),
    Row("eval riscv64 swap 8 3 10 20", SWAP, 0, "going\n", ""),
    Row(
        "eval arm st 10 0 9",
        STORE,
        0,
        "trapped 1 nil data 0102030405060708\n",
        "",
    ),
    Row(
        "eval riscv64 st 10 67108864 9",
        STORE,
        0,
        "returned data 0900000005060708\n",
        "",
    ),
    Row(
        "eval arm st 10 67108870 9",
        STORE,
        0,
        "wild 67108870 data 0102030405060708\n",
        "",
    ),
    Row(
        "eval arm leq 10 4294967295 4294967296",
        LEQ,
        0,
        "returned true\n",
        "",
    ),
    Row(
        "eval arm leq 10 4294967296 4294967295",
        LEQ,
        0,
        "returned false\n",
        "",
    ),
    Row(
        "eval riscv64 main.sum 100 67108864 3",
        LOOP,
        0,
        "returned 6 data 010000000000000002000000000000000300000000000000\n",
        "",
    ),
    Row(
        "eval riscv64 main.sum 100 67108864 -1",
        LOOP,
        0,
        "returned 0 data 010000000000000002000000000000000300000000000000\n",
        "",
    ),
    Row(
        "eval riscv64 main.sum 100 67108864",
        LOOP,
        10,
        "",
        "arguments\n",
    ),
    Row("eval arm st 10 4294967296 9", STORE, 10, "", "arguments\n"),
    Row("eval arm st 10 0 -2147483649", STORE, 10, "", "arguments\n"),
    Row(
        "eval riscv64 main.su 100 67108864 3",
        LOOP,
        10,
        "",
        "function\n",
    ),
    Row("eval arm q 1", NO_SUCH, 3, "", "undefined nosuch\n"),
    Row(
        "eval arm d 10 -2147483648 -1",
        QUOTIENT,
        0,
        "returned -2147483648\n",
        "",
    ),
    Row(
        "eval riscv64 d 10 -2147483648 -1",
        QUOTIENT,
        0,
        "returned -2147483648\n",
        "",
    ),
    Row("eval arm d 10 7 0", QUOTIENT, 0, "returned 0\n", ""),
    Row("eval riscv64 d 10 7 0", QUOTIENT, 0, "returned -1\n", ""),
    Row("eval arm m 10 7 0", MOD, 0, "returned 7\n", ""),
    Row("eval riscv64 m 10 7 0", MOD, 0, "returned 7\n", ""),
    Row("eval arm d 10 8", ZEROS, 0, "returned 3\n", ""),
    Row(
        "eval riscv64 f 10",
        ZEROS,
        1,
        "",
        "function d: construct v3\nfunction e: construct v3\n",
    ),
    Row("eval riscv64 spin 1000", SPIN, 0, "going\n", ""),
    Row("eval mips st 10 0 9", STORE, 2, "", "words\n"),
    Row("eval arm st", STORE, 2, "", "words\n"),
    Row("rules generic", "", 2, "", "words\n"),
    Row(
        "load 40 arm 1",
        "",
        0,
        "functions 40 values 1693 bytes 6440 sum 494379\n",
        "",
    ),
    Row(
        "load 40 arm 64",
        "",
        0,
        "functions 40 values 1693 bytes 6440 sum 494379\n",
        "",
    ),
    Row(
        "load 40 riscv64 2",
        "",
        0,
        "functions 40 values 1693 bytes 5248 sum 201930\n",
        "",
    ),
    Row(
        "load 40 riscv64 3",
        "",
        0,
        "functions 40 values 1693 bytes 5248 sum 201930\n",
        "",
    ),
    Row("load 1 arm", "", 2, "", "words\n"),
    Row("load 0 arm 1", "", 2, "", "words\n"),
    Row("load 1 arm 65", "", 2, "", "words\n"),
];

/// Where reads and writes fail: the number of a read of the input and of one of the rules, and the room of the sinks.
#[derive(Clone, Copy)]
struct Failing {
    read: u64,
    rules: u64,
    room: usize,
    error_room: usize,
}

/// Room for the object of some functions.
const ROOMY: Failing = Failing {
    read: u64::MAX,
    rules: u64::MAX,
    room: 100_000,
    error_room: 100,
};

const NO_FAULT: Failing = Failing {
    read: u64::MAX,
    rules: u64::MAX,
    room: 5000,
    error_room: 100,
};

/// What a run leaves.
#[derive(Drop)]
struct Left {
    status: u8,
    out: MemSink,
    err: MemSink,
}

fn words_of(alloc: Global, line: &str) -> Result<Vec<String>, AllocError> {
    let mut words = Vec::new(alloc);
    for word in line.split_whitespace() {
        words.push(String::from_str(alloc, word)?)?;
    }
    Ok(words)
}

fn answered<R: Threads + Sync>(
    rt: &R,
    alloc: Global,
    line: &str,
    text: &[u8],
    faults: Failing,
) -> Result<Left, Memory> {
    answered_by_rules(rt, alloc, line, text, b"", faults)
}

/// The same with a text of extra rules.
fn answered_by_rules<R: Threads + Sync>(
    rt: &R,
    alloc: Global,
    line: &str,
    text: &[u8],
    rules: &[u8],
    faults: Failing,
) -> Result<Left, Memory> {
    let words = words_of(alloc, line)?;
    let mut input = MemSource::new(text.to_vec(alloc)?, [faults.read].to_vec(alloc)?);
    let mut extra = MemSource::new(rules.to_vec(alloc)?, [faults.rules].to_vec(alloc)?);
    let mut out = MemSink::new(alloc, faults.room, Vec::new(alloc))?;
    let mut err = MemSink::new(alloc, faults.error_room, Vec::new(alloc))?;
    let status = backend(
        rt, alloc, &words, &mut input, &mut extra, &mut out, &mut err, &Open,
    );
    Ok(Left { status, out, err })
}

#[test]
fn texts_and_refusals(rt: HostRuntime) -> Result<(), Memory> {
    for Row(words, text, status, out, err) in &TEXTS {
        let left = answered(&rt, rt.alloc(), words, text.as_bytes(), NO_FAULT)?;
        assert_eq!(rt; left.status, *status, "{words}");
        assert_eq!(rt; left.out.bytes(), out.as_bytes(), "{words}");
        assert_eq!(rt; left.err.bytes(), err.as_bytes(), "{words}");
    }
    Ok(())
}

/// The bytes of digits in hexadecimal.
fn bytes_of_hex(alloc: Global, lines: &[&str]) -> Result<Vec<u8>, AllocError> {
    let mut bytes = Vec::new(alloc);
    for line in lines {
        for pair in line.as_bytes().chunks_exact(2) {
            let text = str::from_utf8(pair).unwrap_or("");
            bytes.push(u8::from_str_radix(text, 16).unwrap_or(0))?;
        }
    }
    Ok(bytes)
}

/// The bytes with others from a place on.
fn changed(alloc: Global, bytes: &[u8], place: usize, others: &[u8]) -> Result<Vec<u8>, AllocError>
    requires { place ≤ 100000 }
{
    let mut bytes = Vec::from_slice(alloc, bytes)?;
    for (step, other) in others.iter().enumerate() {
        if let Some(byte) = bytes.get_mut(place + step) {
            *byte = *other;
        }
    }
    Ok(bytes)
}

/// Where the text begins in the file of an object for riscv64.
const TEXT_PLACE: usize = 232;

fn bytes_of(alloc: Global, code: &[u32]) -> Result<Vec<u8>, AllocError> {
    let mut bytes = Vec::new(alloc);
    for word in code {
        bytes.extend_from_slice(&word.to_le_bytes())?;
    }
    Ok(bytes)
}

#[test]
fn code(rt: HostRuntime) -> Result<(), Memory> {
    let alloc = rt.alloc();
    let codes: [(&str, &[u32]); 2] = [(ADD, &ADD_CODE), (ADD_AND_TWICE, &TWICE_CODE)];
    for (text, code) in codes {
        let left = answered(
            &rt,
            rt.alloc(),
            "compile riscv64 1",
            text.as_bytes(),
            NO_FAULT,
        )?;
        let bytes = bytes_of(alloc, code)?;
        assert_eq!(rt; left.status, 0);
        assert!(rt;
            left.out
                .bytes()
                .get(TEXT_PLACE..)
                .unwrap_or(&[])
                .starts_with(&bytes)
        );
    }
    for (text, len) in [(ADD, 936), ("", 832)] {
        let left = answered(
            &rt,
            rt.alloc(),
            "compile riscv64 64",
            text.as_bytes(),
            NO_FAULT,
        )?;
        assert_eq!(rt; left.status, 0);
        assert_eq!(rt; left.out.bytes().len(), len);
    }
    Ok(())
}

/// A package, a run of the object that is compiled from it, and what it tells.
struct Compiled(&'static str, &'static str, &'static str);

/// Those whose numbers have as many bits on both targets.
const ON_BOTH: [Compiled; 6] = [
    Compiled(
        QUOTIENT,
        "run d 100 -2147483648 -1",
        "returned -2147483648\n",
    ),
    Compiled(MOD, "run m 100 7 0", "returned 7\n"),
    Compiled(
        STORE,
        "run st 100 0 9",
        "trapped 1 nil data 0102030405060708\n",
    ),
    Compiled(
        STORE,
        "run st 100 67108864 9",
        "returned data 0900000005060708\n",
    ),
    Compiled(
        STORE,
        "run st 100 67108870 9",
        "fault 67108870 data 0102030405060708\n",
    ),
    Compiled(SPIN, "run spin 1000", "going\n"),
];

/// Those whose numbers have 64 bits on riscv64 alone.
const ON_RISCV64: [Compiled; 4] = [
    Compiled(ADD_AND_TWICE, "run twice 100 21", "returned 42\n"),
    Compiled(SWAP, "run swap 1000 3 10 20", "returned 20 10\n"),
    Compiled(CONSTANT, "run k 100", "returned 1311768467463790320\n"),
    Compiled(
        LOOP,
        "run main.sum 1000 67108864 3",
        "returned 6 data 010000000000000002000000000000000300000000000000\n",
    ),
];

#[test]
fn compiled_runs(rt: HostRuntime) -> Result<(), Memory> {
    for Compiled(text, words, out) in &ON_BOTH {
        for command in ["compile riscv64 1", "compile arm 1"] {
            let object = answered(&rt, rt.alloc(), command, text.as_bytes(), NO_FAULT)?;
            let left = answered(&rt, rt.alloc(), words, object.out.bytes(), NO_FAULT)?;
            assert_eq!(rt; left.out.bytes(), out.as_bytes(), "{command}: {words}");
        }
    }
    for Compiled(text, words, out) in &ON_RISCV64 {
        let object = answered(
            &rt,
            rt.alloc(),
            "compile riscv64 1",
            text.as_bytes(),
            NO_FAULT,
        )?;
        let left = answered(&rt, rt.alloc(), words, object.out.bytes(), NO_FAULT)?;
        assert_eq!(rt; left.status, 0, "{words}");
        assert_eq!(rt; left.out.bytes(), out.as_bytes(), "{words}");
    }
    Ok(())
}

/// A quotient by 0 is what the machine's instruction gives.
#[test]
fn quotients_by_zero(rt: HostRuntime) -> Result<(), Memory> {
    let answers = [
        ("compile riscv64 1", "returned -1\n"),
        ("compile arm 1", "returned 0\n"),
    ];
    for (command, out) in answers {
        let object = answered(&rt, rt.alloc(), command, QUOTIENT.as_bytes(), NO_FAULT)?;
        let left = answered(
            &rt,
            rt.alloc(),
            "run d 100 7 0",
            object.out.bytes(),
            NO_FAULT,
        )?;
        assert_eq!(rt; left.out.bytes(), out.as_bytes(), "{command}");
    }
    Ok(())
}

/// A function that calls itself until the stack is spent, which has room for 4,096 frames of 16 bytes.
#[test]
fn spent_stack(rt: HostRuntime) -> Result<(), Memory> {
    let out = "trapped 5 stack data 0010000000000000\n";
    let left = answered(
        &rt,
        rt.alloc(),
        "eval riscv64 r 1000000",
        COUNTED.as_bytes(),
        NO_FAULT,
    )?;
    assert_eq!(rt; left.out.bytes(), out.as_bytes());
    let object = answered(
        &rt,
        rt.alloc(),
        "compile riscv64 1",
        COUNTED.as_bytes(),
        NO_FAULT,
    )?;
    let left = answered(
        &rt,
        rt.alloc(),
        "run r 1000000",
        object.out.bytes(),
        NO_FAULT,
    )?;
    assert_eq!(rt; left.out.bytes(), out.as_bytes());
    Ok(())
}

/// The text of extra rules, and the status and the line that it leads to.
const RULES: [(&str, u8, &str); 4] = [
    (
        "(Less32 x y) => (Not (Leq32 y x))",
        1,
        "function less: passes 69\n",
    ),
    ("(Add32 x y) => (Foo x)", 7, "extra line 1: op\n"),
    ("(Load p m) => p", 7, "extra line 1: op\n"),
    ("(Add32 x", 7, "extra line 1: syntax\n"),
];

#[test]
fn extra_rules(rt: HostRuntime) -> Result<(), Memory> {
    for (rules, status, err) in RULES {
        let left = answered_by_rules(
            &rt,
            rt.alloc(),
            "compile riscv64 1 rules",
            LESS.as_bytes(),
            rules.as_bytes(),
            NO_FAULT,
        )?;
        assert_eq!(rt; left.status, status, "{rules}");
        assert_eq!(rt; left.out.bytes().len(), 0, "{rules}");
        assert_eq!(rt; left.err.bytes(), err.as_bytes(), "{rules}");
    }
    Ok(())
}

#[test]
fn long_rules(rt: HostRuntime) -> Result<(), Memory> {
    let alloc = rt.alloc();
    let words = "compile riscv64 1 rules";
    for (len, status, err) in [(65_536, 0, ""), (65_537, 7, "extra too long\n")] {
        let rules = vec![in alloc; b' '; len]?;
        let left = answered_by_rules(&rt, rt.alloc(), words, ADD.as_bytes(), &rules, NO_FAULT)?;
        assert_eq!(rt; left.status, status);
        assert_eq!(rt; left.err.bytes(), err.as_bytes());
    }
    Ok(())
}

/// The rules are read before the input.
#[test]
fn unread_rules(rt: HostRuntime) -> Result<(), Memory> {
    let faults = Failing {
        read: u64::MAX,
        rules: 0,
        room: 5000,
        error_room: 100,
    };
    let left = answered_by_rules(
        &rt,
        rt.alloc(),
        "compile riscv64 1 rules",
        b"x",
        b"y",
        faults,
    )?;
    assert_eq!(rt; left.status, 4);
    assert_eq!(rt; left.out.bytes().len(), 0);
    assert_eq!(rt; left.err.bytes(), "read fault\n".as_bytes());
    Ok(())
}

/// The words, and what they leave over the object of the sum: the status and the texts on the output and on the error stream.
struct Run(&'static str, u8, &'static str, &'static str);

/// A function of nine steps returns in the tenth.
const RUNS: [Run; 11] = [
    Run("run add 100 2 3", 0, "returned 5\n", ""),
    Run("run add 10 2 3", 0, "returned 5\n", ""),
    Run("run add 9 2 3", 0, "going\n", ""),
    Run("run add 0 2 3", 0, "going\n", ""),
    Run("run add 100 -7 2", 0, "returned -5\n", ""),
    Run(
        "run add 100 9223372036854775807 1",
        0,
        "returned -9223372036854775808\n",
        "",
    ),
    Run(
        "run add 100 18446744073709551615 -9223372036854775808",
        0,
        "returned 9223372036854775807\n",
        "",
    ),
    Run("run add 10 1", 10, "", "arguments\n"),
    Run("run add 10 1 2 3", 10, "", "arguments\n"),
    Run("run sub 10 1 2", 10, "", "function\n"),
    Run("run sub 10", 10, "", "function\n"),
];

/// Other bytes at a place of the object of the sum, and what its run leaves then.
struct Change(usize, &'static [u8], u8, &'static str, &'static str);

const CHANGES: [Change; 7] = [
    Change(18, &[62], 8, "", "object: header 18\n"),
    Change(0, b"elf", 8, "", "object: not ELF\n"),
    Change(64, &[2], 8, "", "object: section 1\n"),
    Change(TEXT_PLACE, &[0; 4], 0, "fault 65536\n", ""),
    Change(TEXT_PLACE, b"\x73\x00\x10\x00", 0, "fault 65536\n", ""),
    Change(
        TEXT_PLACE,
        b"\x93\x0f\x50\x00\x73\x00\x10\x00",
        0,
        "trapped 5 stack\n",
        "",
    ),
    Change(TEXT_PLACE, b"\x83\x32\x00\x00", 0, "fault 0\n", ""),
];

#[test]
fn runs(rt: HostRuntime) -> Result<(), Memory> {
    let alloc = rt.alloc();
    let add = answered(
        &rt,
        rt.alloc(),
        "compile riscv64 1",
        ADD.as_bytes(),
        NO_FAULT,
    )?;
    for Run(words, status, out, err) in &RUNS {
        let left = answered(&rt, rt.alloc(), words, add.out.bytes(), NO_FAULT)?;
        assert_eq!(rt; left.status, *status, "{words}");
        assert_eq!(rt; left.out.bytes(), out.as_bytes(), "{words}");
        assert_eq!(rt; left.err.bytes(), err.as_bytes(), "{words}");
    }
    for Change(place, others, status, out, err) in &CHANGES {
        let object = changed(alloc, add.out.bytes(), *place, others)?;
        let left = answered(&rt, rt.alloc(), "run add 100 2 3", &object, NO_FAULT)?;
        assert_eq!(rt; left.status, *status, "{place}");
        assert_eq!(rt; left.out.bytes(), out.as_bytes(), "{place}");
        assert_eq!(rt; left.err.bytes(), err.as_bytes(), "{place}");
    }
    Ok(())
}

#[test]
fn other_machine(rt: HostRuntime) -> Result<(), Memory> {
    let object = bytes_of_hex(rt.alloc(), &ARM)?;
    let ends = [
        (
            "run h0 50 67108864 7323517796276689827 4294967239 67108864 67108864",
            0,
            "returned data 0000000000000000\n",
        ),
        (
            "run h0 3 67108864 49 4095 4294967294 255",
            0,
            "going data 0000000000000000\n",
        ),
        ("run h0 3 67108864 49 4095 4294967296 255", 10, ""),
    ];
    for (words, status, out) in ends {
        let left = answered(&rt, rt.alloc(), words, &object, NO_FAULT)?;
        assert_eq!(rt; left.status, status, "{words}");
        assert_eq!(rt; left.out.bytes(), out.as_bytes(), "{words}");
    }
    Ok(())
}

#[test]
fn generated(rt: HostRuntime) -> Result<(), Memory> {
    let left = answered(&rt, rt.alloc(), "gen 1", b"", NO_FAULT)?;
    let first =
        "f0 func(a int64, b int64) int64\nb1:\n  v1 = InitMem <mem>\n  v2 = Arg <int64> {a}\n  v3 = Arg <int64> {b}\n  v4 = Const64 <int64> [10859325028683]\n  v5 = And64 <int64> v2 v2\n";
    assert_eq!(rt; left.status, 0);
    assert!(rt; left.out.bytes().starts_with(first.as_bytes()));
    assert!(rt;
        left.out
            .bytes()
            .ends_with(b"  v35 = MakeResult <int64,mem> v34 v1\n  Ret v35\n")
    );
    Ok(())
}

#[test]
fn rules(rt: HostRuntime) -> Result<(), Memory> {
    let faults = Failing {
        read: 0,
        rules: 0,
        room: 100_000,
        error_room: 100,
    };
    let left = answered(&rt, rt.alloc(), "rules", b"", faults)?;
    let text = str::from_utf8(left.out.bytes()).unwrap_or("");
    assert_eq!(rt; left.status, 0);
    let lists = [
        ("# generic\n(", 0),
        ("# dec64\n(", 12_243),
        ("# arm\n(", 16_617),
        ("# riscv64\n(", 23_373),
    ];
    for (name, place) in lists {
        assert_eq!(rt; text.find(name), Some(place), "{name}");
    }
    assert_eq!(rt; text.len(), 32_886);
    Ok(())
}

#[test]
fn prefixes(rt: HostRuntime) -> Result<(), Memory> {
    let text = LOOP.as_bytes();
    for len in 0..text.len() {
        let left = answered(&rt, rt.alloc(), "check riscv64", &text[..len], NO_FAULT)?;
        assert!(rt; left.status == 0 || left.status == 3, "{len}");
    }
    Ok(())
}

#[test]
fn faults(rt: HostRuntime) -> Result<(), Memory> {
    let ends = [
        ("compile riscv64 1", 0, 100, 100, 4, 0, "read fault\n"),
        ("compile riscv64 1", 1, 100, 100, 4, 0, "read fault\n"),
        (
            "compile riscv64 1",
            u64::MAX,
            100,
            100,
            5,
            100,
            "write fault\n",
        ),
        ("check arm", 1, 100, 100, 4, 0, "read fault\n"),
        ("run add 10 1 2", 1, 100, 100, 4, 0, "read fault\n"),
        ("check riscv64", u64::MAX, 20, 100, 5, 20, "write fault\n"),
        ("gen 2", 0, 20, 100, 5, 20, "write fault\n"),
        ("check", u64::MAX, 100, 3, 5, 0, "wor"),
        ("check riscv64", 0, 100, 0, 5, 0, ""),
    ];
    for (words, read, room, error_room, status, out, err) in ends {
        let faults = Failing {
            read,
            rules: 0,
            room,
            error_room,
        };
        let left = answered(&rt, rt.alloc(), words, ADD.as_bytes(), faults)?;
        assert_eq!(rt; left.status, status, "{words}");
        assert_eq!(rt; left.out.bytes().len(), out, "{words}");
        assert_eq!(rt; left.err.bytes(), err.as_bytes(), "{words}");
    }
    Ok(())
}

/// The object of a package of so many functions by so many workers, past a gate.
fn gated<R: Threads + Sync, G: Gate + Sync>(
    rt: &R,
    alloc: Global,
    functions: &str,
    workers: &str,
    gate: &G,
) -> Result<MemSink, Memory> {
    let text = answered(rt, alloc, functions, b"", ROOMY)?;
    let words = words_of(alloc, workers)?;
    let mut input = MemSource::new(text.out.bytes().to_vec(alloc)?, Vec::new(alloc));
    let mut extra = MemSource::new(Vec::new(alloc), Vec::new(alloc));
    let mut out = MemSink::new(alloc, ROOMY.room, Vec::new(alloc))?;
    let mut err = MemSink::new(alloc, ROOMY.error_room, Vec::new(alloc))?;
    backend(
        rt, alloc, &words, &mut input, &mut extra, &mut out, &mut err, gate,
    );
    Ok(out)
}

#[test]
fn two_workers_are_in_each_round_at_once(rt: HostRuntime) -> Result<(), Memory> {
    let gate = Held::new();
    let two = gated(&rt, rt.alloc(), "gen 4", "compile riscv64 2", &gate)?;
    assert!(rt; !gate.failed());
    for number in 0..4 {
        assert_eq!(rt; gate.times(number), 2);
    }
    let one = gated(&rt, rt.alloc(), "gen 4", "compile riscv64 1", &Open)?;
    assert!(rt; !one.bytes().is_empty());
    assert!(rt; one.bytes() == two.bytes());
    Ok(())
}

#[test]
fn one_worker_claims_in_rising_order(rt: HostRuntime) -> Result<(), Memory> {
    let gate = Rising::new(5);
    gated(&rt, rt.alloc(), "gen 5", "compile arm 1", &gate)?;
    assert!(rt; !gate.failed());
    assert_eq!(rt; gate.claims(), 10);
    Ok(())
}

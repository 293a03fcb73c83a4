use bk_dump::read_package;
use bk_func::{Func, Package, copy_func};
use bk_graph::{Memory, clean, is_joined, layout, split_critical};
use bk_ops::Target;
use std::alloc::{AllocError, Global};
use std::test::Fail;

/// The package that a text reads as.
fn package(alloc: Global, text: &[u8]) -> Result<Package, Fail> {
    Ok(
        read_package(alloc, text, Target::Riscv64)
            .ok()
            .ok_or("no package")?,
    )
}

/// The layout of a function, none if its blocks are not joined.
fn order(alloc: Global, func: &Func) -> Result<Vec<u32>, Memory> {
    if !is_joined(alloc, func)? {
        return Ok(Vec::new(alloc));
    }
    Ok(layout(alloc, func)?)
}

/// The function with its critical edges split, as it is if its blocks are not joined.
fn without_critical(alloc: Global, func: &Func) -> Result<Func, Memory> {
    let mut split = copy_func(alloc, func)?;
    if is_joined(alloc, &split)? {
        split_critical(alloc, &mut split)?;
    }
    Ok(split)
}

/// The function cleaned.
fn cleaned(alloc: Global, func: &Func) -> Result<Func, Memory> {
    let mut cleaned = copy_func(alloc, func)?;
    clean(alloc, &mut cleaned)?;
    Ok(cleaned)
}

/// Of each block its number, the control or 0, predecessors, successors, and each value with its arguments; a 0 ends
/// each list.
fn shape(alloc: Global, func: &Func) -> Result<Vec<u32>, AllocError> {
    let mut shape = Vec::new(alloc);
    for block in &func.blocks {
        shape.push(block.id)?;
        shape.push(block.control.unwrap_or(0))?;
        push_all(&mut shape, &block.preds)?;
        push_all(&mut shape, &block.succs)?;
        for value in &block.values {
            shape.push(value.id)?;
            push_all(&mut shape, value.args.as_slice())?;
        }
        shape.push(0)?;
    }
    Ok(shape)
}

fn push_all(shape: &mut Vec<u32>, numbers: &[u32]) -> Result<(), AllocError> {
    for number in numbers {
        shape.push(*number)?;
    }
    shape.push(0).map_err(|error| AllocError::from(error))
}

// b1 goes to b2 and b3, b3 to b2 and back to itself.
const LOOP: &[u8] =
    b"f func(c bool)\nb1:\nv1 = InitMem <mem>\nv2 = Arg <bool> {c}\nIf v2 -> b2 b3\nb3: <- b1 b3\nIf v2 -> b2 b3\nb2: <- b1 b3\nRet v1\n";

const UNLIKELY: &[u8] =
    b"f func(c bool)\nb1:\nv1 = InitMem <mem>\nv2 = Arg <bool> {c}\nIf v2 -> b2 b3 (unlikely)\nb3: <- b1\nPlain -> b2\nb2: <- b1 b3\nRet v1\n";

const LIKELY: &[u8] =
    b"f func(c bool)\nb1:\nv1 = InitMem <mem>\nv2 = Arg <bool> {c}\nIf v2 -> b2 b3 (likely)\nb3: <- b1\nRet v1\nb2: <- b1\nPlain -> b4\nb5:\nRet v1\nb4: <- b2\nRet v1\n";

/// The entry, then marked and unplaced successors, then blocks in list order with a placed predecessor.
#[test]
fn blocks_are_laid_out(rt: HostRuntime) -> Result<(), Fail> {
    let cases = [
        (
            &b"f func()\nb1:\nv1 = InitMem <mem>\nRet v1\n"[..],
            &[1][..],
        ),
        (LOOP, &[1, 2, 3][..]),
        (UNLIKELY, &[1, 3, 2][..]),
        (LIKELY, &[1, 2, 4, 3][..]),
    ];
    for (text, expected) in cases {
        let package = package(rt.alloc(), text)?;
        let func = package.funcs.first().ok_or("no function")?;
        let order = order(rt.alloc(), func)?;
        assert_eq!(rt; order.as_slice(), expected, "{text:?}");
    }
    Ok(())
}

/// The edges from b1 to b2 and b3, and those from b3 to b2 and to itself, are critical.
#[test]
fn critical_edges_are_split(rt: HostRuntime) -> Result<(), Fail> {
    let package = package(rt.alloc(), LOOP)?;
    let func = package.funcs.first().ok_or("no function")?;
    let split = without_critical(rt.alloc(), func)?;
    let shape = shape(rt.alloc(), &split)?;
    let expected = [
        1, 2, 0, 4, 5, 0, 1, 0, 2, 0, 0, // b1
        3, 2, 5, 7, 0, 6, 7, 0, 0, // b3
        2, 1, 4, 6, 0, 0, 0, // b2
        4, 0, 1, 0, 2, 0, 0, // from b1 to b2
        5, 0, 1, 0, 3, 0, 0, // from b1 to b3
        6, 0, 3, 0, 2, 0, 0, // from b3 to b2
        7, 0, 3, 0, 3, 0, 0, // from b3 to b3
    ];
    assert_eq!(rt; shape.as_slice(), &expected[..]);
    let order = order(rt.alloc(), &split)?;
    assert_eq!(rt; order.as_slice(), &[1, 4, 2, 5, 3, 6, 7][..]);
    Ok(())
}

// b1 goes to b2 or b3 by a constant, b2 joins b1 and b3.
const TAKEN: &[u8] =
    b"f func() int\nb1:\nv1 = InitMem <mem>\nv2 = ConstBool <bool> [1]\nv3 = Const64 <int> [5]\nv4 = Copy <bool> v2\nIf v4 -> b2 b3\nb3: <- b1\nv5 = Const64 <int> [7]\nPlain -> b2\nb2: <- b1 b3\nv6 = Phi <int> v3 v5\nv7 = MakeResult <int,mem> v6 v1\nRet v7\n";

const LEFT: &[u8] =
    b"f func() int\nb1:\nv1 = InitMem <mem>\nv2 = ConstBool <bool> [0]\nv3 = Const64 <int> [5]\nv4 = Copy <bool> v2\nIf v4 -> b2 b3\nb3: <- b1\nv5 = Const64 <int> [7]\nPlain -> b2\nb2: <- b1 b3\nv6 = Phi <int> v3 v5\nv7 = MakeResult <int,mem> v6 v1\nRet v7\n";

// b1 goes to b3 by a constant, so that b2, which leads to itself too, is left, and the phi of b4 decides the branch there.
const DROPPED: &[u8] =
    b"f func(c bool) int\nb1:\nv1 = InitMem <mem>\nv2 = ConstBool <bool> [0]\nv3 = ConstBool <bool> [1]\nIf v2 -> b2 b3\nb2: <- b1 b2\nv9 = Arg <bool> {c}\nIf v9 -> b2 b4\nb3: <- b1\nv10 = ConstBool <bool> [0]\nPlain -> b4\nb4: <- b2 b3\nv5 = Phi <bool> v3 v10\nIf v5 -> b5 b6\nb5: <- b4\nv11 = Const64 <int> [7]\nv7 = MakeResult <int,mem> v11 v1\nRet v7\nb6: <- b4\nv12 = Const64 <int> [8]\nv8 = MakeResult <int,mem> v12 v1\nRet v8\n";

/// The phi of b2 is left with the argument of the one block that still leads there.
#[test]
fn constants_decide(rt: HostRuntime) -> Result<(), Fail> {
    let cases = [
        (
            TAKEN,
            &[1, 0, 0, 2, 0, 1, 0, 3, 0, 0, 2, 7, 1, 0, 0, 7, 3, 1, 0, 0][..],
        ),
        (
            LEFT,
            &[
                1, 0, 0, 3, 0, 1, 0, 0, 3, 0, 1, 0, 2, 0, 5, 0, 0, 2, 7, 3, 0, 0, 7, 5, 1, 0, 0,
            ][..],
        ),
        (
            DROPPED,
            &[
                1, 0, 0, 3, 0, 1, 0, 0, 3, 0, 1, 0, 4, 0, 0, 4, 0, 3, 0, 6, 0, 0, 6, 8, 4, 0, 0,
                12, 0, 8, 12, 1, 0, 0,
            ][..],
        ),
    ];
    for (text, expected) in cases {
        let package = package(rt.alloc(), text)?;
        let func = package.funcs.first().ok_or("no function")?;
        let cleaned = cleaned(rt.alloc(), func)?;
        let shape = shape(rt.alloc(), &cleaned)?;
        assert_eq!(rt; shape.as_slice(), expected, "{text:?}");
    }
    Ok(())
}

use bk_func::{Aux, Block, Func, Kind, Likely, Package, Sig, Value, Var};
use bk_ops::{Ty, op_of_name};
use smallvec::SmallVec;
use std::alloc::{AllocError, Global};
use std::process::Abort;

// Functions of tests are written as parts between semicolons. A block is its number, its kind, its control
// after that, its predecessors after `<-`, its successors after `->`, and `likely` where it is expected to take
// the first of these, `unlikely` where the second. A value is its number, its op, its type, its arguments, its
// number in `[]` and in `{}` the place of an argument (`a`), a symbol (`s`) or a type.

/// A package of the variable 0 and the function 1, whose arguments are a `bool` and a `ptr`.
pub(crate) fn package(
    alloc: Global,
    rt: &impl Abort,
    results: &str,
    text: &str,
) -> Result<Package, AllocError> {
    let mut sig = Sig {
        args: Vec::from_slice(alloc, &[Ty::Bool, Ty::Ptr])?,
        results: Vec::new(alloc),
    };
    for word in results.split_whitespace() {
        sig.results.push(ty(rt, word))?;
    }
    let mut func = Func {
        name: 1,
        sig,
        blocks: Vec::new(alloc),
        given: 0,
    };
    for part in text.split(';') {
        read_part(alloc, rt, &mut func.blocks, part)?;
    }
    let mut package = Package {
        names: Vec::new(alloc),
        funcs: Vec::new(alloc),
        vars: Vec::new(alloc),
    };
    package.names.push(String::new(alloc))?;
    package.names.push(String::new(alloc))?;
    package.funcs.push(func)?;
    package.vars.push(Var {
        name: 0,
        size: 8,
        bytes: Vec::new(alloc),
    })?;
    Ok(package)
}

/// Reads a block, or a value of the last block.
fn read_part(
    alloc: Global,
    rt: &impl Abort,
    blocks: &mut Vec<Block>,
    part: &str,
) -> Result<(), AllocError> {
    let mut words = part.split_whitespace();
    let Some(first) = words.next() else {
        return Ok(())
    };
    if let Some(id) = first.strip_prefix('b') {
        let mut block = empty_block(alloc, number(rt, id));
        let mut side = 0u8;
        for word in words {
            side = read_block_word(rt, &mut block, word, side)?;
        }
        blocks.push(block)?;
    } else if let Some(id) = first.strip_prefix('v') {
        let op = op_of_name(words.next().expect(rt, "an op").as_bytes()).expect(
            rt,
            "an op of the table",
        );
        let ty = ty(rt, words.next().expect(rt, "a type"));
        let mut value = Value {
            id: number(rt, id),
            op,
            ty,
            args: SmallVec::new(alloc),
            int: 0,
            aux: Aux::Nothing,
        };
        for word in words {
            read_value_word(rt, &mut value, word)?;
        }
        if let Some(block) = blocks.last_mut() {
            block.values.push(value)?;
        }
    }
    Ok(())
}

fn empty_block(alloc: Global, id: u32) -> Block {
    let preds = Vec::new(alloc);
    let succs = Vec::new(alloc);
    Block {
        id,
        kind: Kind::Plain,
        control: None,
        preds,
        succs,
        likely: Likely::No,
        values: Vec::new(alloc),
    }
}

/// Reads a word of a block: its kind, control or neighbours; tells the side of the neighbours that follow.
fn read_block_word(
    rt: &impl Abort,
    block: &mut Block,
    word: &str,
    side: u8,
) -> Result<u8, AllocError> {
    match word {
        "<-" => return Ok(1),
        "->" => return Ok(2),
        "likely" => block.likely = Likely::First,
        "unlikely" => block.likely = Likely::Second,
        "Plain" => block.kind = Kind::Plain,
        "If" => block.kind = Kind::If,
        "First" => block.kind = Kind::First,
        "Ret" => block.kind = Kind::Ret,
        "Exit" => block.kind = Kind::Exit,
        _ => {
            if let Some(id) = word.strip_prefix('v') {
                block.control = Some(number(rt, id));
            }
            if let Some(id) = word.strip_prefix('b') {
                let neighbours = if side == 1 {
                    &mut block.preds
                } else {
                    &mut block.succs
                };
                neighbours.push(number(rt, id))?;
            }
        }
    }
    Ok(side)
}

fn read_value_word(rt: &impl Abort, value: &mut Value, word: &str) -> Result<(), AllocError> {
    if let Some(id) = word.strip_prefix('v') {
        value.args.push(number(rt, id))?;
    } else if let Some(int) = inside(word, '[', ']') {
        value.int = int.parse::<i64>().ok().expect(rt, "a number");
    } else if let Some(aux) = inside(word, '{', '}') {
        value.aux = if let Some(symbol) = aux.strip_prefix('s') {
            Aux::Sym(number(rt, symbol))
        } else if let Some(place) = aux.strip_prefix('a') {
            Aux::Arg(number(rt, place))
        } else {
            Aux::Ty(ty(rt, aux))
        };
    }
    Ok(())
}

fn inside(word: &str, open: char, close: char) -> Option<&str> {
    word.strip_prefix(open)?.strip_suffix(close)
}

fn number(rt: &impl Abort, word: &str) -> u32 {
    word.parse::<u32>().ok().expect(rt, "a number")
}

fn ty(rt: &impl Abort, word: &str) -> Ty {
    let ty = match word {
        "bool" => Some(Ty::Bool),
        "int8" => Some(Ty::Int8),
        "uint8" => Some(Ty::Uint8),
        "int32" => Some(Ty::Int32),
        "int" => Some(Ty::Int),
        "uint64" => Some(Ty::Uint64),
        "uintptr" => Some(Ty::Uintptr),
        "ptr" => Some(Ty::Ptr),
        "mem" => Some(Ty::Mem),
        "void" => Some(Ty::Void),
        "list" => Some(Ty::Tuple),
        _ => None,
    };
    ty.expect(rt, "a type")
}

ghost use Rattle.std.specs.Prelude.{◌≡◌, IfOk};
ghost use Rattle.bk_middle_tests.specs.Linking.{function, small_package};

use bk_func::{Func, Package, Sig, Var};
use bk_link::{LinkError, is_linkable, link};
use bk_ops::{Target, Ty};
use bk_piece::{Handle, Patch, Piece};
use std::alloc::{AllocError, Global};
use std::test::Fail;

fn function(alloc: Global, name: u32) -> Result<Func, AllocError>
    ensures { IfOk result (λ f. f ≡ function name) }
{
    Ok(Func {
        name,
        sig: Sig {
            args: Vec::new(alloc),
            results: vec![in alloc; Ty::Int]?,
        },
        blocks: Vec::new(alloc),
        given: 0,
    })
}

/// Functions f and g, and between them a variable v of three bytes, the first of them 7.
#[tactic(auto, unfolding(crate::specs::Linking::small_package))]
fn small_package(alloc: Global) -> Result<Package, AllocError>
    ensures { IfOk result (λ p. p ≡ small_package) }
{
    let names = vec![in alloc;
        String::from_str(alloc, "f")?,
        String::from_str(alloc, "v")?,
        String::from_str(alloc, "g")?,
    ]?;
    let funcs = vec![in alloc; function(alloc, 0)?, function(alloc, 2)?]?;
    let var = Var {
        name: 1,
        size: 3,
        bytes: vec![in alloc; 7]?,
    };
    Ok(Package {
        names,
        funcs,
        vars: vec![in alloc; var]?,
    })
}

const INT: Handle = Handle { area: 1, cell: 0 };

/// f calls g, and patches what a site asks.
fn first(alloc: Global, site: (u32, Patch, Handle)) -> Result<Piece, AllocError> {
    Ok(Piece {
        code: vec![in alloc; 0x97, 0x80e7, 0x2b7, 0x2_8293]?,
        handles: vec![in alloc; (0, Patch::Call, Handle { area: 0, cell: 1 }), site]?,
        types: vec![in alloc; INT]?,
        frame: 16,
    })
}

/// g takes a constant.
fn second(alloc: Global) -> Result<Piece, AllocError> {
    Ok(Piece {
        code: vec![in alloc; 0x2b7, 0x2_b283]?,
        handles: vec![in alloc; (0, Patch::Pool, Handle { area: 2, cell: 0 })]?,
        types: vec![in alloc; INT]?,
        frame: 16,
    })
}

/// The object of the package, where it can be linked.
fn object(
    alloc: Global,
    site: (u32, Patch, Handle),
    cells: [&[u64]; 3],
) -> Result<Option<Vec<u8>>, LinkError> {
    let package = small_package(alloc)?;
    let pieces = vec![in alloc; first(alloc, site)?, second(alloc)?]?;
    let mut words = Vec::new(alloc);
    for area in cells {
        words.push(area.to_vec(alloc)?)?;
    }
    if !is_linkable(alloc, &package, Target::Riscv64, &pieces, &words)? {
        return Ok(None);
    }
    let file = link(alloc, &package, Target::Riscv64, &pieces, &words)?;
    Ok(Some(file))
}

/// Where f takes the address of v.
const SITE: (u32, Patch, Handle) = (2, Patch::Addr, Handle { area: 0, cell: 0 });

// The keys of v and g, of int, and of two constants; the last cell holds none.
const SYMBOLS: [u64; 2] = [2, 3];

const TYPES: [u64; 1] = [10];

const CONSTANTS: [u64; 3] = [0x2_0000_0000, 0x1_0000_0000, 0];

#[test]
fn pieces_are_linked(rt: HostRuntime) -> Result<(), Fail> {
    let alloc = rt.alloc();
    let mut expected = Vec::new(alloc);
    for word in FILE {
        expected.extend_from_slice(&word.to_le_bytes())?;
    }
    let file = object(alloc, SITE, [&SYMBOLS, &TYPES, &CONSTANTS])
        .ok()
        .flatten();
    let file = file.ok_or("no file")?;
    assert!(rt; file.as_slice() == expected.as_slice());
    Ok(())
}

#[test]
fn other_pieces_cannot_be_linked(rt: HostRuntime) -> Result<(), Fail> {
    let alloc = rt.alloc();
    let late = (3, Patch::Addr, Handle { area: 0, cell: 0 });
    let of_type = (2, Patch::Addr, Handle { area: 1, cell: 0 });
    let absent = (2, Patch::Addr, Handle { area: 0, cell: 2 });
    let empty = (2, Patch::Pool, Handle { area: 2, cell: 2 });
    for site in [late, of_type, absent, empty] {
        let file = object(alloc, site, [&SYMBOLS, &TYPES, &CONSTANTS]);
        assert!(rt; file.is_ok_and(|file| file.is_none()));
    }
    let cells: [[&[u64]; 3]; 4] = [
        [&[2, 4], &TYPES, &CONSTANTS],
        [&SYMBOLS, &[14], &CONSTANTS],
        [&SYMBOLS, &TYPES, &[7, 0, 7]],
        [&SYMBOLS, &[0], &CONSTANTS],
    ];
    for cells in cells {
        let file = object(alloc, SITE, cells);
        assert!(rt; file.is_ok_and(|file| file.is_none()));
    }
    Ok(())
}

// The file is that of a script that writes it by the description of an object.
const FILE: [u32; 246] = [
    0x464c_457f,
    0x1_0102,
    0,
    0,
    0xf3_0002,
    1,
    0,
    0,
    0x40,
    0,
    0x1d8,
    0,
    0,
    0x38_0040,
    0x40_0003,
    0x7_0008,
    1,
    5,
    0xe8,
    0,
    0x1_0000,
    0,
    0x1_0000,
    0,
    0x18,
    0,
    0x18,
    0,
    8,
    0,
    1,
    4,
    0x100,
    0,
    0x200_0000,
    0,
    0x200_0000,
    0,
    0x10,
    0,
    0x10,
    0,
    8,
    0,
    1,
    6,
    0x110,
    0,
    0x400_0000,
    0,
    0x400_0000,
    0,
    8,
    0,
    8,
    0,
    8,
    0,
    0x97,
    0x100_80e7,
    0x400_02b7,
    0x2_8293,
    0x200_02b7,
    0x82_b283,
    0,
    1,
    0,
    2,
    7,
    0,
    1,
    0xa,
    0,
    1,
    0,
    0,
    1,
    0,
    0,
    0,
    0,
    0,
    0,
    0,
    1,
    0x1_0012,
    0x1_0000,
    0,
    0x10,
    0,
    3,
    0x3_0011,
    0x400_0000,
    0,
    3,
    0,
    5,
    0x1_0012,
    0x1_0010,
    0,
    8,
    0,
    0x7600_6600,
    0x6700,
    0x7865_742e,
    0x702e_0074,
    0x6c_6f6f,
    0x7461_642e,
    0x672e_0061,
    0x6769_736f,
    0x7973_2e00,
    0x6261_746d,
    0x7473_2e00,
    0x6261_7472,
    0x6873_2e00,
    0x7472_7473,
    0x6261,
    0,
    0,
    0,
    0,
    0,
    0,
    0,
    0,
    0,
    0,
    0,
    0,
    0,
    0,
    0,
    0,
    0,
    1,
    1,
    6,
    0,
    0x1_0000,
    0,
    0xe8,
    0,
    0x18,
    0,
    0,
    0,
    4,
    0,
    0,
    0,
    7,
    1,
    2,
    0,
    0x200_0000,
    0,
    0x100,
    0,
    0x10,
    0,
    0,
    0,
    8,
    0,
    0,
    0,
    0xd,
    1,
    3,
    0,
    0x400_0000,
    0,
    0x110,
    0,
    8,
    0,
    0,
    0,
    8,
    0,
    0,
    0,
    0x13,
    1,
    0,
    0,
    0,
    0,
    0x118,
    0,
    0x20,
    0,
    0,
    0,
    4,
    0,
    0,
    0,
    0x1a,
    2,
    0,
    0,
    0,
    0,
    0x138,
    0,
    0x60,
    0,
    6,
    1,
    8,
    0,
    0x18,
    0,
    0x22,
    3,
    0,
    0,
    0,
    0,
    0x198,
    0,
    7,
    0,
    0,
    0,
    1,
    0,
    0,
    0,
    0x2a,
    3,
    0,
    0,
    0,
    0,
    0x19f,
    0,
    0x34,
    0,
    0,
    0,
    1,
    0,
    0,
    0,
];

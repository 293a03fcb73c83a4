ghost use Rattle.bk_elf.specs.Object.{IsObject};

use bk_elf::{Image, LoadError, function, load, write_elf};
use bk_func::Sig;
use bk_ops::{Target, Ty};
use std::alloc::{AllocError, Global};
use std::test::Fail;

// What a file must be loaded as: its fields, or its first fault.
#[derive(Clone, Copy)]
enum Want {
    Loads,
    NotElf,
    Truncated,
    Header(u32),
    Section(u32),
}

use Want::{Header, Loads, NotElf, Section, Truncated};

fn fault_of(want: Want) -> Option<LoadError> {
    match want {
        Loads => None,
        NotElf => Some(LoadError::NotElf),
        Truncated => Some(LoadError::Truncated),
        Header(field) => Some(LoadError::BadHeader { field }),
        Section(n) => Some(LoadError::BadSection { n }),
    }
}

fn fault(alloc: Global, bytes: &[u8]) -> Option<LoadError> {
    match load(alloc, bytes) {
        Ok(_image) => None,
        Err(fault) => Some(fault),
    }
}

pub(crate) fn file_of(alloc: Global, target: Target) -> Result<Vec<u8>, AllocError> {
    let words: &[u32] = match target {
        Target::Arm => &ARM,
        Target::Riscv64 => &RISCV64,
    };
    let mut bytes = Vec::new(alloc);
    for word in words {
        bytes.extend_from_slice(&word.to_le_bytes())?;
    }
    Ok(bytes)
}

fn set(bytes: &mut [u8], place: usize, value: u8) {
    if place < bytes.len() {
        bytes[place] = value;
    }
}

// A function, its address, and whether these are the types of its signature.
fn has_function(image: &Image, name: &str, address: u32, args: &[Ty], results: &[Ty]) -> bool
    requires { IsObject image.now }
{
    match function(image, name) {
        Some((found, sig)) => {
            found == address && sig.args.as_slice() == args && sig.results.as_slice() == results
        }
        None => false,
    }
}

#[test]
fn fields_and_files(rt: HostRuntime) -> Result<(), Fail> {
    let alloc = rt.alloc();
    let file = file_of(alloc, Target::Riscv64)?;
    let image = load(alloc, &file)?;
    assert_eq!(rt; image.target, Target::Riscv64);
    assert_eq!(rt; image.text.as_slice(), &RISCV64[58..74]);
    assert_eq!(rt;
        image.pool.as_slice(),
        [0x1234_5678_9abc_def0, 0xfedc_ba98_7654_3210].as_slice()
    );
    assert_eq!(rt; image.window.as_slice(), WINDOW.as_slice());
    assert_eq!(rt; image.types.as_slice(), [1, 10].as_slice());
    for (symbol, (name, func, address, size)) in image.symbols.iter().zip(&SYMBOLS) {
        assert_eq!(rt; symbol.name.as_str(), *name);
        assert_eq!(rt;
            (symbol.func, symbol.address, symbol.size),
            (*func, *address, *size)
        );
    }
    assert_eq!(rt; (image.symbols.len(), image.sigs.len()), (3, 2));
    assert!(rt; has_function(&image, "add", 65_536, &[Ty::Int, Ty::Int], &[Ty::Int]));
    assert!(rt; has_function(&image, "wide", 65_588, &[], &[Ty::Int, Ty::Bool]));
    assert!(rt; function(&image, "größe").is_none() && function(&image, "ad").is_none());
    let written = write_elf(alloc, &image)?;
    assert_eq!(rt; written.as_slice(), file.as_slice());

    let file = file_of(alloc, Target::Arm)?;
    let image = load(alloc, &file)?;
    assert_eq!(rt; image.target, Target::Arm);
    assert_eq!(rt; image.text.as_slice(), &ARM[38..53]);
    assert_eq!(rt;
        (image.pool.len(), image.window.len(), image.symbols.len()),
        (0, 0, 1)
    );
    assert_eq!(rt; image.types.as_slice(), [6].as_slice());
    assert!(rt; has_function(&image, "add", 65_536, &[Ty::Int32, Ty::Int32], &[Ty::Int32]));
    let written = write_elf(alloc, &image)?;
    assert_eq!(rt; written.as_slice(), file.as_slice());
    Ok(())
}

// Each byte in turn with one bit turned: the rows tell the fault up to the byte that they name.
#[test]
fn each_byte(rt: HostRuntime) -> Result<(), Fail> {
    let alloc = rt.alloc();
    let rows: [(Target, u8, &[(usize, Want)]); 2] = [
        (Target::Riscv64, 1, &RISCV64_BYTES),
        (Target::Arm, 128, &ARM_BYTES),
    ];
    for (target, bit, bytes) in rows {
        let mut file = file_of(alloc, target)?;
        let mut place = 0;
        for (end, want) in bytes {
            for at in place..*end {
                let value = file.get(at).copied().unwrap_or(0);
                set(&mut file, at, value ^ bit);
                assert_eq!(rt;
                    fault(alloc, &file),
                    fault_of(*want),
                    "{target:?} byte {at}"
                );
                set(&mut file, at, value);
            }
            place = *end;
        }
        assert_eq!(rt; place, file.len());
    }
    Ok(())
}

#[test]
fn damage(rt: HostRuntime) -> Result<(), Fail> {
    let alloc = rt.alloc();
    for (number, (target, length, edits, want)) in DAMAGE.iter().enumerate() {
        let mut file = file_of(alloc, *target)?;
        for (place, value) in *edits {
            set(&mut file, *place, *value);
        }
        file.truncate(*length);
        assert_eq!(rt; fault(alloc, &file), fault_of(*want), "row {number}");
    }
    for target in [Target::Riscv64, Target::Arm] {
        let mut file = file_of(alloc, target)?;
        let shoff = if target == Target::Arm { 32 } else { 40 };
        for length in 0..file.len() {
            let want = if length < 4 { NotElf } else { Truncated };
            assert_eq!(rt;
                fault(alloc, &file[..length]),
                fault_of(want),
                "{target:?} {length}"
            );
        }
        file.push(0)?;
        assert_eq!(rt;
            fault(alloc, &file),
            fault_of(Header(shoff)),
            "{target:?} longer"
        );
    }
    Ok(())
}

/// The fields of addresses and sizes have 64 bits; the low 32 of them are kept.
#[test]
fn wide_symbols(rt: HostRuntime) -> Result<(), Fail> {
    let alloc = rt.alloc();
    let mut file = file_of(alloc, Target::Riscv64)?;
    for place in [420, 436, 447] {
        set(&mut file, place, 1);
    }
    let image = load(alloc, &file)?;
    for (symbol, (name, _, address, size)) in image.symbols.iter().zip(&SYMBOLS) {
        assert_eq!(rt; symbol.name.as_str(), *name);
        assert_eq!(rt; (symbol.address, symbol.size), (*address, *size));
    }
    set(&mut file, 412, 1);
    assert_eq!(rt; fault(alloc, &file), fault_of(Section(5)));
    Ok(())
}

// The files are those of a script that writes them by the description of an object, as are the faults.
const WINDOW: [u8; 16] = [1, 2, 3, 4, 5, 6, 7, 8, 0, 0, 0, 0, 0, 0, 0, 0];

const SYMBOLS: [(&str, bool, u32, u32); 3] = [
    ("add", true, 65_536, 52),
    ("größe", false, 67_108_864, 8),
    ("wide", true, 65_588, 12),
];

// A target, how many bytes of its file are left, what is set in it, and the fault.
const DAMAGE: [(Target, usize, &[(usize, u8)], Want); 73] = [
    (Target::Riscv64, 1056, &[], Loads),
    (Target::Arm, 664, &[], Loads),
    (Target::Riscv64, 1056, &[(40, 24)], Header(40)),
    (Target::Arm, 664, &[(32, 80)], Header(32)),
    (Target::Riscv64, 1056, &[(40, 40)], Truncated),
    (Target::Riscv64, 1056, &[(0, 0), (18, 62)], NotElf),
    (Target::Riscv64, 1056, &[(16, 3), (18, 62)], Header(16)),
    (Target::Riscv64, 1056, &[(18, 62), (40, 33)], Header(18)),
    (Target::Riscv64, 1056, &[(40, 33), (58, 0)], Header(40)),
    (Target::Riscv64, 100, &[(18, 62)], Header(18)),
    (Target::Arm, 51, &[(18, 62)], Truncated),
    (Target::Arm, 60, &[(4, 2)], Truncated),
    (Target::Riscv64, 1056, &[(4, 1)], Header(18)),
    (Target::Riscv64, 1056, &[(62, 6), (72, 1)], Header(62)),
    (Target::Riscv64, 1055, &[(72, 1)], Truncated),
    (Target::Riscv64, 1056, &[(72, 1), (544, 1)], Section(0)),
    (Target::Riscv64, 1056, &[(72, 1), (128, 1)], Section(1)),
    (
        Target::Riscv64,
        1056,
        &[(96, 62), (104, 62), (640, 62)],
        Section(1),
    ),
    (
        Target::Riscv64,
        1056,
        &[(96, 60), (104, 60), (640, 60)],
        Section(2),
    ),
    (
        Target::Riscv64,
        1056,
        &[(96, 60), (104, 60), (640, 60), (292, 0), (293, 0)],
        Loads,
    ),
    (
        Target::Riscv64,
        1056,
        &[(96, 68), (104, 68), (640, 68)],
        Section(2),
    ),
    (Target::Riscv64, 1056, &[(96, 64), (104, 60)], Section(1)),
    (
        Target::Riscv64,
        1056,
        &[(99, 1), (107, 1), (643, 1)],
        Section(1),
    ),
    (
        Target::Riscv64,
        1056,
        &[(152, 12), (160, 12), (704, 12)],
        Section(2),
    ),
    (Target::Riscv64, 1056, &[(311, 0)], Section(2)),
    (Target::Riscv64, 1056, &[(311, 18)], Loads),
    (
        Target::Riscv64,
        1056,
        &[
            (304, 240),
            (305, 222),
            (306, 188),
            (307, 154),
            (308, 120),
            (309, 86),
            (310, 52),
            (311, 18),
        ],
        Section(2),
    ),
    (
        Target::Riscv64,
        1056,
        &[(208, 12), (216, 12), (768, 12)],
        Section(3),
    ),
    (
        Target::Riscv64,
        1056,
        &[(208, 8), (216, 8), (768, 8)],
        Section(4),
    ),
    (Target::Riscv64, 1056, &[(328, 11)], Section(4)),
    (Target::Riscv64, 1056, &[(328, 1)], Section(4)),
    (Target::Riscv64, 1056, &[(332, 0)], Section(4)),
    (Target::Riscv64, 1056, &[(336, 1)], Section(4)),
    (Target::Riscv64, 1056, &[(336, 14)], Section(4)),
    (Target::Riscv64, 1056, &[(336, 13)], Loads),
    (Target::Riscv64, 1056, &[(340, 65)], Section(4)),
    (Target::Riscv64, 1056, &[(348, 2)], Section(4)),
    (Target::Riscv64, 1056, &[(364, 1)], Section(4)),
    (Target::Riscv64, 1056, &[(380, 1)], Section(5)),
    (Target::Riscv64, 1056, &[(400, 2)], Section(5)),
    (Target::Riscv64, 1056, &[(404, 17)], Section(4)),
    (Target::Riscv64, 1056, &[(428, 18)], Section(4)),
    (Target::Riscv64, 1056, &[(405, 2)], Section(5)),
    (Target::Riscv64, 1056, &[(406, 3)], Section(5)),
    (
        Target::Riscv64,
        1056,
        &[(404, 17), (406, 3), (428, 18), (430, 1)],
        Section(5),
    ),
    (
        Target::Riscv64,
        1056,
        &[(404, 17), (406, 3), (428, 18), (430, 1), (434, 1), (435, 0)],
        Loads,
    ),
    (Target::Riscv64, 1056, &[(456, 64)], Section(5)),
    (Target::Riscv64, 1056, &[(456, 60)], Loads),
    (Target::Riscv64, 1056, &[(456, 54)], Section(5)),
    (Target::Riscv64, 1056, &[(458, 0)], Section(5)),
    (Target::Riscv64, 1056, &[(460, 1)], Section(5)),
    (Target::Riscv64, 1056, &[(468, 1)], Loads),
    (Target::Riscv64, 1056, &[(424, 1)], Section(5)),
    (Target::Riscv64, 1056, &[(424, 13), (448, 5)], Section(5)),
    (Target::Riscv64, 1056, &[(448, 18)], Section(5)),
    (Target::Riscv64, 1056, &[(448, 17)], Section(6)),
    (
        Target::Riscv64,
        1056,
        &[
            (448, 9),
            (477, 97),
            (478, 100),
            (479, 100),
            (480, 0),
            (484, 120),
        ],
        Section(5),
    ),
    (
        Target::Riscv64,
        1056,
        &[
            (448, 9),
            (477, 98),
            (478, 100),
            (479, 100),
            (480, 0),
            (484, 120),
        ],
        Loads,
    ),
    (Target::Riscv64, 1056, &[(472, 1)], Section(6)),
    (Target::Riscv64, 1056, &[(474, 0)], Section(6)),
    (Target::Riscv64, 1056, &[(480, 255)], Section(6)),
    (Target::Riscv64, 1056, &[(479, 237), (480, 160)], Section(6)),
    (Target::Riscv64, 1056, &[(489, 120)], Section(6)),
    (Target::Riscv64, 1056, &[(480, 255), (491, 116)], Section(6)),
    (Target::Riscv64, 1056, &[(542, 1)], Section(7)),
    (Target::Riscv64, 1056, &[(896, 95)], Section(4)),
    (Target::Riscv64, 1056, &[(896, 24)], Section(4)),
    (Target::Riscv64, 1056, &[(960, 17)], Section(6)),
    (Target::Riscv64, 1056, &[(1024, 51)], Section(7)),
    (Target::Arm, 664, &[(148, 1)], Section(1)),
    (Target::Arm, 664, &[(212, 1)], Section(2)),
    (
        Target::Arm,
        664,
        &[(68, 59), (72, 59), (404, 59)],
        Section(1),
    ),
    (Target::Arm, 664, &[(268, 64)], Section(5)),
];

// The lowest bit of each byte.
const RISCV64_BYTES: [(usize, Want); 72] = [
    (4, NotElf),
    (5, Header(4)),
    (6, Header(5)),
    (7, Header(6)),
    (8, Header(7)),
    (9, Header(8)),
    (10, Header(9)),
    (11, Header(10)),
    (12, Header(11)),
    (13, Header(12)),
    (14, Header(13)),
    (15, Header(14)),
    (16, Header(15)),
    (18, Header(16)),
    (20, Header(18)),
    (24, Header(20)),
    (32, Header(24)),
    (40, Header(32)),
    (41, Header(40)),
    (48, Truncated),
    (52, Header(48)),
    (54, Header(52)),
    (56, Header(54)),
    (58, Header(56)),
    (60, Header(58)),
    (62, Header(60)),
    (64, Header(62)),
    (120, Section(1)),
    (176, Section(2)),
    (232, Section(3)),
    (328, Loads),
    (336, Section(4)),
    (337, Loads),
    (348, Section(4)),
    (349, Loads),
    (352, Section(4)),
    (353, Loads),
    (356, Section(4)),
    (357, Loads),
    (368, Section(4)),
    (369, Loads),
    (372, Section(4)),
    (373, Loads),
    (376, Section(4)),
    (404, Section(5)),
    (405, Section(4)),
    (416, Section(5)),
    (424, Loads),
    (425, Section(6)),
    (432, Section(5)),
    (448, Loads),
    (449, Section(6)),
    (452, Section(5)),
    (453, Section(4)),
    (464, Section(5)),
    (472, Loads),
    (473, Section(6)),
    (476, Loads),
    (477, Section(6)),
    (484, Loads),
    (485, Section(6)),
    (489, Loads),
    (490, Section(6)),
    (544, Section(7)),
    (608, Section(0)),
    (672, Section(1)),
    (736, Section(2)),
    (800, Section(3)),
    (864, Section(4)),
    (928, Section(5)),
    (992, Section(6)),
    (1056, Section(7)),
];

// The highest bit of each byte.
const ARM_BYTES: [(usize, Want); 47] = [
    (4, NotElf),
    (5, Header(4)),
    (6, Header(5)),
    (7, Header(6)),
    (8, Header(7)),
    (9, Header(8)),
    (10, Header(9)),
    (11, Header(10)),
    (12, Header(11)),
    (13, Header(12)),
    (14, Header(13)),
    (15, Header(14)),
    (16, Header(15)),
    (18, Header(16)),
    (20, Header(18)),
    (24, Header(20)),
    (28, Header(24)),
    (32, Header(28)),
    (36, Truncated),
    (40, Header(36)),
    (42, Header(40)),
    (44, Header(42)),
    (46, Header(44)),
    (48, Header(46)),
    (50, Header(48)),
    (52, Header(50)),
    (84, Section(1)),
    (116, Section(2)),
    (148, Section(3)),
    (152, Section(1)),
    (212, Loads),
    (216, Section(2)),
    (244, Section(4)),
    (272, Section(5)),
    (276, Loads),
    (277, Section(4)),
    (280, Section(5)),
    (285, Section(6)),
    (344, Section(7)),
    (384, Section(0)),
    (424, Section(1)),
    (464, Section(2)),
    (504, Section(3)),
    (544, Section(4)),
    (584, Section(5)),
    (624, Section(6)),
    (664, Section(7)),
];

const RISCV64: [u32; 264] = [
    0x464c457f, 0x00010102, 0x00000000, 0x00000000, 0x00f30002, 0x00000001, 0x00000000, 0x00000000,
    0x00000040, 0x00000000, 0x00000220, 0x00000000, 0x00000000, 0x00380040, 0x00400003, 0x00070008,
    0x00000001, 0x00000005, 0x000000e8, 0x00000000, 0x00010000, 0x00000000, 0x00010000, 0x00000000,
    0x00000040, 0x00000000, 0x00000040, 0x00000000, 0x00000008, 0x00000000, 0x00000001, 0x00000004,
    0x00000128, 0x00000000, 0x02000000, 0x00000000, 0x02000000, 0x00000000, 0x00000010, 0x00000000,
    0x00000010, 0x00000000, 0x00000008, 0x00000000, 0x00000001, 0x00000006, 0x00000138, 0x00000000,
    0x04000000, 0x00000000, 0x04000000, 0x00000000, 0x00000010, 0x00000000, 0x00000010, 0x00000000,
    0x00000008, 0x00000000, 0xff010f93, 0x01bff663, 0x00500f93, 0x00100073, 0x000f8113, 0x00113423,
    0x01013283, 0x01813303, 0x006282b3, 0x02513023, 0x00813083, 0x01010113, 0x00008067, 0x020002b7,
    0x0002b283, 0x00008067, 0x9abcdef0, 0x12345678, 0x76543210, 0xfedcba98, 0x04030201, 0x08070605,
    0x00000000, 0x00000000, 0x00000002, 0x00000001, 0x0000000a, 0x00000002, 0x00000001, 0x00000001,
    0x00000001, 0x00000001, 0x00000000, 0x00000002, 0x00000001, 0x00000000, 0x00000000, 0x00000000,
    0x00000000, 0x00000000, 0x00000000, 0x00000000, 0x00000001, 0x00010012, 0x00010000, 0x00000000,
    0x00000034, 0x00000000, 0x00000005, 0x00030011, 0x04000000, 0x00000000, 0x00000008, 0x00000000,
    0x0000000d, 0x00010012, 0x00010034, 0x00000000, 0x0000000c, 0x00000000, 0x64646100, 0xc3726700,
    0x659fc3b6, 0x64697700, 0x2e000065, 0x74786574, 0x6f702e00, 0x2e006c6f, 0x61746164, 0x6f672e00,
    0x00676973, 0x6d79732e, 0x00626174, 0x7274732e, 0x00626174, 0x7368732e, 0x61747274, 0x00000062,
    0x00000000, 0x00000000, 0x00000000, 0x00000000, 0x00000000, 0x00000000, 0x00000000, 0x00000000,
    0x00000000, 0x00000000, 0x00000000, 0x00000000, 0x00000000, 0x00000000, 0x00000000, 0x00000000,
    0x00000001, 0x00000001, 0x00000006, 0x00000000, 0x00010000, 0x00000000, 0x000000e8, 0x00000000,
    0x00000040, 0x00000000, 0x00000000, 0x00000000, 0x00000004, 0x00000000, 0x00000000, 0x00000000,
    0x00000007, 0x00000001, 0x00000002, 0x00000000, 0x02000000, 0x00000000, 0x00000128, 0x00000000,
    0x00000010, 0x00000000, 0x00000000, 0x00000000, 0x00000008, 0x00000000, 0x00000000, 0x00000000,
    0x0000000d, 0x00000001, 0x00000003, 0x00000000, 0x04000000, 0x00000000, 0x00000138, 0x00000000,
    0x00000010, 0x00000000, 0x00000000, 0x00000000, 0x00000008, 0x00000000, 0x00000000, 0x00000000,
    0x00000013, 0x00000001, 0x00000000, 0x00000000, 0x00000000, 0x00000000, 0x00000148, 0x00000000,
    0x00000030, 0x00000000, 0x00000000, 0x00000000, 0x00000004, 0x00000000, 0x00000000, 0x00000000,
    0x0000001a, 0x00000002, 0x00000000, 0x00000000, 0x00000000, 0x00000000, 0x00000178, 0x00000000,
    0x00000060, 0x00000000, 0x00000006, 0x00000001, 0x00000008, 0x00000000, 0x00000018, 0x00000000,
    0x00000022, 0x00000003, 0x00000000, 0x00000000, 0x00000000, 0x00000000, 0x000001d8, 0x00000000,
    0x00000012, 0x00000000, 0x00000000, 0x00000000, 0x00000001, 0x00000000, 0x00000000, 0x00000000,
    0x0000002a, 0x00000003, 0x00000000, 0x00000000, 0x00000000, 0x00000000, 0x000001ea, 0x00000000,
    0x00000034, 0x00000000, 0x00000000, 0x00000000, 0x00000001, 0x00000000, 0x00000000, 0x00000000,
];

const ARM: [u32; 166] = [
    0x464c457f, 0x00010101, 0x00000000, 0x00000000, 0x00280002, 0x00000001, 0x00000000, 0x00000034,
    0x00000158, 0x05000000, 0x00200034, 0x00280003, 0x00070008, 0x00000001, 0x00000098, 0x00010000,
    0x00010000, 0x0000003c, 0x0000003c, 0x00000005, 0x00000008, 0x00000001, 0x000000d8, 0x02000000,
    0x02000000, 0x00000000, 0x00000000, 0x00000004, 0x00000008, 0x00000001, 0x000000d8, 0x04000000,
    0x04000000, 0x00000000, 0x00000000, 0x00000006, 0x00000008, 0x00000000, 0xe300b008, 0xe04db00b,
    0xe15b000a, 0x2a000000, 0xe7f000f5, 0xe1a0d00b, 0xe58de004, 0xe59d0008, 0xe59d100c, 0xe0800001,
    0xe58d0010, 0xe59de004, 0xe300b008, 0xe08dd00b, 0xe12fff1e, 0x00000000, 0x00000001, 0x00000006,
    0x00000002, 0x00000001, 0x00000000, 0x00000000, 0x00000000, 0x00000000, 0x00000000, 0x00000000,
    0x00000000, 0x00000000, 0x00000001, 0x00010000, 0x0000003c, 0x00010012, 0x64646100, 0x742e0000,
    0x00747865, 0x6f6f702e, 0x642e006c, 0x00617461, 0x736f672e, 0x2e006769, 0x746d7973, 0x2e006261,
    0x74727473, 0x2e006261, 0x74736873, 0x62617472, 0x00000000, 0x00000000, 0x00000000, 0x00000000,
    0x00000000, 0x00000000, 0x00000000, 0x00000000, 0x00000000, 0x00000000, 0x00000000, 0x00000000,
    0x00000001, 0x00000001, 0x00000006, 0x00010000, 0x00000098, 0x0000003c, 0x00000000, 0x00000000,
    0x00000004, 0x00000000, 0x00000007, 0x00000001, 0x00000002, 0x02000000, 0x000000d8, 0x00000000,
    0x00000000, 0x00000000, 0x00000008, 0x00000000, 0x0000000d, 0x00000001, 0x00000003, 0x04000000,
    0x000000d8, 0x00000000, 0x00000000, 0x00000000, 0x00000008, 0x00000000, 0x00000013, 0x00000001,
    0x00000000, 0x00000000, 0x000000d8, 0x0000001c, 0x00000000, 0x00000000, 0x00000004, 0x00000000,
    0x0000001a, 0x00000002, 0x00000000, 0x00000000, 0x000000f8, 0x00000020, 0x00000006, 0x00000001,
    0x00000008, 0x00000010, 0x00000022, 0x00000003, 0x00000000, 0x00000000, 0x00000118, 0x00000005,
    0x00000000, 0x00000000, 0x00000001, 0x00000000, 0x0000002a, 0x00000003, 0x00000000, 0x00000000,
    0x0000011d, 0x00000034, 0x00000000, 0x00000000, 0x00000001, 0x00000000,
];

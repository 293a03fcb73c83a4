ghost use Rattle.std.specs.Prelude.{◌≤◌};

use super::*;
use std::test::Fail;

// `answers` are those of trunc, shl, shr, sar, rotl, hmul signed and unsigned, divs, rems, divu and
// remu, with y as the count, and all ones as the answer to a division by zero.
struct Case {
    width: u32,
    x: u64,
    y: u64,
    signed: i64,
    answers: [u64; 11],
}

fn answers(w: u32, x: u64, y: u64) -> [u64; 11]
    requires { (1 ≤ w) × (w ≤ 64) }
{
    [
        trunc(w, x),
        shl(w, x, y),
        shr(w, x, y),
        sar(w, x, y),
        rotl(w, x, y),
        hmul(w, x, y, true),
        hmul(w, x, y, false),
        divs(w, x, y, u64::MAX),
        rems(w, x, y),
        divu(w, x, y, u64::MAX),
        remu(w, x, y),
    ]
}

#[test]
fn extreme_values(rt: HostRuntime) {
    for case in &CASES {
        let (w, x, y) = (case.width, case.x, case.y);
        assert!(rt; 1 <= w && w <= 64);
        assert_eq!(rt; sext(w, x), case.signed, "{x} of {w} bits");
        assert_eq!(rt; answers(w, x, y), case.answers, "{x} and {y} of {w} bits");
        assert_eq!(rt;
            residue(w, case.signed as i128),
            trunc(w, x),
            "{x} of {w} bits"
        );
    }
}

const CASES: [Case; 30] = [
    Case {
        width: 1,
        x: 0xffffffffffffffff,
        y: 1,
        signed: -1,
        answers: [1, 0, 0, 1, 1, 0, 0, 1, 0, 1, 0],
    },
    Case {
        width: 1,
        x: 1,
        y: 0,
        signed: -1,
        answers: [1, 1, 1, 1, 1, 0, 0, 1, 1, 1, 1],
    },
    Case {
        width: 1,
        x: 0xfffffffffffffffe,
        y: 1,
        signed: 0,
        answers: [0, 0, 0, 0, 0, 0, 0, 0, 0, 0, 0],
    },
    Case {
        width: 1,
        x: 1,
        y: 0,
        signed: -1,
        answers: [1, 1, 1, 1, 1, 0, 0, 1, 1, 1, 1],
    },
    Case {
        width: 1,
        x: 1,
        y: 1,
        signed: -1,
        answers: [1, 0, 0, 1, 1, 0, 0, 1, 0, 1, 0],
    },
    Case {
        width: 1,
        x: 0xfffffffffffffffe,
        y: 1,
        signed: 0,
        answers: [0, 0, 0, 0, 0, 0, 0, 0, 0, 0, 0],
    },
    Case {
        width: 8,
        x: 0xffffffffffffff80,
        y: 255,
        signed: -128,
        answers: [128, 0, 0, 255, 64, 0, 127, 128, 0, 0, 128],
    },
    Case {
        width: 8,
        x: 255,
        y: 7,
        signed: -1,
        answers: [255, 128, 1, 255, 255, 255, 6, 0, 255, 36, 3],
    },
    Case {
        width: 8,
        x: 0xffffffffffffff7f,
        y: 128,
        signed: 127,
        answers: [127, 0, 0, 0, 127, 192, 63, 0, 127, 0, 127],
    },
    Case {
        width: 8,
        x: 133,
        y: 0,
        signed: -123,
        answers: [133, 133, 133, 133, 133, 0, 0, 255, 133, 255, 133],
    },
    Case {
        width: 8,
        x: 255,
        y: 8,
        signed: -1,
        answers: [255, 0, 0, 255, 255, 255, 7, 0, 255, 31, 7],
    },
    Case {
        width: 8,
        x: 0xffffffffffffff6d,
        y: 0xffffffffffffff03,
        signed: 109,
        answers: [109, 0, 0, 0, 107, 1, 1, 36, 1, 36, 1],
    },
    Case {
        width: 16,
        x: 0xffffffffffff8000,
        y: 0xffff,
        signed: -32768,
        answers: [
            0x8000, 0, 0, 0xffff, 0x4000, 0, 0x7fff, 0x8000, 0, 0, 0x8000,
        ],
    },
    Case {
        width: 16,
        x: 0xffff,
        y: 15,
        signed: -1,
        answers: [
            0xffff, 0x8000, 1, 0xffff, 0xffff, 0xffff, 14, 0, 0xffff, 0x1111, 0,
        ],
    },
    Case {
        width: 16,
        x: 0xffffffffffff7fff,
        y: 0x8000,
        signed: 32767,
        answers: [
            0x7fff, 0, 0, 0, 0x7fff, 0xc000, 0x3fff, 0, 0x7fff, 0, 0x7fff,
        ],
    },
    Case {
        width: 16,
        x: 0x8005,
        y: 0,
        signed: -32763,
        answers: [
            0x8005, 0x8005, 0x8005, 0x8005, 0x8005, 0, 0, 0xffff, 0x8005, 0xffff, 0x8005,
        ],
    },
    Case {
        width: 16,
        x: 0xffff,
        y: 16,
        signed: -1,
        answers: [
            0xffff, 0, 0, 0xffff, 0xffff, 0xffff, 15, 0, 0xffff, 0xfff, 15,
        ],
    },
    Case {
        width: 16,
        x: 0xffffffffffff6db6,
        y: 0xffffffffffff0003,
        signed: 28086,
        answers: [0x6db6, 0, 0, 0, 0x6db3, 1, 1, 0x2492, 0, 0x2492, 0],
    },
    Case {
        width: 32,
        x: 0xffffffff80000000,
        y: 0xffffffff,
        signed: -2147483648,
        answers: [
            0x80000000, 0, 0, 0xffffffff, 0x40000000, 0, 0x7fffffff, 0x80000000, 0, 0, 0x80000000,
        ],
    },
    Case {
        width: 32,
        x: 0xffffffff,
        y: 31,
        signed: -1,
        answers: [
            0xffffffff, 0x80000000, 1, 0xffffffff, 0xffffffff, 0xffffffff, 30, 0, 0xffffffff,
            0x8421084, 3,
        ],
    },
    Case {
        width: 32,
        x: 0xffffffff7fffffff,
        y: 0x80000000,
        signed: 2147483647,
        answers: [
            0x7fffffff, 0, 0, 0, 0x7fffffff, 0xc0000000, 0x3fffffff, 0, 0x7fffffff, 0, 0x7fffffff,
        ],
    },
    Case {
        width: 32,
        x: 0x80000005,
        y: 0,
        signed: -2147483643,
        answers: [
            0x80000005, 0x80000005, 0x80000005, 0x80000005, 0x80000005, 0, 0, 0xffffffff,
            0x80000005, 0xffffffff, 0x80000005,
        ],
    },
    Case {
        width: 32,
        x: 0xffffffff,
        y: 32,
        signed: -1,
        answers: [
            0xffffffff, 0, 0, 0xffffffff, 0xffffffff, 0xffffffff, 31, 0, 0xffffffff, 0x7ffffff, 31,
        ],
    },
    Case {
        width: 32,
        x: 0xffffffff6db6db6d,
        y: 0xffffffff00000003,
        signed: 1840700269,
        answers: [
            0x6db6db6d, 0, 0, 0, 0x6db6db6b, 1, 1, 0x24924924, 1, 0x24924924, 1,
        ],
    },
    Case {
        width: 64,
        x: 0x8000000000000000,
        y: 0xffffffffffffffff,
        signed: -9223372036854775808,
        answers: [
            0x8000000000000000,
            0,
            0,
            0xffffffffffffffff,
            0x4000000000000000,
            0,
            0x7fffffffffffffff,
            0x8000000000000000,
            0,
            0,
            0x8000000000000000,
        ],
    },
    Case {
        width: 64,
        x: 0xffffffffffffffff,
        y: 63,
        signed: -1,
        answers: [
            0xffffffffffffffff,
            0x8000000000000000,
            1,
            0xffffffffffffffff,
            0xffffffffffffffff,
            0xffffffffffffffff,
            62,
            0,
            0xffffffffffffffff,
            0x410410410410410,
            15,
        ],
    },
    Case {
        width: 64,
        x: 0x7fffffffffffffff,
        y: 0x8000000000000000,
        signed: 9223372036854775807,
        answers: [
            0x7fffffffffffffff,
            0,
            0,
            0,
            0x7fffffffffffffff,
            0xc000000000000000,
            0x3fffffffffffffff,
            0,
            0x7fffffffffffffff,
            0,
            0x7fffffffffffffff,
        ],
    },
    Case {
        width: 64,
        x: 0x8000000000000005,
        y: 0,
        signed: -9223372036854775803,
        answers: [
            0x8000000000000005,
            0x8000000000000005,
            0x8000000000000005,
            0x8000000000000005,
            0x8000000000000005,
            0,
            0,
            0xffffffffffffffff,
            0x8000000000000005,
            0xffffffffffffffff,
            0x8000000000000005,
        ],
    },
    Case {
        width: 64,
        x: 0xffffffffffffffff,
        y: 64,
        signed: -1,
        answers: [
            0xffffffffffffffff,
            0,
            0,
            0xffffffffffffffff,
            0xffffffffffffffff,
            0xffffffffffffffff,
            63,
            0,
            0xffffffffffffffff,
            0x3ffffffffffffff,
            63,
        ],
    },
    Case {
        width: 64,
        x: 0x6db6db6db6db6db6,
        y: 3,
        signed: 7905747460161236406,
        answers: [
            0x6db6db6db6db6db6,
            0x6db6db6db6db6db0,
            0xdb6db6db6db6db6,
            0xdb6db6db6db6db6,
            0x6db6db6db6db6db3,
            1,
            1,
            0x2492492492492492,
            0,
            0x2492492492492492,
            0,
        ],
    },
];

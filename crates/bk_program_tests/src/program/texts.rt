//! Package texts.

/// A sum of two arguments.
pub const ADD: &str =
    "add func(a int, b int) int\nb1:\nv1 = InitMem <mem>\nv2 = Arg <int> {a}\nv3 = Arg <int> {b}\nv4 = Add64 <int> v2 v3\nv5 = MakeResult <int,mem> v4 v1\nRet v5\n";

/// A value that one of two walks leaves out.
pub const USE: &str =
    "u func(c bool) int\nb1:\nv1 = InitMem <mem>\nv2 = Arg <bool> {c}\nIf v2 -> b2 b3\nb2: <- b1\nv3 = Const64 <int> [1]\nPlain -> b3\nb3: <- b1 b2\nv4 = MakeResult <int,mem> v3 v1\nRet v4\n";

/// A call of a function that is not declared.
pub const NO_SUCH: &str =
    "q func()\nb1:\nv1 = InitMem <mem>\nv2 = StaticLECall <mem> {nosuch} v1\nv3 = SelectN <mem> [0] v2\nv4 = MakeResult <mem> v3\nRet v4\n";

/// A number that is declared twice.
pub const TWICE: &str =
    "add func(a int, b int) int\nb1:\nv1 = InitMem <mem>\nv1 = Arg <int> {a}\nv3 = Arg <int> {b}\nv4 = Add64 <int> v1 v3\nv5 = MakeResult <int,mem> v4 v1\nRet v5\n";

/// Parts that the reader takes and drops.
pub const DROPPED: &str =
    "var w 8\nq func()\nb1:\nv1 = InitMem <mem>\nv2 = SB <uintptr>\nv3 = Addr <ptr> {w} v2\nv4 = ConstBool <bool> [true]\nv5 = Const64 <int> [3]\nv6 = Div64 <int> [false] v5 v5\nv7 = Zero <mem> {int} [8] v3 v1\nv8 = StaticLECall <mem> {AuxCall{q}} [8] v7\nv9 = SelectN <mem> [0] v8\nv10 = MakeResult <mem> v9\nRet v10\n";

/// A loop over a variable, with groups that the reader drops.
pub const LOOP: &str =
    "var a 24 = 010000000000000002000000000000000300000000000000\nmain.sum func(p *int, n int) int\nb1:\nv1 (?) = InitMem <mem>\nv2 (?) = SP <uintptr>\nv3 (?) = SB <uintptr>\nv4 (?) = Arg <*int> {p} (p[*int])\nv5 (?) = Arg <int> {n} (n[int])\nv6 (?) = Const64 <int> [0] (s[int], i[int])\nv7 (?) = Const64 <int> [1]\nv8 (?) = Const64 <uint64> [3]\nPlain → b2 (+4)\nb2: ← b1 b3\nv9 (4) = Phi <int> v6 v16 (i[int])\nv10 (7) = Phi <int> v6 v15\nv11 (+4) = Less64 <bool> v9 v5\nIf v11 → b3 b4 (likely) (4)\nb3: ← b2\nv12 = Lsh64x64 <int> [true] v9 v8\nv13 = AddPtr <*int> v4 v12\nv14 = Load <int> v13 v1\nv15 = Add64 <int> v10 v14\nv16 = Add64 <int> v9 v7\nPlain → b2\nb4: ← b2\nv17 = MakeResult <int,mem> v10 v1\nRet v17\n";

/// A loop that swaps two numbers.
pub const SWAP: &str =
    "swap func(n int, a int, b int) (int, int)\nb1:\nv1 = InitMem <mem>\nv2 = Arg <int> {n}\nv3 = Arg <int> {a}\nv4 = Arg <int> {b}\nv5 = Const64 <int> [0]\nv6 = Const64 <int> [1]\nPlain -> b2\nb2: <- b1 b3\nv7 = Phi <int> v2 v10\nv8 = Phi <int> v3 v9\nv9 = Phi <int> v4 v8\nv11 = Less64 <bool> v5 v7\nIf v11 -> b3 b4\nb3: <- b2\nv10 = Sub64 <int> v7 v6\nPlain -> b2\nb4: <- b2\nv12 = MakeResult <int,int,mem> v8 v9 v1\nRet v12\n";

/// A store behind a nil check.
pub const STORE: &str =
    "var g 8 = 0102030405060708\nst func(p ptr, x int32)\nb1:\nv1 = InitMem <mem>\nv2 = Arg <ptr> {p}\nv3 = Arg <int32> {x}\nv4 = NilCheck <void> v2 v1\nv5 = Store <mem> {int32} v2 v3 v1\nv6 = MakeResult <mem> v5\nRet v6\n";

/// A comparison of two numbers of 64 bits.
pub const LEQ: &str =
    "leq func(a int64, b int64) bool\nb1:\nv1 = InitMem <mem>\nv2 = Arg <int64> {a}\nv3 = Arg <int64> {b}\nv4 = Leq64 <bool> v2 v3\nv5 = MakeResult <bool,mem> v4 v1\nRet v5\n";

/// The words of the sum's code.
pub const ADD_CODE: [u32; 11] = [
    0xff010f93, 0x01bff663, 0x00500f93, 0x00100073, 0x000f8113, 0x00113423, 0x00b502b3, 0x00028513,
    0x00813083, 0x01010113, 0x00008067,
];

/// The sum, and a function that calls it.
pub const ADD_AND_TWICE: &str =
    "add func(a int, b int) int\nb1:\nv1 = InitMem <mem>\nv2 = Arg <int> {a}\nv3 = Arg <int> {b}\nv4 = Add64 <int> v2 v3\nv5 = MakeResult <int,mem> v4 v1\nRet v5\ntwice func(a int) int\nb1:\nv1 = InitMem <mem>\nv2 = Arg <int> {a}\nv3 = StaticLECall <int,mem> {add} v2 v2 v1\nv4 = SelectN <int> [0] v3\nv5 = SelectN <mem> [1] v3\nv6 = MakeResult <int,mem> v4 v5\nRet v6\n";

/// The words of their code: the sum has no frame but for the swap word and the return address, the second has 40 bytes.
pub const TWICE_CODE: [u32; 23] = [
    0xff010f93, 0x01bff663, 0x00500f93, 0x00100073, 0x000f8113, 0x00113423, 0x00b502b3, 0x00028513,
    0x00813083, 0x01010113, 0x00008067, 0xfd810f93, 0x01bff663, 0x00500f93, 0x00100073, 0x000f8113,
    0x02113023, 0x00050593, 0x00000f97, 0xfb8f80e7, 0x02013083, 0x02810113, 0x00008067,
];

/// A function of a constant.
pub const CONSTANT: &str =
    "k func() int\nb1:\nv1 = InitMem <mem>\nv2 = Const64 <int> [1311768467463790320]\nv3 = MakeResult <int,mem> v2 v1\nRet v3\n";

/// A quotient.
pub const QUOTIENT: &str =
    "d func(a int32, b int32) int32\nb1:\nv1 = InitMem <mem>\nv2 = Arg <int32> {a}\nv3 = Arg <int32> {b}\nv4 = Div32 <int32> v2 v3\nv5 = MakeResult <int32,mem> v4 v1\nRet v5\n";

/// A remainder.
pub const MOD: &str =
    "m func(a int32, b int32) int32\nb1:\nv1 = InitMem <mem>\nv2 = Arg <int32> {a}\nv3 = Arg <int32> {b}\nv4 = Mod32 <int32> v2 v3\nv5 = MakeResult <int32,mem> v4 v1\nRet v5\n";

/// A comparison of two numbers of 32 bits.
pub const LESS: &str =
    "less func(a int32, b int32) bool\nb1:\nv1 = InitMem <mem>\nv2 = Arg <int32> {a}\nv3 = Arg <int32> {b}\nv4 = Less32 <bool> v2 v3\nv5 = MakeResult <bool,mem> v4 v1\nRet v5\n";

/// A loop without an end.
pub const SPIN: &str =
    "spin func()\nb1:\nv1 = InitMem <mem>\nPlain -> b2\nb2: <- b1 b2\nPlain -> b2\n";

/// A function that counts its calls and calls itself.
pub const COUNTED: &str =
    "var n 8\nr func()\nb1:\nv1 = InitMem <mem>\nv2 = SB <uintptr>\nv3 = Addr <ptr> {n} v2\nv4 = Load <int> v3 v1\nv5 = Const64 <int> [1]\nv6 = Add64 <int> v4 v5\nv7 = Store <mem> {int} v3 v6 v1\nv8 = StaticLECall <mem> {r} v7\nv9 = SelectN <mem> [0] v8\nv10 = MakeResult <mem> v9\nRet v10\n";

/// Two functions of an op without code for riscv64.
pub const ZEROS: &str =
    "d func(a int32) int32\nb1:\nv1 = InitMem <mem>\nv2 = Arg <int32> {a}\nv3 = Ctz32 <int32> v2\nv4 = MakeResult <int32,mem> v3 v1\nRet v4\ne func(a int32) int32\nb1:\nv1 = InitMem <mem>\nv2 = Arg <int32> {a}\nv3 = Ctz32 <int32> v2\nv4 = MakeResult <int32,mem> v3 v1\nRet v4\n";

// The words are those that LLVM's assembler gives for the instructions in the comments.
use crate::emit::{block, done, func, op, placed};
use bk_arm_emit::emit;
use bk_fixup::{Handle, Patch};
use bk_func::{Aux, Func, Kind, Loc, Placed, Step};
use bk_ops::{ArmOp, Family};
use std::alloc::{AllocError, Global};
use std::test::Fail;

/// A value: its op with a width, its AuxInt, and its registers.
type UnitRow = (Family, u8, i64, &'static [u8], Option<u8>);

const UNITS: [UnitRow; 69] = [
    (Family::Arm(ArmOp::Const), 0, 5, &[], Some(2)),
    (Family::Arm(ArmOp::Const), 0, 305419896, &[], Some(2)),
    (Family::Arm(ArmOp::Const), 0, -1, &[], Some(2)),
    (Family::Arm(ArmOp::Add), 0, 0, &[0, 1], Some(2)),
    (Family::Arm(ArmOp::Sub), 0, 0, &[0, 1], Some(2)),
    (Family::Arm(ArmOp::Mul), 0, 0, &[0, 1], Some(2)),
    (Family::Arm(ArmOp::And), 0, 0, &[0, 1], Some(2)),
    (Family::Arm(ArmOp::Orr), 0, 0, &[0, 1], Some(2)),
    (Family::Arm(ArmOp::Eor), 0, 0, &[0, 1], Some(2)),
    (Family::Arm(ArmOp::Smulh), 0, 0, &[0, 1], Some(2)),
    (Family::Arm(ArmOp::Umulh), 0, 0, &[0, 1], Some(2)),
    (Family::Arm(ArmOp::Sdiv), 0, 0, &[0, 1], Some(2)),
    (Family::Arm(ArmOp::Udiv), 0, 0, &[0, 1], Some(2)),
    (Family::Arm(ArmOp::Smod), 0, 0, &[0, 1], Some(2)),
    (Family::Arm(ArmOp::Umod), 0, 0, &[0, 1], Some(2)),
    (Family::Arm(ArmOp::Lsl), 0, 0, &[0, 1], Some(2)),
    (Family::Arm(ArmOp::Lsr), 0, 0, &[0, 1], Some(2)),
    (Family::Arm(ArmOp::Asr), 0, 0, &[0, 1], Some(2)),
    (Family::Arm(ArmOp::SetEq), 0, 0, &[0, 1], Some(2)),
    (Family::Arm(ArmOp::SetNe), 0, 0, &[0, 1], Some(2)),
    (Family::Arm(ArmOp::SetLt), 0, 0, &[0, 1], Some(2)),
    (Family::Arm(ArmOp::SetLe), 0, 0, &[0, 1], Some(2)),
    (Family::Arm(ArmOp::SetLo), 0, 0, &[0, 1], Some(2)),
    (Family::Arm(ArmOp::SetLs), 0, 0, &[0, 1], Some(2)),
    (Family::Arm(ArmOp::Rotl), 0, 0, &[0, 1], Some(2)),
    (Family::Arm(ArmOp::Rsb0), 0, 0, &[0], Some(2)),
    (Family::Arm(ArmOp::Mvn), 0, 0, &[0], Some(2)),
    (Family::Arm(ArmOp::Sxtb), 0, 0, &[0], Some(2)),
    (Family::Arm(ArmOp::Sxth), 0, 0, &[0], Some(2)),
    (Family::Arm(ArmOp::Uxtb), 0, 0, &[0], Some(2)),
    (Family::Arm(ArmOp::Uxth), 0, 0, &[0], Some(2)),
    (Family::Arm(ArmOp::Zmask), 0, 0, &[0], Some(2)),
    (Family::Arm(ArmOp::Ctz), 0, 0, &[0], Some(2)),
    (Family::Arm(ArmOp::Blen), 0, 0, &[0], Some(2)),
    (Family::Arm(ArmOp::Sel), 0, 0, &[0, 1, 3], Some(2)),
    (Family::Arm(ArmOp::AddHi), 0, 0, &[0, 1, 3, 4], Some(2)),
    (Family::Arm(ArmOp::SubHi), 0, 0, &[0, 1, 3, 4], Some(2)),
    (Family::Arm(ArmOp::Addi), 0, 255, &[0], Some(2)),
    (Family::Arm(ArmOp::Addi), 0, -16777216, &[0], Some(2)),
    (Family::Arm(ArmOp::Subi), 0, 1020, &[0], Some(2)),
    (Family::Arm(ArmOp::Andi), 0, -268435441, &[0], Some(2)),
    (Family::Arm(ArmOp::Eori), 0, 1, &[0], Some(2)),
    (Family::Arm(ArmOp::Eori), 0, 257, &[0], Some(2)),
    (Family::Arm(ArmOp::Lsli), 0, 0, &[0], Some(2)),
    (Family::Arm(ArmOp::Lsli), 0, 31, &[0], Some(2)),
    (Family::Arm(ArmOp::Lsri), 0, 1, &[0], Some(2)),
    (Family::Arm(ArmOp::Asri), 0, 31, &[0], Some(2)),
    (Family::Arm(ArmOp::Asri), 0, 32, &[0], Some(2)),
    (Family::Arm(ArmOp::Load), 4, 255, &[0], Some(2)),
    (Family::Arm(ArmOp::Load), 2, 254, &[0], Some(2)),
    (Family::Arm(ArmOp::Load), 1, 0, &[0], Some(2)),
    (Family::Arm(ArmOp::Store), 4, 8, &[0, 1], None),
    (Family::Arm(ArmOp::Store), 2, 2, &[0, 1], None),
    (Family::Arm(ArmOp::Store), 1, 3, &[0, 1], None),
    (Family::Arm(ArmOp::StoreB), 0, 7, &[0, 1], None),
    (Family::Arm(ArmOp::Zero), 0, 0, &[0], None),
    (Family::Arm(ArmOp::Zero), 0, 7, &[0], None),
    (Family::Arm(ArmOp::Move), 0, 0, &[0, 1], None),
    (Family::Arm(ArmOp::Move), 0, 11, &[0, 1], None),
    (Family::Arm(ArmOp::Nil), 0, 0, &[0], None),
    (Family::ArgWord, 0, 2, &[], Some(2)),
    (Family::ArgWord, 0, 1019, &[], Some(2)),
    (Family::ArgWord, 0, 1020, &[], Some(2)),
    (Family::RetWord, 0, 3, &[0], None),
    (Family::RetWord, 0, 1024, &[0], None),
    (Family::ResWord, 0, 1, &[], Some(2)),
    (Family::OutWord, 0, 2, &[0], None),
    (Family::Call, 0, 0, &[], None),
    (Family::Trap, 0, 4, &[], None),
];

const WORDS: [u32; 116] = [
    // movw r2,#5
    0xe300_2005,
    // movw r2,#0x5678; movt r2,#0x1234
    0xe305_2678,
    0xe341_2234,
    // movw r2,#0xffff; movt r2,#0xffff
    0xe30f_2fff,
    0xe34f_2fff,
    // add r2,r0,r1
    0xe080_2001,
    // sub r2,r0,r1
    0xe040_2001,
    // mul r2,r0,r1
    0xe002_0190,
    // and r2,r0,r1
    0xe000_2001,
    // orr r2,r0,r1
    0xe180_2001,
    // eor r2,r0,r1
    0xe020_2001,
    // smull r11,r2,r0,r1
    0xe0c2_b190,
    // umull r11,r2,r0,r1
    0xe082_b190,
    // sdiv r2,r0,r1
    0xe712_f110,
    // udiv r2,r0,r1
    0xe732_f110,
    // sdiv r11,r0,r1; mls r2,r11,r1,r0
    0xe71b_f110,
    0xe062_019b,
    // udiv r11,r0,r1; mls r2,r11,r1,r0
    0xe73b_f110,
    0xe062_019b,
    // cmp r1,#256; mov r2,r0,lsl r1; movcs r2,#0
    0xe351_0c01,
    0xe1a0_2110,
    0x23a0_2000,
    // cmp r1,#256; mov r2,r0,lsr r1; movcs r2,#0
    0xe351_0c01,
    0xe1a0_2130,
    0x23a0_2000,
    // cmp r1,#256; mov r2,r0,asr r1; movcs r2,r2,asr #31
    0xe351_0c01,
    0xe1a0_2150,
    0x21a0_2fc2,
    // cmp r0,r1; mov r2,#0; moveq r2,#1
    0xe150_0001,
    0xe3a0_2000,
    0x03a0_2001,
    // cmp r0,r1; mov r2,#0; movne r2,#1
    0xe150_0001,
    0xe3a0_2000,
    0x13a0_2001,
    // cmp r0,r1; mov r2,#0; movlt r2,#1
    0xe150_0001,
    0xe3a0_2000,
    0xb3a0_2001,
    // cmp r0,r1; mov r2,#0; movle r2,#1
    0xe150_0001,
    0xe3a0_2000,
    0xd3a0_2001,
    // cmp r0,r1; mov r2,#0; movcc r2,#1
    0xe150_0001,
    0xe3a0_2000,
    0x33a0_2001,
    // cmp r0,r1; mov r2,#0; movls r2,#1
    0xe150_0001,
    0xe3a0_2000,
    0x93a0_2001,
    // rsb r11,r1,#32; mov r2,r0,ror r11
    0xe261_b020,
    0xe1a0_2b70,
    // rsb r2,r0,#0
    0xe260_2000,
    // mvn r2,r0
    0xe1e0_2000,
    // sxtb r2,r0
    0xe6af_2070,
    // sxth r2,r0
    0xe6bf_2070,
    // uxtb r2,r0
    0xe6ef_2070,
    // uxth r2,r0
    0xe6ff_2070,
    // cmp r0,#0; mov r2,#0; mvnne r2,#0
    0xe350_0000,
    0xe3a0_2000,
    0x13e0_2000,
    // rbit r11,r0; clz r2,r11
    0xe6ff_bf30,
    0xe16f_2f1b,
    // clz r11,r0; rsb r2,r11,#32
    0xe16f_bf10,
    0xe26b_2020,
    // tst r3,#1; mov r11,r1; movne r11,r0; mov r2,r11
    0xe313_0001,
    0xe1a0_b001,
    0x11a0_b000,
    0xe1a0_200b,
    // cmn r3,r4; adc r2,r0,r1
    0xe173_0004,
    0xe0a0_2001,
    // cmp r3,r4; sbc r2,r0,r1
    0xe153_0004,
    0xe0c0_2001,
    // add r2,r0,#255
    0xe280_20ff,
    // add r2,r0,#0xff000000
    0xe280_24ff,
    // sub r2,r0,#0x3fc
    0xe240_2fff,
    // and r2,r0,#0xf000000f
    0xe200_22ff,
    // eor r2,r0,#1
    0xe220_2001,
    // udf #0
    0xe7f0_00f0,
    // mov r2,r0
    0xe1a0_2000,
    // mov r2,r0,lsl #31
    0xe1a0_2f80,
    // mov r2,r0,lsr #1
    0xe1a0_20a0,
    // mov r2,r0,asr #31
    0xe1a0_2fc0,
    // udf #0
    0xe7f0_00f0,
    // ldr r2,[r0,#255]
    0xe590_20ff,
    // ldrh r2,[r0,#254]
    0xe1d0_2fbe,
    // ldrb r2,[r0]
    0xe5d0_2000,
    // str r1,[r0,#8]
    0xe580_1008,
    // strh r1,[r0,#2]
    0xe1c0_10b2,
    // strb r1,[r0,#3]
    0xe5c0_1003,
    // and r11,r1,#1; strb r11,[r0,#7]
    0xe201_b001,
    0xe5c0_b007,
    // movw r11,#0; str r11,[r0]; strh r11,[r0,#4]; strb r11,[r0,#6]
    0xe300_b000,
    0xe580_b000,
    0xe1c0_b0b4,
    0xe5c0_b006,
    // ldr r11,[r1]; str r11,[r0]; ldr r11,[r1,#4]; str r11,[r0,#4]; ldrh r11,[r1,#8]; strh r11,[r0,#8]; ldrb r11,[r1,#10]; strb r11,[r0,#10]
    0xe591_b000,
    0xe580_b000,
    0xe591_b004,
    0xe580_b004,
    0xe1d1_b0b8,
    0xe1c0_b0b8,
    0xe5d1_b00a,
    0xe5c0_b00a,
    // cmp r0,#0; bne over; udf #1
    0xe350_0000,
    0x1a00_0000,
    0xe7f0_00f1,
    // ldr r2,[sp,#24]
    0xe59d_2018,
    // ldr r2,[sp,#4092]
    0xe59d_2ffc,
    // movw r14,#4096; add r14,r14,sp; ldr r2,[r14]
    0xe301_e000,
    0xe08e_e00d,
    0xe59e_2000,
    // str r0,[sp,#28]
    0xe58d_001c,
    // movw r14,#4112; add r14,r14,sp; str r0,[r14]
    0xe301_e010,
    0xe08e_e00d,
    0xe58e_0000,
    // ldr r2,[sp,#4]
    0xe59d_2004,
    // str r0,[sp,#8]
    0xe58d_0008,
    // bl .+8
    0xeb00_0000,
    // udf #4
    0xe7f0_00f4,
];

/// The function of one block that returns, with these values.
fn units(alloc: Global, rows: &[UnitRow]) -> Result<(Func, Placed), AllocError> {
    let mut values = Vec::new(alloc);
    let mut steps = Vec::new(alloc);
    for (id, (family, width, int, args, place)) in (1..).zip(rows) {
        values.push((id, op(*family, *width), *int, Aux::Nothing))?;
        steps.push(done(alloc, id, args, *place)?)?;
    }
    let func = func(alloc, &[], &values)?;
    let blocks = vec![in alloc; block(alloc, 1, Kind::Ret, &[], steps)?]?;
    Ok((func, placed(blocks)))
}

#[test]
fn units_have_their_words(rt: HostRuntime) -> Result<(), Fail> {
    let alloc = rt.alloc();
    let (func, placed) = units(alloc, &UNITS)?;
    let code = emit(alloc, &func, &placed, 16, &[])?.code;
    // The entry has seven words before them, and the return four behind them.
    assert!(rt; code.get(7..123) == Some(WORDS.as_slice()));
    assert_eq!(rt; code.len(), 127);
    Ok(())
}

const SUM: [u32; 15] = [
    0xe300_b008,
    0xe04d_b00b,
    0xe15b_000a,
    0x2a00_0000,
    0xe7f0_00f5,
    0xe1a0_d00b,
    0xe58d_e004,
    0xe59d_0008,
    0xe59d_100c,
    0xe080_0001,
    0xe58d_0010,
    0xe59d_e004,
    0xe300_b008,
    0xe08d_d00b,
    0xe12f_ff1e,
];

#[test]
fn two_arguments_are_added(rt: HostRuntime) -> Result<(), Fail> {
    let alloc = rt.alloc();
    let rows: [UnitRow; 4] = [
        (Family::ArgWord, 0, 0, &[], Some(0)),
        (Family::ArgWord, 0, 1, &[], Some(1)),
        (Family::Arm(ArmOp::Add), 0, 0, &[0, 1], Some(0)),
        (Family::RetWord, 0, 2, &[0], None),
    ];
    let (func, placed) = units(alloc, &rows)?;
    let piece = emit(alloc, &func, &placed, 8, &[])?;
    assert!(rt; piece.code.as_slice() == SUM.as_slice());
    Ok(())
}

#[test]
fn addresses_wait(rt: HostRuntime) -> Result<(), Fail> {
    let alloc = rt.alloc();
    let rows = [
        (1, op(Family::Arm(ArmOp::Addr), 0), 0, Aux::Sym(3)),
        (2, op(Family::Call, 0), 0, Aux::Sym(4)),
    ];
    let func = func(alloc, &[], &rows)?;
    let steps = vec![in alloc; done(alloc, 1, &[], Some(2))?, done(alloc, 2, &[], None)?]?;
    let blocks = vec![in alloc; block(alloc, 1, Kind::Ret, &[], steps)?]?;
    let (address, call, ty) = (handle(0, 7), handle(0, 9), handle(1, 3));
    let piece = emit(alloc, &func, &placed(blocks), 16, &[address, call, ty])?;
    assert!(rt; piece.code.get(7..10) == Some([0xe300_2000, 0xe340_2000, 0xeb00_0000].as_slice()));
    assert!(rt;
        piece.handles.as_slice() == [(7, Patch::Addr, address), (9, Patch::Call, call)].as_slice()
    );
    assert!(rt; piece.types.as_slice() == [ty].as_slice());
    Ok(())
}

fn handle(area: u8, cell: u64) -> Handle {
    Handle { area, cell }
}

const BLOCKS: [u32; 35] = [
    0xe301_b148,
    0xe04d_b00b,
    0xe15b_000a,
    0x2a00_0000,
    0xe7f0_00f5,
    0xe1a0_d00b,
    0xe301_b144,
    0xe08b_b00d,
    0xe58b_e000,
    // tst r5,#1; bne to the third block
    0xe315_0001,
    0x1a00_000e,
    // ldr r6,[sp,#12]; str r6,[sp,#16]; mov r0,r6; ldr r1,[sp,#4012]
    0xe59d_600c,
    0xe58d_6010,
    0xe1a0_0006,
    0xe59d_1fac,
    // movw r14,#4408; add r14,r14,sp; str r1,[r14]
    0xe301_e138,
    0xe08e_e00d,
    0xe58e_1000,
    // ldr r11,[sp,#12]; movw r14,#4408; add r14,r14,sp; str r11,[r14]
    0xe59d_b00c,
    0xe301_e138,
    0xe08e_e00d,
    0xe58e_b000,
    // movw r14,#4412; add r14,r14,sp; str r2,[r14]; b to the fourth block
    0xe301_e13c,
    0xe08e_e00d,
    0xe58e_2000,
    0xea00_0001,
    // tst r5,#1; beq to the first block
    0xe315_0001,
    0x0aff_ffec,
    0xe301_b144,
    0xe08b_b00d,
    0xe59b_e000,
    0xe301_b148,
    0xe08d_d00b,
    0xe12f_ff1e,
    // udf #6
    0xe7f0_00f6,
];

/// A slot near the stack pointer, a far one, and the moves of an edge.
fn moves(alloc: Global) -> Result<Vec<Step>, AllocError> {
    Ok(vec![in alloc;
        Step::Load { reg: 6, slot: 0 },
        Step::Store { reg: 6, slot: 1 },
        Step::Move {
            from: Loc::Reg(6),
            to: Loc::Reg(0)
        },
        Step::Move {
            from: Loc::Slot(1000),
            to: Loc::Reg(1)
        },
        Step::Move {
            from: Loc::Reg(1),
            to: Loc::Slot(1099)
        },
        Step::Move {
            from: Loc::Slot(0),
            to: Loc::Slot(1099)
        },
        Step::Move {
            from: Loc::Reg(2),
            to: Loc::Swap
        },
    ]?)
}

#[test]
fn blocks_branch_and_move(rt: HostRuntime) -> Result<(), Fail> {
    let alloc = rt.alloc();
    let blocks = vec![in alloc;
        block(alloc, 1, Kind::If, &[3, 2], Vec::new(alloc))?,
        block(alloc, 2, Kind::Plain, &[4], moves(alloc)?)?,
        block(alloc, 3, Kind::If, &[4, 1], Vec::new(alloc))?,
        block(alloc, 4, Kind::Ret, &[], Vec::new(alloc))?,
        block(alloc, 5, Kind::Exit, &[], Vec::new(alloc))?,
    ]?;
    let placed = Placed {
        blocks,
        slots: 1100,
        out: 3,
    };
    let piece = emit(alloc, &func(alloc, &[], &[])?, &placed, 4424, &[])?;
    assert!(rt; piece.code.as_slice() == BLOCKS.as_slice());
    Ok(())
}

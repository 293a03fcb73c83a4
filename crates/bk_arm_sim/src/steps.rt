//! Steps and runs.
ghost use Rattle.std.specs.Prelude.{◌≡◌, ◌≤◌, ◌<◌, ◌^◌, length, IsSome, Some, None, true};
ghost use Rattle.bk_arm_isa.specs.declared.Inst.TheVariants.{Udf};
ghost use Rattle.bk_arm_sim.specs.Classes.{writes_register, writes_pair};
ghost use Rattle.bk_arm_isa.specs.Machine.{fetch, branch_target, jumped, with_reg, with_regs, with_product, execute, act, step, run};
ghost use Rattle.bk_arm_sim.specs.View.{view, ended};

use crate::arithmetic::{
    data_result, extended, move_result, plus, product_from, quotient, signed_quotient,
};
use crate::known::Known;
use crate::machine::Machine;
use crate::memory::{load_register, store_register};
use crate::operands::{operand, reg, test_flags};
use crate::registers::{put, set};
use crate::status::{condition, pack, passes, unpack};
use bk_arm_isa::{Condition, Inst};
use bk_machine::Stop;
use bk_num::{HALT, TEXT_BASE, hmul};

const LINK: u8 = 14;

fn fetch(known: &mut Known, text: &[u32], pc: u64) -> Option<Inst>
    requires { length text.now ≤ 4194304 }
    ensures value { result ≡ fetch text.now pc }
    ensures pc { IsSome result → pc < 2 ^ 31 }
{
    if pc < TEXT_BASE || pc % 4 != 0 {
        return None;
    }
    let place = ((pc - TEXT_BASE) / 4) as usize;
    let word = text.get(place)?;
    known.decode(place, *word)
}

// A branch by words.
fn branch(machine: &mut Machine, imm24: i32)
    requires { machine.old.pc < 2 ^ 31 }
    ensures state { view machine.new ≡ jumped (view machine.old) (branch_target machine.old.pc imm24) }
    ensures sig { machine.new.sig ≡ machine.old.sig }
{
    machine.pc = plus(machine.pc as u32 + 8, imm24 as i64 * 4) as u64;
}

// The two halves of a product, the low one first.
fn set_product(machine: &mut Machine, rd_lo: u8, rd_hi: u8, x: u32, y: u32, signed: bool)
    requires { machine.old.pc < 2 ^ 31 }
    ensures state { view machine.new ≡ with_regs (view machine.old) (with_product machine.old.regs.items rd_lo rd_hi x y signed) }
    ensures sig { machine.new.sig ≡ machine.old.sig }
{
    put(&mut machine.regs, rd_lo, x.wrapping_mul(y));
    put(
        &mut machine.regs,
        rd_hi,
        hmul(32, x as u64, y as u64, signed) as u32,
    );
    machine.pc += 4;
}

// The register that an instruction writes, and its number.
fn register_result(machine: &Machine, inst: Inst) -> (u8, u32)
    requires { writes_register inst ≡ true }
    ensures { execute inst (view machine.now) ≡ (None, with_reg (view machine.now) result.0 result.1) }
{
    let regs = machine.regs.as_slice();
    match inst {
        Inst::Data {
            op,
            rd,
            rn,
            operand2,
            ..
        } => {
            let carry = unpack(machine.flags).carry;
            (
                rd,
                data_result(op, reg(regs, rn), operand(regs, operand2), carry),
            )
        }
        Inst::Move {
            op,
            rd,
            operand2,
            ..
        } => (rd, move_result(op, operand(regs, operand2))),
        Inst::Movw { rd, imm16, .. } => (rd, imm16 as u32),
        Inst::Movt { rd, imm16, .. } => (rd, imm16 as u32 * 65_536 + reg(regs, rd) % 65_536),
        Inst::Mul { rd, rn, rm, .. } => (rd, reg(regs, rn).wrapping_mul(reg(regs, rm))),
        Inst::Mls { rd, rn, rm, ra, .. } => {
            (
                rd,
                product_from(reg(regs, ra), reg(regs, rn), reg(regs, rm)),
            )
        }
        Inst::Sdiv { rd, rn, rm, .. } => (rd, signed_quotient(reg(regs, rn), reg(regs, rm))),
        Inst::Udiv { rd, rn, rm, .. } => (rd, quotient(reg(regs, rn), reg(regs, rm))),
        Inst::Clz { rd, rm, .. } => (rd, reg(regs, rm).leading_zeros()),
        Inst::Rbit { rd, rm, .. } => (rd, reg(regs, rm).reverse_bits()),
        Inst::Sxtb { rd, rm, .. } => (rd, extended(8, reg(regs, rm))),
        Inst::Sxth { rd, rm, .. } => (rd, extended(16, reg(regs, rm))),
        Inst::Uxtb { rd, rm, .. } => (rd, reg(regs, rm) % 256),
        Inst::Uxth { rd, rm, .. } => (rd, reg(regs, rm) % 65_536),
        _ => unreachable!(),
    }
}

// The flags, or the two halves of a product.
fn write_pair(machine: &mut Machine, inst: Inst)
    requires pc { machine.old.pc < 2 ^ 31 }
    requires class { writes_pair inst ≡ true }
    ensures state { execute inst (view machine.old) ≡ (None, view machine.new) }
    ensures sig { machine.new.sig ≡ machine.old.sig }
{
    match inst {
        Inst::Test {
            op,
            rn,
            operand2,
            ..
        } => {
            let (x, y) = (reg(&machine.regs, rn), operand(&machine.regs, operand2));
            machine.flags = pack(test_flags(op, x, y, unpack(machine.flags)));
            machine.pc += 4;
        }
        Inst::Umull {
            rd_lo,
            rd_hi,
            rn,
            rm,
            ..
        } => {
            let (x, y) = (reg(&machine.regs, rn), reg(&machine.regs, rm));
            set_product(machine, rd_lo, rd_hi, x, y, false);
        }
        Inst::Smull {
            rd_lo,
            rd_hi,
            rn,
            rm,
            ..
        } => {
            let (x, y) = (reg(&machine.regs, rn), reg(&machine.regs, rm));
            set_product(machine, rd_lo, rd_hi, x, y, true);
        }
        _ => unreachable!(),
    }
}

// UDF traps with a number from 1 to 6.
fn trap(machine: &Machine, imm16: u16) -> Stop
    ensures { (Some result, view machine.now) ≡ execute (Udf imm16) (view machine.now) }
{
    if imm16 >= 1 && imm16 <= 6 {
        Stop::Trapped(imm16 as u8)
    } else {
        Stop::Fault(machine.pc)
    }
}

// One instruction whose condition holds.
fn execute(machine: &mut Machine, inst: Inst) -> Option<Stop>
    requires { machine.old.pc < 2 ^ 31 }
    ensures state { (result, view machine.new) ≡ execute inst (view machine.old) }
    ensures sig { machine.new.sig ≡ machine.old.sig }
{
    match inst {
        Inst::Ldr { rt, rn, imm12, .. } => load_register(machine, 4, rt, rn, imm12),
        Inst::Str { rt, rn, imm12, .. } => store_register(machine, 4, rt, rn, imm12),
        Inst::Ldrb { rt, rn, imm12, .. } => load_register(machine, 1, rt, rn, imm12),
        Inst::Strb { rt, rn, imm12, .. } => store_register(machine, 1, rt, rn, imm12),
        Inst::Ldrh { rt, rn, imm8, .. } => load_register(machine, 2, rt, rn, imm8 as u16),
        Inst::Strh { rt, rn, imm8, .. } => store_register(machine, 2, rt, rn, imm8 as u16),
        Inst::Udf { imm16 } => Some(trap(machine, imm16)),
        Inst::B { imm24, .. } => {
            branch(machine, imm24);
            None
        }
        Inst::Bl { imm24, .. } => {
            let next = machine.pc as u32 + 4;
            put(&mut machine.regs, LINK, next);
            branch(machine, imm24);
            None
        }
        Inst::Bx { rm, .. } => {
            machine.pc = reg(&machine.regs, rm) as u64;
            None
        }
        Inst::Test { .. } | Inst::Umull { .. } | Inst::Smull { .. } => {
            write_pair(machine, inst);
            None
        }
        _ => {
            let (rd, n) = register_result(machine, inst);
            set(machine, rd, n);
            None
        }
    }
}

// One instruction, where its condition holds.
fn act(machine: &mut Machine, inst: Inst) -> Option<Stop>
    requires { machine.old.pc < 2 ^ 31 }
    ensures state { (result, view machine.new) ≡ act inst (view machine.old) }
    ensures sig { machine.new.sig ≡ machine.old.sig }
{
    let condition = condition(inst);
    if condition == Condition::Al || passes(condition, unpack(machine.flags)) {
        execute(machine, inst)
    } else {
        machine.pc += 4;
        None
    }
}

// One step, with the words that were read before.
fn step_by(machine: &mut Machine, known: &mut Known) -> Option<Stop>
    ensures state { (result, view machine.new) ≡ step (view machine.old) }
    ensures sig { machine.new.sig ≡ machine.old.sig }
{
    if machine.pc == HALT {
        return Some(Stop::Returned);
    }
    match fetch(known, &machine.text, machine.pc) {
        Some(inst) => act(machine, inst),
        None => Some(Stop::Fault(machine.pc)),
    }
}

/// One step: the stop if there is one.
pub fn step(machine: &mut Machine) -> Option<Stop>
    ensures state { (result, view machine.new) ≡ step (view machine.old) }
    ensures sig { machine.new.sig ≡ machine.old.sig }
{
    step_by(machine, &mut Known::new())
}

/// At most `bound` steps, up to the first stop: Going where none of them stopped.
pub fn run(machine: &mut Machine, bound: u64) -> Stop
    ensures state { (result, view machine.new) ≡ ended (run bound (view machine.old)) }
    ensures sig { machine.new.sig ≡ machine.old.sig }
{
    let mut known = Known::new();
    for _step in 0..bound {
        if let Some(stop) = step_by(machine, &mut known) {
            return stop;
        }
    }
    Stop::Going
}

ghost use Rattle.std.specs.Prelude.{◌≡◌, ◌≤◌, ◌<◌, ◌^◌, ◌+◌, length, Some, None, IsSome, if◌then◌else◌};
ghost use Rattle.std.specs.Bool.{OnFalse};
ghost use Rattle.bk_num.specs.Memory.{write};
ghost use Rattle.bk_rv_isa.specs.declared.inst.Inst.TheVariants.{Ebreak};
ghost use Rattle.bk_rv_isa.specs.Machine.{reg, put, fetch, load, load_size, load_result, store_size, with_reg, on_load, on_store, store, act, step, run};
ghost use Rattle.bk_rv_sim.specs.View.{view, ended};

use crate::known::Known;
use crate::machine::Machine;
use crate::values::{
    extended, immediate_result, is_taken, load_result, load_size, plus, register_result,
    shift_result, store_size,
};
use bk_machine::Stop;
use bk_num::{DATA_BASE, HALT, POOL_BASE, TEXT_BASE, load_in, residue, store_in};
use bk_rv_isa::{Inst, LoadOp, StoreOp};

fn reg(regs: &[u64], k: u8) -> u64
    ensures { result ≡ reg regs.now k }
{
    if k == 0 {
        return 0;
    }
    match regs.get(k as usize) {
        Some(n) => *n,
        None => 0,
    }
}

fn put(regs: &mut [u64], k: u8, n: u64)
    ensures { regs.new ≡ put regs.old k n }
{
    if k != 0 && (k as usize) < regs.len() {
        regs[k as usize] = n;
    }
}

fn fetch(known: &mut Known, text: &[u32], pc: u64) -> Option<Inst>
    requires { length text.now ≤ 4194304 }
    ensures value { result ≡ fetch text.now pc }
    ensures pc { IsSome result → pc < 2 ^ 32 }
{
    if pc < TEXT_BASE || pc % 4 != 0 {
        return None;
    }
    let place = ((pc - TEXT_BASE) / 4) as usize;
    let word = text.get(place)?;
    known.decode(place, *word)
}

// Each address is read in one window.
#[tactic(auto, using(crate::proofs::Addressed::reads_stack, crate::proofs::Addressed::reads_data, crate::proofs::Addressed::reads_pool))]
fn load(machine: &Machine, size: usize, address: u64) -> Option<u64>
    requires low { 1 ≤ size }
    requires high { size ≤ 8 }
    ensures { result ≡ load (view machine.now) size address }
{
    if address >= machine.bottom {
        load_in(machine.bottom, &machine.stack, size, address)
    } else if address >= DATA_BASE {
        load_in(DATA_BASE, &machine.window, size, address)
    } else {
        load_in(POOL_BASE, &machine.pool, size, address)
    }
}

// A register and the next pc.
fn set(machine: &mut Machine, rd: u8, n: u64)
    requires { machine.old.pc < 2 ^ 32 }
    ensures state { view machine.new ≡ with_reg (view machine.old) rd n }
    ensures sig { machine.new.sig ≡ machine.old.sig }
{
    put(&mut machine.regs, rd, n);
    machine.pc += 4;
}

fn load_register(machine: &mut Machine, op: LoadOp, rd: u8, address: u64) -> Option<Stop>
    requires { machine.old.pc < 2 ^ 32 }
    ensures state { (result, view machine.new) ≡ on_load (view machine.old) address (load (view machine.old) (load_size op) address) (λ n. with_reg (view machine.old) rd (load_result op n)) }
    ensures sig { machine.new.sig ≡ machine.old.sig }
{
    match load(machine, load_size(op), address) {
        Some(n) => {
            set(machine, rd, load_result(op, n));
            None
        }
        None => Some(Stop::Fault(address)),
    }
}

// Each address is written in one window; it answers whether the bytes lie whole in that.
#[tactic(auto, using(crate::proofs::Addressed::writes_stack, crate::proofs::Addressed::writes_data))]
fn store(
    window: &mut [u8],
    bottom: u64,
    stack: &mut [u8],
    size: usize,
    address: u64,
    n: u64,
) -> bool
    requires low { 1 ≤ size }
    requires high { size ≤ 8 }
    requires window { 67108864 + length window.old ≤ bottom }
    ensures value { write window.old bottom stack.old size address n ≡ (if result then Some (window.new, stack.new) else None) }
    ensures kept { OnFalse result ((window.new ≡ window.old) × (stack.new ≡ stack.old)) }
{
    if address >= bottom {
        store_in(bottom, stack, size, address, n)
    } else {
        store_in(DATA_BASE, window, size, address, n)
    }
}

fn store_register(machine: &mut Machine, op: StoreOp, address: u64, n: u64) -> Option<Stop>
    requires { machine.old.pc < 2 ^ 32 }
    ensures state { (result, view machine.new) ≡ on_store (view machine.old) address (store (view machine.old) (store_size op) address n) }
    ensures sig { machine.new.sig ≡ machine.old.sig }
{
    let size = store_size(op);
    if store(
        &mut machine.window,
        machine.bottom,
        &mut machine.stack,
        size,
        address,
        n,
    ) {
        machine.pc += 4;
        None
    } else {
        Some(Stop::Fault(address))
    }
}

// EBREAK traps with a number from 1 to 6 in x31.
fn trap(machine: &Machine) -> Stop
    ensures { (Some result, view machine.now) ≡ act Ebreak (view machine.now) }
{
    let cause = reg(&machine.regs, 31);
    if cause >= 1 && cause <= 6 {
        Stop::Trapped(cause as u8)
    } else {
        Stop::Fault(machine.pc)
    }
}

// One instruction.
fn act(machine: &mut Machine, inst: Inst) -> Option<Stop>
    requires { machine.old.pc < 2 ^ 32 }
    ensures state { (result, view machine.new) ≡ act inst (view machine.old) }
    ensures sig { machine.new.sig ≡ machine.old.sig }
{
    match inst {
        Inst::Op(op, rd, rs1, rs2) => {
            let n = register_result(op, reg(&machine.regs, rs1), reg(&machine.regs, rs2));
            set(machine, rd, n);
            None
        }
        Inst::OpImm(op, rd, rs1, imm) => {
            let n = immediate_result(op, reg(&machine.regs, rs1), imm);
            set(machine, rd, n);
            None
        }
        Inst::Shift(op, rd, rs1, count) => {
            let n = shift_result(op, reg(&machine.regs, rs1), count);
            set(machine, rd, n);
            None
        }
        Inst::Addiw(rd, rs1, imm) => {
            let n = extended(32, plus(reg(&machine.regs, rs1), imm as i128));
            set(machine, rd, n);
            None
        }
        Inst::Load(op, rd, base, offset) => {
            let address = plus(reg(&machine.regs, base), offset as i128);
            load_register(machine, op, rd, address)
        }
        Inst::Store(op, src, base, offset) => {
            let address = plus(reg(&machine.regs, base), offset as i128);
            let n = reg(&machine.regs, src);
            store_register(machine, op, address, n)
        }
        Inst::Branch(op, rs1, rs2, offset) => {
            if is_taken(op, reg(&machine.regs, rs1), reg(&machine.regs, rs2)) {
                machine.pc = plus(machine.pc, offset as i128);
            } else {
                machine.pc += 4;
            }
            None
        }
        Inst::Lui(rd, imm) => {
            set(machine, rd, residue(64, imm as i128 * 4096));
            None
        }
        Inst::Auipc(rd, imm) => {
            let n = plus(machine.pc, imm as i128 * 4096);
            set(machine, rd, n);
            None
        }
        Inst::Jal(rd, offset) => {
            let target = plus(machine.pc, offset as i128);
            set(machine, rd, machine.pc + 4);
            machine.pc = target;
            None
        }
        Inst::Jalr(rd, base, offset) => {
            let target = plus(reg(&machine.regs, base), offset as i128) / 2 * 2;
            set(machine, rd, machine.pc + 4);
            machine.pc = target;
            None
        }
        Inst::Ebreak => Some(trap(machine)),
    }
}

// One step, with the words that were read before.
fn step_by(machine: &mut Machine, known: &mut Known) -> Option<Stop>
    ensures state { (result, view machine.new) ≡ step (view machine.old) }
    ensures sig { machine.new.sig ≡ machine.old.sig }
{
    if machine.pc == HALT {
        return Some(Stop::Returned);
    }
    match fetch(known, &machine.text, machine.pc) {
        Some(inst) => act(machine, inst),
        None => Some(Stop::Fault(machine.pc)),
    }
}

/// One step: the stop if there is one.
pub fn step(machine: &mut Machine) -> Option<Stop>
    ensures state { (result, view machine.new) ≡ step (view machine.old) }
    ensures sig { machine.new.sig ≡ machine.old.sig }
{
    step_by(machine, &mut Known::new())
}

/// At most `bound` steps, up to the first stop: Going where none of them stopped.
pub fn run(machine: &mut Machine, bound: u64) -> Stop
    ensures state { (result, view machine.new) ≡ ended (run bound (view machine.old)) }
    ensures sig { machine.new.sig ≡ machine.old.sig }
{
    let mut known = Known::new();
    for _step in 0..bound {
        if let Some(stop) = step_by(machine, &mut known) {
            return stop;
        }
    }
    Stop::Going
}

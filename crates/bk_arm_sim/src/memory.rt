//! Loads and stores.
ghost use Rattle.std.specs.Prelude.{◌≡◌, ◌≤◌, ◌<◌, ◌+◌, ◌^◌, length, Some, None, IfSome, if◌then◌else◌};
ghost use Rattle.std.specs.Bool.{OnFalse};
ghost use Rattle.bk_num.specs.Memory.{write};
ghost use Rattle.bk_arm_isa.specs.Machine.{load, loaded, stored};
ghost use Rattle.bk_arm_sim.specs.View.{view};

use crate::arithmetic::plus;
use crate::machine::Machine;
use crate::operands::reg;
use crate::registers::set;
use bk_machine::Stop;
use bk_num::{DATA_BASE, POOL_BASE, load_in, store_in};

// Each address is read in one window.
#[tactic(auto, using(crate::proofs::Addressed::reads_stack, crate::proofs::Addressed::reads_data, crate::proofs::Addressed::reads_pool))]
fn load(machine: &Machine, size: usize, address: u64) -> Option<u64>
    requires low { 1 ≤ size }
    requires high { size ≤ 8 }
    ensures value { result ≡ load (view machine.now) size address }
    ensures bound { IfSome result (λ n. n < 256 ^ size) }
{
    if address >= machine.bottom {
        load_in(machine.bottom, &machine.stack, size, address)
    } else if address >= DATA_BASE {
        load_in(DATA_BASE, &machine.window, size, address)
    } else {
        load_in(POOL_BASE, &machine.pool, size, address)
    }
}

/// Loads a register from `size` bytes at `rn` and an offset.
pub fn load_register(
    machine: &mut Machine,
    size: usize,
    rt: u8,
    rn: u8,
    offset: u16,
) -> Option<Stop>
    requires some { 1 ≤ size }
    requires size { size ≤ 4 }
    requires pc { machine.old.pc < 2 ^ 31 }
    ensures state { (result, view machine.new) ≡ loaded (view machine.old) size rt rn offset }
    ensures sig { machine.new.sig ≡ machine.old.sig }
{
    let address = plus(reg(&machine.regs, rn), offset as i64) as u64;
    match load(machine, size, address) {
        Some(n) => {
            set(machine, rt, n as u32);
            None
        }
        None => Some(Stop::Fault(address)),
    }
}

// Each address is written in one window; it answers whether the bytes lie whole in that.
#[tactic(auto, using(crate::proofs::Addressed::writes_stack, crate::proofs::Addressed::writes_data))]
fn store(
    window: &mut [u8],
    bottom: u64,
    stack: &mut [u8],
    size: usize,
    address: u64,
    n: u64,
) -> bool
    requires low { 1 ≤ size }
    requires high { size ≤ 8 }
    requires window { 67108864 + length window.old ≤ bottom }
    ensures value { write window.old bottom stack.old size address n ≡ (if result then Some (window.new, stack.new) else None) }
    ensures kept { OnFalse result ((window.new ≡ window.old) × (stack.new ≡ stack.old)) }
{
    if address >= bottom {
        store_in(bottom, stack, size, address, n)
    } else {
        store_in(DATA_BASE, window, size, address, n)
    }
}

/// Stores a register into `size` bytes at `rn` and an offset.
pub fn store_register(
    machine: &mut Machine,
    size: usize,
    rt: u8,
    rn: u8,
    offset: u16,
) -> Option<Stop>
    requires some { 1 ≤ size }
    requires size { size ≤ 4 }
    requires pc { machine.old.pc < 2 ^ 31 }
    ensures state { (result, view machine.new) ≡ stored (view machine.old) size rt rn offset }
    ensures sig { machine.new.sig ≡ machine.old.sig }
{
    let address = plus(reg(&machine.regs, rn), offset as i64) as u64;
    let n = reg(&machine.regs, rt) as u64;
    if store(
        &mut machine.window,
        machine.bottom,
        &mut machine.stack,
        size,
        address,
        n,
    ) {
        machine.pc += 4;
        None
    } else {
        Some(Stop::Fault(address))
    }
}

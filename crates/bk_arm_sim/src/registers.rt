//! Writes of registers.
ghost use Rattle.std.specs.Prelude.{◌≡◌, ◌<◌, ◌^◌, ℕ, slice_set, slice_index};
ghost use Rattle.bk_arm_isa.specs.Machine.{with_reg};
ghost use Rattle.bk_arm_sim.specs.View.{view};

use crate::machine::Machine;

/// A register.
pub fn put(regs: &mut [u64], k: u8, n: u32)
    requires { (j : ℕ) → slice_index regs.old j < 2 ^ 32 }
    ensures value { regs.new ≡ slice_set regs.old k n }
    ensures fit { (j : ℕ) → slice_index regs.new j < 2 ^ 32 }
{
    if (k as usize) < regs.len() {
        regs[k as usize] = n as u64;
    }
}

/// A register and the next pc.
pub fn set(machine: &mut Machine, rd: u8, n: u32)
    requires { machine.old.pc < 2 ^ 31 }
    ensures state { view machine.new ≡ with_reg (view machine.old) rd n }
    ensures sig { machine.new.sig ≡ machine.old.sig }
{
    put(&mut machine.regs, rd, n);
    machine.pc += 4;
}

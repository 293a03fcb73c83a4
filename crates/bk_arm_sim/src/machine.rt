ghost use Rattle.std.specs.Prelude.{◌≡◌, ◌≤◌, ◌<◌, ◌+◌, ◌*◌, ◌^◌, ℕ, length, slice_index};
ghost use Rattle.bk_arm_sim.specs.Signature.{words_of_sig};

use bk_func::Sig;

/// A machine: its registers, its text and its three windows of bytes.
///
/// The text begins at 65,536, the pool at 33,554,432, the data window at 67,108,864 and the stack
/// at `bottom`. The words of the signature stand from 536,870,912 on, in the stack's window.
#[derive(Drop)]
pub struct Machine {
    /// The registers R0 to R14.
    pub regs: Vec<u64>,
    /// The address of the next instruction.
    pub pc: u64,
    /// The flags N, Z, C and V from bit 3 down.
    pub flags: u8,
    /// The words of the text.
    pub text: Vec<u32>,
    /// The constants, which are only read.
    pub pool: Vec<u8>,
    /// The data window.
    pub window: Vec<u8>,
    /// The stack, and above it the words of the arguments and results.
    pub stack: Vec<u8>,
    /// The address of the first stack byte.
    pub bottom: u64,
    /// The signature of the started function.
    pub sig: Sig,
    ghost registers: { length regs.items ≡ 15 },
    ghost registers_fit: { (k : ℕ) → slice_index regs.items k < 2 ^ 32 },
    ghost pc_fits: { pc < 2 ^ 32 },
    ghost flags_fit: { flags < 2 ^ 4 },
    ghost text_fits: { length text.items ≤ 4194304 },
    ghost pool_fits: { 33554432 + length pool.items ≤ 67108864 },
    ghost window_fits: { 67108864 + length window.items ≤ bottom },
    ghost bottom_fits: { bottom ≤ 536870912 },
    ghost stack_fits: { bottom + length stack.items ≡ 536870912 + 4 * words_of_sig sig },
}

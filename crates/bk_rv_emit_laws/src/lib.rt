//! Laws of the code of riscv64: what the machine does where the instructions of units, steps and ends of blocks stand.
#![tactic(auto)]

ghost use Rattle.std.specs.Prelude.{ℕ};
ghost use Rattle.bk_ops.specs.declared.family.RvOp.{RvOp};
ghost use Rattle.bk_rv_emit_laws.specs.Areas.{WordLoads, WordStores};
ghost use Rattle.bk_rv_emit_laws.specs.Calls.{EntryEnters, EntryTraps, LeaveReturns, CallCalls};
ghost use Rattle.bk_rv_emit_laws.specs.Cuts.{LinesCut, WordsCut, InstsStand};
ghost use Rattle.bk_rv_emit_laws.specs.Does.{UnitDoes, ConstDoes, AddrDoes};
ghost use Rattle.bk_rv_emit_laws.specs.Ends.{SizesReach, JumpComes, BranchComes};
ghost use Rattle.bk_rv_emit_laws.specs.Jumps.{JumpGoes, BranchGoes, JumpFits, BranchFits};
ghost use Rattle.bk_rv_emit_laws.specs.Octets.{LoadsAreBelow, StoresAreBytes};
ghost use Rattle.bk_rv_emit_laws.specs.Patched.{AddrBecomes, PoolBecomes, CallBecomes};
ghost use Rattle.bk_rv_emit_laws.specs.Steps.{ValueMakes, LoadMakes, StoreMakes, MoveMakes, ComputeMakes, StepsMake};
ghost use Rattle.bk_rv_emit_laws.specs.Windows.{IsSize, LoadDoes, StoreDoes, StoreBoolDoes, CheckPasses, CheckTraps, TrapDoes, ZeroDoes, MoveDoes};

/// A law: where the unit of a pure op stands, the machine goes through it and leaves the op's value in the unit's register; so do
/// the units of constants and addresses.
pub fn units_compute()
    ensures ops { (o : RvOp) → UnitDoes o }
    ensures constants { ConstDoes }
    ensures addresses { AddrDoes }
{}

/// A law: in the data window loads read what stands there; stores of words and bits, zeros, and bytes that are moved leave what the
/// meaning says; checks and traps go on or trap with their numbers.
pub fn units_reach_memory()
    ensures loads { (w : ℕ) → IsSize w → LoadDoes w }
    ensures stores { (w : ℕ) → IsSize w → StoreDoes w }
    ensures bools { StoreBoolDoes }
    ensures passes { CheckPasses }
    ensures fails { CheckTraps }
    ensures traps { TrapDoes }
    ensures zeros { ZeroDoes }
    ensures moves { MoveDoes }
{}

/// A law: a number that is loaded from bytes is below 256 to their count, and a store leaves bytes.
pub fn windows_are_bytes()
    ensures loads { LoadsAreBelow }
    ensures stores { StoresAreBytes }
{}

/// A law: the lines of a step do to the registers and words of a frame what the step says, loads and stores near the stack pointer
/// and far from it, moves, and what units compute; and steps do so one behind the other.
pub fn steps_move_values()
    ensures values { ValueMakes }
    ensures loads { LoadMakes }
    ensures stores { StoreMakes }
    ensures moves { MoveMakes }
    ensures computes { ComputeMakes }
    ensures sequences { StepsMake }
{}

/// A law: the words of calls, which a function was given or gives back behind its frame and which it hands to its own calls below its
/// slots, are loaded and stored by their offsets, near and far, and the frame's places hold what they held.
pub fn words_of_calls_move()
    ensures loads { WordLoads }
    ensures stores { WordStores }
{}

/// A law: a jump of any form goes to its place, and a branch where what was tested is so, else behind itself; the fields of a form
/// that reaches from one place to another fit.
pub fn jumps_arrive()
    ensures jumps { JumpGoes }
    ensures branches { BranchGoes }
    ensures jumps_fit { JumpFits }
    ensures branches_fit { BranchFits }
{}

/// A law: what a function begins with makes its frame and saves the return address where the stack that is left has room for it,
/// else it traps 5; what it ends with gives the frame back and is at the return address; a call is at the callee, with the address
/// behind it in x1.
pub fn calls_begin_and_end()
    ensures entries { EntryEnters }
    ensures exhausted { EntryTraps }
    ensures endings { LeaveReturns }
    ensures calls { CallCalls }
{}

/// A law: the words of a unit that waits for an address are those of its instructions once the address, or for a call the distance, is
/// in them: of an address, of a constant in the pool, of a call.
pub fn patches_fill_units()
    ensures addresses { AddrBecomes }
    ensures constants { PoolBecomes }
    ensures calls { CallBecomes }
{}

/// A law: lines stand one behind the other, and where the words of lines that are instructions stand, the instructions do.
pub fn lines_stand()
    ensures lines { LinesCut }
    ensures words { WordsCut }
    ensures instructions { InstsStand }
{}

/// A law: where the words of a block's end stand, with sizes that reach, the machine comes to the block that is chosen, in one step at
/// least where that does not stand next; the least sizes of a function's branches reach.
pub fn ends_come_to_blocks()
    ensures sizes { SizesReach }
    ensures jumps { JumpComes }
    ensures branches { BranchComes }
{}

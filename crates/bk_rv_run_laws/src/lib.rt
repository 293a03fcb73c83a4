//! Laws of runs of riscv64's code: the machine follows what functions mean, where it follows each of their blocks.
#![tactic(auto)]

ghost use Rattle.std.specs.Prelude.{◌≡◌, ◌≤◌, ℕ, ◌+◌, ◌*◌, List};
ghost use Rattle.bk_func.specs.Meaning.{World, Run, ended};
ghost use Rattle.bk_func.specs.Numbers.{Program};
ghost use Rattle.bk_rv_isa.specs.Machine.{Machine, halt};
ghost use Rattle.bk_run_laws.specs.Follows.{Follows, Meets};
ghost use Rattle.bk_run_laws.specs.Standing.{ArePlaces, OneBlock, BlockLaw};
ghost use Rattle.bk_rv_run_laws.specs.Calling.{CallsFollow, PackagesRun};
ghost use Rattle.bk_rv_run_laws.specs.Edges.{WaysKeep, EdgesFollow};
ghost use Rattle.bk_rv_run_laws.specs.Left.{JumpFollows, BranchFollows, ExitFollows};
ghost use Rattle.bk_rv_run_laws.specs.Relation.{Image, Beside, IsBack, HasResults, riscv64, standing, RetEnds};
ghost use Rattle.bk_rv_run_laws.specs.Within.{CallsReturn};

/// A law: a block that ends with a return comes back from its call, with its results and with memory beside its words as before.
pub fn returns_come_back()
    ensures { RetEnds }
{}

/// A law: what parts of a call leave as it was, they leave so together, and a call that comes back from behind a part comes back
/// from before it; a call that came back within another one is such a part.
pub fn calls_leave_what_is_above()
    ensures parts { (limit : ℕ) (m n o : Machine) → Beside limit m n → Beside limit n o → Beside limit m o }
    ensures behind { (args words home sp : ℕ) (m n o : Machine) (results : List ℕ) (v : World) → Beside (sp + 8 * words) m n → IsBack args words home sp n results v o → IsBack args words home sp m results v o }
    ensures within { (args words home sp limit : ℕ) (m n : Machine) (results : List ℕ) (v : World) → sp + 8 * words ≤ limit → IsBack args words home sp m results v n → Beside limit m n }
{}

/// A law: where the machine follows each block of a package, it follows all runs from the entries of its blocks.
pub fn runs_are_followed()
    ensures { (x : Image) (p : Program) → ArePlaces p x.blocks (standing x p).place → OneBlock riscv64 (standing x p) p → (k : ℕ) → BlockLaw riscv64 (standing x p) k p }
{}

/// A law: where the machine follows a call that returns to where it halts, it does what the call comes to: it returns with its
/// results and the data window, it traps with its number, or it goes on for as many steps as the bound of blocks over their count.
pub fn machines_meet_the_meaning()
    ensures { (blocks args words sp : ℕ) (w : World) (m : Machine) (r : Run (List ℕ)) →
        Follows riscv64 (List ℕ) blocks 0 w m (IsBack args words halt sp m) r → Meets riscv64 w.left blocks m (HasResults args sp) (ended r).0 (ended r).1 }
{}

/// A law: what the entry of a block wants is kept by ways that write x31 alone, as the ends of blocks are; and where the machine comes
/// from the end of a block to another one, as its entry wants it, it follows the run from there on.
pub fn edges_are_followed()
    ensures ways { WaysKeep }
    ensures edges { EdgesFollow }
{}

/// A law: from where the lines of a block's end stand, the machine follows how the block is left: on to its successor, on to the
/// one that the control's low bit chooses, or to trap 6 at the end of a program.
pub fn blocks_are_left()
    ensures jumps { JumpFollows }
    ensures branches { BranchFollows }
    ensures exits { ExitFollows }
{}

/// A law: where the machine follows runs from the entries of blocks, it follows calls, from the beginning of a function on, with its
/// arguments in registers and in the stack: it traps where the frame exceeds the stack that is left, else it comes to the first block.
pub fn calls_are_followed()
    ensures { CallsFollow }
{}

/// A law: then the machine follows a call that stands in a frame, too; where it comes back the machine is behind it, its results are
/// there, and the words of the frame hold what they held.
pub fn calls_come_back()
    ensures { CallsReturn }
{}

/// A law: where the machine follows each block of a package, then from its start at a function, with arguments and a stack, it does
/// what the meaning of the call says, for every bound of blocks.
pub fn packages_run()
    ensures { PackagesRun }
{}

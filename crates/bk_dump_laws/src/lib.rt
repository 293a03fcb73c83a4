//! Laws of the text of packages, over the definitions of its reader and its printer alone: which parts spell each line, which
//! declarations a text spells, what names a package that was read has, and that a written package is read again.
#![tactic(auto)]

ghost use Rattle.std.specs.Prelude.{◌≡◌, ◌↔◌, ℕ, List, Some, Ok, Err, ◌≤◌, ◌+◌, length, All, Contains};
ghost use Rattle.std.specs.Str.{IsUtf8};
ghost use Rattle.bk_dump_laws.specs.Naming.{HasNames};
ghost use Rattle.bk_dump.specs.declared.read.errors.Fault.TheVariants.{Syntax};
ghost use Rattle.bk_ops.specs.declared.types.Target.{Target};
ghost use Rattle.bk_func.specs.Records.{PackageRecord};
ghost use Rattle.bk_dump.specs.Print.{text_of};
ghost use Rattle.bk_dump_laws.specs.Printed.{declarations_of, FitsText};
ghost use Rattle.bk_dump_laws.specs.Declarations.{Declaration, SpellsAll};
ghost use Rattle.bk_dump_laws.specs.Limits.{SpellsPackage};
ghost use Rattle.bk_dump.specs.Texts.{reading, at_line};
ghost use Rattle.bk_dump.specs.Views.{IsFormed};
ghost use Rattle.bk_dump.specs.Trees.{LabelTree, EndTree, HeaderTree, ValueTree, VarTree};
ghost use Rattle.bk_dump.specs.Values.{value_at};
ghost use Rattle.bk_dump.specs.Headers.{header_at, var_at};
ghost use Rattle.bk_dump.specs.Blocks.{block_at, end_at};
ghost use Rattle.bk_dump.specs.Parts.{Spells, IsName};
ghost use Rattle.bk_dump_laws.specs.Lines.{IsBlockLine, IsEndLine, IsFuncLine, IsValueLine, IsVarLine};

/// A law: a line is read as one that opens a block exactly where its parts spell it.
pub fn opening_lines()
    ensures { (line : List ℕ) (b : LabelTree) → block_at line ≡ Some b ↔ Spells IsBlockLine line b }
{}

/// A law: a line is read as one that ends a block exactly where its parts spell it.
pub fn ending_lines()
    ensures { (line : List ℕ) (e : EndTree) → end_at line ≡ Some e ↔ Spells IsEndLine line e }
{}

/// A law: a line is read as one that opens a function exactly where its parts spell it.
pub fn function_lines()
    ensures { (line : List ℕ) (h : HeaderTree) → header_at line ≡ Some h ↔ Spells IsFuncLine line h }
{}

/// A law: a line is read as one that declares a variable exactly where its parts spell it.
pub fn variable_lines()
    ensures { (line : List ℕ) (v : VarTree) → var_at line ≡ Some v ↔ Spells IsVarLine line v }
{}

/// A law: a line is read as one of a value exactly where its parts spell it.
pub fn value_lines()
    ensures { (line : List ℕ) (v : ValueTree) → value_at line ≡ Some v ↔ Spells IsValueLine line v }
{}

/// A law: a text reads as a package exactly where its lines spell declarations that keep the limits, and the package is
/// what they declare, its references looked up.
pub fn accepted_texts()
    ensures { (text : List ℕ) (p : PackageRecord) → reading text ≡ Ok p ↔ ((ds : List Declaration) × SpellsPackage text ds p) }
{}

/// A law: the text of a package spells what the package declares, where each of its declarations has a line that says it.
pub fn written_texts()
    ensures { (p : PackageRecord) → FitsText p → SpellsAll (text_of p) (declarations_of p) }
{}

/// A law: what is written of a package that some text reads as, its functions in form, reads as the package again.
pub fn read_again()
    ensures { (text : List ℕ) (p : PackageRecord) (t : Target) → reading text ≡ Ok p → All (IsFormed p t) p.funcs → reading (text_of p) ≡ Ok p }
{}

/// A law: no line has two forms where both may stand, so it does not matter which is tried first.
pub fn one_form()
    ensures declarations { (line : List ℕ) (v : VarTree) (h : HeaderTree) → Spells IsVarLine line v → Spells IsFuncLine line h → ⊥ }
    ensures blocks { (line : List ℕ) (b : LabelTree) (v : VarTree) → Spells IsBlockLine line b → Spells IsVarLine line v → ⊥ }
    ensures functions { (line : List ℕ) (b : LabelTree) (h : HeaderTree) → Spells IsBlockLine line b → Spells IsFuncLine line h → ⊥ }
    ensures values { (line : List ℕ) (v : ValueTree) (e : EndTree) → Spells IsValueLine line v → Spells IsEndLine line e → ⊥ }
{}

/// A law: a text that spells declarations is not refused for its syntax.
pub fn spelled_texts()
    ensures { (text : List ℕ) (ds : List Declaration) (line : ℕ) → SpellsAll text ds → reading text ≡ Err (at_line Syntax line) → ⊥ }
{}

/// A law: each function and each variable of a package that a text reads as has a name of its own, and such names may
/// stand in an object; the signature of each function has at most 64 places.
pub fn names_of_texts()
    ensures named { (text : List ℕ) (p : PackageRecord) → reading text ≡ Ok p → HasNames text p }
    ensures signed { (text : List ℕ) (p : PackageRecord) → reading text ≡ Ok p → All (λ f. length f.sig.args + length f.sig.results ≤ 64) p.funcs }
    ensures clean { (name : List ℕ) → IsName name → (Contains name 0 → ⊥) × IsUtf8 name }
{}

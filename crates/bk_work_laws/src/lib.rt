//! Laws of compiled packages: the object is one, whatever the order of the shared table's steps.
#![tactic(auto)]

ghost use Rattle.std.specs.Prelude.{◌≡◌, ◌≤◌, ℕ, List};
ghost use Rattle.bk_ops.specs.declared.types.Target.{Target};
ghost use Rattle.bk_core.specs.declared.events.Event.{Event};
ghost use Rattle.bk_elf.specs.File.{file_of};
ghost use Rattle.bk_func.specs.Limits.{most_text};
ghost use Rattle.bk_func.specs.Records.{PackageRecord};
ghost use Rattle.bk_link.specs.Linked.{code_size, gathered};
ghost use Rattle.bk_piece.specs.Filled.{area};
ghost use Rattle.bk_piece.specs.Pieces.{PieceRecord};
ghost use Rattle.bk_piece.specs.Rising.{keys_in};
ghost use Rattle.bk_rule.specs.declared.trees.Rule.{Rule};
ghost use Rattle.bk_work.specs.Framed.{FramedRecord};
ghost use Rattle.bk_work.specs.Package.{AreFramed, IsCompiled};
ghost use Rattle.bk_work.specs.Rules.{rules_of};
ghost use Rattle.bk_work_laws.specs.Runs.{IsRun, reached};

/// A law: where the functions of a package are in frames, and their code, which is not too long, has handles into cells that any
/// steps of the shared table left, its object is the object of the package.
pub fn gathers()
    ensures { (pkg : PackageRecord) (t : Target) (extra : List Rule) (framed : List FramedRecord) (parts : ℕ) (events : List Event) (pieces : List PieceRecord) → AreFramed pkg t (rules_of t extra) framed → IsRun t framed parts events pieces → code_size pieces (keys_in (area (reached framed parts events) 2)) ≤ most_text → IsCompiled pkg t extra (file_of (gathered pkg t pieces (reached framed parts events))) }
{}

/// A law: functions in frames have one object, whatever the steps of the shared table were.
pub fn one_object()
    ensures { (pkg : PackageRecord) (t : Target) (framed : List FramedRecord) (parts others : ℕ) (events steps : List Event) (pieces codes : List PieceRecord) → IsRun t framed parts events pieces → IsRun t framed others steps codes → file_of (gathered pkg t pieces (reached framed parts events)) ≡ file_of (gathered pkg t codes (reached framed others steps)) }
{}

/// A law: a package has one object for functions in these frames.
pub fn compiles_once()
    ensures { (pkg : PackageRecord) (t : Target) (extra : List Rule) (bytes others : List ℕ) (one : IsCompiled pkg t extra bytes) (two : IsCompiled pkg t extra others) → one.made.framed ≡ two.made.framed → bytes ≡ others }
{}

/// A law: the answer with threads is the answer of one: an object of the package is what any steps of the shared table give for
/// its functions in frames.
pub fn threads_answer_as_one()
    ensures { (pkg : PackageRecord) (t : Target) (extra : List Rule) (bytes : List ℕ) (one : IsCompiled pkg t extra bytes) (parts : ℕ) (events : List Event) (pieces : List PieceRecord) → IsRun t one.made.framed parts events pieces → file_of (gathered pkg t pieces (reached one.made.framed parts events)) ≡ bytes }
{}

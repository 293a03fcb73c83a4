//! Laws of clean: it makes one function of a function.
#![tactic(auto)]

ghost use Rattle.std.specs.Prelude.{◌≡◌};
ghost use Rattle.bk_func.specs.Records.{FuncRecord};
ghost use Rattle.bk_graph.specs.Cleaned.{IsCleaned};
ghost use Rattle.bk_graph.specs.Given.{IsGiven};

/// A law: of a function in form the rules leave one function.
pub fn cleans_once()
    ensures { (f g h : FuncRecord) → IsGiven f → IsCleaned f g → IsCleaned f h → g ≡ h }
{}

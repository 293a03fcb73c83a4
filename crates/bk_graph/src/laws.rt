// What holds of the definitions.
ghost use Rattle.bk_func.specs.Records.{FuncRecord};
ghost use Rattle.bk_graph.specs.Given.{IsGiven};
ghost use Rattle.bk_graph.specs.Joined.{IsJoined};

/// The blocks of a function in form are joined.
#[tactic(auto, using(crate::proofs::Forming::joined))]
pub fn forms_are_joined()
    ensures { (f : FuncRecord) → IsGiven f → IsJoined f }
{}

// What the steps of the table are.
ghost use Rattle.std.specs.Prelude.{◌≡◌, ◌≢◌, ℕ, ◌<◌, length};
ghost use Rattle.std.specs.List.{Contains};
ghost use mathlib.Core.Option.{some};
ghost use lib.ListN.{get_elem?};
ghost use Rattle.bk_core.specs.Rule.{keys_of, cells_of};
ghost use Rattle.bk_core.specs.Events.{HasWalked};
ghost use Rattle.bk_core.specs.declared.events.Event.TheVariants.{Claim, Look, Take, Split, Join};
ghost use Rattle.bk_share.specs.declared.rules.Seen.{Seen};
ghost use Rattle.bk_share.specs.Plan.{Scheme};
ghost use Rattle.bk_share.specs.Law.{TableState};
ghost use Rattle.bk_share.specs.Steps.{after_claim, after_look, after_take, after_split, after_join, IsSeat, IsEvent};

/// Each of the five atomic steps of a table is one event of its core, whose conditions hold there: the
/// premises are what a pass has, or what its own view shows. The function does nothing: what it says is
/// in its clauses.
pub fn each_step_is_an_event()
    ensures claim { (p : Scheme) (s : TableState) (id : ℕ) (v : Seen) → IsSeat p s id v → IsEvent p s (Claim id) (after_claim s id v) }
    ensures look { (p : Scheme) (s : TableState) (id : ℕ) (v : Seen) (area cell : ℕ) → IsSeat p s id v → area < 3 → cell < cells_of p.announced area → IsEvent p s (Look id area cell) (after_look p s id v area cell) }
    ensures take { (p : Scheme) (s : TableState) (id : ℕ) (v : Seen) (area cell key : ℕ) → IsSeat p s id v → area < 3 → cell < cells_of p.announced area → key ≢ 0 → Contains (keys_of p.announced area) key → HasWalked v.view.known (cells_of p.announced area) area cell key → IsEvent p s (Take id area cell key) (after_take p s id v area cell key) }
    ensures split { (p : Scheme) (s : TableState) (id : ℕ) (v : Seen) → IsSeat p s id v → 1 < v.view.parts → IsEvent p s (Split id) (after_split s id v) }
    ensures join { (p : Scheme) (s : TableState) (id : ℕ) (v : Seen) (other : ℕ) (w : Seen) → IsSeat p s id v → IsSeat p s other w → other ≢ id → IsEvent p s (Join other id) (after_join s id v other w) }
{}

// Laws of the core. The functions do nothing: what they say is in their clauses.
ghost use Rattle.std.specs.Prelude.{◌==◌, ◌∷◌, [], count_by, ◌≡◌, ℕ, ◌<◌, ◌≤◌, ◌^◌, List, length};
ghost use Rattle.std.specs.List.{Contains};
ghost use Rattle.bk_core.specs.Rule.{Sight, worker, cells_of};
ghost use Rattle.bk_core.specs.Events.{CoreState, core_state, word_at, MeetsRule, after, CanHappen, IsAnnounced, CanRun, start, reach};
ghost use Rattle.bk_core.specs.declared.events.Event.{Event};

/// An event whose conditions hold keeps the rule, where a take's key is announced in its area.
pub fn one_event()
    ensures { (announced : List (List ℕ)) (parts : ℕ) (m : CoreState) (e : Event) → MeetsRule announced parts m → CanHappen m e → IsAnnounced announced e → MeetsRule announced parts (after m e) }
{}

/// From the start on, every list of events whose conditions hold leads to a core that meets the rule,
/// whatever keys are announced in the three areas. No take is of the key 0.
pub fn every_run()
    ensures { (announced : List (List ℕ)) (parts : ℕ) (events : List Event) → length announced ≡ 3 → 1 ≤ parts → CanRun announced (start announced parts) events → MeetsRule announced parts (reach announced parts events) }
{}

/// In each area a cell is free.
pub fn one_is_free()
    ensures { (announced : List (List ℕ)) (parts : ℕ) (m : CoreState) (area : ℕ) → MeetsRule announced parts m → area < 3 → (cell : ℕ) × (cell < cells_of announced area) × (word_at m.areas area cell ≡ 0) }
{}

/// A key has one cell: all workers that know its cell know the same.
pub fn one_key_one_cell()
    ensures { (announced : List (List ℕ)) (parts : ℕ) (m : CoreState) (v w area c d key : ℕ) → MeetsRule announced parts m → Contains (worker m.workers v).known (area, c, key) → Contains (worker m.workers w).known (area, d, key) → c ≡ d }
{}

/// A worker that has all the parts has all the numbers: the others' lists may be left out.
pub fn all_parts_know_all()
    ensures { (announced : List (List ℕ)) (parts : ℕ) (m : CoreState) (w : ℕ) → MeetsRule announced parts m → 1 ≤ parts → (worker m.workers w).parts ≡ parts → MeetsRule announced parts (core_state m.claims m.areas (worker m.workers w ∷ [])) }
{}

/// Where one worker has all numbers, and one of them is at or above the count, each number below the count was drawn once.
pub fn each_is_drawn()
    ensures { (announced : List (List ℕ)) (parts : ℕ) (areas : List (List ℕ)) (claims count n : ℕ) (v : Sight) → MeetsRule announced parts (core_state claims areas (v ∷ [])) → length v.numbers ≤ 2 ^ 64 → count ≤ n → Contains v.numbers n → (x : ℕ) → x < count → count_by (λ y. y == x) v.numbers ≡ 1 }
{}

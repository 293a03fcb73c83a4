// The words that calls take as arguments.
ghost use Rattle.std.specs.Prelude.{◌≡◌, ◌↔◌, ◌⊎◌, ℕ, IsTrue, IfOk, OnOk, Some, true, false, length, option_map, replicate, slice_index_or, slice_set, if◌then◌else◌};
ghost use Rattle.std.specs.List.{Contains, slice_get};
ghost use Rattle.bk_ops.specs.Families.{is_word_call};
ghost use Rattle.bk_func.specs.Records.{ValueRecord, SigRecord};
ghost use Rattle.bk_func.specs.Form.Text.{IsPhi};
ghost use Rattle.bk_func.specs.Form.Signatures.{sig_of};
ghost use Rattle.bk_func.specs.Form.Shapes.{FitsWordOf};
ghost use Rattle.bk_places.specs.Search.{IsClear};
ghost use Rattle.bk_form.specs.Names.{IsScope, measure, seen_callee};
ghost use Rattle.bk_form.specs.Places.{NodeRecord, nodes_of, first_named, mark_of};
ghost use Rattle.bk_form.specs.Roots.{AreRoots};
ghost use Rattle.bk_form.specs.Sent.{Passes, LeadsTo, StepsTo, IsFoundFrom, AreSteps, AnswersCalls};
ghost use Rattle.bk_form.specs.Walks.{IsFlow};

use crate::flow::{Flow, is_home};
use crate::names::{Callee, Scope};
use crate::naming::named;
use crate::places::Node;
use crate::words::{fits_word, is_argument_word};
use bk_func::Value;
use bk_ops::{is_phi, is_word_call};
use bk_places::{Edges, Search};
use std::alloc::{AllocError, Global};

/// What is asked of a word and of the signature of the call behind it.
#[derive(Clone, Copy)]
pub(crate) enum Question {
    /// Whether what stands in the word does not fit the signature's word with this number.
    Misfit,
    /// Whether the signature's arguments have a word with this number.
    Counted,
}

/// For each word whether the answer is yes for a call that is the next one behind it.
pub(crate) fn answers(
    alloc: Global,
    flow: &Flow,
    roots: &[Option<usize>],
    question: Question,
) -> Result<Vec<bool>, AllocError>
    requires flow { IsFlow flow.now }
    requires roots { AreRoots flow.now.scope.func.now roots.now }
    ensures { IfOk result (λ answers. AnswersCalls (measure flow.now.scope) flow.now.scope.func.now question answers.items) }
{
    let steps = steps(alloc, flow, roots)?;
    answers_along(alloc, flow, roots, &steps, question)
}

/// The same, given the steps back from what calls name.
fn answers_along(
    alloc: Global,
    flow: &Flow,
    roots: &[Option<usize>],
    steps: &Edges,
    question: Question,
) -> Result<Vec<bool>, AllocError>
    requires flow { IsFlow flow.now }
    requires roots { AreRoots flow.now.scope.func.now roots.now }
    requires steps { AreSteps flow.now.scope.func.now (length (nodes_of flow.now.scope.func.now)) steps.now }
    ensures { IfOk result (λ answers. AnswersCalls (measure flow.now.scope) flow.now.scope.func.now question answers.items) }
{
    let mut search = Search::new(alloc, steps.len())?;
    let mut answers = all_no(alloc, flow.nodes.len())?;
    for node in &flow.nodes {
        let callee = call_by(&flow.scope, node.value);
        let before = named_beside(flow, roots, node);
        ask(
            &mut answers,
            &mut search,
            flow,
            steps,
            before,
            callee,
            question,
        )?;
    }
    Ok(answers)
}

/// The answer no for this many places.
fn all_no(alloc: Global, places: usize) -> Result<Vec<bool>, AllocError>
    ensures { IfOk result (λ answers. answers.items ≡ replicate places false) }
{
    let answers = vec![in alloc; false; places]?;
    Ok(answers)
}

/// Notes the answers for what a call with this signature has before it, given the place of what it names.
fn ask(
    answers: &mut Vec<bool>,
    search: &mut Search,
    flow: &Flow,
    steps: &Edges,
    before: Option<usize>,
    callee: Option<Callee>,
    question: Question,
) -> Result<(), AllocError>
    requires flow { IsFlow flow.now }
    requires clear { IsClear (length steps.now) search.old }
    requires size { length answers.old.items ≡ length (nodes_of flow.now.scope.func.now) }
    ensures clear { OnOk result (IsClear (length steps.now) search.new) }
    ensures size { OnOk result (length answers.new.items ≡ length answers.old.items) }
    ensures each { OnOk result ((p : ℕ) (m : NodeRecord) → slice_get (nodes_of flow.now.scope.func.now) p ≡ Some m → (slice_index_or answers.new.items p false ≡ true) ↔ ((slice_index_or answers.old.items p false ≡ true) ⊎ ((g : SigRecord) × (option_map seen_callee callee.entry ≡ Some g) × IsFoundFrom steps.now before p × Passes (measure flow.now.scope) flow.now.scope.func.now question g m.value))) }
{
    let Some(callee) = callee else { return Ok(()) };
    let Some(start) = before else { return Ok(()) };
    search.extend(steps, steps.len(), start, start)?;
    note(answers, flow, &search.reached, callee, question);
    search.clear();
    Ok(())
}

/// Notes at which of the places the answer is yes.
fn note(answers: &mut Vec<bool>, flow: &Flow, places: &[usize], callee: Callee, question: Question)
    requires flow { IsFlow flow.now }
    requires size { length answers.old.items ≡ length (nodes_of flow.now.scope.func.now) }
    ensures size { length answers.new.items ≡ length answers.old.items }
    ensures each { (p : ℕ) (m : NodeRecord) → slice_get (nodes_of flow.now.scope.func.now) p ≡ Some m → (slice_index_or answers.new.items p false ≡ true) ↔ ((slice_index_or answers.old.items p false ≡ true) ⊎ (Contains places.now p × Passes (measure flow.now.scope) flow.now.scope.func.now question (seen_callee callee.entry) m.value)) }
{
    for place in places {
        let is_yes = passes_at(flow, *place, callee, question);
        note_at(answers, *place, is_yes);
    }
}

/// Notes the answer yes for the place.
fn note_at(answers: &mut Vec<bool>, place: usize, is_yes: bool)
    ensures { answers.new.items ≡ (if is_yes then slice_set answers.old.items place true else answers.old.items) }
{
    if is_yes && place < answers.len() {
        answers[place] = true;
    }
}

/// Whether the answer is yes for the value at the place.
fn passes_at(flow: &Flow, place: usize, callee: Callee, question: Question) -> bool
    requires { IsFlow flow.now }
    ensures { IsTrue result ↔ ((m : NodeRecord) × (slice_get (nodes_of flow.now.scope.func.now) place ≡ Some m) × Passes (measure flow.now.scope) flow.now.scope.func.now question (seen_callee callee.entry) m.value) }
{
    match flow.nodes.get(place) {
        Some(node) => passes(&flow.scope, node.value, callee, question),
        None => false,
    }
}

fn passes(scope: &Scope, word: &Value, callee: Callee, question: Question) -> bool
    requires { IsScope scope.now }
    ensures { IsTrue result ↔ Passes (measure scope.now) scope.now.func.now question (seen_callee callee.entry) word.now }
{
    match question {
        Question::Misfit => is_misfit(scope, word, callee),
        Question::Counted => is_argument_word(scope, callee, word.int),
    }
}

/// Whether what stands in the word does not fit the signature's word with this number.
fn is_misfit(scope: &Scope, word: &Value, callee: Callee) -> bool
    requires { IsScope scope.now }
    ensures { IsTrue result ↔ ((u : ValueRecord) × (first_named scope.now.func.now word.now ≡ Some u) × ¬ FitsWordOf (measure scope.now) (seen_callee callee.entry) word.now.int u.ty) }
{
    match scope.first_value(word) {
        Some(held) => !fits_word(scope, callee, word.int, held.ty),
        None => false,
    }
}

/// The signature of the call of words that the value is, if it is one.
fn call_by<'a>(scope: &Scope<'a>, value: &Value) -> Option<Callee<'a>>
    requires { IsScope scope.now }
    ensures { (g : SigRecord) → (option_map seen_callee result ≡ Some g) ↔ ((is_word_call value.now.op.family ≡ true) × (sig_of scope.now.pkg.now value.now.aux ≡ Some g)) }
{
    if is_word_call(value.op.family) {
        scope.callee_of(value.aux)
    } else {
        None
    }
}

/// Behind the place of each value that is neither a phi nor a call that of what it names in its block.
fn steps(alloc: Global, flow: &Flow, roots: &[Option<usize>]) -> Result<Edges, AllocError>
    requires flow { IsFlow flow.now }
    requires roots { AreRoots flow.now.scope.func.now roots.now }
    ensures { IfOk result (λ steps. AreSteps flow.now.scope.func.now (length (nodes_of flow.now.scope.func.now)) steps) }
{
    let mut steps = Edges::with_capacity(alloc, flow.nodes.len())?;
    for node in &flow.nodes {
        let behind = step(alloc, flow, roots, node)?;
        steps.push(behind)?;
    }
    Ok(steps)
}

/// The place of what the value names in its block, if it is neither a phi nor a call: one or none.
fn step(
    alloc: Global,
    flow: &Flow,
    roots: &[Option<usize>],
    node: &Node,
) -> Result<Vec<usize>, AllocError>
    requires flow { IsFlow flow.now }
    requires roots { AreRoots flow.now.scope.func.now roots.now }
    requires node { Contains (nodes_of flow.now.scope.func.now) node.now }
    ensures { IfOk result (λ places. (q : ℕ) → Contains places.items q ↔ StepsTo flow.now.scope.func.now node.now q) }
{
    let before = named_beside(flow, roots, node);
    let Some(place) = before else {
        return Ok(Vec::new(alloc))
    };
    let ends = ends_search(node.value);
    if ends {
        return Ok(Vec::new(alloc));
    }
    let mut places = Vec::with_capacity(alloc, 1)?;
    places.push(place)?;
    Ok(places)
}

/// Whether a search back ends with the value: a phi, or the call before.
fn ends_search(value: &Value) -> bool
    ensures { IsTrue result ↔ IsPhi value.now ⊎ (is_word_call value.now.op.family ≡ true) }
{
    is_phi(value.op.family) || is_word_call(value.op.family)
}

/// The place of what the value names in its block.
fn named_beside(flow: &Flow, roots: &[Option<usize>], node: &Node) -> Option<usize>
    requires flow { IsFlow flow.now }
    requires roots { AreRoots flow.now.scope.func.now roots.now }
    requires node { Contains (nodes_of flow.now.scope.func.now) node.now }
    ensures { (q : ℕ) → (result ≡ Some q) ↔ LeadsTo flow.now.scope.func.now node.now q }
{
    let found = named(flow, roots, node.value);
    let Some(place) = found else { return None };
    if is_home(flow, node.home, place) {
        Some(place)
    } else {
        None
    }
}

/// Whether the value is marked in the list by place.
pub(crate) fn is_marked(scope: &Scope, marks: &[bool], value: &Value) -> bool
    requires { IsScope scope.now }
    ensures { result ≡ mark_of scope.now.func.now marks.now value.now.id }
{
    match scope.numbers.value(value.id) {
        Some(place) => marks.get(place).copied().unwrap_or(false),
        None => false,
    }
}

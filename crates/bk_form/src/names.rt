// What the symbols of a package name.
ghost use Rattle.std.specs.Prelude.{◌≡◌, ◌==◌, ◌<◌, ℕ, IfOk, IsTrue, ◌↔◌, option_map, position, slice_index_or, None, Some, false, length, vec_len, if◌then◌else◌, nat_lt};
ghost use Rattle.std.specs.List.{All, list_any, find};
ghost use Rattle.std.specs.Option.{option_copied, option_or};
ghost use Rattle.bk_func.specs.Form.Signatures.{sig_named, sig_of, IsVariable};
ghost use Rattle.bk_func.specs.Form.Parts.{IsBlockNumber, IsValueNumber};
ghost use Rattle.bk_form.specs.Names.{AreNames, IsScope, seen_callee};
ghost use Rattle.bk_form.specs.Places.{value_with, first_named, callee_named};

use crate::numbers::Numbers;
use crate::places::Node;
use bk_func::{Aux, Func, PANIC_DIVIDE, PANIC_SHIFT, Package, Value, Var};
use bk_ops::{Memory, Target, Ty};
use std::alloc::{AllocError, Global};

/// The types of a function's arguments and results.
#[derive(Clone, Copy)]
pub(crate) struct Callee<'a> {
    pub(crate) args: &'a [Ty],
    pub(crate) results: &'a [Ty],
}

/// What each name of a package names, the name's number being the index.
#[derive(Drop)]
pub struct Names {
    /// The place of the first function with the name.
    pub(crate) funcs: Vec<Option<usize>>,
    /// Whether a variable has the name.
    pub(crate) vars: Vec<bool>,
}

impl Names {
    /// What the names of this package name.
    pub fn new(alloc: Global, pkg: &Package) -> Result<Names, Memory>
        ensures { IfOk result (λ names. AreNames pkg.now names) }
    {
        let funcs = first_funcs(alloc, pkg.names.len(), &pkg.funcs)?;
        let vars = var_names(alloc, pkg.names.len(), &pkg.vars)?;
        Ok(Names { funcs, vars })
    }
}

/// For each name the place of the first function that has it.
fn first_funcs(
    alloc: Global,
    names: usize,
    funcs: &[Func],
) -> Result<Vec<Option<usize>>, AllocError>
    ensures len { IfOk result (λ firsts. length firsts.items ≡ names) }
    ensures first { IfOk result (λ firsts. (s : ℕ) → s < names → slice_index_or firsts.items s None ≡ position (λ f. f.name == s) funcs.now) }
{
    let mut firsts = vec![in alloc; None; names]?;
    for (place, func) in funcs.iter().enumerate() {
        note_first(&mut firsts, func.name as usize, place);
    }
    Ok(firsts)
}

/// Notes the place of a function with this name, where none is noted yet.
fn note_first(firsts: &mut Vec<Option<usize>>, name: usize, place: usize)
    ensures len { length firsts.new.items ≡ length firsts.old.items }
    ensures first { (s : ℕ) → s < length firsts.old.items → slice_index_or firsts.new.items s None ≡ (if s == name then option_or (slice_index_or firsts.old.items s None) (Some place) else slice_index_or firsts.old.items s None) }
{
    if name < firsts.len() {
        firsts[name] = firsts[name].or(Some(place));
    }
}

/// For each name whether a variable has it.
fn var_names(alloc: Global, names: usize, vars: &[Var]) -> Result<Vec<bool>, AllocError>
    ensures len { IfOk result (λ named. length named.items ≡ names) }
    ensures named { IfOk result (λ named. (s : ℕ) → s < names → slice_index_or named.items s false ≡ list_any (λ v. v.name == s) vars.now) }
{
    let mut named = vec![in alloc; false; names]?;
    for var in vars {
        let name = var.name as usize;
        if name < named.len() {
            named[name] = true;
        }
    }
    Ok(named)
}

/// What the numbers and names of a function are measured against.
#[derive(Clone, Copy)]
pub(crate) struct Scope<'a> {
    pub(crate) pkg: &'a Package,
    pub(crate) names: &'a Names,
    pub(crate) func: &'a Func,
    pub(crate) numbers: &'a Numbers,
    /// The values in text order.
    pub(crate) nodes: &'a [Node<'a>],
    pub(crate) target: Target,
}

impl<'a> Scope<'a> {
    /// The types of the function's own arguments and results.
    pub(crate) fn own(&self) -> Callee<'a>
        ensures { seen_callee result ≡ self.now.func.now.sig }
    {
        let func = self.func;
        Callee {
            args: &func.sig.args,
            results: &func.sig.results,
        }
    }

    /// Whether one block has the number.
    pub(crate) fn is_block(&self, id: u32) -> bool
        requires { IsScope self.now }
        ensures { IsTrue result ↔ IsBlockNumber self.now.func.now id }
    {
        self.numbers.block(id).is_some()
    }

    /// Whether one value has the number.
    pub(crate) fn is_value(&self, id: u32) -> bool
        requires { IsScope self.now }
        ensures { IsTrue result ↔ IsValueNumber self.now.func.now id }
    {
        self.numbers.value(id).is_some()
    }

    pub(crate) fn are_blocks(&self, ids: &[u32]) -> bool
        requires { IsScope self.now }
        ensures { IsTrue result ↔ All (IsBlockNumber self.now.func.now) ids.now }
    {
        for id in ids {
            if !self.is_block(*id) {
                return false;
            }
        }
        true
    }

    pub(crate) fn are_values(&self, ids: &[u32]) -> bool
        requires { IsScope self.now }
        ensures { IsTrue result ↔ All (IsValueNumber self.now.func.now) ids.now }
    {
        for id in ids {
            if !self.is_value(*id) {
                return false;
            }
        }
        true
    }

    /// The one value with the number.
    #[tactic(auto, unfolding(crate::specs::Places::value_with))]
    pub(crate) fn value(&self, id: u32) -> Option<&'a Value>
        requires { IsScope self.now }
        ensures { option_copied result ≡ value_with self.now.func.now id }
    {
        let nodes: &'a [Node<'a>] = self.nodes;
        match self.numbers.value(id) {
            Some(place) => match nodes.get(place) {
                Some(node) => Some(node.value),
                None => None,
            },
            None => None,
        }
    }

    /// Whether a variable has the name.
    pub(crate) fn is_var(&self, symbol: u32) -> bool
        requires { IsScope self.now }
        ensures { IsTrue result ↔ IsVariable self.now.pkg.now symbol }
    {
        self.names
            .vars
            .get(symbol as usize)
            .copied()
            .unwrap_or(false)
    }

    /// The types of the function with this name; the panics have none.
    pub(crate) fn callee(&self, symbol: u32) -> Option<Callee<'a>>
        requires { IsScope self.now }
        ensures { option_map seen_callee result ≡ sig_named self.now.pkg.now symbol }
    {
        if symbol == PANIC_DIVIDE || symbol == PANIC_SHIFT {
            return Some(Callee {
                args: &[],
                results: &[],
            });
        }
        match self.func_named(symbol) {
            Some(func) => Some(Callee {
                args: &func.sig.args,
                results: &func.sig.results,
            }),
            None => None,
        }
    }

    /// The first function with this name.
    fn func_named(&self, symbol: u32) -> Option<&'a Func>
        requires { IsScope self.now }
        ensures { option_copied result ≡ (if nat_lt symbol (length self.now.pkg.now.names) then find (λ g. g.name == symbol) self.now.pkg.now.funcs else None) }
    {
        let pkg = self.pkg;
        let funcs: &'a [Func] = &pkg.funcs;
        let place = self
            .names
            .funcs
            .get(symbol as usize)
            .copied()
            .unwrap_or(None);
        match place {
            Some(place) => funcs.get(place),
            None => None,
        }
    }

    /// The types of the function that the value names.
    pub(crate) fn callee_of(&self, aux: Aux) -> Option<Callee<'a>>
        requires { IsScope self.now }
        ensures { option_map seen_callee result ≡ sig_of self.now.pkg.now aux }
    {
        match aux {
            Aux::Sym(symbol) => self.callee(symbol),
            _ => None,
        }
    }

    /// The value that the first argument names.
    pub(crate) fn first_value(&self, value: &Value) -> Option<&'a Value>
        requires { IsScope self.now }
        ensures { option_copied result ≡ first_named self.now.func.now value.now }
    {
        match value.args.as_slice().first() {
            Some(id) => self.value(*id),
            None => None,
        }
    }

    /// The types of the function whose call the value's first argument is.
    #[tactic(auto, unfolding(crate::specs::Places::callee_named))]
    pub(crate) fn call_of(&self, value: &Value) -> Option<Callee<'a>>
        requires { IsScope self.now }
        ensures { option_map seen_callee result ≡ callee_named self.now.pkg.now self.now.func.now value.now }
    {
        match self.first_value(value) {
            Some(call) => self.callee_of(call.aux),
            None => None,
        }
    }
}

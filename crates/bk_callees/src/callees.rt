// For each name of a package the first function that has it.
ghost use Rattle.std.specs.Prelude.{◌≡◌, ◌==◌, ◌<◌, ℕ, IfOk, option_copied, position, slice_index_or, None, Some, length, unwrap_or, if◌then◌else◌};
ghost use Rattle.std.specs.Option.{option_or};
ghost use Rattle.bk_func.specs.Form.Signatures.{sig_of};
ghost use Rattle.bk_func.specs.Symbols.{no_sig, sig_of_some};
ghost use Rattle.bk_callees.specs.Callees.{AreCallees, callee_of, func_named};

use bk_func::{Aux, Func, PANIC_DIVIDE, PANIC_SHIFT, Package};
use bk_ops::Memory;
use std::alloc::{AllocError, Global};

/// For each name of a package the place of the first function that has it, the name's number being the index.
#[derive(Drop)]
pub struct Callees {
    pub(crate) firsts: Vec<Option<usize>>,
}

impl Callees {
    /// The callees of this package.
    pub fn new(alloc: Global, pkg: &Package) -> Result<Callees, Memory>
        ensures { IfOk result (AreCallees pkg.now) }
    {
        let firsts = first_funcs(alloc, pkg.names.len(), &pkg.funcs)?;
        Ok(Callees { firsts })
    }

    /// The function that a call names, by what stands beside the call; None where it panics, and where no function has the
    /// name.
    pub fn callee<'a>(&self, pkg: &'a Package, aux: Aux) -> Option<&'a Func>
        requires { AreCallees pkg.now self.now }
        ensures func { option_copied result ≡ callee_of pkg.now aux }
        ensures sig { sig_of_some (option_copied result) ≡ unwrap_or (sig_of pkg.now aux) no_sig }
    {
        match aux {
            Aux::Sym(PANIC_DIVIDE) => None,
            Aux::Sym(PANIC_SHIFT) => None,
            Aux::Sym(symbol) => self.func_named(pkg, symbol),
            _ => None,
        }
    }

    /// The first function with this name.
    fn func_named<'a>(&self, pkg: &'a Package, symbol: u32) -> Option<&'a Func>
        requires { AreCallees pkg.now self.now }
        ensures { option_copied result ≡ func_named pkg.now symbol }
    {
        let funcs: &'a [Func] = &pkg.funcs;
        let place = self.firsts.get(symbol as usize).copied().unwrap_or(None);
        match place {
            Some(place) => funcs.get(place),
            None => None,
        }
    }
}

/// For each name the place of the first function that has it.
fn first_funcs(
    alloc: Global,
    names: usize,
    funcs: &[Func],
) -> Result<Vec<Option<usize>>, AllocError>
    ensures len { IfOk result (λ firsts. length firsts.items ≡ names) }
    ensures first { IfOk result (λ firsts. (s : ℕ) → s < names → slice_index_or firsts.items s None ≡ position (λ f. f.name == s) funcs.now) }
{
    let mut firsts = vec![in alloc; None; names]?;
    for (place, func) in funcs.iter().enumerate() {
        note_first(&mut firsts, func.name as usize, place);
    }
    Ok(firsts)
}

/// Notes the place of a function with this name, where none is noted yet.
fn note_first(firsts: &mut Vec<Option<usize>>, name: usize, place: usize)
    ensures len { length firsts.new.items ≡ length firsts.old.items }
    ensures first { (s : ℕ) → s < length firsts.old.items → slice_index_or firsts.new.items s None ≡ (if s == name then option_or (slice_index_or firsts.old.items s None) (Some place) else slice_index_or firsts.old.items s None) }
{
    if name < firsts.len() {
        firsts[name] = firsts[name].or(Some(place));
    }
}

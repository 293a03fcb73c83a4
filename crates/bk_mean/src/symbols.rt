// What the names of a package stand for.
ghost use Rattle.std.specs.Prelude.{◌≡◌, ◌+◌, ◌==◌, IfOk, IfSome, position, map};
ghost use Rattle.std.specs.List.{position_or_len};
ghost use Rattle.bk_num.specs.Memory.{data_base};
ghost use Rattle.bk_func.specs.Records.{PackageRecord};
ghost use Rattle.bk_func.specs.Numbers.{rounded, place_of_var, address_of};
ghost use Rattle.bk_func.specs.Symbols.{symbol_of};
ghost use Rattle.bk_mean.specs.Symbols.{IsNaming, callee_found, callee_of, starts_from};

use crate::memory::DATA_BASE;
use crate::number::at;
use bk_func::{Aux, Func, PANIC_DIVIDE, PANIC_SHIFT, Package, Var};
use bk_places::first_places;
use std::alloc::{AllocError, Global};
use std::collections::BTreeMap;

/// What is called.
#[derive(Clone, Copy)]
pub(crate) enum Callee {
    /// The function at this place of the package.
    Func(usize),
    PanicDivide,
    PanicShift,
    /// None that is there.
    Missing,
}

/// The functions and variables of a package by the numbers of their names.
#[derive(Drop)]
pub(crate) struct Symbols {
    funcs: BTreeMap<usize, usize>,
    vars: BTreeMap<usize, usize>,
    /// Where each variable begins, and last where one after all would.
    starts: Vec<u64>,
}

impl Symbols {
    pub(crate) fn new(alloc: Global, pkg: &Package) -> Result<Self, AllocError>
        ensures { IfOk result (λ symbols. IsNaming pkg.now symbols) }
    {
        let funcs = first_places(alloc, &func_names(alloc, &pkg.funcs)?)?;
        let vars = first_places(alloc, &var_names(alloc, &pkg.vars)?)?;
        let starts = starts(alloc, &pkg.vars)?;
        Ok(Symbols {
            funcs,
            vars,
            starts,
        })
    }

    /// The function that a call names.
    pub(crate) fn callee(&self, aux: Aux) -> Callee
        ensures { (p : PackageRecord) → IsNaming p self.now → result ≡ callee_of p (symbol_of aux) }
    {
        let name = symbol(aux);
        match name {
            PANIC_DIVIDE => Callee::PanicDivide,
            PANIC_SHIFT => Callee::PanicShift,
            _ => self.func(name),
        }
    }

    fn func(&self, name: u32) -> Callee
        ensures { (p : PackageRecord) → IsNaming p self.now → result ≡ callee_found (position (λ g. g.name == name) p.funcs) }
    {
        match self.funcs.get(&(name as usize)) {
            Some(place) => Callee::Func(*place),
            None => Callee::Missing,
        }
    }

    /// The address of the variable that is named.
    pub(crate) fn address(&self, aux: Aux) -> u64
        ensures { (p : PackageRecord) → IsNaming p self.now → result ≡ address_of p aux }
    {
        match aux {
            Aux::Sym(name) => self.start(name),
            _ => 0,
        }
    }

    fn start(&self, name: u32) -> u64
        ensures { (p : PackageRecord) → IsNaming p self.now → result ≡ place_of_var name p.vars data_base }
    {
        at(&self.starts, self.var(name))
    }

    /// The place of the variable, or that after all.
    fn var(&self, name: u32) -> usize
        ensures { (p : PackageRecord) → IsNaming p self.now → result ≡ position_or_len (λ x. x.name == name) p.vars }
    {
        match self.vars.get(&(name as usize)) {
            Some(place) => *place,
            None => self.starts.len().saturating_sub(1),
        }
    }
}

/// The number of the name that stands beside a value.
fn symbol(aux: Aux) -> u32
    ensures { result ≡ symbol_of aux }
{
    match aux {
        Aux::Sym(name) => name,
        _ => 0,
    }
}

fn func_names(alloc: Global, funcs: &[Func]) -> Result<Vec<usize>, AllocError>
    ensures { IfOk result (λ names. names.items ≡ map (λ g. g.name) funcs.now) }
{
    let mut names = Vec::with_capacity(alloc, funcs.len())?;
    for func in funcs {
        names.push(func.name as usize)?;
    }
    Ok(names)
}

fn var_names(alloc: Global, vars: &[Var]) -> Result<Vec<usize>, AllocError>
    ensures { IfOk result (λ names. names.items ≡ map (λ x. x.name) vars.now) }
{
    let mut names = Vec::with_capacity(alloc, vars.len())?;
    for var in vars {
        names.push(var.name as usize)?;
    }
    Ok(names)
}

/// Where each variable begins, and last where one after all would.
fn starts(alloc: Global, vars: &[Var]) -> Result<Vec<u64>, AllocError>
    ensures { IfOk result (λ starts. starts.items ≡ starts_from vars.now data_base) }
{
    let mut starts = Vec::new(alloc);
    let mut address = DATA_BASE;
    for var in vars {
        starts.push(address)?;
        let Some(next) = after(address, var.size) else {
            return Err(AllocError);
        };
        address = next;
    }
    starts.push(address)?;
    Ok(starts)
}

/// Where the variable after one of so many bytes begins: at a multiple of 8.
fn after(address: u64, size: u32) -> Option<u64>
    ensures { IfSome result (λ next. next ≡ rounded (address + size)) }
{
    let end = address.checked_add(u64::from(size))?;
    end.checked_add((8 - end % 8) % 8)
}

// The object of a package whose code is made.
ghost use Rattle.std.specs.Prelude.{◌≡◌, ◌≢◌, ◌+◌, ◌*◌, ◌^◌, ◌<◌, ◌≤◌, ◌++◌, ◌||◌, ℕ, length, map, sum_by, replicate, false, slice_index_or, IfOk, OnOk, string_bytes};
ghost use Rattle.std.specs.List.{All, AllPairs};
ghost use Rattle.bk_piece.specs.Filled.{area, filled, key_at, word_of};
ghost use Rattle.bk_piece.specs.Rising.{full, keys_in};
ghost use Rattle.bk_elf.specs.Layout.{aligned};
ghost use Rattle.bk_elf.specs.Loading.{type_of_code};
ghost use Rattle.bk_link.specs.Addresses.{address_of};
ghost use Rattle.bk_link.specs.Conditions.{HasPatches, AreTyped, IsTyped, IsHandle, IsLinkable, IsLow, IsVar};
ghost use Rattle.bk_link.specs.Linked.{var_bytes, window_of, type_of, sig_of, sigs_of, sites_of, code_size, gathered};
ghost use Rattle.bk_link.specs.Sites.{is_among, symbol_of, symbols_of};
ghost use Rattle.bk_link.specs.Texts.{text_of};

use crate::cells::{Addresses, area, count_keys, sorted_keys, type_codes, word_of};
use crate::sites::{Site, aligned, by_name, func_sites, var_sites};
use crate::texts::text_of;
use bk_elf::{Object, Symbol};
use bk_func::{Func, Package, Sig, Var};
use bk_ops::{Target, Ty};
use bk_piece::{Handle, Piece};
use std::alloc::{AllocError, Global};

/// The bytes of text and pool.
#[tactic(auto, using(crate::proofs::Keyed::pool_length))]
pub(crate) fn code_size(pieces: &[Piece], constants: &[u64]) -> u128
    requires few { length pieces.now ≤ 4096 }
    requires differ { AllPairs (λ x y. x ≢ y) (full constants.now) }
    ensures { result ≡ code_size pieces.now (keys_in constants.now) }
{
    let mut words = 0;
    for piece in pieces {
        words += piece.code.len() as u128;
    }
    4 * words + 8 * count_keys(constants) as u128
}

/// The object, which says everything of the file but where its sections lie.
#[tactic(auto, unfolding(crate::specs::Linked::object_of))]
pub(crate) fn object_of(
    alloc: Global,
    pkg: &Package,
    target: Target,
    pieces: &[Piece],
    words: &[Vec<u64>],
) -> Result<Object, AllocError>
    requires linkable { IsLinkable pkg.now target pieces.now (map (λ w. w.items) words.now) }
    requires fits { code_size pieces.now (keys_in (area (map (λ w. w.items) words.now) 2)) ≤ 16777216 }
    ensures { IfOk result (λ object. object ≡ gathered pkg.now target pieces.now (map (λ w. w.items) words.now)) }
{
    let sites = sites_of(alloc, pkg, pieces)?;
    let code = code_of(alloc, target, pieces, words, &sites)?;
    Ok(Object {
        target,
        text: code.text,
        pool: code.pool,
        window: window_of(alloc, &pkg.vars)?,
        types: type_codes(alloc, area(words, 1))?,
        sigs: sigs_of(alloc, words, &pkg.funcs, pieces)?,
        symbols: symbols_of(alloc, &pkg.names, area(words, 0), &sites)?,
    })
}

/// Functions and variables in order of their names' numbers.
#[tactic(auto, using(crate::proofs::Merging::low_by_name))]
fn sites_of(alloc: Global, pkg: &Package, pieces: &[Piece]) -> Result<Vec<Site>, AllocError>
    requires long { length pieces.now ≡ length pkg.now.funcs }
    requires text { 4 * sum_by (λ p. length p.code) pieces.now ≤ 16777216 }
    requires window { sum_by (λ v. aligned v.size) pkg.now.vars ≤ 1048576 }
    ensures value { IfOk result (λ sites. sites.items ≡ sites_of pkg.now pieces.now) }
    ensures low { IfOk result (λ sites. All IsLow sites.items) }
{
    let funcs = func_sites(alloc, &pkg.funcs, pieces)?;
    let vars = var_sites(alloc, &pkg.vars)?;
    let sites = by_name(alloc, &funcs, &vars)?;
    Ok(sites)
}

/// Text and pool.
#[derive(Drop)]
pub struct Code {
    text: Vec<u32>,
    pool: Vec<u64>,
}

/// The words of all pieces with the addresses of their keys, and the constants.
fn code_of(
    alloc: Global,
    target: Target,
    pieces: &[Piece],
    words: &[Vec<u64>],
    sites: &[Site],
) -> Result<Code, AllocError>
    requires areas { length words.now ≡ 3 }
    requires differ { AllPairs (λ x y. x ≢ y) (full (area (map (λ w. w.items) words.now) 2)) }
    requires low { All IsLow sites.now }
    requires pieces { All (HasPatches target (map (λ w. w.items) words.now)) pieces.now }
    requires fits { code_size pieces.now (keys_in (area (map (λ w. w.items) words.now) 2)) ≤ 16777216 }
    ensures text { IfOk result (λ code. code.text.items ≡ text_of target (address_of sites.now (keys_in (area (map (λ w. w.items) words.now) 2))) 65536 (map (filled (map (λ w. w.items) words.now)) pieces.now)) }
    ensures pool { IfOk result (λ code. code.pool.items ≡ keys_in (area (map (λ w. w.items) words.now) 2)) }
{
    let pool = sorted_keys(alloc, area(words, 2))?;
    let addresses = Addresses::new(alloc, sites, &pool, words)?;
    let text = text_of(alloc, target, pieces, &addresses)?;
    Ok(Code { text, pool })
}

/// The bytes of the variables, each filled up with zeros to a multiple of 8.
fn window_of(alloc: Global, vars: &[Var]) -> Result<Vec<u8>, AllocError>
    requires vars { All IsVar vars.now }
    requires room { sum_by (λ v. aligned v.size) vars.now ≤ 1048576 }
    ensures { IfOk result (λ window. window.items ≡ window_of vars.now) }
{
    let mut window = Vec::new(alloc);
    for var in vars {
        put_var(&mut window, var)?;
    }
    Ok(window)
}

fn put_var(window: &mut Vec<u8>, var: &Var) -> Result<(), AllocError>
    requires var { IsVar var.now }
    requires room { aligned var.now.size < 2 ^ 31 }
    ensures { OnOk result (window.new.items ≡ window.old.items ++ var_bytes var.now) }
{
    let end = window.len() + aligned(var.size) as usize;
    window.extend_from_slice(&var.bytes)?;
    window.resize(end, 0)?;
    Ok(())
}

/// The signature of each function, by the types that its piece names.
fn sigs_of(
    alloc: Global,
    words: &[Vec<u64>],
    funcs: &[Func],
    pieces: &[Piece],
) -> Result<Vec<Sig>, AllocError>
    requires { AreTyped (map (λ w. w.items) words.now) funcs.now pieces.now }
    ensures { IfOk result (λ sigs. sigs.items ≡ sigs_of funcs.now (map (filled (map (λ w. w.items) words.now)) pieces.now)) }
{
    let mut sigs = Vec::with_capacity(alloc, pieces.len())?;
    for (place, piece) in pieces.iter().enumerate() {
        sigs.push(sig_of(alloc, words, &funcs[place], piece)?)?;
    }
    Ok(sigs)
}

#[tactic(auto, using(crate::proofs::Signed::first_types, crate::proofs::Signed::last_types))]
fn sig_of(alloc: Global, words: &[Vec<u64>], func: &Func, piece: &Piece) -> Result<Sig, AllocError>
    requires { IsTyped (map (λ w. w.items) words.now) func.now piece.now }
    ensures { IfOk result (λ sig. sig ≡ sig_of func.now (filled (map (λ w. w.items) words.now) piece.now)) }
{
    let (args, results) = piece.types.split_at(func.sig.args.len());
    Ok(Sig {
        args: types_of(alloc, words, args)?,
        results: types_of(alloc, words, results)?,
    })
}

fn types_of(alloc: Global, words: &[Vec<u64>], handles: &[Handle]) -> Result<Vec<Ty>, AllocError>
    requires { All (IsHandle (map (λ w. w.items) words.now) 1) handles.now }
    ensures { IfOk result (λ types. types.items ≡ map (λ h. type_of (key_at (map (λ w. w.items) words.now) h)) handles.now) }
{
    let mut types = Vec::with_capacity(alloc, handles.len())?;
    for handle in handles {
        types.push(type_of_code(word_of(words, *handle)).unwrap_or(Ty::Mem))?;
    }
    Ok(types)
}

/// The type of a machine word that has this code.
fn type_of_code(code: u64) -> Option<Ty>
    ensures { result ≡ type_of_code code }
{
    match code {
        1 => Some(Ty::Bool),
        2 => Some(Ty::Int8),
        3 => Some(Ty::Uint8),
        4 => Some(Ty::Int16),
        5 => Some(Ty::Uint16),
        6 => Some(Ty::Int32),
        7 => Some(Ty::Uint32),
        8 => Some(Ty::Int64),
        9 => Some(Ty::Uint64),
        10 => Some(Ty::Int),
        11 => Some(Ty::Uint),
        12 => Some(Ty::Uintptr),
        13 => Some(Ty::Ptr),
        _ => None,
    }
}

/// The symbols of functions and of the variables that have a key.
fn symbols_of(
    alloc: Global,
    names: &[String],
    words: &[u64],
    sites: &[Site],
) -> Result<Vec<Symbol>, AllocError>
    requires named { All (λ s. s.name < length names.now) sites.now }
    requires keys { All (λ w. w ≤ length names.now) words.now }
    ensures { IfOk result (λ symbols. symbols.items ≡ symbols_of (map string_bytes names.now) (keys_in words.now) sites.now) }
{
    let used = marked(alloc, names.len(), words)?;
    let mut symbols = Vec::new(alloc);
    for site in sites {
        if is_symbol(&used, *site) {
            symbols.push(symbol_of(names, *site)?)?;
        }
    }
    Ok(symbols)
}

/// Whether a site has a symbol.
fn is_symbol(used: &[bool], site: Site) -> bool
    requires { site.name < length used.now }
    ensures { result ≡ (site.func || slice_index_or used.now site.name false) }
{
    site.func || used[site.name as usize]
}

fn symbol_of(names: &[String], site: Site) -> Result<Symbol, AllocError>
    requires { site.name < length names.now }
    ensures { IfOk result (λ symbol. symbol ≡ symbol_of (map string_bytes names.now) site) }
{
    Ok(Symbol {
        name: names[site.name as usize].clone()?,
        func: site.func,
        address: site.address,
        size: site.size,
    })
}

/// For each of so many names, whether its key is one of the words.
fn marked(alloc: Global, names: usize, words: &[u64]) -> Result<Vec<bool>, AllocError>
    requires { All (λ w. w ≤ names) words.now }
    ensures long { IfOk result (λ used. length used.items ≡ names) }
    ensures each { IfOk result (λ used. (n : ℕ) → n < names → slice_index_or used.items n false ≡ is_among (keys_in words.now) n) }
{
    let mut used = vec![in alloc; false; names]?;
    for word in words {
        if *word > 0 {
            used[(*word - 1) as usize] = true;
        }
    }
    Ok(used)
}

// Where the code of functions and the bytes of variables lie, and which of them are named.
ghost use Rattle.std.specs.Prelude.{◌≡◌, ◌+◌, ◌*◌, ◌^◌, ◌<◌, ◌≤◌, length, sum_by, IfOk, OnOk, ◌++◌, ◌∷◌, []};
ghost use Rattle.std.specs.List.{All};
ghost use Rattle.bk_elf.specs.Layout.{aligned};
ghost use Rattle.bk_link.specs.Conditions.{IsLow};
ghost use Rattle.bk_link.specs.Sites.{func_sites, var_sites, count_before, by_name};

use bk_func::{Func, Var};
use bk_piece::Piece;
use std::alloc::{AllocError, Global};

/// Where the text begins.
pub(crate) const TEXT_BASE: u32 = 65_536;

/// Where the data window begins.
const DATA_BASE: u32 = 67_108_864;

/// The bytes of a word.
const WORD_SIZE: u32 = 4;

/// A name, and where what it names lies.
#[derive(Clone, Copy, Debug)]
pub struct Site {
    /// The number of the name in the package.
    pub name: u32,
    /// Whether it names a function, else a variable.
    pub func: bool,
    /// The address of the first byte.
    pub address: u32,
    /// The count of bytes.
    pub size: u32,
}

/// Where the code of each function lies.
pub(crate) fn func_sites(
    alloc: Global,
    funcs: &[Func],
    pieces: &[Piece],
) -> Result<Vec<Site>, AllocError>
    requires long { length pieces.now ≡ length funcs.now }
    requires room { 4 * sum_by (λ p. length p.code) pieces.now ≤ 16777216 }
    ensures value { IfOk result (λ sites. sites.items ≡ func_sites 65536 funcs.now pieces.now) }
    ensures low { IfOk result (λ sites. All IsLow sites.items) }
{
    let mut sites = Vec::with_capacity(alloc, funcs.len())?;
    let mut address = TEXT_BASE;
    for (place, piece) in pieces.iter().enumerate() {
        let func = &funcs[place];
        let size = WORD_SIZE * piece.code.len() as u32;
        sites.push(Site {
            name: func.name,
            func: true,
            address,
            size,
        })?;
        address += size;
    }
    Ok(sites)
}

/// Where the bytes of each variable lie: at a multiple of 8, behind those of the variable before.
pub(crate) fn var_sites(alloc: Global, vars: &[Var]) -> Result<Vec<Site>, AllocError>
    requires room { sum_by (λ v. aligned v.size) vars.now ≤ 1048576 }
    ensures value { IfOk result (λ sites. sites.items ≡ var_sites 67108864 vars.now) }
    ensures low { IfOk result (λ sites. All IsLow sites.items) }
{
    let mut sites = Vec::with_capacity(alloc, vars.len())?;
    let mut address = DATA_BASE;
    for var in vars {
        sites.push(Site {
            name: var.name,
            func: false,
            address,
            size: var.size,
        })?;
        address += aligned(var.size);
    }
    Ok(sites)
}

/// The first multiple of 8 at or after a size.
pub(crate) fn aligned(size: u32) -> u32
    requires { aligned size < 2 ^ 31 }
    ensures { result ≡ aligned size }
{
    (size + 7) / 8 * 8
}

/// Functions and variables in order of their names' numbers, where the names of each rise.
#[tactic(auto, unfolding(crate::specs::Sites::by_name), using(crate::proofs::Merging::by_name_more))]
pub(crate) fn by_name(alloc: Global, funcs: &[Site], vars: &[Site]) -> Result<Vec<Site>, AllocError>
    ensures { IfOk result (λ sites. sites.items ≡ by_name funcs.now vars.now) }
{
    let mut sites = Vec::new(alloc);
    let mut rest = funcs;
    for var in vars {
        let (before, after) = rest.split_at(count_before(var.name, rest));
        put_sites(&mut sites, before, *var)?;
        rest = after;
    }
    sites.extend_from_slice(rest)?;
    Ok(sites)
}

/// Appends sites and a last one.
fn put_sites(sites: &mut Vec<Site>, before: &[Site], last: Site) -> Result<(), AllocError>
    ensures { OnOk result (sites.new.items ≡ sites.old.items ++ (before.now ++ last ∷ [])) }
{
    sites.extend_from_slice(before)?;
    sites.push(last)?;
    Ok(())
}

/// How many sites from the front on have a name before this one.
fn count_before(name: u32, sites: &[Site]) -> usize
    ensures value { result ≡ count_before name sites.now }
    ensures most { result ≤ length sites.now }
{
    for (place, site) in sites.iter().enumerate() {
        if site.name >= name {
            return place;
        }
    }
    sites.len()
}

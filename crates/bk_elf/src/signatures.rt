// Reading the signatures of a file.
ghost use Rattle.std.specs.Prelude.{◌≡◌, ◌+◌, ◌*◌, ◌/◌, ◌≤◌, nat_le, length, Some, None, IfOk, IfErr};
ghost use Rattle.std.specs.List.{list_all};
ghost use Rattle.bk_elf.specs.declared.tables.Section.TheVariants.{Gosig, Symtab};
ghost use Rattle.bk_elf.specs.Lists.{rises_from};
ghost use Rattle.bk_elf.specs.Tables.{class_of};
ghost use Rattle.bk_elf.specs.Object.{are_codes};
ghost use Rattle.bk_elf.specs.Loading.{type_of_code, type_in, types_at, sig_in, sigs_in, gosig_in, gosig_read, is_function, functions_in, functions_read, content, extent_read, before_read, begin_read, Fails, IsAt, IsCause};

use crate::LoadError;
use crate::fields::{Width, number_at};
use crate::file::{File, Part};
use crate::layout::aligned;
use crate::numbers::words;
use crate::placing::bad;
use crate::tables::{STT_FUNC, Section, class_of};
use bk_func::Sig;
use bk_ops::{Target, Ty};
use std::alloc::Global;

/// A signature has at most so many types.
const TYPES_LIMIT: usize = 64;

/// The greatest code of a type.
const LAST_CODE: u32 = 13;

/// The codes of types, the signatures, and where they end in the file.
#[derive(Drop)]
pub(crate) struct Signed {
    pub(crate) types: Vec<u32>,
    pub(crate) sigs: Vec<Sig>,
    pub(crate) end: usize,
}

/// The type with this code.
fn type_of_code(code: u32) -> Option<Ty>
    ensures { result ≡ type_of_code code }
{
    match code {
        1 => Some(Ty::Bool),
        2 => Some(Ty::Int8),
        3 => Some(Ty::Uint8),
        4 => Some(Ty::Int16),
        5 => Some(Ty::Uint16),
        6 => Some(Ty::Int32),
        7 => Some(Ty::Uint32),
        8 => Some(Ty::Int64),
        9 => Some(Ty::Uint64),
        10 => Some(Ty::Int),
        11 => Some(Ty::Uint),
        12 => Some(Ty::Uintptr),
        13 => Some(Ty::Ptr),
        _ => None,
    }
}

/// The type whose code stands at the place.
fn type_in(codes: &[u32], place: u32) -> Option<Ty>
    ensures { result ≡ type_in codes.now place }
{
    match codes.get(place as usize) {
        Some(code) => type_of_code(*code),
        None => None,
    }
}

/// The types whose codes stand at the places.
#[tactic(auto, using(crate::proofs::Signing::types_more, crate::proofs::Signing::types_none, crate::proofs::Signing::types_end))]
fn types_at(alloc: Global, codes: &[u32], places: &[u32]) -> Result<Vec<Ty>, LoadError>
    ensures types { IfOk result (λ types. types_at codes.now places.now ≡ Some types.items) }
    ensures fails { IfErr result (Fails (types_at codes.now places.now)) }
{
    let mut types = Vec::with_capacity(alloc, places.len())?;
    for place in places {
        match type_in(codes, *place) {
            Some(ty) => types.push(ty)?,
            None => return Err(bad(Section::Gosig)),
        }
    }
    Ok(types)
}

/// The signature that the words begin with, and the words after it.
#[tactic(auto, unfolding(crate::specs::Loading::sig_in))]
fn signature<'w>(
    alloc: Global,
    codes: &[u32],
    words: &'w [u32],
) -> Result<(Sig, &'w [u32]), LoadError>
    ensures sig { IfOk result (λ r. sig_in codes.now words.now ≡ Some (r.0, r.1.now)) }
    ensures fails { IfErr result (Fails (sig_in codes.now words.now)) }
{
    let [args, results, rest @ ..] = words else {
        return Err(bad(Section::Gosig));
    };
    let args = *args as usize;
    let results = *results as usize;
    if args + results > TYPES_LIMIT || args + results > rest.len() {
        return Err(bad(Section::Gosig));
    }
    let arg_types = types_at(alloc, codes, &rest[..args])?;
    let result_types = types_at(alloc, codes, &rest[args..args + results])?;
    let sig = Sig {
        args: arg_types,
        results: result_types,
    };
    Ok((sig, &rest[args + results..]))
}

/// So many signatures that the words spell, and nothing else.
#[tactic(auto, using(crate::proofs::Signing::sigs_more, crate::proofs::Signing::sigs_fail, crate::proofs::Signing::sigs_none, crate::proofs::Signing::sigs_end, crate::proofs::Signing::sigs_left))]
fn signatures(
    alloc: Global,
    codes: &[u32],
    count: usize,
    words: &[u32],
) -> Result<Vec<Sig>, LoadError>
    ensures sigs { IfOk result (λ sigs. sigs_in codes.now count words.now ≡ Some sigs.items) }
    ensures fails { IfErr result (Fails (sigs_in codes.now count words.now)) }
{
    let mut sigs = Vec::new(alloc);
    let mut rest = words;
    for _ in 0..count {
        let (sig, after) = signature(alloc, codes, rest)?;
        sigs.push(sig)?;
        rest = after;
    }
    if !rest.is_empty() {
        return Err(bad(Section::Gosig));
    }
    Ok(sigs)
}

/// Whether the codes are those of types, and rise.
fn are_codes(codes: &[u32]) -> bool
    ensures { result ≡ are_codes codes.now }
{
    rises_from(0, codes) && are_small(codes)
}

fn are_small(codes: &[u32]) -> bool
    ensures { result ≡ list_all (λ c. nat_le c 13) codes.now }
{
    codes.iter().all(|code| *code <= LAST_CODE)
}

#[tactic(auto, using(crate::proofs::Steps::rises_more, crate::proofs::Steps::rises_here, crate::proofs::Steps::rises_end))]
fn rises_from(low: u32, codes: &[u32]) -> bool
    ensures { result ≡ rises_from low codes.now }
{
    let mut before = low;
    for code in codes {
        if *code <= before {
            return false;
        }
        before = *code;
    }
    true
}

/// Whether the symbol that the bytes begin with is a function's.
pub(crate) fn is_function(target: Target, bytes: &[u8]) -> bool
    requires { (class_of target).st_entsize ≤ length bytes.now }
    ensures { result ≡ is_function target bytes.now }
{
    number_at(bytes, class_of(target).st_info, Width::Byte) == STT_FUNC
}

impl<'a> File<'a> {
    /// The codes and signatures.
    #[tactic(auto, using(crate::proofs::Signing::gosig_refused, crate::proofs::Signing::gosig_next))]
    pub(crate) fn signatures(&self, alloc: Global, before: usize) -> Result<Signed, LoadError>
        requires { IsAt self.now.bytes.now Gosig before }
        ensures signed { IfOk result (λ s. gosig_read self.now.bytes.now ≡ Some (s.types.items, s.sigs.items)) }
        ensures end { IfOk result (λ s. IsAt self.now.bytes.now Symtab s.end) }
        ensures refused { IfErr result (IsCause self.now.bytes.now) }
    {
        let part = self.section(Section::Gosig, before)?;
        let (types, sigs) = self.gosig(alloc, part)?;
        Ok(Signed {
            types,
            sigs,
            end: part.end,
        })
    }

    /// The codes and signatures that the section holds.
    #[tactic(auto, unfolding(crate::specs::Loading::gosig_read))]
    fn gosig(&self, alloc: Global, part: Part<'_>) -> Result<(Vec<u32>, Vec<Sig>), LoadError>
        requires content { part.content.now ≡ content self.now.bytes.now Gosig }
        requires length { length part.content.now ≡ extent_read self.now.bytes.now Gosig }
        requires end { part.end ≡ before_read self.now.bytes.now Symtab }
        requires within { part.end ≤ length self.now.bytes.now }
        ensures gosig { IfOk result (λ r. gosig_read self.now.bytes.now ≡ Some (r.0.items, r.1.items)) }
        ensures fails { IfErr result (Fails (gosig_read self.now.bytes.now)) }
    {
        if self.sizes.gosig % 4 != 0 {
            return Err(bad(Section::Gosig));
        }
        let words = words(alloc, part.content)?;
        let functions = self.functions(aligned(part.end as u64) as usize);
        gosig_in(alloc, functions, &words)
    }

    /// How many symbols are functions', as far as they lie in the file.
    #[tactic(auto, unfolding(crate::specs::Loading::functions_read))]
    fn functions(&self, begin: usize) -> usize
        requires { begin ≡ begin_read self.now.bytes.now Symtab }
        ensures { result ≡ functions_read self.now.bytes.now }
    {
        count_functions(self.target, self.content(Section::Symtab, begin))
    }
}

/// How many of the symbols are functions'.
#[tactic(auto, using(crate::proofs::Signing::function_more, crate::proofs::Signing::other_more, crate::proofs::Signing::functions_end, crate::proofs::Signing::piece_room))]
fn count_functions(target: Target, symtab: &[u8]) -> usize
    ensures { result ≡ functions_in target symtab.now }
{
    let size = class_of(target).st_entsize;
    let mut count = 0;
    for k in 0..symtab.len() / size {
        if is_function(target, &symtab[size * k..]) {
            count += 1;
        }
    }
    count
}

/// The codes and the signatures that the words spell.
#[tactic(auto, unfolding(crate::specs::Loading::gosig_in))]
fn gosig_in(
    alloc: Global,
    functions: usize,
    words: &[u32],
) -> Result<(Vec<u32>, Vec<Sig>), LoadError>
    ensures gosig { IfOk result (λ r. gosig_in functions words.now ≡ Some (r.0.items, r.1.items)) }
    ensures fails { IfErr result (Fails (gosig_in functions words.now)) }
{
    let [count, rest @ ..] = words else {
        return Err(bad(Section::Gosig));
    };
    let count = *count as usize;
    if count > rest.len() || !are_codes(&rest[..count]) {
        return Err(bad(Section::Gosig));
    }
    let sigs = signatures(alloc, &rest[..count], functions, &rest[count..])?;
    let codes = Vec::from_slice(alloc, &rest[..count])?;
    Ok((codes, sigs))
}

// Writing an object as a file.
ghost use Rattle.std.specs.Prelude.{◌≡◌, ◌+◌, ◌^◌, ◌<◌, ◌++◌, length, Ok, OnOk, IfOk};
ghost use Rattle.byteorder.specs.Endian.{little_bytes};
ghost use Rattle.bk_elf.specs.Fields.{spelled};
ghost use Rattle.bk_elf.specs.Tables.{ended, symbol_entry};
ghost use Rattle.bk_elf.specs.Layout.{layout_of};
ghost use Rattle.bk_elf.specs.Object.{IsObject};
ghost use Rattle.bk_elf.specs.Contents.{gosig_words, word_bytes, constant_bytes, names_of, name_bytes, entry_bytes, symbol_bytes, sizes_of};
ghost use Rattle.bk_elf.specs.Loading.{loaded};
ghost use Rattle.bk_elf.specs.File.{padded, front_of, with_loaded, with_tables, headers_of, file_of};

use crate::fields::put_fields;
use crate::gosig::gosig_words;
use crate::layout::{Layout, Sizes, aligned};
use crate::tables::{
    MAGIC, SECTION_NAMES, SECTIONS, Section, class_of, file_header, program_header, section_header,
    symbol_entry,
};
use crate::typed::are_typed;
use crate::{Memory, Object, Symbol};
use bk_ops::Target;
use byteorder::{ByteOrder, LittleEndian};
use std::alloc::{AllocError, Global};

/// The file of an object.
pub fn write_elf(alloc: Global, object: &Object) -> Result<Vec<u8>, Memory>
    requires { IsObject object.now }
    ensures file { IfOk result (λ bytes. bytes.items ≡ file_of object.now) }
    ensures loads { IfOk result (λ bytes. loaded bytes.items ≡ Ok object.now) }
{
    are_typed(object);
    Ok(written(alloc, object)?)
}

#[tactic(auto, using(crate::proofs::Writing::codes_few), unfolding(crate::specs::File::file_of))]
fn written(alloc: Global, object: &Object) -> Result<Vec<u8>, AllocError>
    requires { IsObject object.now }
    ensures { IfOk result (λ bytes. bytes.items ≡ file_of object.now) }
{
    let target = object.target;
    let gosig = gosig_words(alloc, &object.types, &object.sigs)?;
    let mut strtab = Vec::new(alloc);
    put_names(&mut strtab, &object.symbols)?;
    let sizes = sizes_of(object, gosig.len(), strtab.len());
    let layout = Layout::new(target, &sizes);
    let mut out = Vec::new(alloc);
    put_front(&mut out, target, &sizes, &layout)?;
    put_loaded(&mut out, object)?;
    put_tables(&mut out, object, &gosig, &strtab)?;
    pad(&mut out)?;
    put_headers(&mut out, target, &sizes, &layout)?;
    Ok(out)
}

/// The sizes of the sections, given the counts of the signatures' words and of the names' bytes.
#[tactic(auto, unfolding(crate::specs::Contents::sizes_of))]
fn sizes_of(object: &Object, words: usize, names: usize) -> Sizes
    requires object { IsObject object.now }
    requires words { words ≡ length (gosig_words object.now.types object.now.sigs) }
    requires names { names ≡ length (name_bytes (names_of object.now.symbols)) }
    ensures { result ≡ sizes_of object.now }
{
    let entry = class_of(object.target).st_entsize as u64;
    Sizes {
        text: 4 * object.text.len() as u64,
        pool: 8 * object.pool.len() as u64,
        window: object.window.len() as u64,
        gosig: 4 * words as u64,
        symtab: entry * (object.symbols.len() as u64 + 1),
        strtab: names as u64,
    }
}

/// Appends zeros up to the next multiple of 8.
#[tactic(auto, unfolding(crate::specs::File::padded))]
fn pad(out: &mut Vec<u8>) -> Result<(), AllocError>
    ensures { OnOk result (out.new.items ≡ padded out.old.items) }
{
    let len = out.len() as u64;
    let gap = (aligned(len) - len) as usize;
    out.extend_from_slice(&[0u8; 8][..gap])
}

/// Appends the header and the program headers.
#[tactic(auto, unfolding(crate::specs::File::front_of))]
fn put_front(
    out: &mut Vec<u8>,
    target: Target,
    sizes: &Sizes,
    layout: &Layout,
) -> Result<(), AllocError>
    requires { layout.now ≡ layout_of target sizes.now }
    ensures { OnOk result (out.new.items ≡ out.old.items ++ front_of target sizes.now) }
{
    out.extend_from_slice(&MAGIC)?;
    put_fields(out, &file_header(target, layout.e_shoff))?;
    put_fields(
        out,
        &program_header(target, Section::Text, layout.text, sizes.text),
    )?;
    put_fields(
        out,
        &program_header(target, Section::Pool, layout.pool, sizes.pool),
    )?;
    put_fields(
        out,
        &program_header(target, Section::Data, layout.window, sizes.window),
    )
}

/// Appends the text, the pool and the data window.
#[tactic(auto, unfolding(crate::specs::File::with_loaded))]
fn put_loaded(out: &mut Vec<u8>, object: &Object) -> Result<(), AllocError>
    ensures { OnOk result (out.new.items ≡ with_loaded object.now out.old.items) }
{
    pad(out)?;
    put_words(out, &object.text)?;
    pad(out)?;
    put_constants(out, &object.pool)?;
    pad(out)?;
    out.extend_from_slice(&object.window)?;
    Ok(())
}

/// Appends the signatures, the symbols and the names.
#[tactic(auto, unfolding(crate::specs::File::with_tables))]
fn put_tables(
    out: &mut Vec<u8>,
    object: &Object,
    gosig: &[u32],
    strtab: &[u8],
) -> Result<(), AllocError>
    requires words { gosig.now ≡ gosig_words object.now.types object.now.sigs }
    requires names { strtab.now ≡ name_bytes (names_of object.now.symbols) }
    requires room { length strtab.now < 2 ^ 63 }
    ensures { OnOk result (out.new.items ≡ with_tables object.now out.old.items) }
{
    pad(out)?;
    put_words(out, gosig)?;
    pad(out)?;
    put_symbols(out, object.target, &object.symbols)?;
    out.extend_from_slice(strtab)?;
    out.extend_from_slice(&SECTION_NAMES)?;
    Ok(())
}

fn put_words(out: &mut Vec<u8>, words: &[u32]) -> Result<(), AllocError>
    ensures { OnOk result (out.new.items ≡ out.old.items ++ word_bytes words.now) }
{
    for word in words {
        put_word(out, *word)?;
    }
    Ok(())
}

fn put_word(out: &mut Vec<u8>, word: u32) -> Result<(), AllocError>
    ensures { OnOk result (out.new.items ≡ out.old.items ++ little_bytes 4 word) }
{
    let mut bytes = [0u8; 4];
    LittleEndian::write_u32(&mut bytes, word);
    out.extend_from_slice(&bytes)
}

fn put_constants(out: &mut Vec<u8>, constants: &[u64]) -> Result<(), AllocError>
    ensures { OnOk result (out.new.items ≡ out.old.items ++ constant_bytes constants.now) }
{
    for constant in constants {
        put_constant(out, *constant)?;
    }
    Ok(())
}

fn put_constant(out: &mut Vec<u8>, constant: u64) -> Result<(), AllocError>
    ensures { OnOk result (out.new.items ≡ out.old.items ++ little_bytes 8 constant) }
{
    let mut bytes = [0u8; 8];
    LittleEndian::write_u64(&mut bytes, constant);
    out.extend_from_slice(&bytes)
}

/// Appends a 0 and the names, each ended by a 0.
#[tactic(auto, unfolding(crate::specs::Contents::name_bytes))]
fn put_names(out: &mut Vec<u8>, symbols: &[Symbol]) -> Result<(), AllocError>
    ensures { OnOk result (out.new.items ≡ out.old.items ++ name_bytes (names_of symbols.now)) }
{
    out.push(0)?;
    for symbol in symbols {
        put_name(out, symbol)?;
    }
    Ok(())
}

fn put_name(out: &mut Vec<u8>, symbol: &Symbol) -> Result<(), AllocError>
    ensures { OnOk result (out.new.items ≡ out.old.items ++ ended symbol.now.name) }
{
    out.extend_from_slice(symbol.name.as_bytes())?;
    out.push(0)?;
    Ok(())
}

/// Appends a symbol of zeros and the symbols.
#[tactic(auto, unfolding(crate::specs::Contents::symbol_bytes))]
fn put_symbols(out: &mut Vec<u8>, target: Target, symbols: &[Symbol]) -> Result<(), AllocError>
    requires { length (name_bytes (names_of symbols.now)) < 2 ^ 63 }
    ensures { OnOk result (out.new.items ≡ out.old.items ++ symbol_bytes target symbols.now) }
{
    out.extend_from_slice(&[0u8; 24][..class_of(target).st_entsize])?;
    put_entries(out, target, symbols)?;
    Ok(())
}

#[tactic(auto, using(crate::proofs::Writing::entry_more, crate::proofs::Writing::entry_end, crate::proofs::Writing::name_more, crate::proofs::Writing::name_size))]
fn put_entries(out: &mut Vec<u8>, target: Target, symbols: &[Symbol]) -> Result<(), AllocError>
    requires { length (name_bytes (names_of symbols.now)) < 2 ^ 63 }
    ensures { OnOk result (out.new.items ≡ out.old.items ++ entry_bytes target 1 symbols.now) }
{
    let mut name = 1;
    for symbol in symbols {
        put_symbol(out, target, name, symbol)?;
        name += symbol.name.as_bytes().len() as u64 + 1;
    }
    Ok(())
}

/// Appends a symbol whose name begins at `name`.
fn put_symbol(
    out: &mut Vec<u8>,
    target: Target,
    name: u64,
    symbol: &Symbol,
) -> Result<(), AllocError>
    ensures { OnOk result (out.new.items ≡ out.old.items ++ spelled (symbol_entry target name symbol.now.func symbol.now.address symbol.now.size)) }
{
    let address = u64::from(symbol.address);
    let size = u64::from(symbol.size);
    put_fields(out, &symbol_entry(target, name, symbol.func, address, size))?;
    Ok(())
}

/// Appends the section headers.
#[tactic(auto, unfolding(crate::specs::File::headers_of))]
fn put_headers(
    out: &mut Vec<u8>,
    target: Target,
    sizes: &Sizes,
    layout: &Layout,
) -> Result<(), AllocError>
    requires { layout.now ≡ layout_of target sizes.now }
    ensures { OnOk result (out.new.items ≡ out.old.items ++ headers_of target sizes.now) }
{
    for section in SECTIONS {
        let header = section_header(target, section, layout.of(section), sizes.of(section));
        put_fields(out, &header)?;
    }
    Ok(())
}

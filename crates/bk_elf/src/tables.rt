// The headers of an object, their fields in the order and by the names of the ELF specification.
ghost use Rattle.std.specs.Prelude.{◌≡◌};
ghost use Rattle.bk_elf.specs.declared.fields.Width.TheVariants.{Byte, Half, Word};
ghost use Rattle.bk_elf.specs.Fields.{field};
ghost use Rattle.bk_elf.specs.Tables.{class_of, number_of, row_of, file_header, program_header, section_header, symbol_entry};

use crate::fields::{Field, Width};
use bk_ops::Target;

/// The first bytes of an ELF file.
pub(crate) const MAGIC: [u8; 4] = [0x7f, b'E', b'L', b'F'];

/// The names of the sections in their order, each ended by a 0.
pub(crate) const SECTION_NAMES: [u8; 52] =
    *b"\0.text\0.pool\0.data\0.gosig\0.symtab\0.strtab\0.shstrtab\0";

/// How many sections there are, and how many of them are loaded.
pub(crate) const E_SHNUM: u64 = 8;

const E_PHNUM: u64 = 3;

/// The address of the first word of the text.
pub(crate) const TEXT_ADDRESS: u64 = 65_536;

const POOL_ADDRESS: u64 = 33_554_432;

const DATA_ADDRESS: u64 = 67_108_864;

const ELFCLASS32: u64 = 1;

pub(crate) const ELFCLASS64: u64 = 2;

const ELFDATA2LSB: u64 = 1;

const EV_CURRENT: u64 = 1;

const ET_EXEC: u64 = 2;

const EM_ARM: u64 = 40;

const EM_RISCV: u64 = 243;

const EF_ARM_EABI_VER5: u64 = 0x0500_0000;

const PT_LOAD: u64 = 1;

const PF_X: u64 = 1;

const PF_W: u64 = 2;

const PF_R: u64 = 4;

const SHT_PROGBITS: u64 = 1;

const SHT_SYMTAB: u64 = 2;

const SHT_STRTAB: u64 = 3;

const SHF_WRITE: u64 = 1;

const SHF_ALLOC: u64 = 2;

const SHF_EXECINSTR: u64 = 4;

pub(crate) const STT_OBJECT: u64 = 17;

pub(crate) const STT_FUNC: u64 = 18;

/// A section of an object.
#[derive(Clone, Copy)]
pub(crate) enum Section {
    Null,
    Text,
    Pool,
    Data,
    Gosig,
    Symtab,
    Strtab,
    Shstrtab,
}

/// The sections by number.
pub(crate) const SECTIONS: [Section; 8] = [
    Section::Null,
    Section::Text,
    Section::Pool,
    Section::Data,
    Section::Gosig,
    Section::Symtab,
    Section::Strtab,
    Section::Shstrtab,
];

impl Section {
    pub(crate) fn number(self) -> u32
        ensures { result ≡ number_of self }
    {
        self as u32
    }
}

/// What the headers of a section hold in every object.
#[derive(Clone, Copy)]
struct Row {
    sh_name: u64,
    sh_type: u64,
    sh_flags: u64,
    sh_addr: u64,
    sh_link: u64,
    sh_info: u64,
    sh_addralign: u64,
    /// The flags of its program header, if it is loaded.
    p_flags: u64,
}

const NULL: Row = Row {
    sh_name: 0,
    sh_type: 0,
    sh_flags: 0,
    sh_addr: 0,
    sh_link: 0,
    sh_info: 0,
    sh_addralign: 0,
    p_flags: 0,
};

const TEXT: Row = Row {
    sh_name: 1,
    sh_type: SHT_PROGBITS,
    sh_flags: SHF_ALLOC + SHF_EXECINSTR,
    sh_addr: TEXT_ADDRESS,
    sh_link: 0,
    sh_info: 0,
    sh_addralign: 4,
    p_flags: PF_R + PF_X,
};

const POOL: Row = Row {
    sh_name: 7,
    sh_type: SHT_PROGBITS,
    sh_flags: SHF_ALLOC,
    sh_addr: POOL_ADDRESS,
    sh_link: 0,
    sh_info: 0,
    sh_addralign: 8,
    p_flags: PF_R,
};

const DATA: Row = Row {
    sh_name: 13,
    sh_type: SHT_PROGBITS,
    sh_flags: SHF_WRITE + SHF_ALLOC,
    sh_addr: DATA_ADDRESS,
    sh_link: 0,
    sh_info: 0,
    sh_addralign: 8,
    p_flags: PF_R + PF_W,
};

const GOSIG: Row = Row {
    sh_name: 19,
    sh_type: SHT_PROGBITS,
    sh_flags: 0,
    sh_addr: 0,
    sh_link: 0,
    sh_info: 0,
    sh_addralign: 4,
    p_flags: 0,
};

const SYMTAB: Row = Row {
    sh_name: 26,
    sh_type: SHT_SYMTAB,
    sh_flags: 0,
    sh_addr: 0,
    sh_link: 6,
    sh_info: 1,
    sh_addralign: 8,
    p_flags: 0,
};

const STRTAB: Row = Row {
    sh_name: 34,
    sh_type: SHT_STRTAB,
    sh_flags: 0,
    sh_addr: 0,
    sh_link: 0,
    sh_info: 0,
    sh_addralign: 1,
    p_flags: 0,
};

const SHSTRTAB: Row = Row {
    sh_name: 42,
    sh_type: SHT_STRTAB,
    sh_flags: 0,
    sh_addr: 0,
    sh_link: 0,
    sh_info: 0,
    sh_addralign: 1,
    p_flags: 0,
};

fn row_of(section: Section) -> Row
    ensures { result ≡ row_of section }
{
    match section {
        Section::Null => NULL,
        Section::Text => TEXT,
        Section::Pool => POOL,
        Section::Data => DATA,
        Section::Gosig => GOSIG,
        Section::Symtab => SYMTAB,
        Section::Strtab => STRTAB,
        Section::Shstrtab => SHSTRTAB,
    }
}

fn byte(number: u64) -> Field
    ensures { result ≡ field Byte number }
{
    Field {
        width: Width::Byte,
        number,
    }
}

fn half(number: u64) -> Field
    ensures { result ≡ field Half number }
{
    Field {
        width: Width::Half,
        number,
    }
}

fn word(number: u64) -> Field
    ensures { result ≡ field Word number }
{
    Field {
        width: Width::Word,
        number,
    }
}

/// What the files of a target have of their own, sizes in bytes.
#[derive(Clone, Copy)]
pub(crate) struct Class {
    ei_class: u64,
    e_machine: u64,
    e_flags: u64,
    /// How many bytes an address takes.
    pub(crate) address: Width,
    pub(crate) e_ehsize: usize,
    pub(crate) e_phentsize: usize,
    pub(crate) e_shentsize: usize,
    /// A symbol's size.
    pub(crate) st_entsize: usize,
    /// Where `e_shoff` stands in the header.
    pub(crate) e_shoff: usize,
    /// Where `sh_size` stands in a section header.
    pub(crate) sh_size: usize,
    /// Where these fields stand in a symbol, which `st_name` begins.
    pub(crate) st_info: usize,
    pub(crate) st_value: usize,
    pub(crate) st_size: usize,
}

const ARM: Class = Class {
    ei_class: ELFCLASS32,
    e_machine: EM_ARM,
    e_flags: EF_ARM_EABI_VER5,
    address: Width::Word,
    e_ehsize: 52,
    e_phentsize: 32,
    e_shentsize: 40,
    st_entsize: 16,
    e_shoff: 32,
    sh_size: 20,
    st_info: 12,
    st_value: 4,
    st_size: 8,
};

const RISCV64: Class = Class {
    ei_class: ELFCLASS64,
    e_machine: EM_RISCV,
    e_flags: 0,
    address: Width::Xword,
    e_ehsize: 64,
    e_phentsize: 56,
    e_shentsize: 64,
    st_entsize: 24,
    e_shoff: 40,
    sh_size: 32,
    st_info: 4,
    st_value: 8,
    st_size: 16,
};

impl Class {
    fn address(&self, number: u64) -> Field
        ensures { result ≡ field self.now.address number }
    {
        Field {
            width: self.address,
            number,
        }
    }
}

pub(crate) fn class_of(target: Target) -> Class
    ensures { result ≡ class_of target }
{
    match target {
        Target::Arm => ARM,
        Target::Riscv64 => RISCV64,
    }
}

/// The header after the magic bytes.
#[tactic(auto, unfolding(crate::specs::Tables::file_header))]
pub(crate) fn file_header(target: Target, offset: u64) -> [Field; 25]
    ensures { result ≡ file_header target offset }
{
    let class = class_of(target);
    let ei_class = byte(class.ei_class);
    let ei_data = byte(ELFDATA2LSB);
    let ei_version = byte(EV_CURRENT);
    let ei_pad = byte(0);
    let e_type = half(ET_EXEC);
    let e_machine = half(class.e_machine);
    let e_version = word(EV_CURRENT);
    let e_entry = class.address(0);
    let e_phoff = class.address(class.e_ehsize as u64);
    let e_shoff = class.address(offset);
    let e_flags = word(class.e_flags);
    let e_ehsize = half(class.e_ehsize as u64);
    let e_phentsize = half(class.e_phentsize as u64);
    let e_phnum = half(E_PHNUM);
    let e_shentsize = half(class.e_shentsize as u64);
    let e_shnum = half(E_SHNUM);
    let e_shstrndx = half(E_SHNUM - 1);
    [
        ei_class,
        ei_data,
        ei_version,
        ei_pad,
        ei_pad,
        ei_pad,
        ei_pad,
        ei_pad,
        ei_pad,
        ei_pad,
        ei_pad,
        ei_pad,
        e_type,
        e_machine,
        e_version,
        e_entry,
        e_phoff,
        e_shoff,
        e_flags,
        e_ehsize,
        e_phentsize,
        e_phnum,
        e_shentsize,
        e_shnum,
        e_shstrndx,
    ]
}

/// The program header of a section that is loaded.
#[tactic(auto, unfolding(crate::specs::Tables::program_header))]
pub(crate) fn program_header(target: Target, section: Section, offset: u64, size: u64) -> [Field; 8]
    ensures { result ≡ program_header target section offset size }
{
    let class = class_of(target);
    let row = row_of(section);
    let p_type = word(PT_LOAD);
    let p_flags = word(row.p_flags);
    let p_offset = class.address(offset);
    let p_vaddr = class.address(row.sh_addr);
    let p_paddr = class.address(row.sh_addr);
    let p_filesz = class.address(size);
    let p_memsz = class.address(size);
    let p_align = class.address(8);
    match target {
        Target::Arm => [
            p_type, p_offset, p_vaddr, p_paddr, p_filesz, p_memsz, p_flags, p_align,
        ],
        Target::Riscv64 => [
            p_type, p_flags, p_offset, p_vaddr, p_paddr, p_filesz, p_memsz, p_align,
        ],
    }
}

/// The section header of a section.
#[tactic(auto, unfolding(crate::specs::Tables::section_header))]
pub(crate) fn section_header(
    target: Target,
    section: Section,
    offset: u64,
    size: u64,
) -> [Field; 10]
    ensures { result ≡ section_header target section offset size }
{
    let class = class_of(target);
    let row = row_of(section);
    let entry = match section {
        Section::Symtab => class.st_entsize as u64,
        _ => 0,
    };
    let sh_name = word(row.sh_name);
    let sh_type = word(row.sh_type);
    let sh_flags = class.address(row.sh_flags);
    let sh_addr = class.address(row.sh_addr);
    let sh_offset = class.address(offset);
    let sh_size = class.address(size);
    let sh_link = word(row.sh_link);
    let sh_info = word(row.sh_info);
    let sh_addralign = class.address(row.sh_addralign);
    let sh_entsize = class.address(entry);
    [
        sh_name,
        sh_type,
        sh_flags,
        sh_addr,
        sh_offset,
        sh_size,
        sh_link,
        sh_info,
        sh_addralign,
        sh_entsize,
    ]
}

/// The symbol of a function or of a variable, whose name begins at `name` in its section.
#[tactic(auto, unfolding(crate::specs::Tables::symbol_entry))]
pub(crate) fn symbol_entry(
    target: Target,
    name: u64,
    func: bool,
    address: u64,
    size: u64,
) -> [Field; 6]
    ensures { result ≡ symbol_entry target name func address size }
{
    let class = class_of(target);
    let (info, section) = if func { (STT_FUNC, 1) } else { (STT_OBJECT, 3) };
    let st_name = word(name);
    let st_info = byte(info);
    let st_other = byte(0);
    let st_shndx = half(section);
    let st_value = class.address(address);
    let st_size = class.address(size);
    match target {
        Target::Arm => [st_name, st_value, st_size, st_info, st_other, st_shndx],
        Target::Riscv64 => [st_name, st_info, st_other, st_shndx, st_value, st_size],
    }
}
